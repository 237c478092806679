//! What is seen of a step, and its line.

ghost use Rattle.std.specs.Prelude.{◌≡◌, ◌++◌, ◌<◌, ◌≤◌, drop, IfOk, OnOk, vec_len};
ghost use Rattle.cl_calls.specs.Calls.{call_named};
ghost use Rattle.cl_machine.specs.SameSteps.{kind_seen};
ghost use Rattle.cl_state.specs.Asked.{asked};
ghost use Rattle.cl_state.specs.Room.{rank_of};
ghost use Rattle.rvmc_sights.specs.Lines.{box_in as box_in_ask, box_met as box_asked, called_text, deed_text, done_text};
ghost use Rattle.rvmc_sights.specs.Lines.{hart_of, head_text, made_call_text, refused_text, sight_text};
ghost use Rattle.rvmc_sights.specs.Seen.{IsAfter, IsSeenAfter, IsSeenBefore, seen};

use crate::arguments::put_arguments;
use crate::gave::{BoxNumber, is_refused, put_box, put_end, put_kind};
use crate::instructions::put_instruction;
use crate::rows::{write_decimal, write_word};
use cl_calls::{Call, call_name, called_number};
use cl_machine::{KindRef, Step};
use cl_state::{Ask, RankState};
use cl_trace::Bare;
use rv_decode::Reg;
use rv_hart::Hart;
use rv_image_types::Symbol;
use rvmc_inspect::ClusterState;
use rvmc_places::{has_overflowed, put_place};
use rvmc_stats::code_name;
use std::alloc::AllocError;
use std::io;
use std::io::Write;

/// What is seen of a step before it is done: its hart, the word at the hart's pc, and the box that it asks.
#[derive(Clone, Copy, Drop)]
pub struct Seen {
    pub hart: Hart,
    pub word: Option<u32>,
    pub asks: Option<BoxNumber>,
}

/// What is seen of a step after it is done: its hart, and whether that has trapped because its stack is full.
#[derive(Clone, Copy, Drop)]
pub struct After {
    pub hart: Hart,
    pub overflow: bool,
}

/// The box that is asked.
pub fn box_in(ask: &Ask) -> Option<BoxNumber>
    ensures { result ≡ box_in_ask ask.now }
{
    match ask {
        Ask::Ready { link, part, .. } => Some((*link, *part)),
        Ask::Look { link, part } => Some((*link, *part)),
        Ask::Freed { link, part } => Some((*link, *part)),
        Ask::Plain | Ask::Local | Ask::Hub(_) | Ask::Held | Ask::Idle => None,
    }
}

/// The box that a step asks, if it is of a kind that asks one.
fn box_of(own: &RankState, step: &Step) -> Result<Option<BoxNumber>, AllocError>
    requires { step.now.hart < vec_len own.now.harts }
    ensures { IfOk result (λ number.
        number ≡ box_asked step.now.kind (asked (rank_of own.now) step.now.hart)) }
{
    match step.kind() {
        KindRef::Bare(kind) => match kind {
            Bare::Ready | Bare::Take | Bare::Miss | Bare::Freed => {
                let ask = own.ask(step.hart())?;
                Ok(box_in(&ask))
            }
            Bare::Plain | Bare::Local | Bare::Held | Bare::Idle => Ok(None),
        },
        KindRef::Hub(_) => Ok(None),
    }
}

/// What is seen of a step before it is done. None where its rank hasn't that hart.
pub fn look(own: &RankState, step: &Step) -> Result<Option<Seen>, AllocError>
    ensures { IfOk result (λ seen. IsSeenBefore step.now (rank_of own.now) seen) }
{
    let Some(hart) = own.harts.get(usize::from(step.hart())) else {
        return Ok(None);
    };
    Ok(Some(Seen {
        hart: *hart,
        word: own.memory.text_word(hart.pc()),
        asks: box_of(own, step)?,
    }))
}

/// What is seen of a step after it is done, which has left this of its rank.
fn seen_in(own: &RankState, step: &Step) -> Option<After>
    ensures { IsSeenAfter step.now (rank_of own.now) result }
{
    let hart = own.harts.get(usize::from(step.hart()))?;
    Some(After {
        hart: *hart,
        overflow: has_overflowed(&own.memory, hart),
    })
}

/// What is seen of a step after it is done, which has led to this state.
pub fn look_again(state: &ClusterState, step: &Step) -> Option<After>
    ensures { IsAfter state.now step.now result }
{
    let own = state.ranks.get(usize::from(step.rank()))?;
    seen_in(own, step)
}

/// Writes where a step stands, and whose it is, and says where that begins.
fn write_head(place: u64, step: &Step, row: &mut [u8; 104]) -> usize
    ensures within { result ≤ 104 }
    ensures written { drop result row.new ≡ head_text place step.now }
{
    let at = write_word(b" at ", row, 104);
    let at = write_decimal(step.stamp(), row, at);
    let at = write_word(b" stamp ", row, at);
    let at = write_decimal(u64::from(step.hart()), row, at);
    let at = write_word(b" hart ", row, at);
    let at = write_decimal(u64::from(step.rank()), row, at);
    let at = write_word(b" rank ", row, at);
    write_decimal(place, row, at)
}

/// Adds where a step stands, and whose it is.
pub fn put_head(text: &mut Vec<u8>, place: u64, step: &Step) -> io::Result<()>
    ensures { OnOk result (text.new.items ≡ text.old.items ++ head_text place step.now) }
{
    let mut row = [0; 104];
    let at = write_head(place, step, &mut row);
    text.extend_from_slice(&row[at..])?;
    Ok(())
}

/// Adds what stands behind the name of a refused call.
fn put_refused(text: &mut Vec<u8>, call: &Call, after: &Hart) -> io::Result<()>
    ensures { OnOk result (text.new.items ≡ text.old.items ++ refused_text call.now after.now) }
{
    text.extend_from_slice(b" refused: ")?;
    text.extend_from_slice(code_name(after.get(Reg::new(10))).as_bytes())?;
    put_arguments(text, call)
}

/// Adds what stands behind the name of a call that wasn't refused: its arguments, and what it gave.
fn put_done(
    text: &mut Vec<u8>,
    call: &Call,
    step: &Step,
    before: &Seen,
    after: &After,
) -> io::Result<()>
    ensures { OnOk result (text.new.items ≡ text.old.items ++ done_text call.now (seen 0 step.now before.now after.now)) }
{
    put_arguments(text, call)?;
    put_box(text, before.asks)?;
    put_kind(text, step.kind())?;
    put_end(text, call, &after.hart)
}

/// Adds what stands behind the name of a call.
fn put_called(text: &mut Vec<u8>, step: &Step, before: &Seen, after: &After) -> io::Result<()>
    ensures { OnOk result (text.new.items
        ≡ text.old.items ++ called_text (call_named before.now.hart) (seen 0 step.now before.now after.now)) }
{
    let call = Call::of(&before.hart);
    if is_refused(&after.hart) {
        put_refused(text, &call, &after.hart)
    } else {
        put_done(text, &call, step, before, after)
    }
}

/// Adds a call.
fn put_call(text: &mut Vec<u8>, step: &Step, before: &Seen, after: &After) -> io::Result<()>
    ensures { OnOk result (text.new.items
        ≡ text.old.items ++ made_call_text (seen 0 step.now before.now after.now)) }
{
    text.extend_from_slice(call_name(called_number(&before.hart)).as_bytes())?;
    put_called(text, step, before, after)
}

/// Adds what a step did.
fn put_deed(text: &mut Vec<u8>, step: &Step, before: &Seen, after: &After) -> io::Result<()>
    ensures { OnOk result (text.new.items
        ≡ text.old.items ++ deed_text step.now.kind (seen 0 step.now before.now after.now)) }
{
    match step.kind() {
        KindRef::Bare(Bare::Plain) => put_instruction(
            text,
            before.word,
            &before.hart,
            &after.hart,
            after.overflow,
        ),
        KindRef::Bare(Bare::Idle) => {
            text.extend_from_slice(b"stopped")?;
            Ok(())
        }
        _ => put_call(text, step, before, after),
    }
}

/// Adds the line of a step, without a newline.
#[tactic(auto, unfolding(crate::specs::Lines::sight_text))]
pub fn put_sight(
    text: &mut Vec<u8>,
    symbols: &[Symbol],
    place: u64,
    step: &Step,
    before: &Seen,
    after: &After,
) -> io::Result<()>
    ensures { OnOk result (text.new.items
        ≡ text.old.items ++ sight_text symbols.now (seen place step.now before.now after.now)) }
{
    put_head(text, place, step)?;
    put_place(text, symbols, before.hart.pc())?;
    text.extend_from_slice(b": ")?;
    put_deed(text, step, before, after)
}
