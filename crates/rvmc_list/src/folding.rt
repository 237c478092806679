//! Which steps are told, and their lines, of which looks in vain are folded.

ghost use Rattle.std.specs.Prelude.{◌≡◌, ◌+◌, ◌-◌, ◌++◌, ◌<◌, ◌^◌, IfOk, OnOk};
ghost use Rattle.cl_machine.specs.SameSteps.{kind_seen};
ghost use Rattle.rvmc_list.specs.Folding.{is_of_rank as is_of_rank_of, is_vain as is_vain_of, is_wanted as is_wanted_of};
ghost use Rattle.rvmc_list.specs.Folding.{scene_line};
ghost use Rattle.rvmc_list.specs.Phases.{scene_text};
ghost use Rattle.rvmc_sights.specs.Seen.{seen};
ghost use Rattle.rvmc_list.specs.Pieces.{IsWithin, closing, is_folded as is_folded_of, opened, piece};

use crate::phases::put_phase;
use cl_machine::{KindRef, Step};
use cl_trace::Bare;
use mp_types::Reply;
use rv_image_types::Symbol;
use rvmc_sights::{After, Seen, put_sight};
use std::io;
use std::io::Write;

/// Which steps of a record are listed, and how.
#[derive(Clone, Copy, Drop)]
pub struct Wanted {
    /// The first step, from 0.
    pub from: u64,
    /// The place behind the last step; all that follow where there is none.
    pub to: Option<u64>,
    /// The rank whose steps are listed; those of all ranks where there is none.
    pub rank: Option<u64>,
    /// No instructions, and looks in vain that follow one another in one line.
    pub calls: bool,
}

/// Whether the steps of a rank are wanted.
pub(crate) fn is_of_rank(wanted: Option<u64>, rank: u8) -> bool
    ensures { result ≡ is_of_rank_of wanted rank }
{
    match wanted {
        None => true,
        Some(wanted) => wanted == u64::from(rank),
    }
}

/// Whether a step is wanted.
pub(crate) fn is_wanted(wanted: &Wanted, step: &Step) -> bool
    ensures { result ≡ is_wanted_of wanted.now step.now }
{
    is_of_rank(wanted.rank, step.rank())
        && !(wanted.calls && matches!(step.kind(), KindRef::Bare(Bare::Plain)))
}

/// Whether a step is a turn that found nothing.
fn is_vain(kind: KindRef<'_>) -> bool
    ensures { result ≡ is_vain_of (kind_seen kind.entry) }
{
    match kind {
        KindRef::Hub(reply) => matches!(reply, Reply::NotYet),
        KindRef::Bare(kind) => match kind {
            Bare::Miss | Bare::Held | Bare::Idle => true,
            Bare::Plain | Bare::Local | Bare::Ready | Bare::Take | Bare::Freed => false,
        },
    }
}

/// Whether a step is folded into one of its kind that stands before it.
fn is_folded(wanted: &Wanted, step: &Step) -> bool
    ensures { result ≡ is_folded_of wanted.now step.now }
{
    wanted.calls && is_vain(step.kind())
}

/// Ends a line that more may have been folded into.
pub(crate) fn close(text: &mut Vec<u8>, begun: Option<u64>) -> io::Result<()>
    ensures { OnOk result (text.new.items ≡ text.old.items ++ closing begun) }
{
    let Some(more) = begun else {
        return Ok(());
    };
    if more != 0 {
        write!(text, " and {more} more looks in vain")?;
    }
    text.push(b'\n')?;
    Ok(())
}

/// A step that is told: where it stands, what was seen of it before and after it was done, and the phase of the box that it
/// asked.
#[derive(Clone, Copy, Drop)]
pub(crate) struct Told<'a> {
    pub(crate) place: u64,
    pub(crate) step: &'a Step,
    pub(crate) before: &'a Seen,
    pub(crate) after: &'a After,
    pub(crate) phase: Option<u64>,
}

/// Adds what a step did, without a newline.
fn put_scene(text: &mut Vec<u8>, symbols: &[Symbol], told: &Told<'_>) -> io::Result<()>
    ensures { OnOk result (text.new.items
        ≡ text.old.items
        ++ scene_text symbols.now
        (record {
          sight = seen told.now.place told.now.step.now told.now.before.now told.now.after.now;
          phase = told.now.phase;
        })) }
{
    let Told {
        place,
        step,
        before,
        after,
        phase,
    } = told;
    put_sight(text, symbols, *place, step, before, after)?;
    put_phase(text, *phase)
}

/// Adds a step to what is told, and says whether a line is begun behind it.
pub(crate) fn put_line(
    text: &mut Vec<u8>,
    symbols: &[Symbol],
    wanted: &Wanted,
    begun: Option<u64>,
    told: &Told<'_>,
) -> io::Result<Option<u64>>
    requires within { IsWithin told.now.place begun }
    requires fits { told.now.place < 2 ^ 64 - 1 }
    ensures text { OnOk result (text.new.items
        ≡ text.old.items
        ++ piece begun (is_folded_of wanted.now told.now.step.now)
        (scene_line symbols.now wanted.now
        (record {
          sight = seen told.now.place told.now.step.now told.now.before.now told.now.after.now;
          phase = told.now.phase;
        })).text) }
    ensures begun { IfOk result (λ next. next ≡ opened begun (is_folded_of wanted.now told.now.step.now)) }
    ensures within { IfOk result (λ next. IsWithin (told.now.place + 1) next) }
{
    if is_folded(wanted, told.step) {
        if let Some(more) = begun {
            return Ok(Some(more + 1));
        }
        put_scene(text, symbols, told)?;
        return Ok(Some(0));
    }
    close(text, begun)?;
    put_scene(text, symbols, told)?;
    text.push(b'\n')?;
    Ok(None)
}
