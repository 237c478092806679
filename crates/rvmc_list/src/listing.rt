//! The text of a record.

ghost use Rattle.std.specs.Prelude.{◌≡◌, ◌+◌, ◌-◌, ◌<◌, ◌≤◌, ◌^◌, IfErr, IfOk, OnOk, length, max, true};
ghost use Rattle.cl_replay.specs.InnerReplaying.{ReplayFaultHolds, StepBreaks};
ghost use Rattle.cl_replay.specs.Steps.{Leads};
ghost use Rattle.cl_replay.specs.declared.replaying.ReplayFault.TheVariants.{Memory};
ghost use Rattle.rvmc_list.specs.Folding.{is_wanted as is_wanted_of};
ghost use Rattle.rvmc_list.specs.Keeping.{AreKept};
ghost use Rattle.rvmc_list.specs.List.{ListFaultHolds};
ghost use Rattle.rvmc_list.specs.Meeting.{IsCountedTo};
ghost use Rattle.rvmc_list.specs.Pieces.{IsWithin};
ghost use Rattle.rvmc_list.specs.Putting.{Puts};
ghost use Rattle.rvmc_list.specs.Written.{IsBegun, IsChecked, IsWritten, Leaves};
ghost use Rattle.rvmc_sights.specs.Pieces.{IsMoved};

use crate::folding::{Told, Wanted, close, is_wanted, put_line};
use crate::kept::Texts;
use crate::phases::{Phases, meet};
use crate::plain::{is_plain, put_plain_line};
use crate::walk::{ListFault, checked, do_step};
use cl_machine::Step;
use cl_replay::{ClusterState, ReplayFault, replay};
use rv_image_types::{Image, Symbol};
use rvmc_sights::put_piece;
use std::alloc::Global;
use std::io::Write;

/// A step that is to be done: its place, and the phase of the box that it asks.
#[derive(Clone, Copy, Drop)]
pub(crate) struct Due<'a> {
    pub(crate) place: u64,
    pub(crate) step: &'a Step,
    pub(crate) phase: Option<u64>,
}

/// Does a step that is wanted, and adds it to what is told. It is a function of its own, so that what it keeps of the
/// step's hart isn't paid for by steps that do an instruction.
#[inline(never)]
fn put_seen(
    state: &mut ClusterState,
    text: &mut Vec<u8>,
    symbols: &[Symbol],
    wanted: &Wanted,
    begun: Option<u64>,
    due: &Due<'_>,
) -> Result<Option<u64>, ReplayFault>
    requires fits { due.now.place < 2 ^ 64 - 1 }
    requires within { IsWithin due.now.place begun }
    requires told { is_wanted_of wanted.now due.now.step.now ≡ true }
    ensures leads { OnOk result (Leads state.old due.now.step.now state.new) }
    ensures puts { IfOk result (Puts symbols.now wanted.now state.old due.now.place due.now.phase due.now.step.now
        state.new text.old.items begun text.new.items) }
    ensures within { IfOk result (λ next. IsWithin (due.now.place + 1) next) }
    ensures fault { IfErr result (StepBreaks state.old due.now.place due.now.step.now) }
{
    let Due { place, step, phase } = *due;
    let Some(done) = do_step(state, place, step)? else {
        return Ok(begun);
    };
    let told = Told {
        place,
        step,
        before: &done.before,
        after: &done.after,
        phase,
    };
    Ok(put_line(text, symbols, wanted, begun, &told)?)
}

/// Does a step, and adds it to what is told.
fn put_step(
    state: &mut ClusterState,
    text: &mut Vec<u8>,
    texts: &mut Texts,
    symbols: &[Symbol],
    wanted: &Wanted,
    begun: Option<u64>,
    due: &Due<'_>,
) -> Result<Option<u64>, ReplayFault>
    requires within { IsWithin due.now.place begun }
    requires fits { due.now.place < 2 ^ 64 - 1 }
    requires kept { AreKept symbols.now texts.old }
    ensures leads { OnOk result (Leads state.old due.now.step.now state.new) }
    ensures puts { IfOk result (Puts symbols.now wanted.now state.old due.now.place due.now.phase due.now.step.now
        state.new text.old.items begun text.new.items) }
    ensures within { IfOk result (λ next. IsWithin (due.now.place + 1) next) }
    ensures kept { OnOk result (AreKept symbols.now texts.new) }
    ensures fault { IfErr result (StepBreaks state.old due.now.place due.now.step.now) }
{
    if !is_wanted(wanted, due.step) {
        state.step_at(due.place, due.step)?;
        return Ok(begun);
    }
    if is_plain(due.step) {
        put_plain_line(state, text, texts, symbols, begun, due)?;
        return Ok(None);
    }
    put_seen(state, text, symbols, wanted, begun, due)
}

/// Writes what is told once it is a piece and no line is begun, and says whether the writer took it.
fn put_lines<W: Write>(text: &mut Vec<u8>, begun: Option<u64>, out: &mut W) -> bool
    ensures { result ≡ true → IsMoved text.old.items text.new.items (W.contents out.old) (W.contents out.new) }
{
    begun.is_some() || put_piece(text, out)
}

/// Does the steps from one place to another, writes what is told of them piece by piece, and says whether the writer took
/// all of it. After a refusal state and phases may be anything.
fn put_steps<W: Write>(
    state: &mut ClusterState,
    phases: &mut Phases,
    texts: &mut Texts,
    image: &Image,
    steps: &[Step],
    wanted: &Wanted,
    to: u64,
    out: &mut W,
) -> Result<bool, ReplayFault>
    requires counted { IsCountedTo image.now steps.now wanted.now.from state.old phases.old }
    requires checked { IsChecked image.now steps.now wanted.now to }
    requires within { max wanted.now.from to ≤ length steps.now }
    requires kept { AreKept image.now.symbols texts.old }
    ensures written { IfOk result (λ taken. taken ≡ true
        → IsWritten image.now steps.now wanted.now (W.contents out.old) (W.contents out.new)) }
    ensures fault { IfErr result (λ fault. fault ≡ Memory) }
    ensures begun { IfErr result (λ _. IsBegun image.now steps.now wanted.now (W.contents out.old) (W.contents out.new)) }
{
    let symbols = image.parts().symbols.as_slice();
    let mut text = Vec::new(texts.alloc);
    let mut begun = None;
    for n in wanted.from..to {
        let step = &steps[n as usize];
        let phase = meet(phases, state, step)?;
        let due = Due {
            place: n,
            step,
            phase,
        };
        begun = put_step(state, &mut text, texts, symbols, wanted, begun, &due)?;
        if !put_lines(&mut text, begun, out) {
            return Ok(false);
        }
    }
    close(&mut text, begun)?;
    Ok(out.write_all(text.as_slice()).is_ok())
}

/// Does the first steps, and counts the boxes that they ask. After a refusal state and phases may be anything.
fn meet_steps(
    state: &mut ClusterState,
    phases: &mut Phases,
    image: &Image,
    steps: &[Step],
    to: u64,
) -> Result<(), ReplayFault>
    requires counted { IsCountedTo image.now steps.now 0 state.old phases.old }
    requires within { to ≤ length steps.now }
    ensures counted { OnOk result (IsCountedTo image.now steps.now to state.new phases.new) }
    ensures fault { IfErr result (ReplayFaultHolds image.now steps.now to) }
{
    for n in 0..to {
        let step = &steps[n as usize];
        meet(phases, state, step)?;
        state.step_at(n, step)?;
    }
    Ok(())
}

/// Does all steps from the loaded cluster on, and writes what is told of those that are wanted. After a refusal state and
/// phases may be anything.
#[tactic(auto, using(crate::proofs::Told::list_fault))]
fn put_wanted<W: Write>(
    image: &Image,
    steps: &[Step],
    wanted: &Wanted,
    to: u64,
    state: &mut ClusterState,
    phases: &mut Phases,
    texts: &mut Texts,
    out: &mut W,
) -> Result<bool, ListFault>
    requires counted { IsCountedTo image.now steps.now 0 state.old phases.old }
    requires checked { IsChecked image.now steps.now wanted.now to }
    requires within { max wanted.now.from to ≤ length steps.now }
    requires kept { AreKept image.now.symbols texts.old }
    ensures list { IfOk result (λ taken. taken ≡ true
        → IsWritten image.now steps.now wanted.now (W.contents out.old) (W.contents out.new)) }
    ensures fault { IfErr result (ListFaultHolds image.now steps.now wanted.now) }
    ensures left { IfErr result (λ fault.
        Leaves image.now steps.now wanted.now fault (W.contents out.old) (W.contents out.new)) }
{
    meet_steps(state, phases, image, steps, wanted.from)?;
    let taken = put_steps(state, phases, texts, image, steps, wanted, to, out)?;
    Ok(taken)
}

/// Writes a record in words: a line for each of its steps that is wanted, in their order. Step n, from 0, leads from place
/// n to place n + 1, and its line has the place n. Says whether the writer took all of it.
///
/// The text is written in pieces of 65,536 bytes or some more, and never stands in memory as a whole. The steps are done
/// once before, so that nothing is written where they are no run.
///
/// Refusals, in this order: NoRank where the image hasn't the rank; PastEnd where a place is behind the last step;
/// Step where a step before the list's end is none of the machine; Memory, and then a beginning of the text may stand at
/// the writer.
#[tactic(auto, using(crate::proofs::Told::list_fault))]
pub fn list<W: Write>(
    alloc: Global,
    image: &Image,
    steps: &[Step],
    wanted: &Wanted,
    out: &mut W,
) -> Result<bool, ListFault>
    ensures list { IfOk result (λ taken. taken ≡ true
        → IsWritten image.now steps.now wanted.now (W.contents out.old) (W.contents out.new)) }
    ensures fault { IfErr result (ListFaultHolds image.now steps.now wanted.now) }
    ensures left { IfErr result (λ fault.
        Leaves image.now steps.now wanted.now fault (W.contents out.old) (W.contents out.new)) }
{
    let to = checked(alloc, image, steps, wanted)?;
    let mut phases = Phases::new(alloc, image)?;
    let mut texts = Texts::new(alloc)?;
    let mut state = replay(alloc, image, steps, 0)?;
    put_wanted(
        image,
        steps,
        wanted,
        to,
        &mut state,
        &mut phases,
        &mut texts,
        out,
    )
}
