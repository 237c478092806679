//! The steps of a record, one after another.

ghost use Rattle.std.specs.Prelude.{◌≡◌, ◌<◌, ◌≤◌, ◌-◌, ◌^◌, IfErr, IfOk, OnOk, Some, length, slice_get, true, vec_len};
ghost use Rattle.cl_replay.specs.InnerReplaying.{ReplayFaultHolds, StepBreaks};
ghost use Rattle.cl_replay.specs.Steps.{Leads};
ghost use Rattle.cl_state.specs.Asked.{asked};
ghost use Rattle.cl_state.specs.Rank.{Rank};
ghost use Rattle.cl_state.specs.Room.{rank_of};
ghost use Rattle.cl_state.specs.declared.state.RankState.{RankState as RankStateOf};
ghost use Rattle.rvmc_draw.specs.Held.{is_marked_in};
ghost use Rattle.rvmc_picture.specs.Pictures.{scope_in};
ghost use Rattle.rvmc_sights.specs.Lines.{sight_text};
ghost use Rattle.rvmc_sights.specs.Seen.{after_of, seen};
ghost use Rattle.rvmc_picture.specs.Deeds.{ask_met};
ghost use Rattle.rvmc_picture.specs.Walking.{ArePut, IsBefore, IsLookedAt, IsPutAt, Puts};

use crate::deeds::deed_of;
use crate::notes::note_of;
use cl_machine::{KindRef, Step};
use cl_replay::{ClusterState, ReplayFault};
use cl_state::{Ask, RankState};
use cl_trace::Bare;
use rv_image_types::{Image, Symbol};
use rvmc_draw::{Deed, View, Walk};
use rvmc_sights::{After, Seen, look, look_again, put_sight};
use std::alloc::{AllocError, Global};
use std::io;

/// What is known of a step before it is done: what is seen of it, what its hart asks, and how many bytes its rank put out.
#[derive(Drop)]
pub(crate) struct Before {
    pub(crate) seen: Seen,
    pub(crate) ask: Ask,
    pub(crate) written: usize,
}

/// What a step's hart asks, where it is of a kind that asks for what is shown.
fn ask_of(own: &RankState, step: &Step) -> Result<Ask, AllocError>
    requires { step.now.hart < vec_len own.now.harts }
    ensures { IfOk result (λ ask. ask ≡ ask_met step.now.kind (asked (rank_of own.now) step.now.hart)) }
{
    match step.kind() {
        KindRef::Hub(_) => own.ask(step.hart()),
        KindRef::Bare(kind) => match kind {
            Bare::Ready | Bare::Take => own.ask(step.hart()),
            Bare::Plain | Bare::Local | Bare::Miss | Bare::Freed | Bare::Held | Bare::Idle => {
                Ok(Ask::Plain)
            }
        },
    }
}

/// What is known of a step of a rank before it is done. None where the rank hasn't that hart.
fn look_in(own: &RankState, step: &Step) -> Result<Option<Before>, AllocError>
    ensures { IfOk result (IsBefore step.now (rank_of own.now)) }
{
    if usize::from(step.hart()) >= own.harts.len() {
        return Ok(None);
    }
    let ask = ask_of(own, step)?;
    let Some(seen) = look(own, step)? else {
        return Ok(None);
    };
    Ok(Some(Before {
        seen,
        ask,
        written: own.out.len(),
    }))
}

/// What is known of a step before it is done.
fn look_at(state: &ClusterState, step: &Step) -> Result<Option<Before>, AllocError>
    ensures { IfOk result (IsLookedAt state.now step.now) }
{
    let Some(own) = state.ranks.get(usize::from(step.rank())) else {
        return Ok(None);
    };
    look_in(own, step)
}

/// What is told of a step, if it has a mark of its own.
fn tip_of(
    alloc: Global,
    walk: &Walk,
    deed: &Deed,
    symbols: &[Symbol],
    step: &Step,
    before: &Seen,
    after: &After,
) -> io::Result<Vec<u8>>
    ensures { IfOk result (λ tip. is_marked_in walk.now deed.now ≡ true
        → tip.items ≡ sight_text symbols.now (seen deed.now.spot.place step.now before.now after.now)) }
{
    let mut tip = Vec::new(alloc);
    if walk.is_marked(deed) {
        put_sight(&mut tip, symbols, deed.spot.place, step, before, after)?;
    }
    Ok(tip)
}

/// The bytes that a step's rank put out in it.
fn put_out<'a>(state: &'a ClusterState, step: &Step, written: usize) -> &'a [u8] {
    match state.ranks.get(usize::from(step.rank())) {
        None => &[],
        Some(own) => {
            let out = own.out.as_slice();
            if written <= out.len() {
                &out[written..]
            } else {
                &[]
            }
        }
    }
}

/// Adds what a step did that was done.
fn put_deed(
    alloc: Global,
    walk: &mut Walk,
    symbols: &[Symbol],
    place: u64,
    step: &Step,
    before: &Before,
    after: &After,
    out: &[u8],
) -> Result<(), ReplayFault>
    requires fits { walk.old.marks.count < 2 ^ 64 - 1 }
    ensures puts { OnOk result ((s t : Rank) → IsBefore step.now s (Some before.now) → after.now ≡ after_of step.now t
        → IsPutAt symbols.now place step.now s t walk.old walk.new) }
    ensures fault { IfErr result (λ fault. fault ≡ ReplayFault.Memory) }
{
    let next = walk.board.next();
    let deed = deed_of(
        alloc,
        place,
        step,
        &before.ask,
        &before.seen.hart,
        &after.hart,
        next,
    )?;
    let tip = tip_of(alloc, walk, &deed, symbols, step, &before.seen, after)?;
    let note = note_of(alloc, &deed, &before.seen.hart, after, out)?;
    walk.take(&deed, tip, note)?;
    Ok(())
}

/// Adds what a step did that was done, of which this was known before it.
fn put_behind(
    alloc: Global,
    walk: &mut Walk,
    symbols: &[Symbol],
    place: u64,
    step: &Step,
    state: &ClusterState,
    before: &Option<Before>,
) -> Result<(), ReplayFault>
    requires fits { walk.old.marks.count < 2 ^ 64 - 1 }
    ensures puts { OnOk result ((s t : RankStateOf) → IsBefore step.now (rank_of s) before.now
        → slice_get state.now.ranks.items step.now.rank ≡ Some t → step.now.hart < length s.harts.items
        → step.now.hart < length t.harts.items
        → IsPutAt symbols.now place step.now (rank_of s) (rank_of t) walk.old walk.new) }
    ensures fault { IfErr result (λ fault. fault ≡ ReplayFault.Memory) }
{
    let Some(before) = before else {
        return Ok(());
    };
    let Some(after) = look_again(state, step) else {
        return Ok(());
    };
    let out = put_out(state, step, before.written);
    put_deed(alloc, walk, symbols, place, step, before, &after, out)
}

/// Does a step, and adds what it did.
fn put_step(
    alloc: Global,
    state: &mut ClusterState,
    walk: &mut Walk,
    symbols: &[Symbol],
    place: u64,
    step: &Step,
) -> Result<(), ReplayFault>
    requires fits { walk.old.marks.count < 2 ^ 64 - 1 }
    ensures leads { OnOk result (Leads state.old step.now state.new) }
    ensures puts { OnOk result (Puts symbols.now state.old place step.now state.new walk.old walk.new) }
    ensures fault { IfErr result (StepBreaks state.old place step.now) }
{
    let before = look_at(state, step)?;
    state.step_at(place, step)?;
    put_behind(alloc, walk, symbols, place, step, state, &before)
}

/// Does the steps from one place to another, and adds what they did. After a refusal state and walk may be anything.
pub(crate) fn put_steps(
    alloc: Global,
    state: &mut ClusterState,
    walk: &mut Walk,
    image: &Image,
    steps: &[Step],
    view: View,
    from: usize,
    to: usize,
) -> Result<(), ReplayFault>
    requires put { ArePut image.now steps.now (scope_in image.now view) from state.old walk.old }
    requires order { from ≤ to }
    requires within { to ≤ length steps.now }
    ensures put { OnOk result (ArePut image.now steps.now (scope_in image.now view) to state.new walk.new) }
    ensures fault { IfErr result (ReplayFaultHolds image.now steps.now (length steps.now)) }
{
    let _shown = view;
    let symbols = image.parts().symbols.as_slice();
    for n in from..to {
        put_step(alloc, state, walk, symbols, n as u64, &steps[n])?;
    }
    Ok(())
}
