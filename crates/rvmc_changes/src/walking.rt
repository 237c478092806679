//! The steps of a record, done one after another.

ghost use Rattle.std.specs.Prelude.{◌≡◌, ◌≤◌, ◌<◌, [], IfErr, IfOk, IfSome, OnOk, Some, length, map, slice_get};
ghost use Rattle.cl_replay.specs.InnerReplaying.{ReplayFaultHolds, StepBreaks};
ghost use Rattle.cl_replay.specs.Steps.{Leads};
ghost use Rattle.cl_state.specs.Room.{rank_of};
ghost use Rattle.cl_state.specs.declared.state.RankState.{RankState};
ghost use Rattle.cl_replay.specs.declared.replaying.ReplayFault.TheVariants as faults;
ghost use Rattle.rvmc_changes.specs.WalkFaults.{StepsBreak};
ghost use Rattle.rvmc_changes.specs.Given.{differences};
ghost use Rattle.rvmc_changes.specs.Walking.{Adds, Fits, GoesOn, HasCome, IsAdded, IsBefore, Makes};
ghost use Rattle.rvmc_changes.specs.Walks.{seen_at_start};

use crate::before::{Before, look_at};
use crate::making::change_of;
use crate::starts::start_of;
use crate::steps::Change;
use crate::walks::Walk;
use cl_machine::Step;
use cl_replay::{ClusterState, ReplayFault, replay};
use rv_image_types::Image;
use std::alloc::Global;

/// Adds what a step that was done changed, of which this was known before it.
fn put_behind(
    alloc: Global,
    changes: &mut Vec<Change>,
    state: &ClusterState,
    step: &Step,
    before: &Option<Before>,
) -> Result<(), ReplayFault>
    requires fits { IfSome before.now Fits }
    ensures adds { OnOk result ((s t : RankState) → IsBefore step.now (rank_of s) before.now
        → slice_get state.now.ranks.items step.now.rank ≡ Some t → step.now.hart < length s.harts.items
        → step.now.hart < length t.harts.items
        → IsAdded step.now (rank_of s) (rank_of t) changes.old.items changes.new.items) }
    ensures fault { IfErr result (λ fault. fault ≡ faults.Memory) }
{
    let Some(before) = before else {
        return Ok(());
    };
    let Some(change) = change_of(alloc, state, step, before)? else {
        return Ok(());
    };
    changes.push(change)?;
    Ok(())
}

/// Does a step, and adds what it changed.
fn put_change(
    alloc: Global,
    state: &mut ClusterState,
    changes: &mut Vec<Change>,
    place: u64,
    step: &Step,
) -> Result<(), ReplayFault>
    ensures leads { OnOk result (Leads state.old step.now state.new) }
    ensures adds { OnOk result (Adds state.old step.now state.new changes.old.items changes.new.items) }
    ensures fault { IfErr result (StepBreaks state.old place step.now) }
{
    let before = look_at(alloc, state, step)?;
    state.step_at(place, step)?;
    put_behind(alloc, changes, state, step, &before)
}

/// Adds the changes of the steps from one place to another, which are done. After a refusal the state may be anything.
fn put_changes(
    alloc: Global,
    state: &mut ClusterState,
    changes: &mut Vec<Change>,
    steps: &[Step],
    from: usize,
    to: usize,
) -> Result<(), ReplayFault>
    requires none { changes.old.items ≡ [] }
    requires order { from ≤ to }
    requires within { to ≤ length steps.now }
    ensures made { OnOk result (Makes steps.now from state.old to state.new changes.new.items) }
    ensures fault { IfErr result (StepsBreak steps.now from state.old to) }
{
    for n in from..to {
        put_change(alloc, state, changes, n as u64, &steps[n])?;
    }
    Ok(())
}

/// A walk that begins at a place of a record: what is seen there, and the cluster, from which `go_on` goes on.
///
/// Refusals, in this order: Step where a step before the place is none of the machine; Memory.
#[tactic(auto, using(crate::proofs::Walked::has_begun))]
pub fn begin(alloc: Global, image: &Image, steps: &[Step], place: u64) -> Result<Walk, ReplayFault>
    requires { place ≤ length steps.now }
    ensures begun { IfOk result (λ walk.
        HasCome image.now steps.now place place (seen_at_start walk.start.items) [] walk.state) }
    ensures fault { IfErr result (ReplayFaultHolds image.now steps.now place) }
{
    let state = replay(alloc, image, steps, place)?;
    let start = start_of(alloc, &state)?;
    Ok(Walk { start, state })
}

/// Does the steps from one place to another, and gives the change of each. So a long walk is made piece by piece.
///
/// Refusals, in this order: Step where one of these steps is none of the machine; Memory. The state may then be
/// anything.
#[tactic(auto, using(crate::proofs::Walked::goes_on))]
pub fn go_on(
    alloc: Global,
    state: &mut ClusterState,
    steps: &[Step],
    from: u64,
    to: u64,
) -> Result<Vec<Change>, ReplayFault>
    requires order { from ≤ to }
    requires within { to ≤ length steps.now }
    ensures on { IfOk result (λ changes. GoesOn steps.now from state.old to state.new (differences changes.items)) }
    ensures fault { IfErr result (StepsBreak steps.now from state.old to) }
{
    let mut changes = Vec::new(alloc);
    put_changes(
        alloc,
        state,
        &mut changes,
        steps,
        from as usize,
        to as usize,
    )?;
    Ok(changes)
}
