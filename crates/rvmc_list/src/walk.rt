//! The steps of a record, done one after another.

ghost use Rattle.std.specs.Prelude.{◌≡◌, ◌≤◌, IfErr, IfOk, OnOk, false, length, max};
ghost use Rattle.std.specs.Option.{option_copied};
ghost use Rattle.cl_replay.specs.InnerReplaying.{StepBreaks};
ghost use Rattle.cl_replay.specs.Steps.{Leads};
ghost use Rattle.cl_replay.specs.declared.replaying.ReplayFault.TheVariants as replay;
ghost use Rattle.rvmc_list.specs.List.{ListFaultHolds, replayed_to, last_place};
ghost use Rattle.rvmc_list.specs.List.{names_no_rank as names_no_rank_of};
ghost use Rattle.rvmc_list.specs.Putting.{IsDone, IsHartAfter, IsLook, IsOverflowAfter, IsStart};
ghost use Rattle.rvmc_list.specs.Written.{IsChecked};
ghost use Rattle.rvmc_list.specs.declared.walk.ListFault.TheVariants as faults;

use crate::folding::Wanted;
use cl_machine::Step;
use cl_replay::{ClusterState, ReplayFault, replay};
use rv_hart::Hart;
use rv_image_types::Image;
use rvmc_places::has_overflowed;
use rvmc_sights::{After, Seen, look, look_again};
use std::alloc::{AllocError, Global};
use std::io;

/// Why a record isn't listed.
#[derive(Clone, Copy, Drop)]
pub enum ListFault {
    /// 1: the image has no such rank.
    NoRank,
    /// 2: the steps aren't replayed up to where the list begins and ends.
    Replay(ReplayFault),
}

impl From<AllocError> for ListFault {
    ghost from_gives = { λ _ e. e ≡ faults.Replay replay.Memory };

    fn from(_e: AllocError) -> ListFault {
        ListFault::Replay(ReplayFault::Memory)
    }
}

impl From<io::Error> for ListFault {
    ghost from_gives = { λ _ e. e ≡ faults.Replay replay.Memory };

    fn from(_e: io::Error) -> ListFault {
        ListFault::Replay(ReplayFault::Memory)
    }
}

impl From<ReplayFault> for ListFault {
    ghost from_gives = { λ fault e. e ≡ faults.Replay fault };

    fn from(fault: ReplayFault) -> ListFault {
        ListFault::Replay(fault)
    }
}

/// What is seen of a step before it is done.
fn look_at(state: &ClusterState, step: &Step) -> Result<Option<Seen>, AllocError>
    ensures { IfOk result (λ seen. IsLook state.now step.now seen) }
{
    let Some(own) = state.ranks.get(usize::from(step.rank())) else {
        return Ok(None);
    };
    look(own, step)
}

/// A step's hart.
pub(crate) fn hart_after<'a>(state: &'a ClusterState, step: &Step) -> Option<&'a Hart>
    ensures { IsHartAfter state.now step.now (option_copied result) }
{
    let own = state.ranks.get(usize::from(step.rank()))?;
    own.harts.get(usize::from(step.hart()))
}

/// Whether a step's hart has trapped because its stack is full.
pub(crate) fn has_overflowed_after(state: &ClusterState, step: &Step) -> bool
    ensures { IsOverflowAfter state.now step.now result }
{
    let Some(own) = state.ranks.get(usize::from(step.rank())) else {
        return false;
    };
    match own.harts.get(usize::from(step.hart())) {
        None => false,
        Some(hart) => has_overflowed(&own.memory, hart),
    }
}

/// What was seen of a step that was done: before it, and after it.
#[derive(Clone, Copy, Drop)]
pub(crate) struct Done {
    pub(crate) before: Seen,
    pub(crate) after: After,
}

/// Does a step that stands at this place, and tells what was seen of it.
pub(crate) fn do_step(
    state: &mut ClusterState,
    place: u64,
    step: &Step,
) -> Result<Option<Done>, ReplayFault>
    ensures leads { OnOk result (Leads state.old step.now state.new) }
    ensures done { IfOk result (λ done. IsDone state.old step.now state.new done) }
    ensures fault { IfErr result (StepBreaks state.old place step.now) }
{
    let before = look_at(state, step)?;
    state.step_at(place, step)?;
    let Some(before) = before else {
        return Ok(None);
    };
    let Some(after) = look_again(state, step) else {
        return Ok(None);
    };
    Ok(Some(Done { before, after }))
}

/// Whether a rank that is wanted isn't one of the image's.
fn names_no_rank(rank: Option<u64>, ranks: u8) -> bool
    ensures { result ≡ names_no_rank_of rank ranks }
{
    match rank {
        None => false,
        Some(rank) => rank >= u64::from(ranks),
    }
}

/// The place where what is wanted ends.
///
/// Refusals, in this order: NoRank where the image hasn't the rank; PastEnd where what is wanted begins or ends behind the
/// last step.
fn end_of(image: &Image, steps: &[Step], wanted: &Wanted) -> Result<u64, ListFault>
    ensures end { IfOk result (λ to. to ≡ last_place wanted.now steps.now) }
    ensures rank { OnOk result (names_no_rank_of wanted.now.rank image.now.ranks ≡ false) }
    ensures within { OnOk result (replayed_to wanted.now steps.now ≤ length steps.now) }
    ensures fault { IfErr result (ListFaultHolds image.now steps.now wanted.now) }
{
    if names_no_rank(wanted.rank, image.parts().ranks) {
        return Err(ListFault::NoRank);
    }
    let len = steps.len() as u64;
    let to = wanted.to.unwrap_or(len);
    if wanted.from.max(to) > len {
        return Err(ListFault::Replay(ReplayFault::PastEnd(len)));
    }
    Ok(to)
}

/// The cluster at a place of a record, which isn't behind the first step that is wanted.
///
/// Refusals, in this order: NoRank where the image hasn't the rank; PastEnd where what is wanted begins or ends behind the
/// last step; Step where a step before the place is none of the machine; Memory.
#[tactic(auto, using(crate::proofs::Told::list_fault))]
pub(crate) fn start(
    alloc: Global,
    image: &Image,
    steps: &[Step],
    wanted: &Wanted,
    place: u64,
) -> Result<(ClusterState, u64), ListFault>
    requires { place ≤ wanted.now.from }
    ensures start { IfOk result (λ found. IsStart image.now steps.now wanted.now place found.0 found.1) }
    ensures fault { IfErr result (ListFaultHolds image.now steps.now wanted.now) }
{
    let to = end_of(image, steps, wanted)?;
    let state = replay(alloc, image, steps, place)?;
    Ok((state, to))
}

/// The place where what is wanted ends, of steps that are a run up to there, and up to where it begins: they are done once,
/// and nothing is kept of them.
///
/// Refusals, in this order: NoRank where the image hasn't the rank; PastEnd where what is wanted begins or ends behind the
/// last step; Step where a step before the list's end is none of the machine; Memory.
pub(crate) fn checked(
    alloc: Global,
    image: &Image,
    steps: &[Step],
    wanted: &Wanted,
) -> Result<u64, ListFault>
    ensures checked { IfOk result (IsChecked image.now steps.now wanted.now) }
    ensures within { IfOk result (λ to. max wanted.now.from to ≤ length steps.now) }
    ensures fault { IfErr result (ListFaultHolds image.now steps.now wanted.now) }
{
    let to = end_of(image, steps, wanted)?;
    match replay(alloc, image, steps, wanted.from.max(to)) {
        Ok(_) => Ok(to),
        Err(fault) => Err(ListFault::Replay(fault)),
    }
}
