//! Whether a run ended in a deadlock.

ghost use Rattle.std.specs.Prelude.{◌≡◌, ◌≢◌, ◌≤◌, ℕ, IfOk, false, length, true};
ghost use Rattle.std.specs.Option.{option_map};
ghost use Rattle.cl_deadlock_laws.specs.Stuck.{is_among as is_among_of};
ghost use Rattle.cl_ending.specs.DeadEnds.{HasAll, IsFreeEnd, IsNotStuckAt, IsStuckAt};
ghost use Rattle.cl_ending.specs.Judged.{HaveEnded, IsVerdictAt};
ghost use Rattle.cl_rank.specs.declared.stops.Stop.TheVariants as stops;
ghost use Rattle.cl_record.specs.Records.{IsMergedRun};
ghost use Rattle.cl_replay.specs.InnerReplaying.{BreaksAt};
ghost use Rattle.cl_replay.specs.Replaying.{IsReached};

use cl_deadlock::deadlock;
use cl_merge::merge;
use cl_rank::Stop;
use cl_record::Record;
use cl_replay::{ClusterState, ReplayFault, Step, replay};
use rv_image_types::Image;
use std::alloc::{AllocError, Global};

/// Whether the rank is one of these.
fn is_among(among: &[u8], rank: usize) -> bool
    ensures { result ≡ is_among_of among.now rank }
{
    among.iter().any(|other| usize::from(*other) == rank)
}

/// Whether all harts of a rank that stopped so are stopped.
fn is_ended(stop: Stop) -> bool
    ensures ended { result ≡ true → stop ≡ stops.AllEnded }
    ensures other { result ≡ false → stop ≢ stops.AllEnded }
{
    matches!(stop, Stop::AllEnded)
}

/// Whether each rank that didn't stop because all its harts are stopped is one of these.
fn has_all(among: &[u8], stops: &[Stop]) -> bool
    ensures all { result ≡ true → HasAll among.now stops.now }
    ensures other { result ≡ false → ¬ HasAll among.now stops.now }
{
    for rank in 0..stops.len() {
        if !is_ended(stops[rank]) && !is_among(among, rank) {
            return false;
        }
    }
    true
}

/// Whether each rank stopped because all its harts are stopped.
fn have_ended(stops: &[Stop]) -> bool
    ensures { result ≡ true → HaveEnded stops.now }
{
    for rank in 0..stops.len() {
        if !is_ended(stops[rank]) {
            return false;
        }
    }
    true
}

/// The state to which steps lead of which none is wrong. The only error is want of memory.
fn state_after(alloc: Global, image: &Image, steps: &[Step]) -> Result<ClusterState, AllocError>
    requires { (k : ℕ) → ¬ (BreaksAt image.now steps.now k) }
    ensures { IfOk result (IsReached image.now steps.now (length steps.now)) }
{
    match replay(alloc, image, steps, steps.len() as u64) {
        Ok(state) => Ok(state),
        Err(ReplayFault::Memory) => Err(AllocError),
        Err(ReplayFault::PastEnd(_)) => unreachable!(),
        Err(ReplayFault::Step(_)) => unreachable!(),
    }
}

/// The ranks of the deadlock to which the steps of a record lead, if they lead to one. The only error is want of memory.
fn dead_end(alloc: Global, image: &Image, left: &Record) -> Result<Option<Vec<u8>>, AllocError>
    requires merged { IsMergedRun image.now left.now }
    requires few { length left.now.traces.items ≤ 256 }
    ensures { IfOk result (λ found.
        IsVerdictAt image.now left.now (option_map (λ ranks. ranks.items) found)) }
{
    // ghost: brings into scope that the parts are those of an image; no effect at run time
    let _parts = image.parts();
    let steps = merge(alloc, left)?;
    let state = state_after(alloc, image, steps.as_slice())?;
    deadlock(alloc, &state)
}

/// Whether all ranks of a record that have a hart that isn't stopped are in a deadlock. The only error is want of memory.
pub(crate) fn is_stuck(alloc: Global, image: &Image, left: &Record) -> Result<bool, AllocError>
    requires merged { IsMergedRun image.now left.now }
    requires few { length left.now.traces.items ≤ 256 }
    ensures stuck { IfOk result (λ stuck. stuck ≡ true → IsStuckAt image.now left.now) }
    ensures other { IfOk result (λ stuck. stuck ≡ false → IsNotStuckAt image.now left.now) }
{
    match dead_end(alloc, image, left)? {
        None => Ok(false),
        Some(ranks) => Ok(has_all(ranks.as_slice(), left.stops.as_slice())),
    }
}

/// Whether all ranks of a record that its plans ended, and that have a hart that isn't stopped, are in a deadlock. Where all
/// have ended nothing is looked at. The only error is want of memory.
pub(crate) fn is_ended_stuck(
    alloc: Global,
    image: &Image,
    left: &Record,
) -> Result<bool, AllocError>
    requires merged { IsMergedRun image.now left.now }
    requires few { length left.now.traces.items ≤ 256 }
    ensures stuck { IfOk result (λ stuck. stuck ≡ true → IsStuckAt image.now left.now) }
    ensures free { IfOk result (λ stuck. stuck ≡ false → IsFreeEnd image.now left.now) }
{
    if have_ended(left.stops.as_slice()) {
        return Ok(false);
    }
    is_stuck(alloc, image, left)
}
