//! A list of steps, replayed.

ghost use Rattle.std.specs.Prelude.{◌≡◌, ◌↔◌, ◌<◌, ◌≤◌, length, Err, IfErr, IfOk, OnOk};
ghost use Rattle.cl_replay.specs.Replaying.{IsReached};
ghost use Rattle.cl_replay.specs.InnerReplaying.{ReplayFaultHolds};
ghost use Rattle.cl_replay.specs.declared.replaying.ReplayFault.TheVariants as faults;

use crate::faults::WalkFault;
use crate::states::ClusterState;
use cl_machine::Step;
use rv_image_types::Image;
use std::alloc::{AllocError, AllocFailed, Global};
use std::io;

/// Why steps weren't replayed.
#[derive(Clone, Copy, Drop)]
pub enum ReplayFault {
    /// 1: there are fewer steps than were to be replayed: so many.
    PastEnd(u64),
    /// 2: the machine has no such step where the steps before it lead. Carries its place, from 0.
    Step(u64),
    /// 3: memory was refused, for the loaded cluster or for what a step makes.
    Memory,
}

impl From<AllocError> for ReplayFault {
    ghost from_gives = { λ _ fault. fault ≡ faults.Memory };

    fn from(_e: AllocError) -> ReplayFault {
        ReplayFault::Memory
    }
}

impl<T: Drop> From<AllocFailed<T>> for ReplayFault {
    ghost from_gives = { λ _ fault. fault ≡ faults.Memory };

    fn from(_e: AllocFailed<T>) -> ReplayFault {
        ReplayFault::Memory
    }
}

/// What is told of the steps is a text in memory, of which no write fails but for want of it.
impl From<io::Error> for ReplayFault {
    ghost from_gives = { λ _ fault. fault ≡ faults.Memory };

    fn from(_e: io::Error) -> ReplayFault {
        ReplayFault::Memory
    }
}

/// The cluster of the image after the first n of these steps.
pub fn replay(
    alloc: Global,
    image: &Image,
    steps: &[Step],
    n: u64,
) -> Result<ClusterState, ReplayFault>
    ensures reached { IfOk result (IsReached image.now steps.now n) }
    ensures within { OnOk result (n ≤ length steps.now) }
    ensures past { (result ≡ Err (ReplayFault.PastEnd (length steps.now))) ↔ (length steps.now < n) }
    ensures fault { IfErr result (ReplayFaultHolds image.now steps.now n) }
{
    let len = steps.len() as u64;
    if n > len {
        return Err(ReplayFault::PastEnd(len));
    }
    let Ok(mut state) = ClusterState::load(alloc, image) else {
        return Err(ReplayFault::Memory);
    };
    match state.walk(steps, 0, n as usize) {
        Ok(()) => Ok(state),
        Err(WalkFault::Step(k)) => Err(ReplayFault::Step(k)),
        Err(WalkFault::Memory) => Err(ReplayFault::Memory),
    }
}
