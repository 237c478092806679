//! What is answered of replays.

ghost use Rattle.std.specs.Prelude.{◌≡◌, ℕ, Err, IfOk, length};
ghost use Rattle.cl_machine.specs.Cluster.{loaded_cluster};
ghost use Rattle.cl_replay.specs.InnerReplaying.{BreaksAt};
ghost use Rattle.cl_replay.specs.States.{ClusterStandsFor};
ghost use Rattle.cl_replay.specs.declared.replaying.ReplayFault.TheVariants as fault;

use cl_machine::Step;
use cl_replay::{ClusterState, ReplayFault, replay};
use rv_image_types::Image;
use std::alloc::Global;

/// The end of the list isn't past it: all steps may be replayed.
pub fn all_steps_are_not_past_the_end(
    alloc: Global,
    image: &Image,
    steps: &[Step],
) -> Result<ClusterState, ReplayFault>
    ensures { (len : ℕ) → ¬ (result ≡ Err (fault.PastEnd len)) }
{
    replay(alloc, image, steps, steps.len() as u64)
}

/// No steps lead to the loaded cluster, whatever steps follow.
pub fn no_steps_leave_the_loaded_cluster(
    alloc: Global,
    image: &Image,
    steps: &[Step],
) -> Result<ClusterState, ReplayFault>
    ensures { IfOk result (λ state. ClusterStandsFor image.now state (loaded_cluster image.now)) }
{
    replay(alloc, image, steps, 0)
}

/// Where a step breaks the run, no other place is told.
pub fn the_broken_step_is_told(
    alloc: Global,
    image: &Image,
    steps: &[Step],
    n: u64,
) -> Result<ClusterState, ReplayFault>
    ensures { (k told : ℕ) → BreaksAt image.now steps.now k → result ≡ Err (fault.Step told) → told ≡ k }
{
    replay(alloc, image, steps, n)
}
