//! What a step of a cluster leaves.

ghost use Rattle.std.specs.Prelude.{ℕ, OnOk};
ghost use Rattle.rv_image_types.specs.declared.images.ImageParts.{ImageParts};
ghost use Rattle.cl_machine.specs.Cluster.{Cluster};
ghost use Rattle.cl_replay.specs.States.{ClusterStandsFor};
ghost use Rattle.test_cluster.specs.Taken.{IsVacant, TakesFrom};

use cl_machine::Step;
use cl_replay::{ClusterState, StepFault};

/// Behind a step that takes what stands in a box nothing stands there.
pub fn what_was_taken_is_gone(state: &mut ClusterState, step: &Step) -> Result<(), StepFault>
    ensures { (image : ImageParts) (cluster : Cluster) (link part : ℕ) → ClusterStandsFor image state.old cluster
        → TakesFrom image cluster step.now link part → OnOk result (IsVacant state.new.boxes.items link part) }
{
    state.step(step)
}
