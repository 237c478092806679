//! Who is found to be stuck.

ghost use Rattle.std.specs.Prelude.{◌≡◌, ℕ, IfOk, IsSomeAnd, IsTrue, List, true};
ghost use Rattle.rv_image_types.specs.declared.images.ImageParts.{ImageParts};
ghost use Rattle.mp_wait_laws.specs.Waits.{OnlyOf};
ghost use Rattle.cl_machine.specs.Cluster.{Cluster};
ghost use Rattle.cl_deadlock_laws.specs.Stuck.{AreStuck, SomeWaits, is_among};
ghost use Rattle.cl_deadlock.specs.Why.{AreRanks, IsStateOf};
ghost use Rattle.test_cluster.specs.Stuck.{HasEnded, WaitsForOne};

use cl_deadlock::{deadlock, is_stuck_beside, stuck};
use cl_replay::ClusterState;
use std::alloc::{AllocError, Global};

/// Where ranks are stuck together and a hart of theirs waits, a deadlock is told, and they are in it.
pub fn a_deadlock_is_told(
    alloc: Global,
    state: &ClusterState,
) -> Result<Option<Vec<u8>>, AllocError>
    ensures { (image : ImageParts) (cluster : Cluster) (ranks : List ℕ) → IsStateOf image state.now cluster
        → AreRanks ranks cluster → AreStuck ranks cluster → SomeWaits ranks cluster
        → IfOk result (λ found. IsSomeAnd found (λ told. OnlyOf (is_among told.items) (is_among ranks))) }
{
    deadlock(alloc, state)
}

/// One post of several holds a rank back, whichever it is, the last too.
pub fn one_post_of_several_is_enough(
    among: &[u8],
    state: &ClusterState,
    rank: u8,
) -> Result<bool, AllocError>
    ensures { (image : ImageParts) (cluster : Cluster) → IsStateOf image state.now cluster
        → WaitsForOne among.now cluster rank → IfOk result (λ stuck. stuck ≡ true) }
{
    is_stuck_beside(among, state, rank)
}

/// A rank all of whose harts are stopped is left out by none, also where another rank can go on.
pub fn who_has_ended_is_not_left_out(
    alloc: Global,
    state: &ClusterState,
) -> Result<Vec<u8>, AllocError>
    ensures { (image : ImageParts) (cluster : Cluster) (rank : ℕ) → IsStateOf image state.now cluster
        → HasEnded cluster rank → IfOk result (λ ranks. IsTrue (is_among ranks.items rank)) }
{
    stuck(alloc, state)
}
