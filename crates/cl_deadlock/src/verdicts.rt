//! Whether ranks of a state are in a deadlock.

ghost use Rattle.std.specs.Prelude.{◌≡◌, ◌↔◌, ℕ, IfOk, IsTrue, Some, slice_get, true};
ghost use Rattle.std.specs.Option.{option_map};
ghost use Rattle.rv_image_types.specs.declared.images.ImageParts.{ImageParts};
ghost use Rattle.cl_state.specs.Rank.{Rank};
ghost use Rattle.cl_state.specs.Room.{rank_of};
ghost use Rattle.cl_state_laws.specs.Vain.{IsWaiting, mode_of};
ghost use Rattle.cl_replay.specs.Below.{Cluster};
ghost use Rattle.cl_replay.specs.States.{ClusterStandsFor};
ghost use Rattle.cl_deadlock_laws.specs.Stuck.{SomeWaits};
ghost use Rattle.cl_deadlock.specs.Why.{IsDeadlockVerdict};

use crate::companies::stuck;
use crate::harts::is_waiting;
use cl_replay::ClusterState;
use cl_state::RankState;
use std::alloc::{AllocError, Global};

/// Whether a hart of the rank waits.
fn has_waiting(own: &RankState) -> bool
    ensures { (result ≡ true) ↔ ((hart : ℕ) × IsWaiting (mode_of (rank_of own.now) hart)) }
{
    for number in 0..own.harts.len() {
        if is_waiting(own.harts[number].mode()) {
            return true;
        }
    }
    false
}

/// Whether there is this rank, and a hart of it waits.
fn waits(state: &ClusterState, rank: u8) -> bool
    ensures { (image : ImageParts) (cluster : Cluster) → ClusterStandsFor image state.now cluster
        → ((result ≡ true) ↔ ((own : Rank) × (hart : ℕ)
        × (slice_get cluster.ranks rank ≡ Some own) × IsWaiting (mode_of own hart))) }
{
    let place = usize::from(rank);
    if place >= state.ranks.len() {
        return false;
    }
    let own = &state.ranks[place];
    has_waiting(own)
}

/// Whether a hart of these ranks waits.
fn some_waits(among: &[u8], state: &ClusterState) -> bool
    ensures { (image : ImageParts) (cluster : Cluster) → ClusterStandsFor image state.now cluster
        → ((result ≡ true) ↔ SomeWaits among.now cluster) }
{
    for place in 0..among.len() {
        if waits(state, among[place]) {
            return true;
        }
    }
    false
}

/// The ranks of a deadlock, in rising order: the most that are stuck together, where a hart of theirs waits. Those that
/// have ended are among them. None where of no ranks that are stuck together a hart waits. The only error is want of
/// memory.
pub fn deadlock(alloc: Global, state: &ClusterState) -> Result<Option<Vec<u8>>, AllocError>
    ensures { IfOk result (λ found. IsDeadlockVerdict state.now (option_map (λ ranks. ranks.items) found)) }
{
    let ranks = stuck(alloc, state)?;
    if some_waits(ranks.as_slice(), state) {
        Ok(Some(ranks))
    } else {
        Ok(None)
    }
}
