//! Ranks that are stuck.

ghost use Rattle.std.specs.Prelude.{◌≡◌, ◌<◌, ℕ, IfOk, None, OnErr, Some, false, length, slice_index, true};
ghost use Rattle.std.specs.List.Sorted.{IsStrictlyIncreasing};
ghost use Rattle.cl_state.specs.Rank.{below};
ghost use Rattle.cl_deadlock.specs.Stuck.{AreStuckIn, HasStuckIn, IsDeadlockIn, IsFreeIn, IsStuckIn, TakesMemory};
ghost use Rattle.cl_deadlock.specs.Why.{AreBelow};

use crate::harts::is_held;
use cl_replay::ClusterState;
use std::alloc::{AllocError, Global};

/// Whether each hart of the rank is stopped, or waits in vain: what it asks for isn't there, and could come from these
/// ranks alone. The only error is want of memory, for the posts of a WAITALL of the rank's.
pub fn is_stuck_beside(among: &[u8], state: &ClusterState, rank: u8) -> Result<bool, AllocError>
    ensures stuck { IfOk result (λ stuck. stuck ≡ true → IsStuckIn among.now state.now rank) }
    ensures free { IfOk result (λ stuck. stuck ≡ false → IsFreeIn among.now state.now rank) }
    ensures memory { OnErr result (TakesMemory state.now rank) }
{
    let place = usize::from(rank);
    if place >= state.ranks.len() {
        return Ok(true);
    }
    let own = &state.ranks[place];
    let count = own.harts.len();
    // an image gives a rank at most 4 harts
    if count > 255 {
        return Ok(false);
    }
    for number in 0..count {
        if !is_held(among, state, rank, own, number as u8)? {
            return Ok(false);
        }
    }
    Ok(true)
}

/// The place of the first of these that isn't stuck beside them all, if there is one.
fn free_place(among: &[u8], state: &ClusterState) -> Result<Option<usize>, AllocError>
    ensures within { IfOk result (λ found. (place : ℕ) → found ≡ Some place → place < length among.now) }
    ensures none { IfOk result (λ found. found ≡ None → AreStuckIn among.now state.now) }
    ensures free { IfOk result (λ found. (place : ℕ) → found ≡ Some place
        → IsFreeIn among.now state.now (slice_index among.now place)) }
{
    for place in 0..among.len() {
        if !is_stuck_beside(among, state, among[place])? {
            return Ok(Some(place));
        }
    }
    Ok(None)
}

/// So many ranks, from 0 on.
fn first_ranks(alloc: Global, count: u8) -> Result<Vec<u8>, AllocError>
    ensures { IfOk result (λ ranks. ranks.items ≡ below count) }
{
    let mut ranks = Vec::new(alloc);
    for rank in 0..count {
        ranks.push(rank)?;
    }
    Ok(ranks)
}

/// The most ranks that are stuck together, in rising order: of all ranks, whoever isn't stuck beside the rest is left
/// out, until nobody is. Those that have ended are among them. Where the state was reached from an image, and a hart of
/// theirs waits, they are in a deadlock. The only error is want of memory.
pub fn stuck(alloc: Global, state: &ClusterState) -> Result<Vec<u8>, AllocError>
    ensures ranks { IfOk result (λ ranks. AreBelow ranks.items (length state.now.ranks.items)) }
    ensures rising { IfOk result (λ ranks. IsStrictlyIncreasing ranks.items) }
    ensures stuck { IfOk result (λ ranks. AreStuckIn ranks.items state.now) }
    ensures most { IfOk result (λ ranks. HasStuckIn ranks.items state.now) }
    ensures deadlock { IfOk result (λ ranks. IsDeadlockIn ranks.items state.now) }
{
    let count = state.ranks.len();
    // an image has at most 8 ranks
    if count > 255 {
        return Ok(Vec::new(alloc));
    }
    let mut among = first_ranks(alloc, count as u8)?;
    'rest: loop {
        match free_place(among.as_slice(), state)? {
            None => return Ok(among),
            Some(place) => {
                among.remove(place);
            }
        }
    }
}
