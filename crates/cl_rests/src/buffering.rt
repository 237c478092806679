//! Ranks that need buffers.

ghost use Rattle.std.specs.Prelude.{◌≡◌, ◌<◌, ℕ, IfOk, None, Some, false, length, slice_index};
ghost use Rattle.std.specs.List.{list_all};
ghost use Rattle.std.specs.List.Sorted.{IsStrictlyIncreasing};
ghost use Rattle.std.specs.Option.{option_map};
ghost use Rattle.mp_hub.specs.Hub.{is_ready};
ghost use Rattle.cl_state.specs.Rank.{below};
ghost use Rattle.cl_deadlock.specs.Why.{AreBelow};
ghost use Rattle.cl_rests.specs.Held.{posts_asked as posts_asked_of};
ghost use Rattle.cl_rests.specs.Held.{AreHeldUpIn, HasHeldUpIn, TellsElseReady, TellsHeldUp, TellsMayGoOn, TellsRest};
ghost use Rattle.cl_rests.specs.Telling.{TellsNeed};

use crate::resting::rests_beside;
use cl_deadlock::is_stuck_beside;
use cl_moves::Standing;
use cl_state::Ask;
use mp_hub::HubState;
use mp_types::Request;
use std::alloc::{AllocError, Global};

/// Whether each hart of the rank is stopped, waits in vain for what these alone could bring, or rests until one of them
/// receives. The only error is want of memory, for the posts of a WAITALL of the rank's.
fn is_held_up(among: &[u8], standing: &Standing, rank: u8) -> Result<bool, AllocError>
    ensures { IfOk result (TellsHeldUp among.now standing.now rank) }
{
    if is_stuck_beside(among, &standing.cluster, rank)? {
        return Ok(true);
    }
    Ok(rests_beside(among, standing, rank))
}

/// The place of the first of these that isn't held up beside them all, if there is one.
fn free_place(among: &[u8], standing: &Standing) -> Result<Option<usize>, AllocError>
    ensures within { IfOk result (λ found. (place : ℕ) → found ≡ Some place → place < length among.now) }
    ensures none { IfOk result (λ found. found ≡ None → AreHeldUpIn among.now standing.now) }
    ensures free { IfOk result (λ found. (place : ℕ) → found ≡ Some place
        → TellsHeldUp among.now standing.now (slice_index among.now place) false) }
{
    for place in 0..among.len() {
        if !is_held_up(among, standing, among[place])? {
            return Ok(Some(place));
        }
    }
    Ok(None)
}

/// So many ranks, from 0 on.
fn first_ranks(alloc: Global, count: u8) -> Result<Vec<u8>, AllocError>
    ensures { IfOk result (λ ranks. ranks.items ≡ below count) }
{
    let mut ranks = Vec::new(alloc);
    for rank in 0..count {
        ranks.push(rank)?;
    }
    Ok(ranks)
}

/// The most ranks that are held up together, in rising order: of all ranks, whoever isn't held up beside the rest is left out,
/// until nobody is. The only error is want of memory.
fn held_up(alloc: Global, standing: &Standing) -> Result<Vec<u8>, AllocError>
    ensures ranks { IfOk result (λ ranks. AreBelow ranks.items (length standing.now.cluster.ranks.items)) }
    ensures rising { IfOk result (λ ranks. IsStrictlyIncreasing ranks.items) }
    ensures held { IfOk result (λ ranks. AreHeldUpIn ranks.items standing.now) }
    ensures most { IfOk result (λ ranks. HasHeldUpIn ranks.items standing.now) }
{
    let count = standing.cluster.ranks.len();
    // an image has at most 8 ranks
    if count > 255 {
        return Ok(Vec::new(alloc));
    }
    let mut among = first_ranks(alloc, count as u8)?;
    'rest: loop {
        match free_place(among.as_slice(), standing)? {
            None => return Ok(among),
            Some(place) => {
                among.remove(place);
            }
        }
    }
}

/// Whether all these posts of the rank are ready.
fn are_ready(hub: &HubState, rank: u8, posts: &[u64]) -> bool
    ensures { result ≡ list_all (λ post. is_ready hub.now rank post) posts.now }
{
    posts.iter().all(|post| hub.is_ready(rank, *post))
}

/// The posts that are asked for together, or none if something else is asked.
fn posts_asked(ask: &Ask) -> &[u64]
    ensures { result.now ≡ posts_asked_of ask.now }
{
    match ask {
        Ask::Hub(request) => match request {
            Request::All { posts } => posts.as_slice(),
            _ => &[],
        },
        _ => &[],
    }
}

/// Whether each other request of the WAITALL that the rank's first hart is about to make can complete, if it is about to make one.
/// The only error is want of memory, for what the hart's next turn asks: the posts of a WAITALL, or the message of a SEND.
fn is_else_ready(standing: &Standing, rank: u8) -> Result<bool, AllocError>
    ensures { IfOk result (TellsElseReady standing.now rank) }
{
    let place = usize::from(rank);
    if place >= standing.cluster.ranks.len() {
        return Ok(true);
    }
    let own = &standing.cluster.ranks[place];
    if own.harts.len() == 0 {
        return Ok(true);
    }
    let ask = own.ask(0)?;
    Ok(are_ready(&standing.cluster.hub, rank, posts_asked(&ask)))
}

/// Whether the rank rests until one of these receives, and is held up by nothing else. The only error is want of memory, for
/// what the rank's next turn asks.
fn may_go_on_beside(among: &[u8], standing: &Standing, rank: u8) -> Result<bool, AllocError>
    ensures { IfOk result (TellsMayGoOn among.now standing.now rank) }
{
    if !rests_beside(among, standing, rank) {
        return Ok(false);
    }
    let ready = is_else_ready(standing, rank)?;
    Ok(ready)
}

/// Whether one of these ranks rests until one of them receives, and is held up by nothing else. The only error is want of memory.
fn some_rests(among: &[u8], standing: &Standing) -> Result<bool, AllocError>
    ensures { IfOk result (TellsRest among.now standing.now) }
{
    for place in 0..among.len() {
        if may_go_on_beside(among, standing, among[place])? {
            return Ok(true);
        }
    }
    Ok(false)
}

/// The ranks that need buffers, in ascending order, if each rank has one hart: the largest set in which each rank has ended,
/// waits for something that only the set could bring, or rests until one of the set receives, behind a SEND or before a WAIT or
/// WAITALL of one. `None` if each rank of that set that rests so also waits for something else: buffers wouldn't let any of
/// them go on. The only error is running out of memory.
pub fn needing(alloc: Global, standing: &Standing) -> Result<Option<Vec<u8>>, AllocError>
    ensures { IfOk result (λ found. TellsNeed standing.now (option_map (λ ranks. ranks.items) found)) }
{
    let ranks = held_up(alloc, standing)?;
    if some_rests(ranks.as_slice(), standing)? {
        Ok(Some(ranks))
    } else {
        Ok(None)
    }
}
