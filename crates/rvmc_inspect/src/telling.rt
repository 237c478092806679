//! The text of a state.

ghost use Rattle.std.specs.Prelude.{◌≡◌, ◌++◌, IfOk, OnOk, slice_get, string_bytes};
ghost use Rattle.std.specs.Option.{option_map};
ghost use Rattle.cl_state.specs.Room.{rank_of};
ghost use Rattle.rvmc_inspect.specs.Why.{IsWhy, all_harts_text, company_text, company_waits_text, deadlock_text, is_live, is_live_at, live_ranks};
ghost use Rattle.rvmc_inspect.specs.Why.{rank_waits_text, rank_names, stuck_text, more_ranks, rank_word, deadlock_verdict_text};

use crate::harts::put_harts;
use crate::unreceived::put_unreceived;
use cl_deadlock::deadlock;
use cl_state::RankState;
use rv_image_types::Image;
use rvmc_report::ClusterState;
use std::alloc::{AllocError, Global};

/// Adds the lines of the harts of all ranks, in their order.
fn put_all_harts(
    alloc: Global,
    text: &mut Vec<u8>,
    image: &Image,
    state: &ClusterState,
    framed: bool,
) -> Result<(), AllocError>
    ensures { OnOk result (text.new.items ≡ text.old.items ++ all_harts_text framed image.now state.now) }
{
    let symbols = image.parts().symbols.as_slice();
    for rank in 0..state.ranks.len() {
        put_harts(
            alloc,
            text,
            symbols,
            &state.hub,
            state.boxes.as_slice(),
            rank,
            &state.ranks[rank],
            framed,
        )?;
    }
    Ok(())
}

/// Whether a hart of the rank has not stopped.
fn is_live(own: &RankState) -> bool
    ensures { result ≡ is_live (rank_of own.now) }
{
    own.harts.iter().any(|hart| !hart.mode().is_stopped())
}

/// The same of the rank with this number, if it is there.
fn is_live_at(state: &ClusterState, rank: u8) -> bool
    ensures { result ≡ is_live_at (slice_get state.now.ranks.items rank) }
{
    match state.ranks.get(usize::from(rank)) {
        None => false,
        Some(own) => is_live(own),
    }
}

/// Of these ranks, those that have a hart that has not stopped.
fn live_ranks(alloc: Global, state: &ClusterState, ranks: &[u8]) -> Result<Vec<u8>, AllocError>
    ensures { IfOk result (λ live. live.items ≡ live_ranks state.now ranks.now) }
{
    let mut live = Vec::new(alloc);
    for rank in ranks {
        if is_live_at(state, *rank) {
            live.push(*rank)?;
        }
    }
    Ok(live)
}

/// A rank behind others.
fn rank_text(alloc: Global, rank: u8) -> Result<String, AllocError>
    ensures { IfOk result (λ text. string_bytes text ≡ rank_word rank) }
{
    format!(in alloc; " {rank}")
}

/// Adds ranks, a space before each.
fn put_more_ranks(alloc: Global, text: &mut Vec<u8>, ranks: &[u8]) -> Result<(), AllocError>
    ensures { OnOk result (text.new.items ≡ text.old.items ++ more_ranks ranks.now) }
{
    for rank in ranks {
        let more = rank_text(alloc, *rank)?;
        text.extend_from_slice(more.as_bytes())?;
    }
    Ok(())
}

/// Adds ranks, as `rank 0` or `ranks 0 1`.
fn put_ranks(alloc: Global, text: &mut Vec<u8>, ranks: &[u8]) -> Result<(), AllocError>
    ensures { OnOk result (text.new.items ≡ text.old.items ++ rank_names ranks.now) }
{
    let word: &[u8] = if ranks.len() == 1 { b"rank" } else { b"ranks" };
    text.extend_from_slice(word)?;
    put_more_ranks(alloc, text, ranks)
}

/// Adds those of these ranks that have a hart that has not stopped. The only error is want of memory.
pub fn put_live_ranks(
    alloc: Global,
    text: &mut Vec<u8>,
    state: &ClusterState,
    ranks: &[u8],
) -> Result<(), AllocError>
    ensures { OnOk result (text.new.items ≡ text.old.items ++ rank_names (live_ranks state.now ranks.now)) }
{
    let live = live_ranks(alloc, state, ranks)?;
    put_ranks(alloc, text, live.as_slice())
}

/// Adds that these ranks are in a deadlock.
fn put_deadlock(
    alloc: Global,
    text: &mut Vec<u8>,
    state: &ClusterState,
    ranks: &[u8],
) -> Result<(), AllocError>
    ensures { OnOk result (text.new.items ≡ text.old.items ++ deadlock_text state.now ranks.now) }
{
    text.extend_from_slice(b"deadlock: ")?;
    put_live_ranks(alloc, text, state, ranks)?;
    text.push(b'\n')?;
    Ok(())
}

/// Adds the line of the verdict.
fn put_verdict(
    alloc: Global,
    text: &mut Vec<u8>,
    state: &ClusterState,
    found: &Option<Vec<u8>>,
) -> Result<(), AllocError>
    ensures { OnOk result (text.new.items
        ≡ text.old.items ++ deadlock_verdict_text state.now (option_map (λ ranks. ranks.items) found.now)) }
{
    match found {
        None => text.extend_from_slice(b"no deadlock shown\n"),
        Some(ranks) => put_deadlock(alloc, text, state, ranks.as_slice()),
    }
}

/// How each hart of the state stands, and what it waits for, with `framed` also the calls that led there; which messages
/// weren't received; and the ranks of a deadlock that wait, or that none is shown. The only error is want of memory.
pub fn why(
    alloc: Global,
    image: &Image,
    state: &ClusterState,
    framed: bool,
) -> Result<Vec<u8>, AllocError>
    ensures { IfOk result (λ text. IsWhy framed image.now state.now text.items) }
{
    let found = deadlock(alloc, state)?;
    let mut text = Vec::new(alloc);
    put_all_harts(alloc, &mut text, image, state, framed)?;
    put_unreceived(alloc, &mut text, state.ranks.len(), &state.hub)?;
    put_verdict(alloc, &mut text, state, &found)?;
    Ok(text)
}

/// Adds how the harts of a rank stand, if it is there.
fn put_rank_waits(
    alloc: Global,
    text: &mut Vec<u8>,
    image: &Image,
    state: &ClusterState,
    rank: u8,
) -> Result<(), AllocError>
    ensures { OnOk result (text.new.items ≡ text.old.items ++ rank_waits_text image.now state.now rank) }
{
    match state.ranks.get(usize::from(rank)) {
        None => Ok(()),
        Some(own) => put_harts(
            alloc,
            text,
            image.parts().symbols.as_slice(),
            &state.hub,
            state.boxes.as_slice(),
            usize::from(rank),
            own,
            false,
        ),
    }
}

/// The same of these ranks, in order.
fn put_company_waits(
    alloc: Global,
    text: &mut Vec<u8>,
    image: &Image,
    state: &ClusterState,
    ranks: &[u8],
) -> Result<(), AllocError>
    ensures { OnOk result (text.new.items ≡ text.old.items ++ company_waits_text image.now state.now ranks.now) }
{
    for rank in ranks {
        put_rank_waits(alloc, text, image, state, *rank)?;
    }
    Ok(())
}

/// Adds that these ranks are in a deadlock, and that others run on.
fn put_stuck(
    alloc: Global,
    text: &mut Vec<u8>,
    state: &ClusterState,
    ranks: &[u8],
) -> Result<(), AllocError>
    ensures { OnOk result (text.new.items ≡ text.old.items ++ stuck_text state.now ranks.now) }
{
    text.extend_from_slice(b"deadlock: ")?;
    put_live_ranks(alloc, text, state, ranks)?;
    text.extend_from_slice(b" while others run on")?;
    text.push(b'\n')?;
    Ok(())
}

/// Adds how the harts of ranks that are stuck stand, what each waits for, and that the others run on. The only error is want of
/// memory.
pub fn put_company(
    alloc: Global,
    text: &mut Vec<u8>,
    image: &Image,
    state: &ClusterState,
    ranks: &[u8],
) -> Result<(), AllocError>
    ensures { OnOk result (text.new.items ≡ text.old.items ++ company_text image.now state.now ranks.now) }
{
    put_company_waits(alloc, text, image, state, ranks)?;
    put_stuck(alloc, text, state, ranks)?;
    Ok(())
}
