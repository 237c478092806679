//! The text of an end.

ghost use Rattle.std.specs.Prelude.{◌≡◌, ◌++◌, IfOk, OnOk, string_bytes};
ghost use Rattle.cl_state.specs.Room.{rank_of};
ghost use Rattle.rvmc_explore.specs.Ends.{IsEndText, IsWaitText, any_waits, end_rank_text, end_ranks_text, is_waiting_at};
ghost use Rattle.rvmc_explore.specs.Ends.{end_stop, stop_word, one_waits};

use cl_replay::ClusterState;
use cl_state::RankState;
use rv_hart::{Hart, Mode};
use rv_image_types::Image;
use rvmc_picture::why;
use rvmc_report::report::{put_harts, put_output};
use std::alloc::{AllocError, Global};

/// Whether the hart of this number waits.
fn is_waiting(harts: &[Hart], number: u8) -> bool
    ensures { result ≡ is_waiting_at harts.now number }
{
    match harts.get(usize::from(number)) {
        None => false,
        Some(hart) => matches!(hart.mode(), Mode::Waiting(_)),
    }
}

/// Whether one of the harts that take turns waits.
pub(crate) fn waits(harts: &[Hart], order: &[u8]) -> bool
    ensures { result ≡ one_waits order.now harts.now }
{
    order.iter().any(|hart| is_waiting(harts, *hart))
}

/// Why a rank takes no more turns, in a word.
fn stop_word(harts: &[Hart], order: &[u8]) -> &'static str
    ensures { result.now ≡ stop_word order.now harts.now }
{
    if waits(harts, order) {
        "stuck"
    } else {
        "all-ended"
    }
}

/// The line of a rank's stop, which has no count of turns: other orders lead to the same end by other turns.
fn stop_line(alloc: Global, rank: usize, word: &str) -> Result<String, AllocError>
    ensures { IfOk result (λ text. string_bytes text ≡ end_stop rank word.now) }
{
    format!(in alloc; "rank {rank} stop {word}\n")
}

/// Adds what is told of a rank.
fn put_rank(
    alloc: Global,
    text: &mut Vec<u8>,
    order: &[u8],
    rank: usize,
    state: &RankState,
) -> Result<(), AllocError>
    ensures { OnOk result (text.new.items ≡ text.old.items ++ end_rank_text order.now rank (rank_of state.now)) }
{
    put_output(alloc, text, rank, state.out.as_slice())?;
    put_harts(alloc, text, rank, state.harts.as_slice())?;
    let line = stop_line(alloc, rank, stop_word(state.harts.as_slice(), order))?;
    text.extend_from_slice(line.as_bytes())
}

/// Adds what is told of all ranks, in their order.
fn put_ranks(
    alloc: Global,
    text: &mut Vec<u8>,
    order: &[u8],
    ranks: &[RankState],
) -> Result<(), AllocError>
    ensures { OnOk result (text.new.items ≡ text.old.items ++ end_ranks_text order.now ranks.now) }
{
    for rank in 0..ranks.len() {
        put_rank(alloc, text, order, rank, &ranks[rank])?;
    }
    Ok(())
}

/// Whether a hart that takes turns waits in some rank: then it waits for ever, since nobody goes on.
fn has_stuck(ranks: &[RankState], order: &[u8]) -> bool
    ensures { result ≡ any_waits order.now ranks.now }
{
    ranks.iter().any(|rank| waits(rank.harts.as_slice(), order))
}

/// Where a hart waits at an end, what each waits for.
fn wait_text(
    alloc: Global,
    image: &Image,
    order: &[u8],
    state: &ClusterState,
) -> Result<Vec<u8>, AllocError>
    ensures { IfOk result (λ text. IsWaitText (any_waits order.now state.now.ranks.items) image.now state.now text.items) }
{
    if has_stuck(state.ranks.as_slice(), order) {
        why(alloc, image, state, false)
    } else {
        Ok(Vec::new(alloc))
    }
}

/// Adds what is told of an end: its ranks, and where a hart waits, what each waits for.
pub(crate) fn put_end(
    alloc: Global,
    text: &mut Vec<u8>,
    image: &Image,
    order: &[u8],
    state: &ClusterState,
) -> Result<(), AllocError>
    ensures { OnOk result (IsEndText order.now image.now state.now text.old.items text.new.items) }
{
    let waiting = wait_text(alloc, image, order, state)?;
    put_ranks(alloc, text, order, state.ranks.as_slice())?;
    text.extend_from_slice(waiting.as_slice())?;
    Ok(())
}
