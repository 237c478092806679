//! The lines of harts that go on where a run never ends.

ghost use Rattle.std.specs.Prelude.{◌≡◌, ◌++◌, ◌&&◌, OnOk, is_some};
ghost use Rattle.cl_deadlock_laws.specs.Stuck.{is_among};
ghost use Rattle.cl_state.specs.Room.{rank_of};
ghost use Rattle.rvmc_explore.specs.HangTexts.{hart_going, harts_going, if_runs, ranks_going};
ghost use Rattle.rvmc_explore.specs.InnerGoing.{AddsGoings, IsInside};

use crate::hang_texts::put_going;
use crate::telling::state_at;
use cl_explore::KeptNode;
use cl_state::RankState;
use rv_hart::{Hart, Mode};
use rv_image_types::{Image, Symbol};
use std::alloc::{AllocError, Global};

/// Whether the hart of this number takes turns.
fn takes_turns(order: &[u8], number: usize) -> bool
    ensures { result ≡ is_among order.now number }
{
    order.iter().any(|hart| usize::from(*hart) == number)
}

/// Whether a hart runs.
fn is_running(hart: &Hart) -> bool
    ensures { result ≡ is_some (if_runs hart.now hart.now.mode) }
{
    matches!(hart.mode(), Mode::Running)
}

/// Whether the hart of this number takes turns, and runs.
fn goes_on(order: &[u8], number: usize, hart: &Hart) -> bool
    ensures { result ≡ (is_among order.now number && is_some (if_runs hart.now hart.now.mode)) }
{
    takes_turns(order, number) && is_running(hart)
}

/// Adds the line of a hart, if it goes on.
fn put_hart(
    alloc: Global,
    text: &mut Vec<u8>,
    symbols: &[Symbol],
    order: &[u8],
    rank: usize,
    own: &RankState,
    number: usize,
    hart: &Hart,
) -> Result<(), AllocError>
    ensures { OnOk result
        (text.new.items ≡ text.old.items ++ hart_going symbols.now order.now rank (rank_of own.now) number hart.now) }
{
    if goes_on(order, number, hart) {
        put_going(alloc, text, symbols, rank, own, number, hart)?;
    }
    Ok(())
}

/// The same of each hart of a rank.
fn put_rank(
    alloc: Global,
    text: &mut Vec<u8>,
    symbols: &[Symbol],
    order: &[u8],
    rank: usize,
    own: &RankState,
) -> Result<(), AllocError>
    ensures { OnOk result
        (text.new.items
        ≡ text.old.items ++ harts_going symbols.now order.now rank (rank_of own.now) 0 (rank_of own.now).harts) }
{
    for number in 0..own.harts.len() {
        let hart = &own.harts[number];
        put_hart(alloc, text, symbols, order, rank, own, number, hart)?;
    }
    Ok(())
}

/// The same of each rank.
fn put_ranks(
    alloc: Global,
    text: &mut Vec<u8>,
    symbols: &[Symbol],
    order: &[u8],
    ranks: &[RankState],
) -> Result<(), AllocError>
    ensures { OnOk result (text.new.items ≡ text.old.items ++ ranks_going symbols.now order.now 0 ranks.now) }
{
    for rank in 0..ranks.len() {
        put_rank(alloc, text, symbols, order, rank, &ranks[rank])?;
    }
    Ok(())
}

/// Adds where each hart goes on that takes turns and runs at the node of this number, if there is one. The only error is want of
/// memory.
pub(crate) fn put_goings(
    alloc: Global,
    text: &mut Vec<u8>,
    image: &Image,
    order: &[u8],
    nodes: &[KeptNode],
    node: Option<usize>,
) -> Result<(), AllocError>
    requires { IsInside nodes.now node }
    ensures { OnOk result (AddsGoings image.now order.now nodes.now node text.old.items text.new.items) }
{
    let Some(number) = node else {
        return Ok(());
    };
    let state = state_at(alloc, nodes, number)?;
    let symbols = image.parts().symbols.as_slice();
    let ranks = state.ranks.as_slice();
    put_ranks(alloc, text, symbols, order, ranks)?;
    Ok(())
}
