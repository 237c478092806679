//! The text of a state from which no run ends if standard sends wait for their receives.

ghost use Rattle.std.specs.Prelude.{◌≡◌, ◌<◌, ◌++◌, IfOk, OnOk, length, slice_get};
ghost use Rattle.std.specs.List.{flat_map};
ghost use Rattle.rv_image_types.specs.declared.images.ImageParts.{ImageParts};
ghost use Rattle.cl_state.specs.Room.{rank_of};
ghost use Rattle.rvmc_places.specs.OwnCalls.{has_line};
ghost use Rattle.rvmc_inspect.specs.Why.{is_live};
ghost use Rattle.rvmc_explore.specs.Hanging.{IsHangBody};
ghost use Rattle.rvmc_explore.specs.HangTexts.{awake_text, calling_text, going_line, going_place, hang_line, hang_rank_text, hang_text, running};

use crate::needs::{hart_head, put_held};
use crate::telling::state_at;
use cl_explore::KeptNode;
use cl_replay::ClusterState;
use cl_rests::RankSet;
use cl_state::RankState;
use rv_hart::{Hart, Mode};
use rv_image_types::{Image, Symbol};
use rvmc_inspect::{put_harts, put_live_ranks};
use rvmc_places::{is_in_library, line_at, put_name, put_own_place, put_place};
use std::alloc::{AllocError, Global};

/// Whether an address belongs to a line of the program's own sources.
fn has_line(symbols: &[Symbol], at: u64) -> bool
    ensures { result ≡ has_line symbols.now at }
{
    line_at(symbols, at).is_some()
}

/// Adds the program's own call that led into the library, and the function that it called.
fn put_calling(
    alloc: Global,
    text: &mut Vec<u8>,
    symbols: &[Symbol],
    own: &RankState,
    hart: &Hart,
) -> Result<(), AllocError>
    ensures { OnOk result (text.new.items ≡ text.old.items ++ calling_text symbols.now (rank_of own.now) hart.now) }
{
    let mut place = Vec::new(alloc);
    put_own_place(&mut place, symbols, &own.memory, hart, "")?;
    let _comma = place.pop();
    text.extend_from_slice(place.as_slice())?;
    Ok(())
}

/// Adds where a hart is.
fn put_going_place(
    alloc: Global,
    text: &mut Vec<u8>,
    symbols: &[Symbol],
    own: &RankState,
    hart: &Hart,
) -> Result<(), AllocError>
    ensures { OnOk result (text.new.items ≡ text.old.items ++ going_place symbols.now (rank_of own.now) hart.now) }
{
    if has_line(symbols, hart.pc()) {
        return put_name(text, symbols, hart.pc());
    }
    if is_in_library(symbols, &own.memory, hart) {
        return put_calling(alloc, text, symbols, own, hart);
    }
    put_place(text, symbols, hart.pc())
}

/// Adds the line of a rank's hart of this number, which goes on.
pub(crate) fn put_going(
    alloc: Global,
    text: &mut Vec<u8>,
    symbols: &[Symbol],
    rank: usize,
    own: &RankState,
    number: usize,
    hart: &Hart,
) -> Result<(), AllocError>
    ensures { OnOk result
        (text.new.items ≡ text.old.items ++ going_line symbols.now rank (rank_of own.now) number hart.now) }
{
    let head = hart_head(alloc, rank, number)?;
    text.extend_from_slice(head.as_bytes())?;
    text.extend_from_slice(b"goes on at ")?;
    put_going_place(alloc, text, symbols, own, hart)?;
    text.push(b'\n')?;
    Ok(())
}

/// The rank's first hart, if it runs.
fn running(own: &RankState) -> Option<Hart>
    ensures { result ≡ running (slice_get (rank_of own.now).harts 0) }
{
    match own.harts.get(0) {
        None => None,
        Some(hart) => match hart.mode() {
            Mode::Running => Some(*hart),
            _ => None,
        },
    }
}

/// Adds where a rank that doesn't rest goes on, or what each of its harts waits for.
fn put_awake(
    alloc: Global,
    text: &mut Vec<u8>,
    symbols: &[Symbol],
    state: &ClusterState,
    number: usize,
    own: &RankState,
) -> Result<(), AllocError>
    ensures { (image : ImageParts) → image.symbols ≡ symbols.now → OnOk result
        (text.new.items
        ≡ text.old.items
        ++ awake_text image state.now number own.now (running (slice_get (rank_of own.now).harts 0))) }
{
    match running(own) {
        Some(hart) => put_going(alloc, text, symbols, number, own, 0, &hart),
        None => put_harts(
            alloc,
            text,
            symbols,
            &state.hub,
            state.boxes.as_slice(),
            number,
            own,
            false,
        ),
    }
}

/// Whether a hart of the rank hasn't stopped.
fn is_live(own: &RankState) -> bool
    ensures { result ≡ is_live (rank_of own.now) }
{
    own.harts.iter().any(|hart| !hart.mode().is_stopped())
}

/// Adds how a rank stands, if it is there and hasn't stopped. Those of the set rest.
fn put_rank(
    alloc: Global,
    text: &mut Vec<u8>,
    image: &Image,
    state: &ClusterState,
    resting: RankSet,
    rank: u8,
) -> Result<(), AllocError>
    ensures { OnOk result (text.new.items ≡ text.old.items ++ hang_rank_text image.now state.now resting rank) }
{
    let number = usize::from(rank);
    let Some(own) = state.ranks.get(number) else {
        return Ok(());
    };
    if !is_live(own) {
        return Ok(());
    }
    if resting.has(rank) {
        return put_held(alloc, text, image, state, rank);
    }
    let symbols = image.parts().symbols.as_slice();
    put_awake(alloc, text, symbols, state, number, own)
}

/// The same of these ranks, in order.
fn put_ranks(
    alloc: Global,
    text: &mut Vec<u8>,
    image: &Image,
    state: &ClusterState,
    resting: RankSet,
    ranks: &[u8],
) -> Result<(), AllocError>
    ensures { OnOk result
        (text.new.items ≡ text.old.items ++ flat_map (hang_rank_text image.now state.now resting) ranks.now) }
{
    for rank in ranks {
        put_rank(alloc, text, image, state, resting, *rank)?;
    }
    Ok(())
}

/// Adds that some runs go on for ever, with those of these ranks that haven't stopped.
fn put_hang_line(
    alloc: Global,
    text: &mut Vec<u8>,
    state: &ClusterState,
    ranks: &[u8],
) -> Result<(), AllocError>
    ensures { OnOk result (text.new.items ≡ text.old.items ++ hang_line state.now ranks.now) }
{
    text.extend_from_slice(b"some runs go on for ever if sends wait: ")?;
    put_live_ranks(alloc, text, state, ranks)?;
    text.push(b'\n')?;
    Ok(())
}

/// Adds how each rank stands that hasn't stopped: of one of the set, which rests, where it sent or waits for its sends and who is to
/// receive; of another one, where it goes on or what it waits for. Behind them, that some runs go on for ever if sends wait. The only
/// error is want of memory.
fn put_hang(
    alloc: Global,
    text: &mut Vec<u8>,
    image: &Image,
    state: &ClusterState,
    resting: RankSet,
) -> Result<(), AllocError>
    ensures { OnOk result (text.new.items ≡ text.old.items ++ hang_text image.now state.now resting) }
{
    let ranks: [u8; 8] = [0, 1, 2, 3, 4, 5, 6, 7];
    put_ranks(alloc, text, image, state, resting, &ranks)?;
    put_hang_line(alloc, text, state, &ranks)
}

/// All that is told of the node of this number, from which no run ends if sends wait, and at which the ranks of the set rest.
pub(crate) fn hang_body(
    alloc: Global,
    image: &Image,
    nodes: &[KeptNode],
    node: usize,
    resting: RankSet,
) -> Result<Vec<u8>, AllocError>
    requires { node < length nodes.now }
    ensures { IfOk result (λ body. IsHangBody image.now nodes.now node resting body.items) }
{
    let state = state_at(alloc, nodes, node)?;
    let mut body = Vec::new(alloc);
    put_hang(alloc, &mut body, image, &state, resting)?;
    Ok(body)
}
