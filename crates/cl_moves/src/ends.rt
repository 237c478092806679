//! States in which nobody goes on.

ghost use Rattle.std.specs.Prelude.{◌≡◌, ◌↔◌, ◌<◌, ◌⊎◌, IfOk, List, Some, false, true, length, slice_get, vec_len};
ghost use Rattle.rv_image_types.specs.declared.images.ImageParts.{ImageParts};
ghost use Rattle.cl_deeds.specs.Orders.{in_slot};
ghost use Rattle.cl_state.specs.Rank.{Rank};
ghost use Rattle.cl_state.specs.Room.{rank_of};
ghost use Rattle.cl_state_laws.specs.Vain.{IsStopped, mode_of, waits_on as waits_on_of};
ghost use Rattle.cl_machine.specs.Cluster.{Cluster};
ghost use Rattle.cl_replay.specs.States.{ClusterStandsFor};
ghost use Rattle.cl_order_laws.specs.Closed.{IsDone, IsInVain};
ghost use Rattle.cl_moves.specs.Ends.{AreResting, IsFullIn, IsResting, IsVacantIn, TellsEnd};

use crate::turns::in_box;
use cl_calls::Call;
use cl_replay::ClusterState;
use cl_state::{Ask, Doing, RankState};
use part_box::Settled;
use rv_hart::Mode;
use std::alloc::AllocError;

/// Whether the turn is made anew where nothing is there.
fn is_made_anew(doing: &Doing) -> bool
    ensures { result ≡ waits_on_of doing.now }
{
    match *doing {
        Doing::Go(Call::Wait(_)) | Doing::Go(Call::Waitall(_)) => true,
        Doing::Go(Call::Probe(_)) | Doing::Go(Call::Mprobe(_)) => true,
        Doing::Poll(_, _) => true,
        _ => false,
    }
}

/// Whether nothing stands in the box, if it is there.
fn is_vacant(boxes: &[[Settled; 16]], link: u8, part: u8) -> bool
    ensures { (result ≡ true) ↔ IsVacantIn boxes.now link part }
{
    match in_box(boxes, link, part) {
        Some(settled) => !settled.full,
        None => true,
    }
}

/// Whether something stands in the box, if it is there.
fn is_filled(boxes: &[[Settled; 16]], link: u8, part: u8) -> bool
    ensures { (result ≡ true) ↔ IsFullIn boxes.now link part }
{
    match in_box(boxes, link, part) {
        Some(settled) => settled.full,
        None => true,
    }
}

/// Whether what a hart of the rank asks isn't there.
pub fn is_in_vain(state: &ClusterState, rank: u8, ask: &Ask) -> bool
    ensures { (image : ImageParts) (cluster : Cluster) → ClusterStandsFor image state.now cluster
        → (result ≡ true) ↔ IsInVain cluster rank ask.now }
{
    let boxes = state.boxes.as_slice();
    match ask {
        Ask::Held => true,
        Ask::Hub(request) => state.hub.asks_in_vain(rank, request),
        Ask::Look { link, part } => is_vacant(boxes, *link, *part),
        Ask::Freed { link, part } => is_filled(boxes, *link, *part),
        _ => false,
    }
}

/// Whether this hart of the rank is stopped, or waits in vain. One that isn't there is stopped. The only error is want of
/// memory, for the posts of a WAITALL.
fn is_resting(state: &ClusterState, rank: u8, own: &RankState, hart: u8) -> Result<bool, AllocError>
    ensures { IfOk result (λ rests. (image : ImageParts) (cluster : Cluster) → ClusterStandsFor image state.now cluster
        → (rests ≡ true) ↔ IsResting cluster rank (rank_of own.now) hart) }
{
    if usize::from(hart) >= own.harts.len() {
        return Ok(true);
    }
    match own.harts[usize::from(hart)].mode() {
        Mode::Ended(_) | Mode::Trapped(_, _) => return Ok(true),
        Mode::Running => return Ok(false),
        Mode::Waiting(_) => {}
    }
    let doing = own.next(hart);
    if !is_made_anew(&doing) {
        return Ok(false);
    }
    let ask = own.ask_next(hart, &doing)?;
    Ok(is_in_vain(state, rank, &ask))
}

/// Whether each of these harts of the rank is stopped, or waits in vain.
fn are_resting(
    state: &ClusterState,
    rank: u8,
    own: &RankState,
    order: &[u8],
) -> Result<bool, AllocError>
    ensures { IfOk result (λ rest. (image : ImageParts) (cluster : Cluster) → ClusterStandsFor image state.now cluster
        → (rest ≡ true) ↔ AreResting cluster rank (rank_of own.now) order.now) }
{
    for hart in order {
        if !is_resting(state, rank, own, *hart)? {
            return Ok(false);
        }
    }
    Ok(true)
}

/// Whether nobody goes on from the state: each hart that the order names is stopped, or waits in vain. The only error is
/// want of memory.
pub fn is_end(state: &ClusterState, order: &[u8]) -> Result<bool, AllocError>
    requires { 0 < length order.now }
    ensures { IfOk result (TellsEnd state.now order.now) }
{
    // an image has at most 8 ranks
    let count = state.ranks.len();
    if count > 255 {
        return Ok(false);
    }
    for rank in 0..count {
        let own = &state.ranks[rank];
        if !are_resting(state, rank as u8, own, order)? {
            return Ok(false);
        }
    }
    Ok(true)
}

/// Whether this hart of the rank is stopped, or isn't there.
fn is_stopped_or_missing(own: &RankState, hart: u8) -> bool
    ensures { (result ≡ true) ↔ IsStopped (mode_of (rank_of own.now) hart) }
{
    match own.harts.get(usize::from(hart)) {
        None => true,
        Some(hart) => hart.mode().is_stopped(),
    }
}

/// Whether each hart of the order is stopped.
pub fn is_done(own: &RankState, order: &[u8]) -> bool
    requires { 0 < length order.now }
    ensures { (result ≡ true) ↔ IsDone (in_slot order.now) (rank_of own.now) }
{
    for hart in order {
        if !is_stopped_or_missing(own, *hart) {
            return false;
        }
    }
    true
}
