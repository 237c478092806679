//! Clusters at which all ranks are let go.

ghost use Rattle.std.specs.Prelude.{◌≡◌, ◌⊎◌, ◌<◌, ◌+◌, IfOk, IsTrue, length, true, vec_len};
ghost use Rattle.rv_image_types.specs.declared.images.ImageParts.{ImageParts};
ghost use Rattle.cl_state.specs.Room.{rank_of};
ghost use Rattle.cl_state_laws.specs.Awake.{StandsAtCall};
ghost use Rattle.cl_state_laws.specs.Vain.{IsWaiting, mode_of};
ghost use Rattle.cl_machine.specs.Cluster.{Cluster};
ghost use Rattle.cl_replay.specs.States.{ClusterStandsFor};
ghost use Rattle.cl_order_laws.specs.Closed.{IsInVain, Node};
ghost use Rattle.cl_rest_laws.specs.Rests.{rests as rests_of};
ghost use Rattle.cl_reduction_laws.specs.Settled.{FindsClaim, IsThere};
ghost use Rattle.cl_moves.specs.Standing.{StandsAt};
ghost use Rattle.cl_contests.specs.Kept.{search_of};
ghost use Rattle.cl_contests.specs.Fits.{IsFitRank};
ghost use Rattle.cl_contests.specs.Going.{TellsFit};

use crate::asking::is_made_anew;
use crate::complete::polls_complete;
use crate::patterns::Patterns;
use crate::starts::waits_within;
use cl_moves::{MoveFault, Standing, is_in_vain};
use cl_replay::ClusterState;
use cl_rests::rests;
use cl_state::{Ask, RankState, is_ecall};
use mp_alike::WholeHub;
use mp_types::Request;
use rv_hart::{Mode, Wait};
use std::alloc::AllocError;

/// Whether the hub has so few posts that no send is refused.
fn has_room(whole: &WholeHub) -> bool
    ensures { IsTrue result → length whole.now.board.lines + 3 < 65536 }
{
    whole.board().next_number() < 65534
}

/// Whether the rank's first hart stands at the call that it is to make anew, if it is to make one anew.
pub(crate) fn stands_at_call(own: &RankState) -> bool
    requires { 0 < vec_len own.now.harts }
    ensures { IsTrue result → StandsAtCall (rank_of own.now) 0 }
{
    let hart = &own.harts[0];
    match hart.mode() {
        Mode::Waiting(Wait::Again) => is_ecall(own.memory.text_word(hart.pc())),
        _ => true,
    }
}

/// Whether the rank's first hart waits.
fn is_waiting(own: &RankState) -> bool
    requires { 0 < vec_len own.now.harts }
    ensures { IsTrue result → IsWaiting (mode_of (rank_of own.now) 0) }
{
    matches!(own.harts[0].mode(), Mode::Waiting(_))
}

/// Whether what is asked is a claim that finds its message.
fn finds_claim(state: &ClusterState, rank: u8, ask: &Ask) -> bool
    ensures { IsTrue result → (image : ImageParts) (cluster : Cluster) → ClusterStandsFor image state.now cluster
        → FindsClaim cluster rank ask.now }
{
    match ask {
        Ask::Hub(request) => match request {
            Request::Claim { .. } => !state.hub.asks_in_vain(rank, request),
            _ => false,
        },
        _ => false,
    }
}

/// Whether nothing is asked of the hub, or what isn't there still.
fn is_there(state: &ClusterState, rank: u8, ask: &Ask) -> bool
    ensures { IsTrue result → (image : ImageParts) (cluster : Cluster) → ClusterStandsFor image state.now cluster
        → IsThere cluster rank ask.now }
{
    match ask {
        Ask::Local => true,
        Ask::Hub(request) => !state.hub.asks_in_vain(rank, request),
        _ => false,
    }
}

/// Whether the rank's first hart waits, and in vain.
fn waits_in_vain(state: &ClusterState, rank: u8, own: &RankState, ask: &Ask) -> bool
    requires { 0 < vec_len own.now.harts }
    ensures { IsTrue result → (image : ImageParts) (cluster : Cluster) → ClusterStandsFor image state.now cluster
        → IsWaiting (mode_of (rank_of own.now) 0) × IsInVain cluster rank ask.now }
{
    is_waiting(own) && is_in_vain(state, rank, ask)
}

/// Whether the rank's first hart waits, and in vain, if its turn is made anew where nothing is there, or it finds what it
/// claims, or rests and all else that it waits for is there.
fn rests_if(standing: &Standing, rank: u8, own: &RankState, waits: bool, ask: &Ask) -> bool
    requires { 0 < vec_len own.now.harts }
    ensures { IsTrue result → (image : ImageParts) (here : Node) → StandsAt image standing.now here → waits ≡ true
        → (IsWaiting (mode_of (rank_of own.now) 0) × IsInVain here.cluster rank ask.now)
        ⊎ (FindsClaim here.cluster rank ask.now
        ⊎ ((rests_of here.cluster rank 0 ≡ true) × IsThere here.cluster rank ask.now)) }
{
    let state = &standing.cluster;
    if !waits || finds_claim(state, rank, ask) || waits_in_vain(state, rank, own, ask) {
        return true;
    }
    is_there(state, rank, ask) && rests(standing, rank)
}

/// Whether the rank may be let go where all are. The only error is want of memory, for the posts of a WAITALL and for what
/// is sent.
fn is_fit_rank(
    standing: &Standing,
    patterns: &Patterns,
    rank: u8,
    own: &RankState,
) -> Result<bool, AllocError>
    ensures { IfOk result (λ fit. IsTrue fit → (image : ImageParts) (here : Node) → StandsAt image standing.now here
        → IsFitRank (search_of patterns.now.may_wait patterns.now.kept.items) here.cluster rank (rank_of own.now)) }
{
    if own.harts.len() == 0 {
        return Ok(false);
    }
    let doing = own.next(0);
    let ask = own.ask_next(0, &doing)?;
    let waits = is_made_anew(&doing);
    if !patterns.allow(rank, waits, &ask) || !stands_at_call(own) {
        return Ok(false);
    }
    if !patterns.allow_poll_of_complete(rank, polls_complete(own, &doing)) {
        return Ok(false);
    }
    Ok(rests_if(standing, rank, own, waits, &ask))
}

/// Whether all ranks may be let go here. What each rank asks for has to be among the patterns, and so has each receive from
/// any source that still waits. A rank whose call repeats until something is there must already wait in vain, or rest, and
/// there must be too few messages for a send to be refused.
///
/// Refusals: Memory.
pub fn is_fit(standing: &Standing, patterns: &Patterns) -> Result<bool, MoveFault>
    ensures { IfOk result (TellsFit (search_of patterns.now.may_wait patterns.now.kept.items) standing.now) }
{
    let state = &standing.cluster;
    let count = state.ranks.len();
    // an image has at most 8 ranks
    if count > 255 || !has_room(&standing.whole) || !waits_within(&standing.whole, patterns) {
        return Ok(false);
    }
    if !patterns.are_on_sides(standing.whole.links()) {
        return Ok(false);
    }
    for rank in 0..count {
        let own = &state.ranks[rank];
        if !is_fit_rank(standing, patterns, rank as u8, own)? {
            return Ok(false);
        }
    }
    Ok(true)
}
