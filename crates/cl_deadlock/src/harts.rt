//! Harts that are stopped, or wait on what the ranks of a list alone could bring.

ghost use Rattle.std.specs.Prelude.{◌≡◌, ◌↔◌, ◌<◌, ◌⊎◌, IfOk, OnErr, Some, false, true, vec_len};
ghost use Rattle.rv_image_types.specs.declared.images.ImageParts.{ImageParts};
ghost use Rattle.part_box.specs.declared.settled.Settled.{Settled as SettledBox};
ghost use Rattle.mp_transfers.specs.Inits.{is_receiver};
ghost use Rattle.mp_wait_laws.specs.Waits.{OnlyOf, sends_over};
ghost use Rattle.cl_state.specs.Asked.{asked};
ghost use Rattle.cl_state.specs.TurnRoom.{carried};
ghost use Rattle.cl_state.specs.Room.{rank_of};
ghost use Rattle.cl_state_laws.specs.Vain.{IsStopped, IsWaiting, mode_of, waits_on as waits_on_of};
ghost use Rattle.cl_replay.specs.Below.{box_number};
ghost use Rattle.cl_replay.specs.Below.{Cluster};
ghost use Rattle.cl_replay.specs.Boxes.{settled_at};
ghost use Rattle.cl_replay.specs.States.{ClusterStandsFor};
ghost use Rattle.cl_deadlock_laws.specs.Stuck.{AsksInVain, IsStuckHart, is_among};

use crate::among::{has_receiver, has_sender};
use crate::boxes::{is_empty, is_full};
use crate::requests::is_in_vain;
use cl_calls::{Call, Site};
use cl_replay::ClusterState;
use cl_state::{Ask, Doing, RankState};
use rv_hart::Mode;
use std::alloc::AllocError;

/// The mode of the rank's hart.
fn mode(own: &RankState, number: u8) -> Mode
    requires { number < vec_len own.now.harts }
    ensures { result ≡ mode_of (rank_of own.now) number }
{
    own.harts[usize::from(number)].mode()
}

/// Whether a hart in this mode waits.
pub(crate) fn is_waiting(mode: Mode) -> bool
    ensures { (result ≡ true) ↔ IsWaiting mode }
{
    match mode {
        Mode::Waiting(_) => true,
        Mode::Running | Mode::Ended(_) | Mode::Trapped(_, _) => false,
    }
}

/// Whether the turn is taken anew where nothing is there.
fn waits_on(doing: &Doing) -> bool
    ensures { result ≡ waits_on_of doing.now }
{
    match *doing {
        Doing::Poll(_, _) => true,
        Doing::Go(Call::Wait(_) | Call::Probe(_) | Call::Mprobe(_) | Call::Waitall(_)) => true,
        _ => false,
    }
}

/// Whether nothing stands in the box, and none but these could put something there.
fn is_unsent(among: &[u8], state: &ClusterState, link: u8, part: u8) -> bool
    ensures { (result ≡ true)
        ↔ (((s : SettledBox) → settled_at state.now.boxes.items (box_number link part) ≡ Some s → s.full ≡ false)
        × OnlyOf (is_among among.now) (sends_over state.now.hub.links link)) }
{
    is_empty(state.boxes.as_slice(), link, part) && has_sender(among, state.hub.links(), link)
}

/// Whether something stands in the box, and none but these could take it.
fn is_untaken(among: &[u8], state: &ClusterState, link: u8, part: u8) -> bool
    ensures { (result ≡ true)
        ↔ (((s : SettledBox) → settled_at state.now.boxes.items (box_number link part) ≡ Some s → s.full ≡ true)
        × OnlyOf (is_among among.now) (λ k. is_receiver state.now.hub.links k link)) }
{
    is_full(state.boxes.as_slice(), link, part) && has_receiver(among, state.hub.links(), link)
}

/// Whether what a hart of the rank asks isn't there in this state, and could come from these alone.
fn asks_in_vain(among: &[u8], state: &ClusterState, rank: u8, site: &Site, ask: &Ask) -> bool
    ensures { (image : ImageParts) (cluster : Cluster) → ClusterStandsFor image state.now cluster
        → ((result ≡ true) ↔ AsksInVain among.now cluster rank site.now ask.now) }
{
    match ask {
        Ask::Hub(request) => is_in_vain(among, site, &state.hub, rank, request),
        Ask::Look { link, part } => is_unsent(among, state, *link, *part),
        Ask::Freed { link, part } => is_untaken(among, state, *link, *part),
        Ask::Held => true,
        _ => false,
    }
}

/// Whether a hart of the rank, which has this number, is stopped, or waits in vain beside these. The only error is want
/// of memory, for the posts of a WAITALL.
pub(crate) fn is_held(
    among: &[u8],
    state: &ClusterState,
    rank: u8,
    own: &RankState,
    number: u8,
) -> Result<bool, AllocError>
    requires { number < vec_len own.now.harts }
    ensures held { IfOk result (λ held. (image : ImageParts) (cluster : Cluster) → ClusterStandsFor image state.now cluster
        → ((held ≡ true)
        ↔ (IsStopped (mode_of (rank_of own.now) number) ⊎ IsStuckHart among.now cluster rank (rank_of own.now) number))) }
    ensures memory { OnErr result (0 < carried (asked (rank_of own.now) number)) }
{
    let now = mode(own, number);
    if now.is_stopped() {
        return Ok(true);
    }
    if !is_waiting(now) {
        return Ok(false);
    }
    let doing = own.next(number);
    if !waits_on(&doing) {
        return Ok(false);
    }
    let ask = own.ask_next(number, &doing)?;
    Ok(asks_in_vain(among, state, rank, &own.site, &ask))
}
