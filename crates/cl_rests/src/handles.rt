//! The handles for which a rank is about to wait, and the posts of their sends.

ghost use Rattle.std.specs.Prelude.{◌≡◌, ◌∷◌, []};
ghost use Rattle.cl_state.specs.Room.{rank_of};
ghost use Rattle.cl_state.specs.TurnRoom.{IsNext};
ghost use Rattle.cl_rest_laws.specs.Rests.{handles_ahead as handles_ahead_of, handles_waited_for as handles_in};
ghost use Rattle.cl_rest_laws.specs.Rests.{post_of_send as post_of_send_in, post_sent as post_sent_of};
ghost use Rattle.cl_rests.specs.Found.{is_wait as is_wait_of};

use cl_calls::{Array, Call, Handles, handles_at};
use cl_state::{Doing, RankState};
use mp_request::{OpenRequest, Progress, State};

/// The post of a standard send, if this is how far one is.
fn post_sent(going: Progress) -> Option<u64>
    ensures { result ≡ post_sent_of going }
{
    match going {
        Progress::Sent(post) => Some(post),
        Progress::Finished | Progress::OnPost(_) | Progress::InPhase => None,
    }
}

/// The post of the standard send that a slot of the request table has: of an open one, or of a persistent one that was started.
/// `None` if it has something else or nothing.
pub fn post_of_send(slot: &Option<OpenRequest>) -> Option<u64>
    ensures { result ≡ post_of_send_in slot.now }
{
    match slot {
        None => None,
        Some(request) => match request.state {
            State::Ordinary(going) | State::Active(going) => post_sent(going),
            State::Inactive => None,
        },
    }
}

/// Whether the turn is a WAIT or WAITALL.
pub(crate) fn is_wait(doing: &Doing) -> bool
    ensures { result ≡ is_wait_of doing.now }
{
    matches!(*doing, Doing::Go(Call::Wait(_) | Call::Waitall(_)))
}

/// One handle.
fn one_handle(handle: u64) -> Handles
    ensures { result.items ≡ handle ∷ [] }
{
    let mut handles = Handles::new();
    handles.push(handle);
    handles
}

/// The handles whose requests a turn of the rank's first hart completes, if it is a WAIT or WAITALL. They take no memory.
pub(crate) fn handles_waited_for(own: &RankState, doing: &Doing) -> Handles
    requires { IsNext own.now 0 doing.now }
    ensures { result.items ≡ handles_in own.now.memory doing.now }
{
    match *doing {
        Doing::Go(Call::Wait(completing)) => one_handle(completing.handle),
        Doing::Go(Call::Waitall(several)) => {
            let array = Array {
                address: several.array,
                count: several.count,
            };
            handles_at(&own.memory, array)
        }
        _ => Handles::new(),
    }
}

/// The handles of the WAIT or WAITALL that the rank's first hart is about to make, or none. They take no memory.
pub fn handles_ahead(own: &RankState) -> Handles
    ensures { result.items ≡ handles_ahead_of (rank_of own.now) 0 }
{
    if own.harts.len() == 0 {
        return Handles::new();
    }
    handles_waited_for(own, &own.next(0))
}
