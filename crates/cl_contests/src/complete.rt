//! Polls of synchronous sends that were complete as they were made.

ghost use Rattle.std.specs.Prelude.{◌≡◌};
ghost use Rattle.std.specs.List.{list_any};
ghost use Rattle.mp_request.specs.Table.{request_at};
ghost use Rattle.cl_calls.specs.Handles.{handles_in};
ghost use Rattle.cl_state.specs.TurnRoom.{IsNext};
ghost use Rattle.cl_reduction_laws.specs.Complete.{is_complete_send as is_complete_of, is_finished as is_finished_of};
ghost use Rattle.cl_reduction_laws.specs.Complete.{is_synchronous as is_synchronous_of, polls_complete_in};

use cl_calls::{Array, Call, handles_at};
use cl_state::{Doing, RankState};
use mp_request::{OpenRequest, Progress, Requests, State, Transfer};

/// Whether it is a synchronous send.
fn is_synchronous(transfer: &Transfer) -> bool
    ensures { result ≡ is_synchronous_of transfer.now }
{
    match transfer {
        Transfer::Send { sync, .. } => *sync,
        _ => false,
    }
}

/// Whether nothing is awaited of the request.
fn is_finished(state: State) -> bool
    ensures { result ≡ is_finished_of state }
{
    matches!(
        state,
        State::Ordinary(Progress::Finished) | State::Active(Progress::Finished)
    )
}

/// Whether the request is a synchronous send of which nothing is awaited.
fn is_complete(request: &Option<OpenRequest>) -> bool
    ensures { result ≡ is_complete_of request.now }
{
    match request {
        None => false,
        Some(request) => is_synchronous(&request.transfer) && is_finished(request.state),
    }
}

/// Whether the handle is that of such a send.
fn is_of_complete(requests: &Requests, handle: u64) -> bool
    ensures { result ≡ is_complete_of (request_at requests.now handle) }
{
    is_complete(&requests.get(handle))
}

/// Whether one of these handles is.
fn any_of_complete(requests: &Requests, handles: &[u64]) -> bool
    ensures { result ≡ list_any (λ h. is_complete_of (request_at requests.now h)) handles.now }
{
    handles
        .iter()
        .any(|handle| is_of_complete(requests, *handle))
}

/// Whether the next turn of the rank's first hart is a TEST of a synchronous send that was complete as it was made, or a TESTALL
/// that names one.
pub(crate) fn polls_complete(own: &RankState, doing: &Doing) -> bool
    requires { IsNext own.now 0 doing.now }
    ensures { result ≡ polls_complete_in own.now.memory own.now.requests doing.now }
{
    match *doing {
        Doing::Go(Call::Test(completing)) => is_of_complete(&own.requests, completing.handle),
        Doing::Go(Call::Testall(several)) => {
            let array = Array {
                address: several.array,
                count: several.count,
            };
            let handles = handles_at(&own.memory, array);
            any_of_complete(&own.requests, handles.as_slice())
        }
        _ => false,
    }
}
