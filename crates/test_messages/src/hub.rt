//! Answers of `mp_hub`.

ghost use Rattle.std.specs.Prelude.{◌≡◌, ◌≢◌, ◌<◌, ◌≤◌, ◌^◌, ◌-◌, ◌∷◌, [], false, length, IfOk};
ghost use Rattle.mp_match.specs.Board.{held_count};
ghost use Rattle.mp_hub.specs.Building.{hub_in};
ghost use Rattle.mp_hub.specs.Hub.{hub_at_start};
ghost use Rattle.test_messages.specs.Anew.{claimed_hub};
ghost use Rattle.test_messages.specs.Boards.{message};
ghost use Rattle.test_messages.specs.Calls.{MoreWorkedCalls};
ghost use Rattle.test_messages.specs.Held.{FullLaw};
ghost use Rattle.test_messages.specs.Premises.{HubPremises};

use mp_hub::{CallFault, HubParts, HubState};
use mp_types::{Code, Reply, Request};
use std::alloc::Global;

/// Some calls with the replies that the definitions give, computed.
pub fn more_worked_calls()
    ensures { MoreWorkedCalls }
{}

/// What the laws of loss, of completion, of posts' owners and of links ask for, after some calls.
pub fn premises_are_met()
    ensures { HubPremises }
{}

/// A send is refused with FULL exactly where 65,536 messages were sent that nobody has got, whatever was sent and got
/// before.
pub fn full_law()
    ensures { FullLaw }
{}

/// A send where 65,536 messages are held is refused with FULL, whatever memory there is.
pub fn send_to_a_full_hub(
    hub: &mut HubState,
    rank: u8,
    request: &Request,
) -> Result<Reply, CallFault>
    requires room { length hub.old.board.lines < 2 ^ 64 - 1 }
    requires held { 65536 ≤ held_count hub.old.board.bodies }
    requires send { request.now ≡ Request.Send false 0 1 7 [] }
    ensures { result ≡ Ok (Reply.Code Code.Full) }
{
    hub.answer(rank, request)
}

/// Where 65,535 messages are held a send isn't refused with FULL.
pub fn send_to_the_last_place(
    hub: &mut HubState,
    rank: u8,
    request: &Request,
) -> Result<Reply, CallFault>
    requires room { length hub.old.board.lines < 2 ^ 64 - 1 }
    requires held { held_count hub.old.board.bodies ≡ 65535 }
    requires send { request.now ≡ Request.Send false 0 1 7 [] }
    ensures { result ≢ Ok (Reply.Code Code.Full) }
{
    hub.answer(rank, request)
}

/// A hub that was never called knows no post 5, and says so whatever memory there is.
pub fn unknown_post_collected(hub: &mut HubState, rank: u8) -> Result<Reply, CallFault>
    requires { hub.old ≡ hub_at_start [] }
    ensures { result ≡ Ok (Reply.Code Code.BadRequest) }
{
    hub.answer(rank, &Request::Collect { post: 5 })
}

/// Nor does it know post 5 among several that are to complete together.
pub fn unknown_post_among_several(
    hub: &mut HubState,
    rank: u8,
    request: &Request,
) -> Result<Reply, CallFault>
    requires new { hub.old ≡ hub_at_start [] }
    requires all { request.now ≡ Request.All (5 ∷ []) }
    ensures { result ≡ Ok (Reply.Code Code.BadRequest) }
{
    hub.answer(rank, request)
}

/// A hub that is made anew with a message which rank 1 claimed gives it to rank 1.
pub fn made_anew_gives_the_claimed(alloc: Global, parts: &HubParts<'_>) -> Result<Reply, CallFault>
    requires { hub_in parts.now ≡ claimed_hub }
    ensures { IfOk result (λ reply. reply ≡ Reply.Got message) }
{
    let Ok(mut hub) = HubState::of(alloc, parts) else {
        return Err(CallFault::Memory);
    };
    hub.answer(
        1,
        &Request::Claimed {
            now: true,
            message: 2,
        },
    )
}
