//! What a turn asks, and whether it is told what it asks for.

ghost use Rattle.std.specs.Prelude.{◌≡◌, IsTrue};
ghost use Rattle.mp_types.specs.declared.replies.Reply.TheVariants.{NotYet};
ghost use Rattle.cl_trace.specs.declared.events.Kind.{Kind};
ghost use Rattle.cl_state_laws.specs.Vain.{waits_on};
ghost use Rattle.cl_order_laws.specs.SureAsks.{IsReady};
ghost use Rattle.cl_moves.specs.Sure.{IsReadyKind};
ghost use Rattle.cl_contests.specs.Turns.{IsFilling};

use cl_calls::Call;
use cl_machine::{KindRef, Step};
use cl_state::Doing;
use cl_trace::Bare;
use mp_types::{Reply, Request};

/// Whether the turn is made anew where nothing is there.
pub(crate) fn is_made_anew(doing: &Doing) -> bool
    ensures { result ≡ waits_on doing.now }
{
    match *doing {
        Doing::Go(Call::Wait(_)) | Doing::Go(Call::Waitall(_)) => true,
        Doing::Go(Call::Probe(_)) | Doing::Go(Call::Mprobe(_)) => true,
        Doing::Poll(_, _) => true,
        _ => false,
    }
}

/// Whether the call collects or looks, so that it could be told that something is there.
pub(crate) fn is_look(request: &Request) -> bool {
    matches!(
        request,
        Request::Collect { .. }
            | Request::Finished { .. }
            | Request::All { .. }
            | Request::Probe { .. }
            | Request::Cut { .. }
    )
}

/// Whether the reply is what the request asks for, which was there.
fn is_ready(request: &Request, reply: &Reply) -> bool
    ensures { IsTrue result → IsReady request.now reply.now }
{
    match (request, reply) {
        (Request::Collect { .. }, Reply::Got(_)) => true,
        (Request::Finished { .. }, Reply::Done) => true,
        (Request::All { .. }, Reply::AllGot(_)) => true,
        (Request::Probe { .. }, Reply::Seen(_)) => true,
        (Request::Cut { .. }, Reply::Cut { .. }) => true,
        _ => false,
    }
}

/// Whether the turn is told what the request asks for.
pub(crate) fn is_ready_turn(turn: &Step, request: &Request) -> bool
    ensures { IsTrue result → IsReadyKind request.now turn.now.kind }
{
    match turn.kind() {
        KindRef::Hub(reply) => is_ready(request, reply),
        KindRef::Bare(_) => false,
    }
}

/// Whether the turn found at a box what it asks for.
pub(crate) fn is_found_turn(turn: &Step) -> bool
    ensures { IsTrue result → IsFilling turn.now.kind }
{
    match turn.kind() {
        KindRef::Bare(Bare::Ready) | KindRef::Bare(Bare::Take) | KindRef::Bare(Bare::Freed) => true,
        _ => false,
    }
}

/// Whether the turn is told that nothing is there.
pub(crate) fn is_vain_turn(turn: &Step) -> bool
    ensures { IsTrue result → turn.now.kind ≡ Kind.Hub NotYet }
{
    match turn.kind() {
        KindRef::Hub(Reply::NotYet) => true,
        _ => false,
    }
}
