//! A call of the hub, as a step.

ghost use Rattle.std.specs.Prelude.{◌≡◌, ◌<◌, ◌^◌, Err, List, IfErr, OnOk, vec_len};
ghost use Rattle.rv_image_types.specs.declared.images.Link.{Link};
ghost use Rattle.mp_hub.specs.Hub.{Call};
ghost use Rattle.cl_state.specs.declared.asking.Ask.TheVariants as ask;
ghost use Rattle.cl_state.specs.Asked.{asked};
ghost use Rattle.cl_state.specs.Room.{rank_of};
ghost use Rattle.cl_state.specs.TurnRoom.{IsNext};
ghost use Rattle.cl_replay.specs.Turns.{CallFault, Calls, HasCalls};

use crate::faults::StepFault;
use crate::turns::{follows_both, room};
use cl_machine::Step;
use cl_state::{Answer, Ask, Doing, RankState};
use mp_hub::HubState;
use mp_types::{Reply, Request, Stamp};

/// Asks the hub, at this clock of it, for what a hart's turn asks, and tells the rank the reply, if it is this one.
fn ask_hub(
    state: &mut RankState,
    hub: &mut HubState,
    clock: Stamp,
    step: &Step,
    reply: &Reply,
    doing: &Doing,
    request: &Request,
) -> Result<(), StepFault>
    requires low { step.now.stamp < 2 ^ 62 }
    requires next { IsNext state.old step.now.hart doing.now }
    requires asks { asked (rank_of state.old) step.now.hart ≡ ask.Hub request.now }
    ensures calls { OnOk result ((links : List Link) (calls : List Call) → HasCalls hub.old clock links calls
        → Calls (rank_of state.old) hub.old clock step.now reply.now (rank_of state.new) hub.new links calls) }
    ensures fault { IfErr result (CallFault (rank_of state.old) hub.old clock step.now reply.now) }
    ensures same_rank { result ≡ Err StepFault.Memory → rank_of state.new ≡ rank_of state.old }
    ensures same_hub { result ≡ Err StepFault.Memory → hub.new ≡ hub.old }
{
    // a hub that has no number left for a post has answered more calls than clocks tell
    if hub.posts() >= u64::MAX {
        return Err(StepFault::NotAStep);
    }
    if !follows_both(state.clock, clock, step.stamp()) {
        return Err(StepFault::NotAStep);
    }
    room(state, step, doing)?;
    let Ok(given) = hub.answer(step.rank(), request) else {
        return Err(StepFault::Memory);
    };
    if !given.is_same(reply) {
        return Err(StepFault::NotAStep);
    }
    state.tell_next(step.hart(), doing, &Answer::Reply(given), step.stamp());
    Ok(())
}

/// Makes the call that a hart asks for, at this clock of the hub, and tells the rank its reply, if
/// it is this one.
pub(crate) fn call(
    state: &mut RankState,
    hub: &mut HubState,
    clock: Stamp,
    step: &Step,
    reply: &Reply,
) -> Result<(), StepFault>
    requires hart { step.now.hart < vec_len state.old.harts }
    requires low { step.now.stamp < 2 ^ 62 }
    ensures calls { OnOk result ((links : List Link) (calls : List Call) → HasCalls hub.old clock links calls
        → Calls (rank_of state.old) hub.old clock step.now reply.now (rank_of state.new) hub.new links calls) }
    ensures fault { IfErr result (CallFault (rank_of state.old) hub.old clock step.now reply.now) }
    ensures same_rank { result ≡ Err StepFault.Memory → rank_of state.new ≡ rank_of state.old }
    ensures same_hub { result ≡ Err StepFault.Memory → hub.new ≡ hub.old }
{
    let hart = step.hart();
    let doing = state.next(hart);
    let Ok(ask) = state.ask_next(hart, &doing) else {
        return Err(StepFault::Memory);
    };
    let Ask::Hub(request) = ask else {
        return Err(StepFault::NotAStep);
    };
    ask_hub(state, hub, clock, step, reply, &doing, &request)
}
