//! IRECVs, and WAITs for their messages, which are worked out straight from the registers and the open requests.
//!
//! A rank that receives so makes these calls again and again. Their checks aren't made one by one, and what they ask and
//! their rows aren't looked up. Their replies are told by the rows, as those of other calls are.

ghost use Rattle.std.specs.Prelude.{◌≡◌, ◌<◌, IfSome, vec_len};
ghost use Rattle.mp_request.specs.declared.entries.Transfer.TheVariants as transfer;
ghost use Rattle.cl_state.specs.Transfers.{source_of, tag_of};
ghost use Rattle.cl_state.specs.declared.asking.Ask.TheVariants as ask;
ghost use Rattle.cl_rank.specs.Known.{IsKnown};
ghost use Rattle.cl_rank.specs.QuickHandles.{Opens, Waits};
ghost use Rattle.cl_rank.specs.QuickReceives.{IsRightReceive};

use crate::quick_receives::{is_right, request_of};
use crate::quick_sends::is_at_call;
use crate::turning::Turn;
use cl_calls::{Call, Completing, Receiving, Site};
use cl_state::{Doing, Manner, Purpose, RankState, Row, Target, Wanted, source, tag};
use mp_request::{OpenRequest, Progress, State, Transfer};
use mp_types::Request;
use rv_memory::RankMemory;

/// What a receive that is right transfers.
#[inline(always)]
fn transfer_of(site: &Site, memory: &RankMemory, receiving: &Receiving) -> Transfer
    requires { IsRightReceive site.now memory.now receiving.now }
    ensures { result ≡ transfer.Receive receiving.now.buffer receiving.now.capacity
        (source_of site.now receiving.now.comm receiving.now.source) (tag_of receiving.now.tag) receiving.now.comm }
{
    Transfer::Receive {
        buffer: receiving.buffer,
        capacity: receiving.capacity as u16,
        source: source(site, receiving.comm, receiving.source),
        tag: tag(receiving.tag),
        comm: site.comm_number(receiving.comm),
    }
}

/// The row of an IRECV that is right, while a handle is free, and what it asks the hub.
#[inline(always)]
fn opened(state: &RankState, receiving: &Receiving) -> Option<(Row, Request)>
    ensures { IfSome result (λ it. Opens state.now receiving.now it.0 it.1) }
{
    let (site, memory) = (&state.site, &state.memory);
    if !is_right(site, memory, receiving) || state.requests.lowest_free().is_none() {
        return None;
    }
    let transfer = transfer_of(site, memory, receiving);
    Some((
        Row::OnReply(Manner::Posting, Wanted::Post(Purpose::Open, transfer)),
        request_of(site, memory, false, receiving),
    ))
}

/// The row of a WAIT that wants no status, for a receive that has its post and the pages of its buffer, and what it asks the
/// hub.
#[inline(always)]
fn waited(state: &RankState, call: &Completing) -> Option<(Row, Request)>
    ensures { IfSome result (λ it. Waits state.now call.now it.0 it.1) }
{
    let Some(
        OpenRequest {
            transfer: Transfer::Receive {
                buffer,
                capacity,
                ..
            },
            state: State::Ordinary(Progress::OnPost(post)),
        },
    ) = state.requests.get(call.handle)
    else {
        return None;
    };
    let capacity = u64::from(capacity);
    if call.status != 0 || state.memory.missing(buffer, capacity) != 0 {
        return None;
    }
    let target = Target {
        buffer,
        capacity,
        status: 0,
        handle: call.handle,
        value: 0,
    };
    Some((
        Row::OnReply(Manner::Blocking, Wanted::Message(target)),
        Request::Collect { post },
    ))
}

/// The turn of a hart that makes such a call, and what it asks the hub. Any other turn is left to the table of calls.
#[inline(always)]
pub(crate) fn at_handle(state: &RankState, hart: u8) -> Option<(Turn, Request)>
    requires { hart < vec_len state.now.harts }
    ensures known { IfSome result (λ it. IsKnown state.now it.0 (ask.Hub it.1)) }
    ensures hart { IfSome result (λ it. it.0.hart ≡ hart) }
{
    let at = &state.harts[hart as usize];
    if !is_at_call(at, &state.memory) {
        return None;
    }
    let call = Call::of(at);
    let (row, request) = match &call {
        Call::Irecv(receiving) => opened(state, receiving)?,
        Call::Wait(completing) => waited(state, completing)?,
        _ => return None,
    };
    let turn = Turn {
        hart,
        doing: Doing::Go(call),
        row,
    };
    Some((turn, request))
}
