//! The table of calls: one row a call, with what it does at once, the reply that it wants of the hub, or the box that
//! it asks.

ghost use Rattle.std.specs.Prelude.{◌≡◌};
ghost use Rattle.mp_request.specs.Table.{request_at};
ghost use Rattle.cl_calls.specs.Checks.{receiving_side as receiving_side_of, sending_side as sending_side_of};
ghost use Rattle.cl_calls.specs.Needs.{needs_of};
ghost use Rattle.cl_calls.specs.declared.calls.Call.TheVariants as call;
ghost use Rattle.cl_state.specs.declared.asking.Doing.TheVariants.{Go};
ghost use Rattle.cl_state.specs.Partitions.{awaited as awaited_of};
ghost use Rattle.cl_state.specs.Right.{IsThere};
ghost use Rattle.cl_state.specs.Table.{begins as begins_of, begins_phase as begins_phase_of, begun_outcome as begun_of};
ghost use Rattle.cl_state.specs.Table.{claims as claims_of, comes as comes_of, completes as completes_of, completing};
ghost use Rattle.cl_state.specs.Table.{concludes as concludes_of, gathers as gathers_of, gives_at_once as gives_of};
ghost use Rattle.cl_state.specs.Table.{holds_by as holds_of, into as into_of, makes as makes_of};
ghost use Rattle.cl_state.specs.Table.{nothing_comes as nothing_comes_of, polled as polled_by, probes as probes_of};
ghost use Rattle.cl_state.specs.Table.{receives as receives_of, receives_claimed as receives_claimed_of, row_arrived};
ghost use Rattle.cl_state.specs.Table.{row_awaited, row_completing, row_of_part, row_ready, sees as sees_of};
ghost use Rattle.cl_state.specs.Table.{starts as starts_of};
ghost use Rattle.cl_state.specs.Turn.{HasArray, IsCheckedIn, posts_wanted, row_for};

use crate::asking::Doing;
use crate::partitions::Awaited;
use crate::pending::{Manner, Pending, Target};
use crate::row::{Outcome, Purpose, Row, Visit, Wanted};
use crate::several::{array, needs_hub};
use crate::transfers::{receive, receive_claimed, send, sync_send};
use crate::turn::Turn;
use cl_calls::{
    ANY, Call, Claimed, Completing, NO_MESSAGE, NO_RANK, Probing, Receiving, Several, handles_at,
    position, receiving_side, sending_side,
};
use mp_request::{OpenRequest, Partitions, Progress, State, Transfer};
use mp_types::Code;

/// How a call goes on once its transfer has begun.
pub(crate) fn begun(why: Purpose, transfer: Transfer, progress: Progress) -> Outcome
    ensures { result ≡ begun_of why transfer progress }
{
    match why {
        Purpose::Send => match progress {
            Progress::Finished | Progress::Sent(_) => Outcome::Ends(Code::Ok, 0),
            Progress::OnPost(post) => Outcome::Waits(post),
            Progress::InPhase => Outcome::Ends(Code::BadRequest, 0),
        },
        Purpose::Open => Outcome::Opens(OpenRequest {
            transfer,
            state: State::Ordinary(progress),
        }),
        Purpose::Start(handle) => Outcome::Starts { handle, progress },
    }
}

/// A partitioned transfer begins a phase, by a start alone.
fn begins_phase(why: Purpose, link: u8) -> Row
    ensures { result ≡ begins_phase_of why link }
{
    match why {
        Purpose::Start(handle) => Row::AtOnce(Outcome::BeginsPhase { handle, link }),
        Purpose::Send | Purpose::Open => Row::AtOnce(Outcome::Ends(Code::BadRequest, 0)),
    }
}

/// A transfer with the null process is finished at once, any other begins by a post.
fn begins(why: Purpose, transfer: Transfer) -> Row
    ensures { result ≡ begins_of why transfer }
{
    match transfer {
        Transfer::SendToNull | Transfer::ReceiveFromNull => {
            Row::AtOnce(begun(why, transfer, Progress::Finished))
        }
        Transfer::SendPartitions(side) | Transfer::ReceivePartitions(side) => {
            begins_phase(why, side.link)
        }
        Transfer::Send { .. } | Transfer::Receive { .. } | Transfer::ReceiveClaimed { .. } => {
            Row::OnReply(Manner::Posting, Wanted::Post(why, transfer))
        }
    }
}

/// A start begins what its request transfers.
fn starts(handle: u64, request: Option<OpenRequest>) -> Row
    ensures { result ≡ starts_of handle request }
{
    match request {
        None => Row::AtOnce(Outcome::Ends(Code::BadRequest, 0)),
        Some(request) => begins(Purpose::Start(handle), request.transfer),
    }
}

/// A persistent request is inactive when it is made.
fn makes(transfer: Transfer) -> Row
    ensures { result ≡ makes_of transfer }
{
    Row::AtOnce(Outcome::Opens(OpenRequest {
        transfer,
        state: State::Inactive,
    }))
}

/// The call ends at once with a value.
fn gives(value: u64) -> Row
    ensures { result ≡ gives_of value }
{
    Row::AtOnce(Outcome::Ends(Code::Ok, value))
}

impl Target {
    /// Where the message of a call goes that waits for it itself, and has no request.
    fn into(buffer: u64, capacity: u64, status: u64) -> Target
        ensures { result ≡ into_of buffer capacity status }
    {
        Target {
            buffer,
            capacity,
            status,
            handle: 0,
            value: 0,
        }
    }

    /// Where what completes a request goes.
    fn of(manner: Manner, call: &Completing, buffer: u64, capacity: u64) -> Target
        ensures { result ≡ completing manner call.now buffer capacity }
    {
        Target {
            buffer,
            capacity,
            status: call.status,
            handle: call.handle,
            value: manner.flag(),
        }
    }

    /// A message comes with the reply, or is waited for.
    fn comes(self) -> Row
        ensures { result ≡ comes_of self }
    {
        Row::OnReply(Manner::Posting, Wanted::MessageOrPost(self))
    }

    /// From the null process nothing comes.
    fn nothing_comes(self) -> Row
        ensures { result ≡ nothing_comes_of self }
    {
        Row::AtOnce(Outcome::Completes {
            source: NO_RANK,
            target: self,
        })
    }
}

/// A receive of its own, by where the message is to come from.
fn receives(call: &Receiving, status: u64) -> Row
    ensures { result ≡ receives_of call.now status }
{
    let target = Target::into(call.buffer, call.capacity, status);
    if call.source == NO_RANK {
        target.nothing_comes()
    } else {
        target.comes()
    }
}

/// A receive of a claimed message.
fn receives_claimed(call: &Claimed, status: u64) -> Row
    ensures { result ≡ receives_claimed_of call.now status }
{
    let target = Target::into(call.buffer, call.capacity, status);
    if call.message == NO_MESSAGE {
        target.nothing_comes()
    } else {
        target.comes()
    }
}

/// A test or a wait, by what its request needs.
fn completes(manner: Manner, call: &Completing, pending: Pending) -> Row
    ensures { result ≡ completes_of manner call.now pending }
{
    match pending {
        Pending::Nothing => Row::AtOnce(Outcome::Completes {
            source: ANY,
            target: Target::of(manner, call, 0, 0),
        }),
        Pending::FromNull => Target::of(manner, call, 0, 0).nothing_comes(),
        Pending::Message {
            post: _,
            buffer,
            capacity,
        } => {
            let target = Target::of(manner, call, buffer, u64::from(capacity));
            Row::OnReply(manner, Wanted::Message(target))
        }
        Pending::Word(_) => { Row::OnReply(manner, Wanted::Word(Target::of(manner, call, 0, 0))) }
    }
}

/// A probe of the null process finds at once that nothing comes from there, with this value.
fn probes(manner: Manner, call: &Probing, value: u64, wanted: Wanted) -> Row
    ensures { result ≡ probes_of manner call.now value wanted }
{
    if call.source == NO_RANK {
        return Row::AtOnce(Outcome::FindsNothing {
            value,
            status: call.status,
        });
    }
    Row::OnReply(manner, wanted)
}

/// A probe, which tells the envelope of a message that is there.
fn sees(manner: Manner, call: &Probing) -> Row
    ensures { result ≡ sees_of manner call.now }
{
    let status = call.status;
    let value = manner.flag();
    probes(manner, call, value, Wanted::Sight { value, status })
}

/// A matched probe, which gives the handle of the message that it claimed.
fn claims(manner: Manner, call: &Probing) -> Row
    ensures { result ≡ claims_of manner call.now }
{
    let status = call.status;
    probes(manner, call, NO_MESSAGE, Wanted::Claim { status })
}

/// What a poll wants.
fn polled(call: &Call) -> Wanted
    ensures { result ≡ polled_by call.now }
{
    match *call {
        Call::Recv { receiving, status } => {
            Wanted::Message(Target::into(receiving.buffer, receiving.capacity, status))
        }
        Call::Mrecv { claimed, status } => {
            Wanted::Message(Target::into(claimed.buffer, claimed.capacity, status))
        }
        Call::Ssend(_) => Wanted::Sent,
        _ => Wanted::Nothing,
    }
}

/// How a partitioned request completes with which nothing is left.
fn concludes(transfer: Transfer, target: Target) -> Outcome
    ensures { result ≡ concludes_of transfer target }
{
    match transfer {
        Transfer::ReceivePartitions(side) => Outcome::Arrives { side, target },
        _ => Outcome::Completes {
            source: ANY,
            target,
        },
    }
}

/// A test or a wait that is held up by its own rank.
fn holds(manner: Manner) -> Outcome
    ensures { result ≡ holds_of manner }
{
    match manner {
        Manner::Immediate => Outcome::Ends(Code::Ok, 0),
        Manner::Blocking | Manner::Polling | Manner::Posting => Outcome::Holds,
    }
}

/// A test or a wait of a partitioned request that is active, by what it awaits in its phase.
fn awaits(manner: Manner, transfer: Transfer, target: Target, awaited: Awaited) -> Row
    ensures { result ≡ row_awaited manner transfer target awaited }
{
    match awaited {
        Awaited::Nothing => Row::AtOnce(concludes(transfer, target)),
        Awaited::Unready => Row::AtOnce(holds(manner)),
        Awaited::Taking { link, part: _ } => Row::OnBox(Visit::Frees {
            manner,
            link,
            target,
        }),
        Awaited::Cut { link } => Row::OnReply(manner, Wanted::Cut { manner, link }),
        Awaited::Box { link: _, part } => match transfer {
            Transfer::ReceivePartitions(side) => Row::OnBox(Visit::Takes {
                manner,
                side,
                part,
                target,
            }),
            _ => Row::AtOnce(Outcome::Ends(Code::BadRequest, 0)),
        },
    }
}

/// A test for one partition of the receiver's side, by what it awaits. One that awaits nothing has arrived.
fn arrives(side: Partitions, asked: u8, awaited: Awaited) -> Row
    ensures { result ≡ row_of_part side asked awaited }
{
    match awaited {
        Awaited::Cut { link } => Row::OnReply(
            Manner::Immediate,
            Wanted::Cut {
                manner: Manner::Immediate,
                link,
            },
        ),
        Awaited::Box { link: _, part } => Row::OnBox(Visit::Sees { side, part, asked }),
        Awaited::Nothing | Awaited::Unready | Awaited::Taking { .. } => {
            Row::AtOnce(Outcome::Ends(Code::Ok, 1))
        }
    }
}

impl<'a> Turn<'a> {
    /// Where no request needs the hub all complete at once, and else all or none.
    fn gathers(&self, manner: Manner, several: Several) -> Row
        requires { HasArray self.now several }
        ensures { result ≡ gathers_of manner several (posts_wanted self.now several) }
    {
        let handles = handles_at(self.memory, array(&several));
        let value = manner.flag();
        if needs_hub(self.requests, handles.as_slice()) {
            Row::OnReply(manner, Wanted::All { value, several })
        } else {
            Row::AtOnce(Outcome::CompletesAll { value, several })
        }
    }

    /// A test or a wait: of a partitioned request by what it awaits in its phase, of any other by what it needs.
    fn completing(&self, manner: Manner, call: &Completing) -> Row
        ensures { result
            ≡ row_completing manner call.now
            (awaited_of self.now.phases.now (request_at self.now.requests.now call.now.handle))
            (request_at self.now.requests.now call.now.handle) }
    {
        let request = self.requests.get(call.handle);
        match (Awaited::of(self.phases, request), request) {
            (Some(awaited), Some(request)) => {
                let target = Target::of(manner, call, 0, 0);
                awaits(manner, request.transfer, target, awaited)
            }
            (_, request) => completes(manner, call, Pending::of(request)),
        }
    }

    /// A partition is made ready.
    fn readying(&self, handle: u64, part: u64) -> Row
        requires { IsThere self.now.requests.now self.now.phases.now (needs_of (call.Pready handle part)) }
        ensures { result ≡ row_ready part (sending_side_of (request_at self.now.requests.now handle)) }
    {
        match sending_side(self.requests, handle) {
            None => Row::AtOnce(Outcome::Ends(Code::BadRequest, 0)),
            Some(side) => {
                // ghost: brings into scope that the phase keeps its limits; no effect at run time
                let _phase = self.phases.sending(side.link);
                Row::OnBox(Visit::Readies {
                    link: side.link,
                    part: part as u8,
                })
            }
        }
    }

    /// It is asked whether a partition has arrived.
    fn arriving(&self, handle: u64, part: u64) -> Row
        requires { IsThere self.now.requests.now self.now.phases.now (needs_of (call.Parrived handle part)) }
        ensures { result
            ≡ row_arrived self.now.phases.now part (receiving_side_of (request_at self.now.requests.now handle)) }
    {
        match receiving_side(self.requests, handle) {
            None => Row::AtOnce(Outcome::Ends(Code::BadRequest, 0)),
            Some(side) => {
                // ghost: brings into scope that the phase keeps its limits; no effect at run time
                let _phase = self.phases.receiving(side.link);
                let asked = part as u8;
                arrives(side, asked, Awaited::of_part(self.phases, side.link, asked))
            }
        }
    }

    /// The row of a call that is right.
    fn row_of(&self, call: &Call) -> Row
        requires { IsCheckedIn self.now (Go call.now) }
        ensures { result ≡ row_for self.now (Go call.now) }
    {
        let site = self.site;
        match *call {
            Call::Exit { code } => Row::AtOnce(Outcome::Exits(code)),
            Call::Put { buffer, count } => Row::AtOnce(Outcome::Puts { buffer, count }),
            Call::Rank { comm } => gives(position(site.number, site.members(comm)).unwrap_or(0)),
            Call::Size { comm } => gives(site.members(comm).len() as u64),
            Call::Hart => gives(u64::from(self.number)),
            Call::Send(call) => begins(Purpose::Send, send(site, &call)),
            Call::Ssend(call) => begins(Purpose::Send, sync_send(site, &call)),
            Call::Isend(call) => begins(Purpose::Open, send(site, &call)),
            Call::Issend(call) => begins(Purpose::Open, sync_send(site, &call)),
            Call::Irecv(call) => begins(Purpose::Open, receive(site, &call)),
            Call::Imrecv(call) => begins(Purpose::Open, receive_claimed(&call)),
            Call::SendInit(call) => makes(send(site, &call)),
            Call::RecvInit(call) => makes(receive(site, &call)),
            Call::Recv { receiving, status } => receives(&receiving, status),
            Call::Mrecv { claimed, status } => receives_claimed(&claimed, status),
            Call::Start { handle } => starts(handle, self.requests.get(handle)),
            Call::RequestFree { handle } => Row::AtOnce(Outcome::Frees(handle)),
            Call::Test(call) => self.completing(Manner::Immediate, &call),
            Call::Wait(call) => self.completing(Manner::Blocking, &call),
            Call::Testall(call) => self.gathers(Manner::Immediate, call),
            Call::Waitall(call) => self.gathers(Manner::Blocking, call),
            Call::Iprobe(call) => sees(Manner::Immediate, &call),
            Call::Probe(call) => sees(Manner::Blocking, &call),
            Call::Improbe(call) => claims(Manner::Immediate, &call),
            Call::Mprobe(call) => claims(Manner::Blocking, &call),
            Call::PsendInit(call) => Row::OnReply(Manner::Posting, Wanted::SendingLink(call)),
            Call::PrecvInit(call) => Row::OnReply(Manner::Posting, Wanted::ReceivingLink(call)),
            Call::Pready { handle, part } => self.readying(handle, part),
            Call::Parrived { handle, part } => self.arriving(handle, part),
            Call::Unknown => Row::AtOnce(Outcome::Stays),
        }
    }

    /// The row of a turn.
    pub(crate) fn row(&self, doing: &Doing) -> Row
        requires { IsCheckedIn self.now doing.now }
        ensures { result ≡ row_for self.now doing.now }
    {
        match *doing {
            Doing::Step => Row::AtOnce(Outcome::Steps),
            Doing::Refused(code) => Row::AtOnce(Outcome::Ends(code, 0)),
            Doing::Go(call) => self.row_of(&call),
            Doing::Poll(call, _) => Row::OnReply(Manner::Polling, polled(&call)),
            Doing::Stopped => Row::AtOnce(Outcome::Stays),
        }
    }
}
