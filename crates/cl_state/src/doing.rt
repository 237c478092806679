//! What the next turn of a hart is, and what it asks.

ghost use Rattle.std.specs.Prelude.{◌≡◌, ◌<◌, ℕ, List, length, MatchResult, false};
ghost use Rattle.mp_request.specs.Table.{request_at};
ghost use Rattle.cl_calls.specs.Needs.{needs_of_probing};
ghost use Rattle.cl_state.specs.Asked.{asked_claim, asked_completing, asked_poll, asked_probe, asked_start};
ghost use Rattle.cl_state.specs.TurnRoom.{carried};
ghost use Rattle.cl_state.specs.Asked.{checked as checked_of, doing as doing_of, is_ecall as is_ecall_of};
ghost use Rattle.cl_state.specs.Partitions.{awaited as awaited_of};
ghost use Rattle.cl_state.specs.Pending.{pending_of};
ghost use Rattle.cl_state.specs.Right.{IsNoStep, IsRight, IsRunning};
ghost use Rattle.cl_state.specs.Standing.{IsCheckedOn, asked_on, part_on};
ghost use Rattle.cl_state.specs.declared.asking.Doing.TheVariants.{Go};

use crate::asking::{Ask, Doing};
use crate::partitions::{Awaited, ask_arrived, ask_ready, ask_receiving, ask_sending};
use crate::pending::{Manner, Pending};
use crate::several::ask_several;
use crate::transfers::{ask, ask_claimed, receive, send, source, sync_send, tag};
use cl_calls::{Call, NO_RANK, Probing, Site, Standing, fault};
use mp_request::OpenRequest;
use mp_types::{Posts, Request};
use rv_hart::{Hart, Mode, Wait};
use rv_memory::RankMemory;
use std::alloc::{AllocError, Global};

/// Whether a word is ECALL's.
#[inline(always)]
pub fn is_ecall(word: Option<u32>) -> bool
    ensures { result ≡ is_ecall_of word }
{
    match word {
        None => false,
        Some(word) => word == 0x73,
    }
}

/// The call that a hart's registers spell, if all its checks hold.
#[tactic(auto, using(crate::proofs::Checked::checked_on))]
fn checked(standing: &Standing, hart: &Hart) -> Doing
    ensures doing { (out : List ℕ) → length out ≡ standing.now.written
        → result ≡ checked_of standing.now.site.now (part_on standing.now hart.now out) }
    ensures right { IsCheckedOn standing.now result }
    ensures call { IsNoStep result }
{
    let call = Call::of(hart);
    match fault(standing, &call.needs()) {
        None => Doing::Go(call),
        Some(code) => Doing::Refused(code),
    }
}

impl Doing {
    /// What the next turn of a hart is, of a rank that stands so, with as many bytes of output.
    pub fn of(standing: &Standing, hart: &Hart) -> Doing
        ensures doing { (out : List ℕ) → length out ≡ standing.now.written
            → result ≡ doing_of standing.now.site.now (part_on standing.now hart.now out) }
        ensures right { IsCheckedOn standing.now result }
        ensures running { IsRunning result hart.now }
    {
        match hart.mode() {
            Mode::Running => {
                if is_ecall(standing.memory.text_word(hart.pc())) {
                    checked(standing, hart)
                } else {
                    Doing::Step
                }
            }
            Mode::Waiting(Wait::Post(post)) => Doing::Poll(Call::of(hart), post),
            Mode::Waiting(Wait::Again) => checked(standing, hart),
            Mode::Ended(_) => Doing::Stopped,
            Mode::Trapped(_, _) => Doing::Stopped,
        }
    }

    /// What such a turn asks. Only a copy of bytes to be sent, or a list of posts, takes memory: nothing else is
    /// refused. A list of posts that is the one that is known is shared, and takes none.
    pub fn ask(
        &self,
        alloc: Global,
        standing: &Standing,
        known: Option<&Posts>,
    ) -> Result<Ask, AllocError>
        requires { IsCheckedOn standing.now self.now }
        ensures { MatchResult result (λ ask. ask ≡ asked_on standing.now self.now)
            (λ e. 0 < carried (asked_on standing.now self.now)) }
    {
        match *self {
            Doing::Step => Ok(Ask::Plain),
            Doing::Refused(_) => Ok(Ask::Local),
            Doing::Go(call) => ask_by(alloc, standing, &call, known),
            Doing::Poll(call, post) => Ok(poll(&call, post)),
            Doing::Stopped => Ok(Ask::Idle),
        }
    }
}

/// What a poll of a post asks.
fn poll(call: &Call, post: u64) -> Ask
    ensures { result ≡ asked_poll call.now post }
{
    match *call {
        Call::Ssend(_) => Ask::Hub(Request::Finished { post }),
        _ => Ask::Hub(Request::Collect { post }),
    }
}

fn probe(site: &Site, probing: &Probing) -> Ask
    requires { IsRight site.now (needs_of_probing probing.now) }
    ensures { result ≡ asked_probe site.now probing.now }
{
    if probing.source == NO_RANK {
        return Ask::Local;
    }
    Ask::Hub(Request::Probe {
        comm: site.comm_number(probing.comm),
        source: source(site, probing.comm, probing.source),
        tag: tag(probing.tag),
    })
}

fn claim(site: &Site, probing: &Probing) -> Ask
    requires { IsRight site.now (needs_of_probing probing.now) }
    ensures { result ≡ asked_claim site.now probing.now }
{
    if probing.source == NO_RANK {
        return Ask::Local;
    }
    Ask::Hub(Request::Claim {
        comm: site.comm_number(probing.comm),
        source: source(site, probing.comm, probing.source),
        tag: tag(probing.tag),
    })
}

fn start(
    alloc: Global,
    memory: &RankMemory,
    request: Option<OpenRequest>,
) -> Result<Ask, AllocError>
    ensures { MatchResult result (λ ask. ask ≡ asked_start memory.now request)
        (λ e. 0 < carried (asked_start memory.now request)) }
{
    match request {
        None => Ok(Ask::Local),
        Some(request) => ask(alloc, memory, Manner::Immediate, &request.transfer),
    }
}

/// What TEST and WAIT ask: a partitioned request for what it awaits in its phase, any other for what it needs.
fn ask_completing(standing: &Standing, manner: Manner, handle: u64) -> Ask
    ensures { result
        ≡ asked_completing manner
        (awaited_of standing.now.phases.now (request_at standing.now.requests.now handle))
        (pending_of (request_at standing.now.requests.now handle)) }
{
    let request = standing.requests.get(handle);
    match Awaited::of(standing.phases, request) {
        Some(awaited) => awaited.ask(manner),
        None => Pending::of(request).ask(),
    }
}

/// What a right call asks: most ask the hub or one box, and the others nobody.
fn ask_by(
    alloc: Global,
    standing: &Standing,
    call: &Call,
    known: Option<&Posts>,
) -> Result<Ask, AllocError>
    requires { IsCheckedOn standing.now (Go call.now) }
    ensures { MatchResult result (λ ask. ask ≡ asked_on standing.now (Go call.now))
        (λ e. 0 < carried (asked_on standing.now (Go call.now))) }
{
    let (site, memory, requests) = (standing.site, standing.memory, standing.requests);
    match *call {
        Call::Send(sending) => ask(alloc, memory, Manner::Blocking, &send(site, &sending)),
        Call::Ssend(sending) => ask(alloc, memory, Manner::Blocking, &sync_send(site, &sending)),
        Call::Recv { receiving, .. } => ask(
            alloc,
            memory,
            Manner::Blocking,
            &receive(site, &receiving),
        ),
        Call::Isend(sending) => ask(alloc, memory, Manner::Immediate, &send(site, &sending)),
        Call::Issend(sending) => ask(alloc, memory, Manner::Immediate, &sync_send(site, &sending)),
        Call::Irecv(receiving) => ask(alloc, memory, Manner::Immediate, &receive(site, &receiving)),
        Call::Start { handle } => start(alloc, memory, requests.get(handle)),
        Call::Imrecv(claimed) => Ok(ask_claimed(Manner::Immediate, &claimed)),
        Call::Mrecv { claimed, .. } => Ok(ask_claimed(Manner::Blocking, &claimed)),
        Call::Test(call) => Ok(ask_completing(standing, Manner::Immediate, call.handle)),
        Call::Wait(call) => Ok(ask_completing(standing, Manner::Blocking, call.handle)),
        Call::Testall(several) | Call::Waitall(several) => {
            ask_several(alloc, memory, requests, &several, known)
        }
        Call::Iprobe(probing) | Call::Probe(probing) => Ok(probe(site, &probing)),
        Call::Improbe(probing) | Call::Mprobe(probing) => Ok(claim(site, &probing)),
        Call::PsendInit(partitioning) => Ok(ask_sending(site, &partitioning)),
        Call::PrecvInit(partitioning) => Ok(ask_receiving(site, &partitioning)),
        Call::Pready { handle, part } => Ok(ask_ready(standing, handle, part)),
        Call::Parrived { handle, part } => Ok(ask_arrived(standing, handle, part)),
        _ => Ok(Ask::Local),
    }
}
