//! What a request still needs to complete.

ghost use Rattle.std.specs.Prelude.{◌≡◌};
ghost use Rattle.cl_state.specs.Several.{post_of};
ghost use Rattle.cl_state.specs.Pending.{asked_pending, immediate_flag as flag_of, pending_at};
ghost use Rattle.cl_state.specs.Blocking.{is_blocking as is_blocking_of};
ghost use Rattle.cl_state.specs.Pending.{pending_of, pending_on};

use crate::asking::Ask;
use mp_request::{OpenRequest, Progress, State, Transfer};
use mp_types::Request;

/// How a call takes it that what it asked for isn't there yet (MPI 4.1, chapters 3.7.3 and 3.8).
#[derive(Clone, Copy, Drop)]
pub enum Manner {
    /// It ends at once, with a flag that tells whether there was something.
    Immediate,
    /// It is made anew in the hart's next turn, until there is something.
    Blocking,
    /// It waits on for the post that it polls.
    Polling,
    /// It makes a post, which is never told so.
    Posting,
}

/// What a request still needs to complete.
#[derive(Clone, Copy, Drop)]
pub enum Pending {
    /// Nothing: the null request, an inactive one, or a send that is known to be complete.
    Nothing,
    /// Nothing: a receive from the null process.
    FromNull,
    /// The message of a receive, and where it goes.
    Message {
        post: u64,
        buffer: u64,
        capacity: u16,
    },
    /// Word that a send is complete.
    Word(u64),
}

/// Where a received message goes, and what the call does then.
#[derive(Clone, Copy, Drop)]
pub struct Target {
    /// The address of the buffer, and the most bytes that it takes.
    pub buffer: u64,
    pub capacity: u64,
    /// The address of a status, or 0.
    pub status: u64,
    /// The handle of the request that completes, or 0.
    pub handle: u64,
    /// The value that the call gives.
    pub value: u64,
}

impl Manner {
    /// Whether a receive wants its message with the reply, as a blocking one does.
    pub(crate) fn is_blocking(self) -> bool
        ensures { result ≡ is_blocking_of self }
    {
        match self {
            Manner::Blocking => true,
            Manner::Immediate | Manner::Polling | Manner::Posting => false,
        }
    }

    /// The flag of an immediate call that completes; no other gives one.
    pub(crate) fn flag(self) -> u64
        ensures { result ≡ flag_of self }
    {
        match self {
            Manner::Immediate => 1,
            Manner::Blocking | Manner::Polling | Manner::Posting => 0,
        }
    }
}

fn on_post(post: u64, transfer: &Transfer) -> Pending
    ensures { result ≡ pending_on post transfer.now }
{
    match *transfer {
        Transfer::Send { .. } => Pending::Word(post),
        Transfer::Receive {
            buffer,
            capacity,
            ..
        }
        | Transfer::ReceiveClaimed { buffer, capacity } => Pending::Message {
            post,
            buffer,
            capacity,
        },
        Transfer::SendToNull
        | Transfer::ReceiveFromNull
        | Transfer::SendPartitions(_)
        | Transfer::ReceivePartitions(_) => Pending::Nothing,
    }
}

fn at(progress: Progress, transfer: &Transfer) -> Pending
    ensures { result ≡ pending_at progress transfer.now }
{
    match progress {
        Progress::Finished | Progress::Sent(_) => match *transfer {
            Transfer::ReceiveFromNull => Pending::FromNull,
            _ => Pending::Nothing,
        },
        Progress::OnPost(post) => on_post(post, transfer),
        Progress::InPhase => Pending::Nothing,
    }
}

impl Pending {
    /// What the request that a handle names needs to complete.
    pub(crate) fn of(request: Option<OpenRequest>) -> Pending
        ensures { result ≡ pending_of request }
    {
        match request {
            None => Pending::Nothing,
            Some(OpenRequest { transfer, state }) => match state {
                State::Ordinary(progress) => at(progress, &transfer),
                State::Inactive => Pending::Nothing,
                State::Active(progress) => at(progress, &transfer),
            },
        }
    }

    /// The post that is asked for it, where it needs the hub.
    pub(crate) fn post(self) -> Option<u64>
        ensures { result ≡ post_of self }
    {
        match self {
            Pending::Nothing | Pending::FromNull => None,
            Pending::Message { post, .. } | Pending::Word(post) => Some(post),
        }
    }

    /// What is asked for it.
    pub(crate) fn ask(self) -> Ask
        ensures { result ≡ asked_pending self }
    {
        match self {
            Pending::Nothing | Pending::FromNull => Ask::Local,
            Pending::Message { post, .. } => Ask::Hub(Request::Collect { post }),
            Pending::Word(post) => Ask::Hub(Request::Finished { post }),
        }
    }
}
