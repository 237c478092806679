//! What a rank asks of the hub.

ghost use Rattle.std.specs.Prelude.{◌≡◌, ◌↔◌, IfOk, IsOk, IsTrue};
ghost use Rattle.mp_types.specs.Carried.{carried_by_request};

use crate::lists::{Bytes, Posts};
use std::alloc::{AllocError, Global};

/// What a rank asks of the hub. Ranks are ranks of the cluster; a source or tag of None is any.
#[derive(PartialEq, Eq, Drop)]
pub enum Request {
    /// Sends a message, in standard or in synchronous mode (MPI 4.1, chapter 3.4).
    Send {
        sync: bool,
        comm: u8,
        dest: u8,
        tag: u16,
        bytes: Bytes,
    },
    /// Posts a receive (3.2.4). With `now` a message that is there is given at once.
    Recv {
        now: bool,
        comm: u8,
        source: Option<u8>,
        tag: Option<u16>,
    },
    /// Asks for the message of a receive, or of a received claim, that was posted before.
    Collect {
        post: u64,
    },
    /// Asks whether a send that was posted before is complete.
    Finished {
        post: u64,
    },
    /// Asks what a receive would give, and takes nothing (3.8.1).
    Probe {
        comm: u8,
        source: Option<u8>,
        tag: Option<u16>,
    },
    /// Takes a message out of matching (3.8.2).
    Claim {
        comm: u8,
        source: Option<u8>,
        tag: Option<u16>,
    },
    /// Receives a claimed message by its handle (3.8.3). With `now` it is given at once.
    Claimed {
        now: bool,
        message: u64,
    },
    /// Asks that several posts complete together (3.7.5).
    All {
        posts: Posts,
    },
    /// Begins one side of a partitioned transfer (4.2), with so many partitions of so many bytes each.
    Init {
        sending: bool,
        comm: u8,
        peer: u8,
        tag: u16,
        parts: u8,
        size: u8,
    },
    /// Asks how the sender of a link cut its transfer (MPI 4.1, chapter 4.2; its receiver may cut the same bytes
    /// otherwise).
    Cut {
        link: u8,
    },
}

impl Request {
    /// Whether the other is the same request.
    pub fn is_same(&self, other: &Request) -> bool
        ensures { IsTrue result ↔ (self.now ≡ other.now) }
    {
        self == other
    }

    /// The same request once more: the two share what it carries, which takes no memory. One that carries no elements is
    /// never refused.
    #[inline(always)]
    pub fn try_copy(&self, alloc: Global) -> Result<Request, AllocError>
        ensures copy { IfOk result (λ copy. copy ≡ self.now) }
        ensures free { carried_by_request self.now ≡ 0 → IsOk result }
    {
        match self {
            Request::Send {
                sync,
                comm,
                dest,
                tag,
                bytes,
            } => Ok(Request::Send {
                sync: *sync,
                comm: *comm,
                dest: *dest,
                tag: *tag,
                bytes: bytes.try_copy(alloc)?,
            }),
            Request::Recv {
                now,
                comm,
                source,
                tag,
            } => Ok(Request::Recv {
                now: *now,
                comm: *comm,
                source: *source,
                tag: *tag,
            }),
            Request::Collect { post } => Ok(Request::Collect { post: *post }),
            Request::Finished { post } => Ok(Request::Finished { post: *post }),
            Request::Probe { comm, source, tag } => Ok(Request::Probe {
                comm: *comm,
                source: *source,
                tag: *tag,
            }),
            Request::Claim { comm, source, tag } => Ok(Request::Claim {
                comm: *comm,
                source: *source,
                tag: *tag,
            }),
            Request::Claimed { now, message } => Ok(Request::Claimed {
                now: *now,
                message: *message,
            }),
            Request::All { posts } => Ok(Request::All {
                posts: posts.try_copy(alloc)?,
            }),
            Request::Init {
                sending,
                comm,
                peer,
                tag,
                parts,
                size,
            } => Ok(Request::Init {
                sending: *sending,
                comm: *comm,
                peer: *peer,
                tag: *tag,
                parts: *parts,
                size: *size,
            }),
            Request::Cut { link } => Ok(Request::Cut { link: *link }),
        }
    }
}
