//! What the hub answers.

ghost use Rattle.std.specs.Prelude.{◌≡◌, ◌↔◌, IfOk, IsOk, IsTrue};
ghost use Rattle.mp_types.specs.Carried.{carried_by_reply, IsInPlace};

use crate::codes::Code;
use crate::messages::{Envelope, Gots, Message};
use std::alloc::{AllocError, Global};

/// What the hub answers.
#[derive(PartialEq, Eq, Drop)]
pub enum Reply {
    /// The request was refused.
    Code(Code),
    /// A send or a receive was posted under this number. `done` tells that it is a send and complete.
    Posted { post: u64, done: bool },
    /// A message, which is no longer held.
    Got(Message),
    /// What was asked for isn't there yet.
    NotYet,
    /// The send is complete.
    Done,
    /// What a receive would give.
    Seen(Envelope),
    /// A message was claimed; its handle is this number.
    Held(u64, Envelope),
    /// What several posts gave, all of them complete.
    AllGot(Gots),
    /// The link of a partitioned transfer, by its number in the image.
    Link(u8),
    /// How the sender of a link cut its transfer: so many partitions of so many bytes each.
    Cut { parts: u8, size: u8 },
}

impl Reply {
    /// Whether the other is the same reply.
    pub fn is_same(&self, other: &Reply) -> bool
        ensures { IsTrue result ↔ (self.now ≡ other.now) }
    {
        self == other
    }

    /// The same reply once more: the two share the bytes of messages. The list of what several posts gave is copied. A
    /// copy of one that carries no elements, or a message of at most 16 bytes, is never refused.
    #[inline(always)]
    pub fn try_copy(&self, alloc: Global) -> Result<Reply, AllocError>
        ensures copy { IfOk result (λ copy. copy ≡ self.now) }
        ensures free { carried_by_reply self.now ≡ 0 → IsOk result }
        ensures in_place { IsInPlace self.now → IsOk result }
    {
        match self {
            Reply::Code(code) => Ok(Reply::Code(*code)),
            Reply::Posted { post, done } => Ok(Reply::Posted {
                post: *post,
                done: *done,
            }),
            Reply::Got(message) => Ok(Reply::Got(message.try_copy(alloc)?)),
            Reply::NotYet => Ok(Reply::NotYet),
            Reply::Done => Ok(Reply::Done),
            Reply::Seen(envelope) => Ok(Reply::Seen(*envelope)),
            Reply::Held(message, envelope) => Ok(Reply::Held(*message, *envelope)),
            Reply::AllGot(gots) => Ok(Reply::AllGot(gots.try_copy(alloc)?)),
            Reply::Link(link) => Ok(Reply::Link(*link)),
            Reply::Cut { parts, size } => Ok(Reply::Cut {
                parts: *parts,
                size: *size,
            }),
        }
    }
}
