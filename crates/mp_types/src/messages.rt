//! Messages, and what is told of them.

ghost use Rattle.std.specs.Prelude.{◌≡◌, ◌≤◌, [], length, IfOk, IsOk};

use crate::lists::Bytes;
use std::alloc::{AllocError, Global};
use std::marker::Model;

/// When an event happened, by the clocks of the cluster: from 1 to 2^62 - 1, and 0 for a clock that none has moved.
pub type Stamp = u64;

/// Who sent a message, in which communicator, with which tag, and how many bytes it has.
/// (MPI 4.1, chapter 3.2.3; the destination is the rank that is told.)
#[derive(Clone, Copy, PartialEq, Eq, Drop)]
pub struct Envelope {
    /// The communicator's number, from 0 to 7.
    pub comm: u8,
    /// The sender's rank in the cluster, from 0 to 7.
    pub source: u8,
    /// From 0 to 32,767.
    pub tag: u16,
    /// How many bytes the message has, from 0 to 4,096.
    pub count: u16,
}

/// A message with its bytes.
#[derive(PartialEq, Eq, Drop)]
pub struct Message {
    pub envelope: Envelope,
    pub bytes: Bytes,
}

impl Message {
    /// The same message once more: the two share its bytes, which takes no memory. One of at most 16 bytes is never
    /// refused.
    #[inline(always)]
    pub fn try_copy(&self, alloc: Global) -> Result<Message, AllocError>
        ensures copy { IfOk result (λ copy. copy ≡ self.now) }
        ensures free { length self.now.bytes ≤ 16 → IsOk result }
    {
        let bytes = self.bytes.try_copy(alloc)?;
        Ok(Message {
            envelope: self.envelope,
            bytes,
        })
    }
}

/// What a guest finds in the 24 bytes of a status (MPI 4.1, chapter 3.2.5).
#[derive(Clone, Copy, Drop)]
pub struct Status {
    /// The sender's position in the communicator, -1 for none, -2 for the null process.
    pub source: i64,
    /// The message's tag, or -1.
    pub tag: i64,
    /// How many bytes were written, or of a probe how many the message has.
    pub count: u64,
}

impl Status {
    /// The status of a completed send, and of a request that is null or inactive.
    pub const EMPTY: Status = Status {
        source: -1,
        tag: -1,
        count: 0,
    };

    /// The status of a receive from the null process (MPI 4.1, chapter 3.11).
    pub const PROC_NULL: Status = Status {
        source: -2,
        tag: -1,
        count: 0,
    };
}

/// What several posts gave, each a message or, for a send, None. Contracts see a list.
#[derive(Drop)]
pub struct Gots {
    items: Vec<Option<Message>>,
}

impl Model for Gots {
    ghost use Rattle.std.specs.Prelude.{List, Option};
    ghost use Rattle.mp_types.specs.declared.messages.Message.{Message};

    ghost Value = { List (Option Message) };

    ghost view = { λ gots. gots.items.items };
}

impl PartialEq for Gots {
    ghost use Rattle.std.specs.Option.{option_eq};
    ghost use Rattle.std.specs.Cmp.{partial_equiv_from_equiv};
    ghost use Rattle.std.specs.Cmp.Lexicographic.{lists_equiv, options_equiv, pointwise};
    ghost use Rattle.mp_types.specs.contracts.messages.MessagePartialEq.TheImpl as message;
    ghost use Rattle.mp_types.specs.contracts.messages.MessageEq.TheImpl.Laws as message_laws;

    ghost eq = { pointwise (option_eq (message.ghosts).eq) };

    ghost laws = { partial_equiv_from_equiv (lists_equiv (options_equiv message_laws.laws-law)) };

    fn eq(&self, other: &Gots) -> bool {
        self.items.as_slice() == other.items.as_slice()
    }
}

impl Eq for Gots {
    ghost use Rattle.std.specs.Cmp.Lexicographic.{lists_equiv, options_equiv};
    ghost use Rattle.mp_types.specs.contracts.messages.MessageEq.TheImpl.Laws as message_laws;

    ghost laws = { lists_equiv (options_equiv message_laws.laws-law) };
}

impl Gots {
    /// The vector's messages. Takes no memory.
    pub fn from_vec(items: Vec<Option<Message>>) -> Gots
        ensures { result ≡ items.items }
    {
        Gots { items }
    }

    /// What was got, in the order of the posts that were asked for.
    pub fn as_slice(&self) -> &[Option<Message>]
        ensures { result.now ≡ self.now }
    {
        self.items.as_slice()
    }

    /// The same messages in a list of its own, which shares their bytes. A copy of no messages takes no memory.
    pub fn try_copy(&self, alloc: Global) -> Result<Gots, AllocError>
        ensures copy { IfOk result (λ copy. copy ≡ self.now) }
        ensures free { self.now ≡ [] → IsOk result }
    {
        let mut items = Vec::with_capacity(alloc, self.items.len())?;
        for got in &self.items {
            items.push(copy_of(alloc, got)?)?;
        }
        Ok(Gots { items })
    }
}

fn copy_of(alloc: Global, got: &Option<Message>) -> Result<Option<Message>, AllocError>
    ensures { IfOk result (λ copy. copy ≡ got.now) }
{
    match got {
        None => Ok(None),
        Some(message) => Ok(Some(message.try_copy(alloc)?)),
    }
}
