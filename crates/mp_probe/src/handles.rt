//! Claimed messages and their handles.

ghost use Rattle.std.specs.Prelude.{◌≡◌, ◌+◌, ◌-◌, ◌<◌, ◌^◌, ◌↔◌, [], length, false, IfOk, IfErr, IsOk, OnErr, OnOk};
ghost use Rattle.std.specs.Prelude.{Err, None};
ghost use Rattle.mp_match.specs.Board.{claimed_if, probed};
ghost use Rattle.mp_probe.specs.Claims.{handle_if, is_claim, is_waiting, may_receive, next_number, without_claim};
ghost use Rattle.mp_probe.specs.Claims.{waiting_if};
ghost use Rattle.mp_match.specs.declared.posts.Post.TheVariants as post;

use mp_match::{Queues, Selection};
use mp_types::Envelope;
use std::alloc::{AllocError, Global};
use std::marker::Model;

/// A claimed message that wasn't received.
#[derive(Clone, Copy)]
pub struct Waiting {
    /// The message's handle, which is the number of its claim.
    pub message: u64,
    /// The rank that claimed it.
    pub rank: u8,
}

/// Why a message wasn't claimed or received.
#[derive(Clone, Copy)]
pub enum ClaimFault {
    /// The handle isn't that of a message which the rank claimed and hasn't received.
    BadMessage,
    Memory,
}

/// The claimed messages that weren't received. Contracts see a list of them, in the order of their claims.
#[derive(Drop)]
pub struct Claims {
    waiting: Vec<Waiting>,
}

impl Model for Claims {
    ghost use Rattle.std.specs.Prelude.{List};
    ghost use Rattle.mp_probe.specs.declared.handles.Waiting.{Waiting};

    ghost Value = { List Waiting };

    ghost view = { λ c. c.waiting.items };
}

impl Claims {
    /// No claimed messages. Takes no memory.
    pub fn new(alloc: Global) -> Claims
        ensures { result ≡ [] }
    {
        Claims {
            waiting: Vec::new(alloc),
        }
    }

    /// These claimed messages, which weren't received, in memory of their own. The only error is want of memory.
    pub fn of(alloc: Global, waiting: &[Waiting]) -> Result<Claims, AllocError>
        ensures { IfOk result (λ claims. claims ≡ waiting.now) }
    {
        let waiting = Vec::from_slice(alloc, waiting)?;
        Ok(Claims { waiting })
    }

    /// The same messages in memory of their own. A copy of none takes no memory.
    pub fn try_copy(&self, alloc: Global) -> Result<Claims, AllocError>
        ensures copy { IfOk result (λ copy. copy ≡ self.now) }
        ensures free { self.now ≡ [] → IsOk result }
    {
        let mut waiting = Vec::with_capacity(alloc, self.waiting.len())?;
        waiting.extend_from_slice(self.waiting.as_slice())?;
        Ok(Claims { waiting })
    }

    /// Takes a message out of matching where there is one, and gives its handle: the number of the claim's post.
    ///
    /// Refused for memory alone, and never where there is no message; after a refusal all is as it was.
    pub fn claim(
        &mut self,
        queues: &mut Queues,
        selection: Selection,
    ) -> Result<Option<(u64, Envelope)>, ClaimFault>
        requires { length queues.old.lines < 2 ^ 64 - 1 }
        ensures held { IfOk result (λ held.
            held ≡ handle_if (next_number queues.old) (probed queues.old (post.Claim selection))) }
        ensures posted { OnOk result
            (queues.new ≡ claimed_if queues.old selection (probed queues.old (post.Claim selection))) }
        ensures waiting { OnOk result
            (self.new ≡ waiting_if self.old selection.rank (next_number queues.old)
            (probed queues.old (post.Claim selection))) }
        ensures free { probed queues.old (post.Claim selection) ≡ None → IsOk result }
        ensures refusal { IfErr result (λ fault. fault ≡ ClaimFault.Memory) }
        ensures err { OnErr result (self.new ≡ self.old) }
        ensures queues_err { OnErr result (queues.new ≡ queues.old) }
    {
        if queues.probe(selection).is_none() {
            return Ok(None);
        }
        let message = queues.posts() + 1;
        if self.waiting.reserve(1).is_err() {
            return Err(ClaimFault::Memory);
        }
        match queues.claim(selection) {
            Ok(Some(envelope)) => {
                self.waiting.push_reserved(Waiting {
                    message,
                    rank: selection.rank,
                });
                Ok(Some((message, envelope)))
            }
            Ok(None) => Ok(None),
            Err(_) => Err(ClaimFault::Memory),
        }
    }

    /// Marks a claimed message as received. BadMessage where it isn't one that this rank claimed and hasn't received;
    /// then nothing changes. Takes no memory.
    pub fn receive_claimed(&mut self, rank: u8, message: u64) -> Result<(), ClaimFault>
        ensures bad_message { (result ≡ Err ClaimFault.BadMessage) ↔ (may_receive self.old rank message ≡ false) }
        ensures ok { OnOk result (self.new ≡ without_claim self.old rank message) }
        ensures refusal { IfErr result (λ fault. fault ≡ ClaimFault.BadMessage) }
        ensures err { OnErr result (self.new ≡ self.old) }
    {
        if !self.may_receive(rank, message) {
            return Err(ClaimFault::BadMessage);
        }
        self.waiting
            .retain(|w| !(w.rank == rank && w.message == message));
        Ok(())
    }

    /// Whether the rank claimed the message and hasn't received it.
    pub fn may_receive(&self, rank: u8, message: u64) -> bool
        ensures { result ≡ may_receive self.now rank message }
    {
        self.waiting
            .iter()
            .any(|w| w.rank == rank && w.message == message)
    }

    /// Whether the message was claimed, by any rank, and not received.
    pub fn is_waiting(&self, message: u64) -> bool
        ensures { result ≡ is_waiting self.now message }
    {
        self.waiting.iter().any(|w| w.message == message)
    }
}
