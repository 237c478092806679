//! The posts that aren't over, by their places.

ghost use Rattle.std.specs.Prelude.{◌≡◌, ◌≤◌, ℕ, false, is_some, None, Some, IfOk, IsOk, OnErr, OnOk};
ghost use Rattle.std.specs.Option.{option_copied};
ghost use Rattle.mp_match.specs.Live.{kept, paired};
ghost use Rattle.mp_match.specs.InnerLive.{body_in, emptied, has_taken, is_partner, line_in};
ghost use Rattle.mp_match.specs.Live.{post_in};
ghost use Rattle.mp_match.specs.InnerLive.{message_of, set_at, spent_by};
ghost use Rattle.mp_match.specs.Twins.{IsTwinOf};
ghost use Rattle.mp_types.specs.Carried.{carried_by_message};
ghost use Rattle.mp_match.specs.Board.{envelope_in};

use crate::live::Live;
use crate::posts::{Line, Post};
use mp_types::{Bytes, Envelope, Message, SHORT_MAX};
use std::alloc::{AllocError, Global};
use std::collections::HashMap;

fn is_partner(partner: Option<u64>, place: u64) -> bool
    ensures { result ≡ is_partner partner place }
{
    match partner {
        None => false,
        Some(other) => other == place,
    }
}

fn message_copy(alloc: Global, live: &Live) -> Result<Option<Message>, AllocError>
    ensures copy { IfOk result (λ copy. copy ≡ message_of (Some live.now)) }
    ensures free { carried_by_message (message_of (Some live.now)) ≤ 16 → IsOk result }
{
    match (live.line.post, &live.body) {
        (Post::Send(sent), Some(bytes)) => {
            let bytes = bytes.try_copy(alloc)?;
            Ok(Some(Message {
                envelope: sent.envelope,
                bytes,
            }))
        }
        _ => Ok(None),
    }
}

// Whether a post has a message that doesn't stand in place.
#[inline(always)]
fn is_long(live: &Live) -> bool
    ensures { result ≡ false → carried_by_message (message_of (Some live.now)) ≤ 16 }
{
    match &live.body {
        None => false,
        Some(bytes) => usize::from(bytes.count()) > SHORT_MAX,
    }
}

/// The posts that aren't over, by their places.
#[derive(Drop)]
pub struct Table {
    map: HashMap<u64, Live>,
}

impl Table {
    /// Takes no memory.
    pub fn new(alloc: Global) -> Table
        ensures { (k : ℕ) → kept result.map k ≡ None }
    {
        Table {
            map: HashMap::new(alloc),
        }
    }

    /// The same posts in memory of their own.
    pub fn try_copy(&self) -> Result<Table, AllocError>
        ensures { IfOk result (λ copy. (k : ℕ) → kept copy.map k ≡ kept self.now.map k) }
    {
        Ok(Table {
            map: self.map.clone()?,
        })
    }

    /// The post at the place.
    #[inline(always)]
    pub fn at(&self, place: u64) -> Option<&Live>
        ensures { option_copied result ≡ kept self.now.map place }
    {
        self.map.get(&place)
    }

    /// Puts a post at the place. After a refusal for memory all is as it was.
    pub fn insert(&mut self, place: u64, live: Live) -> Result<(), AllocError>
        ensures ok { OnOk result ((k : ℕ) →
            kept self.new.map k ≡ set_at (kept self.old.map) place (Some live) k) }
        ensures err { OnErr result ((k : ℕ) → kept self.new.map k ≡ kept self.old.map k) }
    {
        match self.map.insert(place, live) {
            Ok(_) => Ok(()),
            Err(_) => Err(AllocError),
        }
    }

    /// Takes out the post at the place, if any, and gives it.
    pub fn take(&mut self, place: u64) -> Option<Live>
        ensures live { result ≡ kept self.old.map place }
        ensures after { (k : ℕ) → kept self.new.map k ≡ set_at (kept self.old.map) place None k }
    {
        self.map.remove(&place)
    }

    /// Takes out the post at the place, if any.
    pub fn remove(&mut self, place: u64)
        ensures { (k : ℕ) → kept self.new.map k ≡ set_at (kept self.old.map) place None k }
    {
        let _ = self.map.remove(&place);
    }

    /// The post at the place, if any, has that partner.
    pub fn set_partner(&mut self, place: u64, partner: u64)
        ensures { (k : ℕ) →
            kept self.new.map k ≡ set_at (kept self.old.map) place (paired (kept self.old.map place) partner) k }
    {
        if let Some(live) = self.map.get_mut(&place) {
            live.line.partner = Some(partner);
        }
    }

    /// Takes out the message of the post at the place, if any is held.
    pub fn take_body(&mut self, place: u64) -> Option<Bytes>
        ensures body { result ≡ body_in (kept self.old.map place) }
        ensures after { (k : ℕ) →
            kept self.new.map k ≡ set_at (kept self.old.map) place (emptied (kept self.old.map place)) k }
    {
        match self.map.get_mut(&place) {
            None => None,
            Some(live) => live.body.take(),
        }
    }

    /// The post at the place, if any.
    pub fn post(&self, place: u64) -> Option<Post>
        ensures { result ≡ post_in (line_in (kept self.now.map place)) }
    {
        match self.at(place) {
            None => None,
            Some(live) => Some(live.line.post),
        }
    }

    /// The envelope of the send at the place, if any.
    pub fn envelope(&self, place: u64) -> Option<Envelope>
        ensures { result ≡ envelope_in (line_in (kept self.now.map place)) }
    {
        match self.post(place) {
            Some(Post::Send(sent)) => Some(sent.envelope),
            _ => None,
        }
    }

    /// The place of the post that has the message of the send at the place, where that isn't held any more.
    pub fn spent_by(&self, place: u64) -> Option<u64>
        ensures { result ≡ spent_by (kept self.now.map place) }
    {
        let live = self.at(place)?;
        match (live.line.post, &live.body) {
            (Post::Send(_), None) => live.line.partner,
            _ => None,
        }
    }

    /// Whether there is a receive or a claim at the place that had the message of the send at the other.
    pub fn has_taken(&self, place: u64, send: u64) -> bool
        ensures { result ≡ has_taken (kept self.now.map place) send }
    {
        match self.at(place) {
            None => false,
            Some(live) => {
                matches!(live.line.post, Post::Receive(_) | Post::Claim(_))
                    && is_partner(live.line.partner, send)
                    && live.body.is_none()
            }
        }
    }

    /// The line of the post at the place.
    pub fn line(&self, place: u64) -> Option<Line>
        ensures { result ≡ line_in (kept self.now.map place) }
    {
        match self.at(place) {
            None => None,
            Some(live) => Some(live.line),
        }
    }

    /// Whether a message is held at the place.
    pub fn is_held(&self, place: u64) -> bool
        ensures { result ≡ is_some (body_in (kept self.now.map place)) }
    {
        match self.at(place) {
            None => false,
            Some(live) => live.body.is_some(),
        }
    }

    /// A copy of the message at the place. Refused for memory alone, and never where there is none or one of at most 16
    /// bytes.
    pub fn message_copy(&self, alloc: Global, place: u64) -> Result<Option<Message>, AllocError>
        ensures copy { IfOk result (λ copy. copy ≡ message_of (kept self.now.map place)) }
        ensures free { carried_by_message (message_of (kept self.now.map place)) ≤ 16 → IsOk result }
    {
        match self.at(place) {
            None => Ok(None),
            Some(live) => message_copy(alloc, live),
        }
    }

    /// A copy of the message at the place, if it doesn't stand in place: one of at most 16 bytes can be copied at any time.
    /// Refused for memory alone, and never where there is none or one of at most 16 bytes.
    #[inline(always)]
    pub fn twin(&self, alloc: Global, place: u64) -> Result<Option<Message>, AllocError>
        ensures twin { IfOk result (λ twin. IsTwinOf (message_of (kept self.now.map place)) twin) }
        ensures free { carried_by_message (message_of (kept self.now.map place)) ≤ 16 → IsOk result }
    {
        match self.at(place) {
            Some(live) if is_long(live) => message_copy(alloc, live),
            _ => Ok(None),
        }
    }
}
