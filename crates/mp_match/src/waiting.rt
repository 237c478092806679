//! The posts that wait for a partner, in queues by key.

ghost use Rattle.std.specs.Prelude.{◌≡◌, ◌≤◌, [], length, IfOk, List, OnErr, OnOk, Some};
ghost use Rattle.mp_match.specs.declared.posts.Line.{Line};
ghost use Rattle.mp_match.specs.declared.posts.Post.{Post};
ghost use Rattle.mp_match.specs.declared.posts.Selection.{Selection};
ghost use Rattle.mp_match.specs.Pairs.{add, partner_for};
ghost use Rattle.mp_match.specs.InnerLive.{post_at};
ghost use Rattle.mp_match.specs.Queued.{queue};
ghost use Rattle.mp_match.specs.Waiting.{compared_for, key_of, key_with, one_if};
ghost use Rattle.mp_match.specs.Queues.{AreQueued, message_key};
ghost use Rattle.mp_match.specs.InnerQueues.{popped};
ghost use Rattle.mp_match.specs.Waiting.{receive_key};

use crate::history::History;
use crate::post_queues::{PostQueues, least_of};
use crate::posts::{Post, Selection, Sent};
use std::alloc::{AllocError, Global};

fn key_with(sent: Sent, source: Option<u8>, tag: Option<u16>) -> Selection
    ensures { result ≡ key_with sent source tag }
{
    Selection {
        rank: sent.dest,
        comm: sent.envelope.comm,
        source,
        tag,
    }
}

// Messages without a partner stand under their own source and tag.
fn key_of(sent: Sent) -> Selection
    ensures { result ≡ key_of sent }
{
    key_with(sent, Some(sent.envelope.source), Some(sent.envelope.tag))
}

fn one_if(place: Option<u64>) -> u64
    ensures value { result ≡ one_if place }
    ensures few { result ≤ 1 }
{
    match place {
        Some(_) => 1,
        None => 0,
    }
}

/// What a new send finds.
#[derive(Clone, Copy)]
pub struct Found {
    /// The place of its receive.
    pub partner: Option<u64>,
    /// How many waiting receives were compared, 4 at most.
    pub compared: u64,
}

/// The messages and the receives that have no partner.
#[derive(Drop)]
pub struct Waiting {
    messages: PostQueues,
    receives: PostQueues,
}

impl Waiting {
    /// Nothing waits. Takes no memory.
    pub fn new(alloc: Global) -> Waiting
        ensures messages { AreQueued message_key (queue result.messages.map) [] }
        ensures receives { AreQueued receive_key (queue result.receives.map) [] }
    {
        Waiting {
            messages: PostQueues::new(alloc),
            receives: PostQueues::new(alloc),
        }
    }

    /// The same queues in memory of their own.
    pub fn try_copy(&self) -> Result<Waiting, AllocError>
        ensures messages { IfOk result (λ copy.
            (k : Selection) → queue copy.messages.map k ≡ queue self.now.messages.map k) }
        ensures receives { IfOk result (λ copy.
            (k : Selection) → queue copy.receives.map k ≡ queue self.now.receives.map k) }
    {
        Ok(Waiting {
            messages: self.messages.try_copy()?,
            receives: self.receives.try_copy()?,
        })
    }

    /// The least-numbered of the waiting receives that accept the send, by the first ones of four queues.
    pub fn receive_for(&self, sent: Sent) -> Found
        ensures partner { (lines : List Line) → AreQueued receive_key (queue self.now.receives.map) lines
            → result.partner ≡ partner_for lines (Post.Send sent) }
        ensures compared { (lines : List Line) → AreQueued receive_key (queue self.now.receives.map) lines
            → result.compared ≡ compared_for lines sent }
    {
        let source = Some(sent.envelope.source);
        let tag = Some(sent.envelope.tag);
        let exact = self.receives.front(key_of(sent));
        let any_tag = self.receives.front(key_with(sent, source, None));
        let any_source = self.receives.front(key_with(sent, None, tag));
        let any = self.receives.front(key_with(sent, None, None));
        Found {
            partner: least_of(least_of(exact, any_tag), least_of(any_source, any)),
            compared: one_if(exact) + one_if(any_tag) + one_if(any_source) + one_if(any),
        }
    }

    /// The least-numbered of the waiting messages that are accepted.
    pub fn message_for(&self, selection: Selection) -> Option<u64>
        ensures receive { (lines : List Line) → AreQueued message_key (queue self.now.messages.map) lines
            → result ≡ partner_for lines (Post.Receive selection) }
        ensures claim { (lines : List Line) → AreQueued message_key (queue self.now.messages.map) lines
            → result ≡ partner_for lines (Post.Claim selection) }
    {
        match (selection.source, selection.tag) {
            (Some(_), Some(_)) => self.messages.front(selection),
            _ => self.messages.least_accepted(selection),
        }
    }

    // A post that was the first of its queue has a partner now.
    fn leave(&mut self, post: Post)
        ensures messages { (k : Selection) →
            queue self.new.messages.map k ≡ popped (queue self.old.messages.map) (message_key post) k }
        ensures receives { (k : Selection) →
            queue self.new.receives.map k ≡ popped (queue self.old.receives.map) (receive_key post) k }
    {
        match post {
            Post::Send(sent) => self.messages.pop(key_of(sent)),
            Post::Receive(selection) => self.receives.pop(selection),
            Post::Claim(_) => {}
        }
    }

    /// The partner of the new post doesn't wait any more.
    pub fn pair(&mut self, _history: &History, _new: Post, partner: Post)
        requires partner { Some partner ≡ post_at _history.now.board.lines (partner_for _history.now.board.lines _new) }
        requires messages { AreQueued message_key (queue self.old.messages.map) _history.now.board.lines }
        requires receives { AreQueued receive_key (queue self.old.receives.map) _history.now.board.lines }
        ensures messages { AreQueued message_key (queue self.new.messages.map) (add _history.now.board.lines _new) }
        ensures receives { AreQueued receive_key (queue self.new.receives.map) (add _history.now.board.lines _new) }
    {
        self.leave(partner);
    }

    /// The new post, at that place, waits, or else its partner doesn't wait any more. After a refusal for memory all is
    /// as it was.
    pub fn add(
        &mut self,
        _history: &History,
        place: u64,
        new: Post,
        partner: Option<Post>,
    ) -> Result<(), AllocError>
        requires place { place ≡ length _history.now.board.lines }
        requires partner { partner ≡ post_at _history.now.board.lines (partner_for _history.now.board.lines new) }
        requires messages { AreQueued message_key (queue self.old.messages.map) _history.now.board.lines }
        requires receives { AreQueued receive_key (queue self.old.receives.map) _history.now.board.lines }
        ensures messages { OnOk result
            (AreQueued message_key (queue self.new.messages.map) (add _history.now.board.lines new)) }
        ensures receives { OnOk result
            (AreQueued receive_key (queue self.new.receives.map) (add _history.now.board.lines new)) }
        ensures err_messages { OnErr result
            (AreQueued message_key (queue self.new.messages.map) _history.now.board.lines) }
        ensures err_receives { OnErr result
            (AreQueued receive_key (queue self.new.receives.map) _history.now.board.lines) }
    {
        match partner {
            None => match new {
                Post::Send(sent) => self.messages.push(key_of(sent), place),
                Post::Receive(selection) => self.receives.push(selection, place),
                // a claim never waits
                Post::Claim(_) => Ok(()),
            },
            Some(post) => {
                self.pair(_history, new, post);
                Ok(())
            }
        }
    }
}
