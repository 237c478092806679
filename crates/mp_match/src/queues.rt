//! All posts with their pairs. Posts that wait for a partner stand in queues by key.

ghost use Rattle.std.specs.Prelude.{◌≡◌, ◌+◌, ◌<◌, ◌≤◌, ◌^◌, ◌∷◌, ◌↔◌, [], length, not, ◌||◌, is_some, IfOk, IfSome};
ghost use Rattle.std.specs.Prelude.{ℕ, Option, IsNone, IsOk, OnErr, OnOk, Err, None, Some, ◌-◌, slice_get, slice_set};
ghost use Rattle.mp_match.specs.Pairs.{partner_for};
ghost use Rattle.mp_match.specs.Board.{claim_at, claimed_if, collect, collect_from, compared_after, is_standard};
ghost use Rattle.mp_match.specs.Claimed.{holds, is_claim_collected, open_claim};
ghost use Rattle.mp_match.specs.Bodies.{bytes_in};
ghost use Rattle.mp_match.specs.Board.{envelope_at, envelope_in, held_count, is_collected, is_finished, is_held, is_receive_at};
ghost use Rattle.mp_match.specs.Board.{is_receive_of, is_send_of, line_of, message_at, message_in, no_posts};
ghost use Rattle.mp_match.specs.Board.{partner_of, board_with};
ghost use Rattle.mp_match.specs.Board.{probed, receive_posted, send_posted, without};
ghost use Rattle.mp_match.specs.InnerLive.{IsPast, message_of, owner_in};
ghost use Rattle.mp_match.specs.FreePosts.{free_post};
ghost use Rattle.mp_types.specs.Carried.{carried_by_message};
ghost use Rattle.mp_match.specs.Twins.{IsTwinOf};

mod building;
mod live_posts;

use crate::entering::enter;
use crate::history::History;
use crate::live::{
    Live, Owner, add_owner, awaits, count_of, is_sender, is_standard, is_taker, owner_at, receives,
    sends,
};
use crate::posts::{Line, Post, Selection, Sent};
use crate::table::Table;
use crate::waiting::{Found, Waiting};
use mp_types::{Bytes, Envelope, Message};
use std::alloc::{AllocError, Global};
use std::marker::Model;

/// The most messages that are held.
pub const HELD_MAX: u64 = 65_536;

/// Why a send wasn't posted.
#[derive(Clone, Copy)]
pub enum PostFault {
    /// 65,536 messages are held.
    Full,
    Memory,
}

/// All posts with their pairs, and the bytes of the messages that are held. Contracts see a board of both.
///
/// A message is held from its send until its receive is collected. Posts go by their numbers, from 1; a number that no
/// post has is the number of a post that never gets a message.
///
/// What is kept is what may still be asked for: of each post two bytes, and all of one that waits for a partner or whose
/// message is held.
#[derive(Drop)]
pub struct Queues {
    alloc: Global,
    owners: Vec<Owner>,
    table: Table,
    waiting: Waiting,
    held: u64,
    compared: u64,
    // What the others stand for: all posts ever made. No bytes.
    history: History,
}

impl Model for Queues {
    ghost use Rattle.std.specs.Prelude.{◌≡◌};
    ghost use Rattle.mp_match.specs.Board.{Board, held_count};
    ghost use Rattle.mp_match.specs.Live.{StandFor, kept};
    ghost use Rattle.mp_match.specs.Queued.{queue};
    ghost use Rattle.mp_match.specs.Waiting.{receive_key};
    ghost use Rattle.mp_match.specs.Queues.{AreQueued, message_key};

    ghost Value = { Board };

    ghost view = { λ q. q.history.board };

    ghost invariant = { λ q. StandFor q.owners.items (kept q.table.map) q.history.board
        × (q.held ≡ held_count q.history.board.bodies) × (q.compared ≡ q.history.board.compared)
        × AreQueued message_key (queue q.waiting.messages.map) q.history.board.lines
        × AreQueued receive_key (queue q.waiting.receives.map) q.history.board.lines };
}

// A message that is held, of its envelope and its bytes.
#[inline(always)]
fn message_of(envelope: Option<Envelope>, body: Option<Bytes>) -> Option<Message>
    ensures { result ≡ message_in envelope (Some body) }
{
    match (envelope, body) {
        (Some(envelope), Some(bytes)) => Some(Message { envelope, bytes }),
        _ => None,
    }
}

// The envelope of a send.
fn envelope_of(post: Post) -> Option<Envelope>
    ensures { (partner : Option ℕ) → result ≡ envelope_in (Some (record { post = post; partner = partner })) }
{
    match post {
        Post::Send(sent) => Some(sent.envelope),
        _ => None,
    }
}

// Whether a send with that partner is complete.
#[inline(always)]
fn is_done(sent: Sent, partner: Option<u64>) -> bool
    ensures { result ≡ (not sent.sync || is_some partner) }
{
    !sent.sync || partner.is_some()
}

// The message of a send, while it is held.
#[inline(always)]
fn message_from(live: Live) -> Option<Message>
    ensures { result ≡ message_of (Some live) }
{
    message_of(envelope_of(live.line.post), live.body)
}

// All posts and one more, which takes out the message of the send at the place.
fn with_received(history: &History, new: &Post, place: &u64) -> History
    ensures { result.board ≡ without (board_with history.now.board new.now None) place.now }
{
    history.with_post(new, &None).without(place)
}

impl Queues {
    /// No posts. Takes no memory.
    pub fn new(alloc: Global) -> Queues
        ensures { result ≡ no_posts }
    {
        Queues {
            alloc,
            owners: Vec::new(alloc),
            table: Table::new(alloc),
            waiting: Waiting::new(alloc),
            held: 0,
            compared: 0,
            history: History::new(),
        }
    }

    /// The same posts in memory of their own, with the same messages, which share their bytes. A copy of no posts takes
    /// no memory.
    pub fn try_copy(&self, alloc: Global) -> Result<Queues, AllocError>
        ensures copy { IfOk result (λ copy. copy ≡ self.now) }
        ensures free { self.now ≡ no_posts → IsOk result }
    {
        if self.owners.is_empty() {
            return Ok(Queues {
                alloc,
                owners: Vec::new(alloc),
                table: Table::new(alloc),
                waiting: Waiting::new(alloc),
                held: 0,
                compared: self.compared,
                history: self.history.again(),
            });
        }
        self.copy_all(alloc)
    }

    // The same posts, each with what is kept of it.
    fn copy_all(&self, alloc: Global) -> Result<Queues, AllocError>
        ensures { IfOk result (λ copy. copy ≡ self.now) }
    {
        let owners = Vec::from_slice(alloc, self.owners.as_slice())?;
        let table = self.table.try_copy()?;
        let waiting = self.waiting.try_copy()?;
        Ok(Queues {
            alloc,
            owners,
            table,
            waiting,
            held: self.held,
            compared: self.compared,
            history: self.history.again(),
        })
    }

    /// How many posts were made, which is the number of the last one.
    pub fn posts(&self) -> u64
        ensures { result ≡ length self.now.lines }
    {
        self.owners.len() as u64
    }

    /// How many messages are held.
    pub fn held(&self) -> u64
        ensures { result ≡ held_count self.now.bodies }
    {
        self.held
    }

    /// How many waiting receives the last send that was posted compared; 0 before the first.
    pub fn compared(&self) -> u64
        ensures { result ≡ self.now.compared }
    {
        self.compared
    }

    // What a new post would find.
    fn find(&self, new: Post) -> Found
        ensures partner { result.partner ≡ partner_for self.now.lines new }
        ensures compared { result.compared ≡ compared_after self.now new }
    {
        match new {
            Post::Send(sent) => self.waiting.receive_for(sent),
            Post::Receive(selection) => Found {
                partner: self.waiting.message_for(selection),
                compared: self.compared,
            },
            Post::Claim(selection) => Found {
                partner: self.waiting.message_for(selection),
                compared: self.compared,
            },
        }
    }

    // One post more, which found its partner before.
    fn add_to(&mut self, found: Found, new: Post, body: Option<Bytes>) -> Result<(), AllocError>
        requires few { length self.old.lines < 2 ^ 64 - 1 }
        requires partner { found.partner ≡ partner_for self.old.lines new }
        requires compared { found.compared ≡ compared_after self.old new }
        ensures ok { OnOk result (self.new ≡ board_with self.old new body) }
        ensures err { OnErr result (self.new ≡ self.old) }
    {
        let place = self.owners.len() as u64;
        let line = Line {
            post: new,
            partner: found.partner,
        };
        let more = count_of(&body);
        let history = self.history.with_post(&new, &body);
        self.owners.reserve(1)?;
        let live = Live {
            alloc: self.alloc,
            line,
            body,
        };
        enter(
            &self.history,
            &mut self.table,
            &mut self.waiting,
            place,
            live,
        )?;
        add_owner(&mut self.owners, line);
        self.held += more;
        self.compared = found.compared;
        self.history = history;
        Ok(())
    }

    /// Posts a send, and tells whether it is complete: a standard send is, and a synchronous one that is paired.
    ///
    /// Full where 65,536 messages are held, Memory where a list can't grow. Both leave all as it was.
    #[inline(always)]
    pub fn post_send(&mut self, sent: Sent, bytes: Bytes) -> Result<bool, PostFault>
        requires { length self.old.lines < 2 ^ 64 - 1 }
        ensures done { IfOk result (λ done.
            done ≡ (not sent.sync || is_some (partner_for self.old.lines (Post.Send sent)))) }
        ensures posted { IfOk result (λ _. self.new ≡ send_posted self.old sent bytes) }
        ensures compared { IfOk result (λ _. self.new.compared ≤ 4) }
        ensures full { (result ≡ Err PostFault.Full) ↔ (65536 ≤ held_count self.old.bodies) }
        ensures err { OnErr result (self.new ≡ self.old) }
    {
        if self.held >= HELD_MAX {
            return Err(PostFault::Full);
        }
        let new = Post::Send(sent);
        let found = self.find(new);
        match self.add_to(found, new, Some(bytes)) {
            Ok(()) => Ok(is_done(sent, found.partner)),
            Err(_) => Err(PostFault::Memory),
        }
    }

    /// Posts a receive. After a refusal for memory all is as it was.
    pub fn post_recv(&mut self, selection: Selection) -> Result<(), AllocError>
        requires { length self.old.lines < 2 ^ 64 - 1 }
        ensures ok { IfOk result (λ _. self.new ≡ receive_posted self.old selection) }
        ensures err { OnErr result (self.new ≡ self.old) }
    {
        let new = Post::Receive(selection);
        let found = self.find(new);
        self.add_to(found, new, None)
    }

    // What the post would be given, if anything.
    fn probe_for(&self, new: Post) -> Option<Envelope>
        ensures { result ≡ probed self.now new }
    {
        self.envelope_of(new, self.find(new).partner)
    }

    /// What a receive would be given, if anything, and so what a claim would be given. (MPI 4.1, chapter 3.8.1.)
    pub fn probe(&self, selection: Selection) -> Option<Envelope>
        ensures receive { result ≡ probed self.now (Post.Receive selection) }
        ensures claim { result ≡ probed self.now (Post.Claim selection) }
    {
        self.probe_for(Post::Receive(selection))
    }

    /// Takes a message out of matching, where there is one: a claim is then the last post.
    /// (MPI 4.1, chapter 3.8.2.) After a refusal for memory all is as it was. Where there is none no memory is taken.
    pub fn claim(&mut self, selection: Selection) -> Result<Option<Envelope>, AllocError>
        requires { length self.old.lines < 2 ^ 64 - 1 }
        ensures envelope { IfOk result (λ envelope. envelope ≡ probed self.old (Post.Claim selection)) }
        ensures claimed { IfOk result (λ envelope. self.new ≡ claimed_if self.old selection envelope) }
        ensures free { probed self.old (Post.Claim selection) ≡ None → IsOk result }
        ensures err { OnErr result (self.new ≡ self.old) }
    {
        let found = self.find(Post::Claim(selection));
        match self.envelope_of(Post::Claim(selection), found.partner) {
            None => Ok(None),
            Some(envelope) => {
                self.add_to(found, Post::Claim(selection), None)?;
                Ok(Some(envelope))
            }
        }
    }

    /// Takes out the message of a receive or a claim, where it has one that is still held.
    pub fn collect(&mut self, post: u64) -> Option<Message>
        ensures message { result ≡ (collect self.old post).0 }
        ensures after { self.new ≡ (collect self.old post).1 }
    {
        let partner = self.kept_partner(post);
        self.collect_from(partner)
    }

    /// Takes out the message of a receive or a claim as `collect` does. `twin` is that message once more, which shares its
    /// bytes. It may be None where there is no message, or one of at most 16 bytes, which can be copied at any time.
    ///
    /// Refused for memory alone, and never where there is no message or one of at most 16 bytes; after a refusal all is
    /// as it was.
    pub fn collect_with(
        &mut self,
        alloc: Global,
        post: u64,
        twin: &mut Option<Message>,
    ) -> Result<Option<Message>, AllocError>
        ensures message { IfOk result (λ message. message ≡ (collect self.old post).0) }
        ensures after { OnOk result (self.new ≡ (collect self.old post).1) }
        ensures twin { OnOk result (IsTwinOf (collect self.old post).0 twin.new) }
        ensures free { carried_by_message (collect self.old post).0 ≤ 16 → IsOk result }
        ensures err { OnErr result (self.new ≡ self.old) }
    {
        let partner = self.kept_partner(post);
        *twin = self.twin_from(alloc, partner)?;
        Ok(self.collect_from(partner))
    }

    /// A copy of the message that `collect` would take out.
    ///
    /// Refused for memory alone, and never where there is no message or one of at most 16 bytes.
    pub fn copy_of(&self, alloc: Global, post: u64) -> Result<Option<Message>, AllocError>
        ensures copy { IfOk result (λ copy. copy ≡ (collect self.now post).0) }
        ensures free { carried_by_message (collect self.now post).0 ≤ 16 → IsOk result }
    {
        self.copy_from(alloc, self.kept_partner(post))
    }

    /// Posts a receive and takes out its message at once, where there is one; `twin` is as `collect_with` has it. After a
    /// refusal for memory all is as it was, and nothing was posted.
    #[inline(always)]
    pub fn receive_with(
        &mut self,
        alloc: Global,
        selection: Selection,
        twin: &mut Option<Message>,
    ) -> Result<Option<Message>, AllocError>
        requires { length self.old.lines < 2 ^ 64 - 1 }
        ensures message { IfOk result (λ message.
            message ≡ (collect (receive_posted self.old selection) (length self.old.lines + 1)).0) }
        ensures after { OnOk result
            (self.new ≡ (collect (receive_posted self.old selection) (length self.old.lines + 1)).1) }
        ensures twin { IfOk result (λ message. IsTwinOf message twin.new) }
        ensures err { OnErr result (self.new ≡ self.old) }
    {
        let found = self.find(Post::Receive(selection));
        *twin = self.twin_from(alloc, found.partner)?;
        match found.partner {
            None => {
                self.add_to(found, Post::Receive(selection), None)?;
                Ok(None)
            }
            Some(place) => self.receive_once(selection, place),
        }
    }

    // Posts a receive that finds the send at the place, and takes its message out. Both are over at once: so the receive is
    // entered nowhere, and all that was kept of the send is let go.
    #[inline(always)]
    fn receive_once(
        &mut self,
        selection: Selection,
        place: u64,
    ) -> Result<Option<Message>, AllocError>
        requires few { length self.old.lines < 2 ^ 64 - 1 }
        requires partner { Some place ≡ partner_for self.old.lines (Post.Receive selection) }
        ensures message { IfOk result (λ message. message ≡ message_at self.old place) }
        ensures after { OnOk result (self.new ≡ without (receive_posted self.old selection) place) }
        ensures err { OnErr result (self.new ≡ self.old) }
    {
        self.owners.reserve(1)?;
        let Some(live) = self.table.take(place) else {
            unreachable!()
        };
        let new = Post::Receive(selection);
        self.waiting.pair(&self.history, new, live.line.post);
        add_owner(
            &mut self.owners,
            Line {
                post: new,
                partner: Some(place),
            },
        );
        self.held -= count_of(&live.body);
        self.history = with_received(&self.history, &new, &place);
        Ok(message_from(live))
    }

    // The message of the send at the place once more, if any.
    fn copy_from(&self, alloc: Global, place: Option<u64>) -> Result<Option<Message>, AllocError>
        ensures copy { IfOk result (λ copy. copy ≡ (collect_from self.now place).0) }
        ensures free { carried_by_message (collect_from self.now place).0 ≤ 16 → IsOk result }
    {
        match place {
            None => Ok(None),
            Some(place) => self.copy_at(alloc, place),
        }
    }

    fn copy_at(&self, alloc: Global, place: u64) -> Result<Option<Message>, AllocError>
        ensures copy { IfOk result (λ copy. copy ≡ message_at self.now place) }
        ensures free { carried_by_message (message_at self.now place) ≤ 16 → IsOk result }
    {
        self.table.message_copy(alloc, place)
    }

    // The same if it doesn't stand in place.
    #[inline(always)]
    fn twin_from(&self, alloc: Global, place: Option<u64>) -> Result<Option<Message>, AllocError>
        ensures twin { IfOk result (λ twin. IsTwinOf (collect_from self.now place).0 twin) }
        ensures free { carried_by_message (collect_from self.now place).0 ≤ 16 → IsOk result }
    {
        match place {
            None => Ok(None),
            Some(place) => self.twin_at(alloc, place),
        }
    }

    #[inline(always)]
    fn twin_at(&self, alloc: Global, place: u64) -> Result<Option<Message>, AllocError>
        ensures twin { IfOk result (λ twin. IsTwinOf (message_at self.now place) twin) }
        ensures free { carried_by_message (message_at self.now place) ≤ 16 → IsOk result }
    {
        self.table.twin(alloc, place)
    }

    // Takes out the message of the send at the place, if any.
    fn collect_from(&mut self, place: Option<u64>) -> Option<Message>
        ensures message { result ≡ (collect_from self.old place).0 }
        ensures after { self.new ≡ (collect_from self.old place).1 }
    {
        match place {
            None => None,
            Some(place) => {
                let message = self.take(place);
                self.forget(place);
                message
            }
        }
    }

    // Takes out the message of the send at the place.
    fn take(&mut self, place: u64) -> Option<Message>
        ensures message { result ≡ message_at self.old place }
        ensures after { self.new ≡ without self.old place }
    {
        let envelope = self.table.envelope(place);
        let body = self.table.take_body(place);
        self.history = self.history.without(&place);
        self.held -= count_of(&body);
        message_of(envelope, body)
    }

    // Lets go of a send whose message was taken, and of the receive or the claim that had it, by what both their lines
    // say.
    fn forget(&mut self, send: u64)
        ensures { self.new ≡ self.old }
    {
        let Some(place) = self.table.spent_by(send) else {
            return;
        };
        if self.table.has_taken(place, send) {
            self.table.remove(send);
            self.table.remove(place);
        }
    }

    /// Whether a send is standard or paired with a receive, or was claimed and its message isn't held any more.
    pub fn finished(&self, post: u64) -> bool
        ensures { result ≡ (is_finished self.now post || is_claim_collected self.now post) }
    {
        match self.kept(post) {
            Some(line) => {
                self.is_line_finished(line)
                    || (!self.holds(post) && self.claim_at(line.partner).is_some())
            }
            None => sends(self.owner(post)),
        }
    }

    // Whether it is a standard send, or has a receive.
    fn is_line_finished(&self, line: Line) -> bool
        ensures { result ≡ (is_standard (Some line) || is_receive_at self.now line.partner) }
    {
        is_standard(line.post) || self.is_receive(line.partner)
    }

    /// Whether the post is a receive or a claim of the rank.
    pub fn is_receive_of(&self, rank: u8, post: u64) -> bool
        ensures { result ≡ is_receive_of rank (line_of self.now post) }
    {
        is_taker(rank, self.owner(post))
    }

    /// Whether the post is a send of the rank.
    pub fn is_send_of(&self, rank: u8, post: u64) -> bool
        ensures { result ≡ is_send_of rank (line_of self.now post) }
    {
        is_sender(rank, self.owner(post))
    }

    /// Whether the post has a partner.
    pub fn has_partner(&self, post: u64) -> bool
        ensures { result ≡ is_some (partner_of self.now post) }
    {
        match self.kept(post) {
            Some(line) => line.partner.is_some(),
            None => self.owner(post).is_some(),
        }
    }

    /// The post of this number, where it has no partner.
    pub fn free_post(&self, post: u64) -> Option<Post>
        ensures { result ≡ free_post self.now post }
    {
        match self.kept(post) {
            None => None,
            Some(line) => match line.partner {
                None => Some(line.post),
                Some(_) => None,
            },
        }
    }

    /// Whether the post has a message that isn't held any more.
    pub fn is_collected(&self, post: u64) -> bool
        ensures { result ≡ is_collected self.now post }
    {
        // what is asked most: a receive that waits
        if awaits(self.owner(post)) {
            return false;
        }
        match self.kept(post) {
            Some(line) => match line.partner {
                None => false,
                Some(place) => !self.table.is_held(place),
            },
            None => self.owner(post).is_some(),
        }
    }

    /// The number of the claim that has this send's message, while that is held.
    pub fn claim_of(&self, post: u64) -> Option<u64>
        ensures { result ≡ open_claim self.now post }
    {
        match self.kept(post) {
            None => None,
            Some(line) => {
                if self.holds(post) {
                    self.claim_at(line.partner)
                } else {
                    None
                }
            }
        }
    }

    // The number of the claim at the place.
    fn claim_at(&self, place: Option<u64>) -> Option<u64>
        ensures { result ≡ claim_at self.now place }
    {
        let place = place?;
        match self.owners.get(place as usize) {
            Some(Owner::Claims(_)) => Some(place + 1),
            _ => None,
        }
    }

    // Whether the message of the send of this number is held.
    fn holds(&self, post: u64) -> bool
        ensures { result ≡ holds self.now post }
    {
        if post == 0 {
            return false;
        }
        self.table.is_held(post - 1)
    }

    // Whose the post is.
    fn owner(&self, post: u64) -> Option<Owner>
        ensures { result ≡ owner_in (line_of self.now post) }
    {
        if post == 0 {
            return None;
        }
        owner_at(self.owners.as_slice(), post - 1)
    }

    // The post's line, if it isn't over.
    fn kept(&self, post: u64) -> Option<Line>
        ensures some { IfSome result (λ line. line_of self.now post ≡ Some line) }
        ensures none { IsNone result → IsPast self.now post }
    {
        if post == 0 {
            return None;
        }
        self.table.line(post - 1)
    }

    // The place of the post's partner, if it isn't over.
    fn kept_partner(&self, post: u64) -> Option<u64>
        ensures { collect_from self.now result ≡ collect self.now post }
    {
        match self.kept(post) {
            None => None,
            Some(line) => line.partner,
        }
    }

    // Whether there is a receive at the place, and no claim.
    fn is_receive(&self, place: Option<u64>) -> bool
        ensures { result ≡ is_receive_at self.now place }
    {
        match place {
            None => false,
            Some(place) => receives(owner_at(self.owners.as_slice(), place)),
        }
    }

    // The envelope of the message that waits for the new post.
    fn envelope_of(&self, _new: Post, partner: Option<u64>) -> Option<Envelope>
        requires { partner ≡ partner_for self.now.lines _new }
        ensures { result ≡ envelope_at self.now partner }
    {
        match partner {
            None => None,
            Some(place) => self.table.envelope(place),
        }
    }
}
