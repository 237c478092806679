//! All posts with their partners, and the messages that are held.

ghost use Rattle.std.specs.Prelude.{◌≡◌, ◌+◌, ◌<◌, ◌≤◌, ◌++◌, ◌∷◌, [], length, IfOk, None, OnErr, OnOk, Some};
ghost use Rattle.std.specs.Prelude.{is_some, slice_get, slice_set, vec_capacity, vec_len};
ghost use Rattle.mp_match.specs.Board.{board_with, claim_at, claim_of, collect, compared_after, envelope_at, held_count};
ghost use Rattle.mp_match.specs.Board.{is_collected, is_finished, is_receive_of, is_send_of, is_standard, line_of};
ghost use Rattle.mp_match.specs.Board.{message_at, no_posts, partner_of, probed, without};
ghost use Rattle.mp_match.specs.Bodies.{bytes_in};
ghost use Rattle.mp_match.specs.InnerLive.{post_at};
ghost use Rattle.mp_match.specs.Pairs.{add, partner_for as partner_for_of, partners_set};
ghost use Rattle.mp_probe.specs.Claims.{next_number};

use crate::pairing::{compared_for, partner_for};
use mp_match::{Line, Post};
use mp_types::{Bytes, Envelope, Message};
use std::alloc::{AllocError, Global};
use std::marker::Model;

/// Each post ever made with its partner, and with its message while that is held. Contracts see a board.
#[derive(Drop)]
pub struct WholeBoard {
    lines: Vec<Line>,
    bodies: Vec<Option<Bytes>>,
    compared: u64,
}

impl Model for WholeBoard {
    ghost use Rattle.std.specs.Prelude.{◌≡◌, length};
    ghost use Rattle.mp_match.specs.Board.{Board};

    ghost Value = { Board };

    ghost view = { λ b. record { lines = b.lines.items; bodies = b.bodies.items; compared = b.compared } };

    ghost invariant = { λ b. length b.bodies.items ≡ length b.lines.items };
}

// The bytes of a message once more, which share their memory.
fn again(alloc: Global, body: &Option<Bytes>) -> Result<Option<Bytes>, AllocError>
    ensures { IfOk result (λ copy. copy ≡ body.now) }
{
    Ok(match body {
        Some(bytes) => Some(bytes.try_copy(alloc)?),
        None => None,
    })
}

fn all_again(alloc: Global, bodies: &[Option<Bytes>]) -> Result<Vec<Option<Bytes>>, AllocError>
    ensures { IfOk result (λ copies. copies.items ≡ bodies.now) }
{
    let mut copies = Vec::with_capacity(alloc, bodies.len())?;
    for body in bodies {
        copies.push(again(alloc, body)?)?;
    }
    Ok(copies)
}

/// The line at the place, if any.
pub fn line_at(lines: &[Line], place: usize) -> Option<Line>
    ensures { result ≡ slice_get lines.now place }
{
    lines.get(place).copied()
}

// The post at the place, if any, has that partner.
#[tactic(auto, using(crate::proofs::Partners::set_is, crate::proofs::Partners::past_is))]
fn set_partner(lines: &mut Vec<Line>, place: Option<u64>, partner: u64)
    ensures set { lines.new.items ≡ partners_set lines.old.items place partner }
    ensures many { vec_len lines.new ≡ vec_len lines.old }
    ensures room { vec_capacity lines.new ≡ vec_capacity lines.old }
{
    let Some(place) = place else {
        return;
    };
    let place = place as usize;
    if place < lines.len() {
        lines[place].partner = Some(partner);
    }
}

/// Adds an item where there is room for it.
pub fn put<T: Drop>(items: &mut Vec<T>, item: T)
    requires { vec_len items.old < vec_capacity items.old }
    ensures items { items.new.items ≡ items.old.items ++ item ∷ [] }
    ensures many { vec_len items.new ≡ vec_len items.old + 1 }
    ensures room { vec_capacity items.old ≤ vec_capacity items.new }
{
    items.push_reserved(item);
}

// A post more, for which there is room, paired where there is a partner for it.
fn add_line(lines: &mut Vec<Line>, new: Post)
    requires { vec_len lines.old < vec_capacity lines.old }
    ensures { lines.new.items ≡ add lines.old.items new }
{
    let partner = partner_for(lines.as_slice(), &new);
    let own = lines.len() as u64;
    set_partner(lines, partner, own);
    put(lines, Line { post: new, partner });
}

// 1 for a message that is held, else 0.
fn count_of(body: &Option<Bytes>) -> u64
    ensures { result ≡ held_count (body.now ∷ []) }
{
    if body.is_some() { 1 } else { 0 }
}

// Takes out the message at the place, if any is held.
fn take_body(bodies: &mut Vec<Option<Bytes>>, place: usize) -> Option<Bytes>
    ensures body { result ≡ bytes_in (slice_get bodies.old.items place) }
    ensures after { bodies.new.items ≡ slice_set bodies.old.items place None }
{
    match bodies.get_mut(place) {
        None => None,
        Some(body) => body.take(),
    }
}

impl WholeBoard {
    /// No posts.
    pub fn new(alloc: Global) -> WholeBoard
        ensures { result ≡ no_posts }
    {
        WholeBoard {
            lines: Vec::new(alloc),
            bodies: Vec::new(alloc),
            compared: 0,
        }
    }

    /// The same posts in memory of their own, with the same messages, which share their bytes.
    pub fn try_copy(&self, alloc: Global) -> Result<WholeBoard, AllocError>
        ensures { IfOk result (λ copy. copy ≡ self.now) }
    {
        Ok(WholeBoard {
            lines: Vec::from_slice(alloc, self.lines.as_slice())?,
            bodies: all_again(alloc, self.bodies.as_slice())?,
            compared: self.compared,
        })
    }

    /// The posts, each with the place of its partner.
    pub fn lines(&self) -> &[Line]
        ensures lines { result.now ≡ self.now.lines }
        ensures bodies { length self.now.bodies ≡ length self.now.lines }
    {
        self.lines.as_slice()
    }

    /// Of each post the message, while it is held.
    pub fn bodies(&self) -> &[Option<Bytes>]
        ensures { result.now ≡ self.now.bodies }
    {
        self.bodies.as_slice()
    }

    /// How many waiting receives the last send compared.
    pub fn compared(&self) -> u64
        ensures { result ≡ self.now.compared }
    {
        self.compared
    }

    /// The number of the next post.
    pub fn next_number(&self) -> u64
        ensures { result ≡ next_number self.now }
    {
        self.lines.len() as u64 + 1
    }

    /// How many messages are held.
    pub fn held(&self) -> u64
        ensures { result ≡ held_count self.now.bodies }
    {
        let mut rest = self.bodies.as_slice();
        let mut held = 0;
        while let Some((body, after)) = rest.split_first() {
            held += count_of(body);
            rest = after;
        }
        held
    }

    fn compared_after(&self, new: &Post) -> u64
        ensures { result ≡ compared_after self.now new.now }
    {
        match new {
            Post::Send(sent) => compared_for(self.lines.as_slice(), sent),
            _ => self.compared,
        }
    }

    #[tactic(auto, using(mp_match::proofs::Lines::add_length))]
    /// Adds a post and its message, if any, and pairs it where there is a partner for it.
    pub fn add(&mut self, new: Post, body: Option<Bytes>) -> Result<(), AllocError>
        ensures ok { OnOk result (self.new ≡ board_with self.old new body) }
        ensures err { OnErr result (self.new ≡ self.old) }
    {
        self.lines.reserve(1)?;
        self.bodies.reserve(1)?;
        let compared = self.compared_after(&new);
        add_line(&mut self.lines, new);
        put(&mut self.bodies, body);
        self.compared = compared;
        Ok(())
    }

    /// The post of this number, with the place of its partner.
    pub fn line(&self, number: u64) -> Option<Line>
        ensures { result ≡ line_of self.now number }
    {
        if number == 0 {
            return None;
        }
        line_at(self.lines.as_slice(), (number - 1) as usize)
    }

    /// The place of the post's partner.
    pub fn partner(&self, number: u64) -> Option<u64>
        ensures { result ≡ partner_of self.now number }
    {
        match self.line(number) {
            None => None,
            Some(line) => line.partner,
        }
    }

    // The post at the place of a partner, if any.
    fn post_at(&self, place: Option<u64>) -> Option<Post>
        ensures { result ≡ post_at self.now.lines place }
    {
        match line_at(self.lines.as_slice(), place? as usize) {
            None => None,
            Some(line) => Some(line.post),
        }
    }

    /// Whether the post of this number is a send of the rank.
    pub fn is_send_of(&self, rank: u8, number: u64) -> bool
        ensures { result ≡ is_send_of rank (line_of self.now number) }
    {
        match self.line(number) {
            Some(line) => match line.post {
                Post::Send(sent) => sent.envelope.source == rank,
                _ => false,
            },
            None => false,
        }
    }

    /// Whether it is a receive or a claim of the rank.
    pub fn is_receive_of(&self, rank: u8, number: u64) -> bool
        ensures { result ≡ is_receive_of rank (line_of self.now number) }
    {
        match self.line(number) {
            Some(line) => match line.post {
                Post::Send(_) => false,
                Post::Receive(selection) | Post::Claim(selection) => selection.rank == rank,
            },
            None => false,
        }
    }

    fn is_standard(&self, number: u64) -> bool
        ensures { result ≡ is_standard (line_of self.now number) }
    {
        match self.line(number) {
            Some(line) => match line.post {
                Post::Send(sent) => !sent.sync,
                _ => false,
            },
            None => false,
        }
    }

    /// Whether a send is standard, or paired with a receive.
    pub fn is_finished(&self, number: u64) -> bool
        ensures { result ≡ is_finished self.now number }
    {
        let receives = match self.post_at(self.partner(number)) {
            Some(Post::Receive(_)) => true,
            _ => false,
        };
        self.is_standard(number) || receives
    }

    /// The number of the claim that has the message of this send.
    pub fn claim_of(&self, number: u64) -> Option<u64>
        ensures { result ≡ claim_of self.now number }
    {
        self.claim_at(self.partner(number)?)
    }

    // The number of the claim at the place.
    fn claim_at(&self, place: u64) -> Option<u64>
        ensures { result ≡ claim_at self.now (Some place) }
    {
        let line = line_at(self.lines.as_slice(), place as usize)?;
        match line.post {
            Post::Claim(_) => Some(place + 1),
            _ => None,
        }
    }

    fn envelope_at(&self, place: Option<u64>) -> Option<Envelope>
        ensures { result ≡ envelope_at self.now place }
    {
        match self.post_at(place) {
            Some(Post::Send(sent)) => Some(sent.envelope),
            _ => None,
        }
    }

    /// What the post would be given.
    pub fn probe(&self, new: &Post) -> Option<Envelope>
        ensures { result ≡ probed self.now new.now }
    {
        self.envelope_at(partner_for(self.lines.as_slice(), new))
    }

    /// Whether there is a partner for the post.
    pub fn has_partner_for(&self, new: &Post) -> bool
        ensures { result ≡ is_some (partner_for_of self.now.lines new.now) }
    {
        partner_for(self.lines.as_slice(), new).is_some()
    }

    // Takes out the message of the send at the place.
    #[tactic(auto, using(mp_match::proofs::Rows::slice_set_length))]
    fn take(&mut self, place: u64) -> Option<Message>
        ensures message { result ≡ message_at self.old place }
        ensures after { self.new ≡ without self.old place }
    {
        let envelope = self.envelope_at(Some(place));
        let body = take_body(&mut self.bodies, place as usize);
        match (envelope, body) {
            (Some(envelope), Some(bytes)) => Some(Message { envelope, bytes }),
            _ => None,
        }
    }

    /// The message of a receive or a claim, if it has one that is still held; it is held no longer.
    pub fn collect(&mut self, number: u64) -> Option<Message>
        ensures message { result ≡ (collect self.old number).0 }
        ensures after { self.new ≡ (collect self.old number).1 }
    {
        match self.partner(number) {
            None => None,
            Some(place) => self.take(place),
        }
    }

    /// Whether a receive or a claim has a message that isn't held any more.
    pub fn is_collected(&self, number: u64) -> bool
        ensures { result ≡ is_collected self.now number }
    {
        match self.partner(number) {
            None => false,
            Some(place) => match self.bodies.get(place as usize) {
                Some(Some(_)) => false,
                _ => true,
            },
        }
    }
}
