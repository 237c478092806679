//! The posts of two hubs, compared by names.

ghost use Rattle.std.specs.Prelude.{◌≡◌, ◌<◌, ◌≤◌, ◌↔◌, ℕ, IfNone, IfSome, IsTrue, None, Some, length, option_map, slice_get};
ghost use Rattle.mp_match.specs.declared.posts.Post.TheVariants as post;
ghost use Rattle.mp_match.specs.declared.posts.Selection.{Selection};
ghost use Rattle.mp_alike_laws.specs.Alike.{IsUnpaired};
ghost use Rattle.mp_alike.specs.Names.{renamed as renamed_by};
ghost use Rattle.mp_alike.specs.InnerAlike.{AreAlikeBoards, HasLine, IsAlikeAt, KeepsClaim, KeepsSend, KeepsSends, line_to};

use crate::board::{WholeBoard, line_at};
use crate::names::renamed;
use mp_match::{Line, Post, Sent};
use mp_types::Bytes;

fn is_same_send(s: &Sent, t: &Sent) -> bool
    ensures { IsTrue result ↔ (s.now ≡ t.now) }
{
    s.sync == t.sync && s.dest == t.dest && s.envelope == t.envelope
}

fn is_same_post(p: &Post, q: &Post) -> bool
    ensures { IsTrue result ↔ (p.now ≡ q.now) }
{
    match (p, q) {
        (Post::Send(s), Post::Send(t)) => is_same_send(s, t),
        (Post::Receive(a), Post::Receive(b)) => a == b,
        (Post::Claim(a), Post::Claim(b)) => a == b,
        _ => false,
    }
}

// The place of a partner in the other hub.
fn partner_to(to: &[u64], partner: Option<u64>) -> Option<u64>
    ensures { result ≡ option_map (renamed_by to.now) partner }
{
    match partner {
        None => None,
        Some(place) => Some(renamed(to, place)),
    }
}

fn is_line_to(to: &[u64], mine: &Line, theirs: &Line) -> bool
    ensures { IsTrue result ↔ (theirs.now ≡ line_to to.now mine.now) }
{
    theirs.partner == partner_to(to, mine.partner) && is_same_post(&theirs.post, &mine.post)
}

// Whether the one is what the other becomes, or there is neither.
fn are_lines_to(to: &[u64], mine: Option<Line>, theirs: Option<Line>) -> bool
    ensures { IsTrue result ↔ (theirs ≡ option_map (line_to to.now) mine) }
{
    match (mine, theirs) {
        (Some(line), Some(other)) => is_line_to(to, &line, &other),
        (None, None) => true,
        _ => false,
    }
}

/// Whether the post at the place and its partner are those of the post where it goes.
pub fn has_line(to: &[u64], mine: &[Line], theirs: &[Line], place: usize) -> bool
    ensures { IsTrue result ↔ HasLine to.now mine.now theirs.now place }
{
    let there = renamed(to, place as u64) as usize;
    are_lines_to(to, line_at(mine, place), line_at(theirs, there))
}

fn is_same_body(a: &Option<Bytes>, b: &Option<Bytes>) -> bool
    ensures { IsTrue result ↔ (a.now ≡ b.now) }
{
    match (a, b) {
        (Some(bytes), Some(others)) => bytes == others,
        (None, None) => true,
        _ => false,
    }
}

/// Whether that message, or that none is held, stands at the place.
pub fn has_body_at(bodies: &[Option<Bytes>], place: usize, body: &Option<Bytes>) -> bool
    ensures { IsTrue result ↔ (slice_get bodies.now place ≡ Some body.now) }
{
    match bodies.get(place) {
        Some(other) => is_same_body(other, body),
        None => false,
    }
}

/// Whether its message is.
pub fn has_body(to: &[u64], mine: &[Option<Bytes>], theirs: &[Option<Bytes>], place: usize) -> bool
    ensures { IsTrue result ↔ (slice_get theirs.now (renamed_by to.now place) ≡ slice_get mine.now place) }
{
    let there = renamed(to, place as u64) as usize;
    match mine.get(place) {
        Some(body) => has_body_at(theirs, there, body),
        None => theirs.get(there).is_none(),
    }
}

// Whether the post of the line keeps its place if it's a claim.
fn keeps_place(to: &[u64], line: &Line, place: usize) -> bool
    ensures { IsTrue result
        ↔ ((what : Selection) → line.now.post ≡ post.Claim what → renamed_by to.now place ≡ place) }
{
    match line.post {
        Post::Claim(_) => renamed(to, place as u64) == place as u64,
        _ => true,
    }
}

/// Whether the post at the place keeps it if it's a claim.
pub fn keeps_claim(to: &[u64], lines: &[Line], place: usize) -> bool
    ensures { IsTrue result ↔ KeepsClaim to.now lines.now place }
{
    match lines.get(place) {
        Some(line) => keeps_place(to, line, place),
        None => true,
    }
}

fn is_alike_at(to: &[u64], mine: &WholeBoard, theirs: &WholeBoard, place: usize) -> bool
    ensures { IsTrue result ↔ IsAlikeAt to.now mine.now theirs.now place }
{
    has_line(to, mine.lines(), theirs.lines(), place)
        && has_body(to, mine.bodies(), theirs.bodies(), place)
        && keeps_claim(to, mine.lines(), place)
}

// The send of a line that has no partner.
fn unpaired(line: &Line) -> Option<Sent>
    ensures some { IfSome result (λ s. line.now ≡ record { post = post.Send s; partner = None }) }
    ensures none { IfNone result ((s : Sent) → ¬ (line.now ≡ record { post = post.Send s; partner = None })) }
{
    match line.post {
        Post::Send(sent) => match line.partner {
            None => Some(sent),
            Some(_) => None,
        },
        _ => None,
    }
}

// The send at a place, where it has no partner.
fn unpaired_at(lines: &[Line], place: usize) -> Option<Sent>
    ensures some { IfSome result (λ s. IsUnpaired lines.now place s) }
    ensures none { IfNone result ((s : Sent) → ¬ IsUnpaired lines.now place s) }
{
    match lines.get(place) {
        Some(line) => unpaired(line),
        None => None,
    }
}

// Whether two sends keep their order, if both are to one rank in one communicator.
fn are_in_order(to: &[u64], place: usize, s: &Sent, behind: usize, t: &Sent) -> bool
    ensures { IsTrue result ↔ (s.now.dest ≡ t.now.dest → s.now.envelope.comm ≡ t.now.envelope.comm
        → renamed_by to.now place < renamed_by to.now behind) }
{
    s.dest != t.dest
        || s.envelope.comm != t.envelope.comm
        || renamed(to, place as u64) < renamed(to, behind as u64)
}

fn keeps_send(to: &[u64], lines: &[Line], place: usize, s: &Sent, behind: usize) -> bool
    ensures { IsTrue result ↔ KeepsSend to.now lines.now place s.now behind }
{
    if behind <= place {
        return true;
    }
    match unpaired_at(lines, behind) {
        None => true,
        Some(t) => are_in_order(to, place, s, behind, &t),
    }
}

fn keeps_sends_behind(to: &[u64], lines: &[Line], place: usize, s: &Sent) -> bool
    ensures { IsTrue result ↔ ((behind : ℕ) → KeepsSend to.now lines.now place s.now behind) }
{
    for behind in 0..lines.len() {
        if !keeps_send(to, lines, place, s, behind) {
            return false;
        }
    }
    true
}

fn keeps_sends_at(to: &[u64], lines: &[Line], place: usize) -> bool
    ensures { IsTrue result ↔ ((s : Sent) → IsUnpaired lines.now place s
        → (behind : ℕ) → KeepsSend to.now lines.now place s behind) }
{
    match unpaired_at(lines, place) {
        None => true,
        Some(s) => keeps_sends_behind(to, lines, place, &s),
    }
}

/// Whether the sends without a partner to each rank in each communicator stay in their order.
pub fn keeps_sends(to: &[u64], lines: &[Line]) -> bool
    ensures { IsTrue result ↔ KeepsSends to.now lines.now }
{
    for place in 0..lines.len() {
        if !keeps_sends_at(to, lines, place) {
            return false;
        }
    }
    true
}

fn are_alike_each(to: &[u64], mine: &WholeBoard, theirs: &WholeBoard) -> bool
    ensures { IsTrue result
        ↔ ((place : ℕ) → place < length mine.now.lines → IsAlikeAt to.now mine.now theirs.now place) }
{
    for place in 0..mine.lines().len() {
        if !is_alike_at(to, mine, theirs, place) {
            return false;
        }
    }
    true
}

/// Whether each post is the one where the names have it go, and the sends that wait stand in the same order.
pub fn are_alike_posts(to: &[u64], mine: &WholeBoard, theirs: &WholeBoard) -> bool
    ensures { IsTrue result ↔ AreAlikeBoards to.now mine.now theirs.now }
{
    are_alike_each(to, mine, theirs) && keeps_sends(to, mine.lines())
}
