//! What is kept of posts: two bytes for each, and the line and the message of each that isn't over.

ghost use Rattle.std.specs.Prelude.{◌≡◌, ◌<◌, ◌∷◌, [], ℕ, IfOk, Option, Some, slice_get, vec_capacity, vec_len};
ghost use Rattle.mp_match.specs.Board.{held_count, is_standard};
ghost use Rattle.mp_match.specs.Live.{owner_of};
ghost use Rattle.mp_match.specs.InnerLive.{awaits, is_sender, is_taker, owners_with, receives, sends, told_at, told_owner};

use crate::posts::{Line, Post};
use mp_types::Bytes;
use std::alloc::{AllocError, Global};

/// Which rank a post is of, and what it does.
#[derive(Clone, Copy)]
pub enum Owner {
    Sends(u8),
    /// A receive that has no partner.
    Awaits(u8),
    /// A receive that has one.
    Receives(u8),
    Claims(u8),
}

/// Which rank the post of a line is of, and what it does.
fn owner_of(line: Line) -> Owner
    ensures { result ≡ owner_of line }
{
    match line.post {
        Post::Send(sent) => Owner::Sends(sent.envelope.source),
        Post::Receive(selection) => match line.partner {
            None => Owner::Awaits(selection.rank),
            Some(_) => Owner::Receives(selection.rank),
        },
        Post::Claim(selection) => Owner::Claims(selection.rank),
    }
}

// A post that has a partner from now on.
fn told(owner: Owner) -> Owner
    ensures { result ≡ told_owner owner }
{
    match owner {
        Owner::Awaits(rank) => Owner::Receives(rank),
        Owner::Sends(_) => owner,
        Owner::Receives(_) => owner,
        Owner::Claims(_) => owner,
    }
}

// The post at the place, if any, has a partner from now on.
fn tell(owners: &mut [Owner], place: Option<u64>)
    ensures { owners.new ≡ told_at owners.old place }
{
    let Some(place) = place else {
        return;
    };
    if let Some(owner) = owner_at(owners, place) {
        owners[place as usize] = told(owner);
    }
}

/// One post more, of this line, for which there is room: its partner, if any, has one from now on.
#[inline(always)]
pub fn add_owner(owners: &mut Vec<Owner>, line: Line)
    requires room { vec_len owners.old < vec_capacity owners.old }
    ensures { owners.new.items ≡ owners_with owners.old.items line }
{
    tell(owners.as_mut_slice(), line.partner);
    owners.push_reserved(owner_of(line));
}

/// Whose the post at the place is.
pub fn owner_at(owners: &[Owner], place: u64) -> Option<Owner>
    ensures { result ≡ slice_get owners.now place }
{
    owners.get(place as usize).copied()
}

/// Whether it is a send of the rank.
pub fn is_sender(rank: u8, owner: Option<Owner>) -> bool
    ensures { result ≡ is_sender rank owner }
{
    match owner {
        Some(Owner::Sends(of)) => of == rank,
        _ => false,
    }
}

/// Whether it is a receive or a claim of the rank.
pub fn is_taker(rank: u8, owner: Option<Owner>) -> bool
    ensures { result ≡ is_taker rank owner }
{
    match owner {
        Some(Owner::Awaits(of)) => of == rank,
        Some(Owner::Receives(of)) => of == rank,
        Some(Owner::Claims(of)) => of == rank,
        _ => false,
    }
}

/// Whether it is a send.
pub fn sends(owner: Option<Owner>) -> bool
    ensures { result ≡ sends owner }
{
    matches!(owner, Some(Owner::Sends(_)))
}

/// Whether it is a receive.
pub fn receives(owner: Option<Owner>) -> bool
    ensures { result ≡ receives owner }
{
    matches!(owner, Some(Owner::Awaits(_) | Owner::Receives(_)))
}

/// Whether it is a receive that has no partner.
pub fn awaits(owner: Option<Owner>) -> bool
    ensures { result ≡ awaits owner }
{
    matches!(owner, Some(Owner::Awaits(_)))
}

/// Whether it is a standard send.
pub fn is_standard(post: Post) -> bool
    ensures { (partner : Option ℕ) → result ≡ is_standard (Some (record { post = post; partner = partner })) }
{
    match post {
        Post::Send(sent) => !sent.sync,
        _ => false,
    }
}

/// A post that isn't over: with its partner, and with its message while that is held.
#[derive(Drop)]
pub struct Live {
    /// What a copy takes its memory from; it takes none itself.
    pub alloc: Global,
    pub line: Line,
    pub body: Option<Bytes>,
}

// 1 for a message that is held, else 0.
pub fn count_of(body: &Option<Bytes>) -> u64
    ensures { result ≡ held_count (body.now ∷ []) }
{
    match body {
        Some(_) => 1,
        None => 0,
    }
}

/// The bytes of a message once more, while it is held; they share their memory.
pub fn body_copy(alloc: Global, body: &Option<Bytes>) -> Result<Option<Bytes>, AllocError>
    ensures { IfOk result (λ copy. copy ≡ body.now) }
{
    match body {
        None => Ok(None),
        Some(bytes) => Ok(Some(bytes.try_copy(alloc)?)),
    }
}

impl Clone for Live {
    ghost is_clone = { λ live copy. copy ≡ live };

    fn clone(&self) -> Result<Live, AllocError> {
        Ok(Live {
            alloc: self.alloc,
            line: self.line,
            body: body_copy(self.alloc, &self.body)?,
        })
    }
}
