//! Which post of another hub each post of a hub has to be.

ghost use Rattle.std.specs.Prelude.{◌≡◌, ◌+◌, ◌<◌, ◌++◌, ◌∷◌, ◌↔◌, ℕ, [], None, Ok, Some, false, true, length};
ghost use Rattle.std.specs.Prelude.{replicate, slice_get, slice_set};
ghost use Rattle.std.specs.Prelude.{IfOk, IfSome, IsTrue};
ghost use Rattle.mp_alike_laws.specs.Alike.{maker as maker_of};
ghost use Rattle.mp_alike_laws.specs.Renaming.{Renaming, number_by};
ghost use Rattle.mp_alike.specs.Names.{IsListed, renamed as renamed_by};
ghost use Rattle.mp_alike.specs.InnerNames.{Corresponds, IsFirstFree, IsFree, IsNaming};

use mp_match::{Line, Post};
use std::alloc::{AllocError, Global};
use std::marker::Model;

/// The places in another hub of a hub's posts. Contracts see a list: of the post at each place the place there.
#[derive(Drop)]
pub struct Names {
    to: Vec<u64>,
}

impl Model for Names {
    ghost use Rattle.std.specs.Prelude.{List, ℕ};

    ghost Value = { List ℕ };

    ghost view = { λ names. names.to.items };
}

/// A post of a hub and one of another hub, by their numbers, that may be the same.
#[derive(Clone, Copy, Drop)]
pub struct Counterpart {
    pub mine: u64,
    pub theirs: u64,
}

/// Where the post at the place stands in the other hub; a place behind the end stays.
pub fn renamed(to: &[u64], place: u64) -> u64
    ensures { result ≡ renamed_by to.now place }
{
    match to.get(place as usize) {
        Some(other) => *other,
        None => place,
    }
}

impl Names {
    /// These names.
    pub fn from_places(to: Vec<u64>) -> Names
        ensures { result ≡ to.items }
    {
        Names { to }
    }

    /// Whether the post of this number has that other number in the other hub. 0 is no post's number, and stays.
    pub fn is_named(&self, number: u64, other: u64) -> bool
        ensures { (names : Renaming) → IsListed names self.now → IsTrue result ↔ (other ≡ number_by names number) }
    {
        if number == 0 || other == 0 {
            return number == other;
        }
        renamed(self.to.as_slice(), number - 1) == other - 1
    }
}

/// The rank that made the post.
pub fn maker(post: &Post) -> u8
    ensures { result ≡ maker_of post.now }
{
    match post {
        Post::Send(sent) => sent.envelope.source,
        Post::Receive(selection) => selection.rank,
        Post::Claim(selection) => selection.rank,
    }
}

/// Whether a post of the rank stands at the place, and none goes there yet.
pub fn is_free(rank: u8, lines: &[Line], back: &[Option<u64>], place: usize) -> bool
    ensures { IsTrue result ↔ IsFree rank lines.now back.now place }
{
    match (lines.get(place), back.get(place)) {
        (Some(line), Some(None)) => maker(&line.post) == rank,
        _ => false,
    }
}

// The first place of a post of the rank to which none goes yet.
fn first_free(rank: u8, lines: &[Line], back: &[Option<u64>]) -> Option<usize>
    ensures some { IfSome result (λ place. IsFirstFree rank lines.now back.now place) }
    ensures none { result ≡ None → (place : ℕ) → ¬ IsFree rank lines.now back.now place }
{
    for place in 0..lines.len() {
        if is_free(rank, lines, back, place) {
            return Some(place);
        }
    }
    None
}

/// Where the first posts of a hub go, and which go to each of the other hub's.
#[derive(Drop)]
pub struct Naming {
    pub to: Vec<u64>,
    pub back: Vec<Option<u64>>,
}

fn none_named(alloc: Global, many: usize) -> Result<Naming, AllocError>
    ensures to { IfOk result (λ naming. naming.to.items ≡ []) }
    ensures back { IfOk result (λ naming. naming.back.items ≡ replicate many None) }
{
    Ok(Naming {
        to: Vec::new(alloc),
        back: vec![in alloc; None; many]?,
    })
}

// Where the next post has to go, if there is such a place.
fn next_place(naming: &Naming, mine: &[Line], theirs: &[Line]) -> Option<usize>
    requires sofar { IsNaming mine.now theirs.now naming.now.to.items naming.now.back.items }
    requires left { length naming.now.to.items < length mine.now }
    ensures some { IfSome result (λ place. IsNaming mine.now theirs.now (naming.now.to.items ++ place ∷ [])
        (slice_set naming.now.back.items place (Some (length naming.now.to.items)))) }
    ensures inside { IfSome result (λ place. place < length naming.now.back.items) }
    ensures none { result ≡ None → (names : Renaming) → ¬ Corresponds names mine.now theirs.now }
{
    let line = mine[naming.to.len()];
    first_free(maker(&line.post), theirs, naming.back.as_slice())
}

// Has the next post go where it has to, if there is such a place.
fn name_next(naming: &mut Naming, mine: &[Line], theirs: &[Line]) -> Result<bool, AllocError>
    requires sofar { IsNaming mine.now theirs.now naming.old.to.items naming.old.back.items }
    requires left { length naming.old.to.items < length mine.now }
    ensures named { result ≡ Ok true → IsNaming mine.now theirs.now naming.new.to.items naming.new.back.items }
    ensures one { result ≡ Ok true → length naming.new.to.items ≡ length naming.old.to.items + 1 }
    ensures none { result ≡ Ok false → (names : Renaming) → ¬ Corresponds names mine.now theirs.now }
{
    let own = naming.to.len() as u64;
    let Some(place) = next_place(naming, mine, theirs) else {
        return Ok(false);
    };
    naming.back[place] = Some(own);
    naming.to.push(place as u64)?;
    Ok(true)
}

/// Where each post of a hub has to go, if there is a renaming by which the posts correspond.
pub fn name_all(alloc: Global, mine: &[Line], theirs: &[Line]) -> Result<Option<Naming>, AllocError>
    ensures named { IfOk result (λ found. IfSome found (λ naming.
        IsNaming mine.now theirs.now naming.to.items naming.back.items)) }
    ensures all { IfOk result (λ found. IfSome found (λ naming. length naming.to.items ≡ length mine.now)) }
    ensures none { result ≡ Ok None → (names : Renaming) → ¬ Corresponds names mine.now theirs.now }
{
    let mut naming = none_named(alloc, theirs.len())?;
    'posts: while naming.to.len() < mine.len() {
        if !name_next(&mut naming, mine, theirs)? {
            return Ok(None);
        }
    }
    Ok(Some(naming))
}
