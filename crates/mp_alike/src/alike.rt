//! Whether two hubs are alike, and by which names.

ghost use Rattle.std.specs.Prelude.{◌≡◌, ◌↔◌, None, Ok, Option, is_some, length, IfOk, IfSome, IsTrue};
ghost use Rattle.std.specs.List.{list_all};
ghost use Rattle.mp_alike_laws.specs.Alike.{AlikeBoards};
ghost use Rattle.mp_alike_laws.specs.Laws.{AreAlike};
ghost use Rattle.mp_alike_laws.specs.Renaming.{Renaming};
ghost use Rattle.mp_alike.specs.Names.{AreAlikeBy};
ghost use Rattle.mp_alike.specs.InnerAlike.{IsAlikeBeside, IsAlikeBoardBy};

use crate::board::WholeBoard;
use crate::names::{Names, name_all};
use crate::posts::are_alike_posts;
use crate::sides::are_alike_sides;
use crate::whole::WholeHub;
use mp_probe::Waiting;
use rv_image_types::Link;
use std::alloc::{AllocError, Global};

fn is_same_link(a: &Link, b: &Link) -> bool
    ensures { IsTrue result ↔ (a.now ≡ b.now) }
{
    a.from == b.from && a.to == b.to
}

fn are_same_links(mine: &[Link], theirs: &[Link]) -> bool
    ensures { IsTrue result ↔ (theirs.now ≡ mine.now) }
{
    let mut links = mine;
    let mut others = theirs;
    while let Some((link, more)) = links.split_first() {
        let Some((other, beyond)) = others.split_first() else {
            return false;
        };
        if !is_same_link(other, link) {
            return false;
        }
        links = more;
        others = beyond;
    }
    others.is_empty()
}

fn is_same_claim(a: &Waiting, b: &Waiting) -> bool
    ensures { IsTrue result ↔ (a.now ≡ b.now) }
{
    a.message == b.message && a.rank == b.rank
}

fn are_same_claims(mine: &[Waiting], theirs: &[Waiting]) -> bool
    ensures { IsTrue result ↔ (theirs.now ≡ mine.now) }
{
    let mut claims = mine;
    let mut left = theirs;
    while let Some((claim, after)) = claims.split_first() {
        let Some((other, rest)) = left.split_first() else {
            return false;
        };
        if !is_same_claim(other, claim) {
            return false;
        }
        claims = after;
        left = rest;
    }
    left.is_empty()
}

/// Whether all but the boards are the same.
pub fn is_alike_beside(a: &WholeHub, b: &WholeHub) -> bool
    ensures { IsTrue result ↔ IsAlikeBeside a.now b.now }
{
    are_same_links(a.links(), b.links())
        && are_same_claims(a.claims(), b.claims())
        && are_alike_sides(a.sides(), b.sides())
}

// Whether some post goes to each.
fn are_all_named(back: &[Option<u64>]) -> bool
    ensures { result ≡ list_all (λ o. is_some o) back.now }
{
    back.iter().all(|post| post.is_some())
}

// The names by which the boards are alike, if there are any.
#[tactic(auto, using(crate::proofs::Boards::alike_by))]
fn board_names(alloc: Global, a: &WholeBoard, b: &WholeBoard) -> Result<Option<Names>, AllocError>
    ensures some { IfOk result (λ found. IfSome found (λ names. IsAlikeBoardBy names a.now b.now)) }
    ensures none { result ≡ Ok None → (names : Renaming) → ¬ AlikeBoards names a.now b.now }
{
    if a.lines().len() != b.lines().len() {
        return Ok(None);
    }
    let Some(naming) = name_all(alloc, a.lines(), b.lines())? else {
        return Ok(None);
    };
    if !are_all_named(naming.back.as_slice()) {
        return Ok(None);
    }
    if !are_alike_posts(naming.to.as_slice(), a, b) {
        return Ok(None);
    }
    Ok(Some(Names::from_places(naming.to)))
}

/// The names by which the one hub is alike the other. None where there is no renaming by which they are alike. The only
/// error is want of memory.
pub fn alike_names(alloc: Global, a: &WholeHub, b: &WholeHub) -> Result<Option<Names>, AllocError>
    ensures some { IfOk result (λ found. IfSome found (λ names. AreAlikeBy names a.now b.now)) }
    ensures none { result ≡ Ok None → ¬ AreAlike a.now b.now }
{
    if !is_alike_beside(a, b) {
        return Ok(None);
    }
    board_names(alloc, a.board(), b.board())
}
