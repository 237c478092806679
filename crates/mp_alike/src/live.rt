//! Whether two hubs are alike, where posts that are over may be any that are, and by which names.

ghost use Rattle.std.specs.Prelude.{◌≡◌, ◌<◌, ◌↔◌, ℕ, IfNone, IfOk, IfSome, IsTrue, length};
ghost use Rattle.mp_match.specs.declared.posts.Line.{Line as LineView};
ghost use Rattle.mp_alike_laws.specs.Alike.{maker as maker_of};
ghost use Rattle.mp_alike.specs.Names.{AreLiveAlikeBy, renamed as renamed_by};
ghost use Rattle.mp_alike.specs.InnerLive.{AreBothOver, AreLiveAlikeBoards, AreTurned, IsLive, IsLiveAlikeAt};
ghost use Rattle.mp_alike.specs.InnerLive.{IsLiveBoardBy, KeepsOrder, KeepsRank, KeepsRanks, origin as origin_of};

use crate::alike::is_alike_beside;
use crate::board::{WholeBoard, line_at};
use crate::live_naming::guessed;
use crate::names::{Counterpart, Names, maker, renamed};
use crate::over::{is_over, is_over_receive, is_over_send};
use crate::posts::{has_body, has_line, keeps_claim, keeps_sends};
use crate::whole::WholeHub;
use mp_match::Line;
use std::alloc::{AllocError, Global};

// ---- names both ways

// From where a post goes to the place.
fn origin(back: &[Option<u64>], place: u64) -> u64
    ensures { result ≡ origin_of back.now place }
{
    match back.get(place as usize) {
        Some(Some(post)) => *post,
        _ => place,
    }
}

// Whether each post comes back from where it goes.
fn come_back(to: &[u64], back: &[Option<u64>]) -> bool
    ensures { IsTrue result
        ↔ ((place : ℕ) → place < length to.now → origin_of back.now (renamed_by to.now place) ≡ place) }
{
    for place in 0..to.len() {
        if origin(back, renamed(to, place as u64)) != place as u64 {
            return false;
        }
    }
    true
}

// Whether the post that comes from each place goes there again.
fn go_again(to: &[u64], back: &[Option<u64>]) -> bool
    ensures { IsTrue result
        ↔ ((place : ℕ) → place < length back.now → renamed_by to.now (origin_of back.now place) ≡ place) }
{
    for place in 0..back.len() {
        if renamed(to, origin(back, place as u64)) != place as u64 {
            return false;
        }
    }
    true
}

fn are_turned(many: usize, to: &[u64], back: &[Option<u64>]) -> bool
    ensures { IsTrue result ↔ AreTurned many to.now back.now }
{
    to.len() == many && back.len() == many && come_back(to, back) && go_again(to, back)
}

// ---- posts

fn are_both_over(mine: &WholeBoard, theirs: &WholeBoard, place: usize, there: usize) -> bool
    ensures { IsTrue result ↔ AreBothOver mine.now theirs.now place there }
{
    (is_over_send(mine, place) && is_over_send(theirs, there))
        || (is_over_receive(mine, place) && is_over_receive(theirs, there))
}

fn is_alike_at(to: &[u64], mine: &WholeBoard, theirs: &WholeBoard, place: usize) -> bool
    ensures { IsTrue result ↔ IsLiveAlikeAt to.now mine.now theirs.now place }
{
    (has_line(to, mine.lines(), theirs.lines(), place)
        || are_both_over(mine, theirs, place, renamed(to, place as u64) as usize))
        && has_body(to, mine.bodies(), theirs.bodies(), place)
        && keeps_claim(to, mine.lines(), place)
}

fn are_alike_each(to: &[u64], mine: &WholeBoard, theirs: &WholeBoard) -> bool
    ensures { IsTrue result
        ↔ ((place : ℕ) → place < length mine.now.lines → IsLiveAlikeAt to.now mine.now theirs.now place) }
{
    for place in 0..mine.lines().len() {
        if !is_alike_at(to, mine, theirs, place) {
            return false;
        }
    }
    true
}

// ---- their order

// The line at the place, where its post isn't over.
fn live_at(board: &WholeBoard, place: usize) -> Option<Line>
    ensures some { IfSome result (λ line. IsLive board.now place line) }
    ensures none { IfNone result ((line : LineView) → ¬ IsLive board.now place line) }
{
    let line = line_at(board.lines(), place)?;
    if is_over(board, place) {
        None
    } else {
        Some(line)
    }
}

fn keeps_rank(to: &[u64], board: &WholeBoard, place: usize, line: &Line, behind: usize) -> bool
    ensures { IsTrue result ↔ KeepsRank to.now board.now place line.now behind }
{
    if behind <= place || renamed(to, place as u64) < renamed(to, behind as u64) {
        return true;
    }
    match live_at(board, behind) {
        None => true,
        Some(other) => maker(&line.post) != maker(&other.post),
    }
}

fn keeps_rank_behind(to: &[u64], board: &WholeBoard, place: usize, line: &Line) -> bool
    ensures { IsTrue result ↔ ((behind : ℕ) → KeepsRank to.now board.now place line.now behind) }
{
    for behind in 0..board.lines().len() {
        if !keeps_rank(to, board, place, line, behind) {
            return false;
        }
    }
    true
}

fn keeps_rank_at(to: &[u64], board: &WholeBoard, place: usize) -> bool
    ensures { IsTrue result ↔ ((line : LineView) → IsLive board.now place line
        → (behind : ℕ) → KeepsRank to.now board.now place line behind) }
{
    match live_at(board, place) {
        None => true,
        Some(line) => keeps_rank_behind(to, board, place, &line),
    }
}

fn keeps_ranks(to: &[u64], board: &WholeBoard) -> bool
    ensures { IsTrue result ↔ KeepsRanks to.now board.now }
{
    for place in 0..board.lines().len() {
        if !keeps_rank_at(to, board, place) {
            return false;
        }
    }
    true
}

fn keeps_order(to: &[u64], board: &WholeBoard) -> bool
    ensures { IsTrue result ↔ KeepsOrder to.now board.now }
{
    keeps_ranks(to, board) && keeps_sends(to, board.lines())
}

// ---- boards and hubs

// Whether each post is the one where the names have it go, or both are over, and what keeps its order does.
fn are_alike_posts(to: &[u64], mine: &WholeBoard, theirs: &WholeBoard) -> bool
    ensures { IsTrue result ↔ AreLiveAlikeBoards to.now mine.now theirs.now }
{
    are_alike_each(to, mine, theirs) && keeps_order(to, mine)
}

// Names by which the boards are alike, if some were found.
#[tactic(auto, using(crate::proofs::LiveBoards::live_alike_by))]
fn board_names(
    alloc: Global,
    a: &WholeBoard,
    b: &WholeBoard,
    counterparts: &[Counterpart],
) -> Result<Option<Names>, AllocError>
    ensures { IfOk result (λ found. IfSome found (λ names. IsLiveBoardBy names a.now b.now)) }
{
    let many = a.lines().len();
    if b.lines().len() != many {
        return Ok(None);
    }
    let Some(naming) = guessed(alloc, a, b, counterparts)? else {
        return Ok(None);
    };
    if !are_turned(many, naming.to.as_slice(), naming.back.as_slice()) {
        return Ok(None);
    }
    if !are_alike_posts(naming.to.as_slice(), a, b) {
        return Ok(None);
    }
    Ok(Some(Names::from_places(naming.to)))
}

/// The names by which the one hub is alike the other, where posts that are over may be any that are over. None where
/// none were found. The counterparts are sends that have to be the same, where they are over, for whoever goes on comparing.
/// The only error is want of memory.
pub fn live_names(
    alloc: Global,
    a: &WholeHub,
    b: &WholeHub,
    counterparts: &[Counterpart],
) -> Result<Option<Names>, AllocError>
    ensures { IfOk result (λ found. IfSome found (λ names. AreLiveAlikeBy names a.now b.now)) }
{
    if !is_alike_beside(a, b) {
        return Ok(None);
    }
    board_names(alloc, a.board(), b.board(), counterparts)
}
