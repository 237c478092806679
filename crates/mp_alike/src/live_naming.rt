//! Which post of another hub each post of a hub may be, where those that are over may be any that are. This is a guess,
//! of which no clause speaks: what comes of it is looked over before anything rests on it.
//!
//! A post that isn't over goes to the next one of its rank that isn't, and a partner that is over goes with it. What is
//! left are sends that are over, and the receives that collected their messages: a send goes to its counterpart, if it is
//! given one, and the others go in their order.

use crate::board::{WholeBoard, line_at};
use crate::names::{Counterpart, Naming, is_free, maker};
use crate::over::{is_over, is_over_send};
use std::alloc::{AllocError, Global};

// The first post of the rank that isn't over, and to which none goes yet.
fn first_live(rank: u8, board: &WholeBoard, back: &[Option<u64>]) -> Option<usize> {
    for place in 0..board.lines().len() {
        if is_free(rank, board.lines(), back, place) && !is_over(board, place) {
            return Some(place);
        }
    }
    None
}

// Whether none goes to the place yet.
fn is_left(back: &[Option<u64>], place: usize) -> bool {
    match back.get(place) {
        Some(None) => true,
        _ => false,
    }
}

// The first send from there on that is over, and to which none goes yet.
fn first_over_send(from: usize, board: &WholeBoard, back: &[Option<u64>]) -> Option<usize> {
    for place in from..board.lines().len() {
        if is_left(back, place) && is_over_send(board, place) {
            return Some(place);
        }
    }
    None
}

fn partner_at(board: &WholeBoard, place: usize) -> Option<u64> {
    line_at(board.lines(), place)?.partner
}

// The post's partner, if that is over.
fn over_partner(board: &WholeBoard, place: usize) -> Option<u64> {
    let partner = partner_at(board, place)?;
    if is_over(board, partner as usize) {
        Some(partner)
    } else {
        None
    }
}

fn go_one(back: &mut [Option<u64>], place: u64, there: u64) {
    if let Some(post) = back.get_mut(there as usize) {
        *post = Some(place);
    }
}

// The post goes there, and its partner with it if that is over.
fn go(
    back: &mut [Option<u64>],
    mine: &WholeBoard,
    place: usize,
    theirs: &WholeBoard,
    there: usize,
) {
    go_one(back, place as u64, there as u64);
    if let (Some(partner), Some(other)) = (over_partner(mine, place), partner_at(theirs, there)) {
        go_one(back, partner, other);
    }
}

// Has the posts go that aren't over. False where there is no place for one.
fn go_live(back: &mut [Option<u64>], mine: &WholeBoard, theirs: &WholeBoard) -> bool {
    for place in 0..mine.lines().len() {
        if !is_over(mine, place) {
            let rank = maker(&mine.lines()[place].post);
            let Some(there) = first_live(rank, theirs, back) else {
                return false;
            };
            go(back, mine, place, theirs, there);
        }
    }
    true
}

// Whether the send at the place is over, and its partner is.
fn is_over_pair(board: &WholeBoard, place: usize) -> bool {
    is_over_send(board, place) && over_partner(board, place).is_some()
}

// Whether the place is that of a post with a counterpart.
fn has_counterpart(counterparts: &[Counterpart], place: usize) -> bool {
    counterparts
        .iter()
        .any(|two| two.mine != 0 && two.mine - 1 == place as u64)
}

// Has a send that is over go to its counterpart. False where it can't.
fn go_counterpart(
    back: &mut [Option<u64>],
    mine: &WholeBoard,
    theirs: &WholeBoard,
    two: Counterpart,
) -> bool {
    if two.mine == 0 || two.theirs == 0 {
        return false;
    }
    let place = (two.mine - 1) as usize;
    let there = (two.theirs - 1) as usize;
    if !is_over_pair(mine, place) {
        return true;
    }
    if !is_left(back, there) || !is_over_send(theirs, there) {
        return false;
    }
    go(back, mine, place, theirs, there);
    true
}

// Has the sends go that are over and have counterparts.
fn go_counterparts(
    back: &mut [Option<u64>],
    mine: &WholeBoard,
    theirs: &WholeBoard,
    counterparts: &[Counterpart],
) -> bool {
    for two in counterparts.iter() {
        if !go_counterpart(back, mine, theirs, *two) {
            return false;
        }
    }
    true
}

// Has the sends go that are over, and whose partners are, but for those that have counterparts.
fn go_over(
    back: &mut [Option<u64>],
    mine: &WholeBoard,
    theirs: &WholeBoard,
    counterparts: &[Counterpart],
) -> bool {
    let mut from = 0;
    for place in 0..mine.lines().len() {
        if is_over_pair(mine, place) && !has_counterpart(counterparts, place) {
            let Some(there) = first_over_send(from, theirs, back) else {
                return false;
            };
            go(back, mine, place, theirs, there);
            from = there;
        }
    }
    true
}

// Where each post goes, by which goes to each place. None where none goes to some.
fn turned(alloc: Global, back: &[Option<u64>]) -> Result<Option<Vec<u64>>, AllocError> {
    let mut to = vec![in alloc; 0; back.len()]?;
    for place in 0..back.len() {
        let Some(post) = back[place] else {
            return Ok(None);
        };
        if let Some(there) = to.get_mut(post as usize) {
            *there = place as u64;
        }
    }
    Ok(Some(to))
}

/// Where each post of a hub may go, if a place was found for each.
pub fn guessed(
    alloc: Global,
    mine: &WholeBoard,
    theirs: &WholeBoard,
    counterparts: &[Counterpart],
) -> Result<Option<Naming>, AllocError> {
    let mut back = vec![in alloc; None; theirs.lines().len()]?;
    let places = back.as_mut_slice();
    if !go_live(places, mine, theirs)
        || !go_counterparts(places, mine, theirs, counterparts)
        || !go_over(places, mine, theirs, counterparts)
    {
        return Ok(None);
    }
    let Some(to) = turned(alloc, back.as_slice())? else {
        return Ok(None);
    };
    Ok(Some(Naming { to, back }))
}
