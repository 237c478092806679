//! Points that are set and taken away.

ghost use Rattle.std.specs.Prelude.{◌≡◌, IfOk, not, option_map, true};
ghost use Rattle.std.specs.List.{filter};
ghost use Rattle.cl_state.specs.Room.{rank_of};
ghost use Rattle.rvmc_protocol.specs.Requests.Laws.{point_number};
ghost use Rattle.rvmc_motions.specs.Marks.{is_watch};
ghost use Rattle.rvmc_gdb.specs.Points.{can_add, can_stand, has_mark, is_same, marks_without, same_ranks};

use crate::session::Session;
use cl_state::RankState;
use rvmc_motions::{Mark, Ranks};
use rvmc_protocol::requests::Point;
use std::alloc::{AllocError, Global};

/// How many points there are at most.
const MOST: usize = 256;

/// The number of a point's kind, as a client writes it.
fn point_number(point: Point) -> u8
    ensures { result ≡ point_number point }
{
    match point {
        Point::Before => 0,
        Point::HardwareBefore => 1,
        Point::Written => 2,
        Point::Read => 3,
        Point::Touched => 4,
    }
}

/// Whether points of these ranks are points of the others.
fn same_ranks(ranks: Ranks, others: Ranks) -> bool
    ensures { result ≡ same_ranks ranks others }
{
    match (ranks, others) {
        (Ranks::All, Ranks::All) => true,
        (Ranks::One(rank), Ranks::One(other)) => rank == other,
        (Ranks::All, Ranks::One(_)) | (Ranks::One(_), Ranks::All) => false,
    }
}

/// Whether two marks are one.
fn is_same(mark: &Mark, other: &Mark) -> bool
    ensures { result ≡ is_same mark.now other.now }
{
    same_ranks(other.ranks, mark.ranks)
        && point_number(other.point) == point_number(mark.point)
        && other.address == mark.address
        && other.size == mark.size
}

/// Whether a mark is among others.
fn has_mark(marks: &[Mark], mark: &Mark) -> bool
    ensures { result ≡ has_mark marks.now mark.now }
{
    for other in marks {
        if is_same(mark, other) {
            return true;
        }
    }
    false
}

/// All marks but this one.
fn marks_without(alloc: Global, marks: &[Mark], mark: &Mark) -> Result<Vec<Mark>, AllocError>
    ensures { IfOk result (λ left. left.items ≡ marks_without marks.now mark.now) }
{
    let mut left = Vec::new(alloc);
    for other in marks {
        if !is_same(mark, other) {
            left.push(*other)?;
        }
    }
    Ok(left)
}

/// Whether a point is a watchpoint, at which motions stop for its bytes.
fn is_watch(mark: &Mark) -> bool
    ensures { result ≡ is_watch mark.now.point true }
{
    match mark.point {
        Point::Before | Point::HardwareBefore => false,
        Point::Written | Point::Read | Point::Touched => true,
    }
}

/// Whether a point of a rank can be set: of a watchpoint the rank's memory has all bytes, of which there is one at least.
pub(crate) fn can_stand(owner: Option<&RankState>, mark: &Mark) -> bool
    ensures { result ≡ can_stand (option_map (λ owner. rank_of owner.now) owner.entry) mark.now }
{
    if !is_watch(mark) {
        return true;
    }
    match owner {
        Some(owner) => mark.size > 0 && owner.memory.in_range(mark.address, mark.size, false),
        None => false,
    }
}

/// Whether a point can be added to these: there aren't too many, and it can be set.
fn can_add(marks: &[Mark], owner: Option<&RankState>, mark: &Mark) -> bool
    ensures { result ≡ can_add (option_map (λ owner. rank_of owner.now) owner.entry) marks.now mark.now }
{
    marks.len() < MOST && can_stand(owner, mark)
}

impl Session {
    ghost use Rattle.rvmc_gdb.specs.Points.{Inserts, IsOwner, Removes};

    /// The rank that is meant, if the image has it.
    pub(crate) fn owner(&self) -> Option<&RankState>
        ensures { IsOwner self.now (option_map (λ owner. rank_of owner.now) result) }
    {
        match self.debugger.rank(self.rank) {
            Ok(owner) => Some(owner),
            Err(_) => None,
        }
    }

    /// Sets a point, unless it is there.
    pub(crate) fn insert(&mut self, mark: Mark) -> Result<Vec<u8>, AllocError>
        ensures { IfOk result (λ text. Inserts self.old mark self.new text.items) }
    {
        let marks = self.marks.as_slice();
        let is_there = has_mark(marks, &mark);
        let can_add = can_add(marks, self.owner(), &mark);
        if is_there {
            return Ok(self.done()?);
        }
        if !can_add {
            return Ok(self.refused()?);
        }
        self.marks.push(mark)?;
        self.done()
    }

    /// Takes a point away, if it is there.
    pub(crate) fn remove(&mut self, mark: Mark) -> Result<Vec<u8>, AllocError>
        ensures { IfOk result (λ text. Removes self.old mark self.new text.items) }
    {
        let left = marks_without(self.alloc, self.marks.as_slice(), &mark)?;
        self.marks = left;
        self.done()
    }
}
