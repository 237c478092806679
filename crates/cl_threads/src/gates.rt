//! What ranks pass on their threads: it may hold one back, and knows nothing of it but its number and how many turns it
//! came to.

use crate::lookout::Lookout;
use crate::roll::Roll;

/// Where a rank is.
#[derive(Clone, Copy, PartialEq, Eq, Drop, Debug)]
pub enum Point {
    /// Its thread runs.
    Begin,
    /// It is about to take a turn, or to find that it has none.
    Turn,
    /// It takes no turn any more, on whatever way it ended; also where its thread couldn't be started.
    End,
}

/// What each rank passes at each point, on its own thread. It may hold the rank for a while.
pub trait Gate: Sync {
    fn pass(&self, rank: u8, point: Point);

    /// Passes `Turn` before the rank's turn of this number, counted from 0. A gate that counts turns can do with less
    /// where it is told.
    #[inline(always)]
    fn turn(&self, rank: u8, _number: u64) {
        self.pass(rank, Point::Turn);
    }

    /// How many turns the rank may take, from the one of this number on, which it passed, before it passes again.
    #[inline(always)]
    fn free(&self, _rank: u8, _number: u64) -> u64 {
        1
    }

    /// Whether other ranks may be held until this one comes to its next turn.
    #[inline(always)]
    fn is_awaited(&self, _rank: u8) -> bool {
        false
    }

    /// The roll on which all ranks are, by which they learn that nobody can go on. Without one they don't.
    #[inline(always)]
    fn roll(&self) -> Option<&Roll> {
        None
    }
}

/// Holds nobody.
#[derive(Clone, Copy, Drop, Debug)]
pub struct NoGate;

impl Gate for NoGate {
    #[inline(always)]
    fn pass(&self, _rank: u8, _point: Point) {}

    #[inline(always)]
    fn free(&self, _rank: u8, _number: u64) -> u64 {
        u64::MAX
    }
}

// What a reference passes is what it points to.
impl<'g, G: Gate> Gate for &'g G {
    #[inline(always)]
    fn pass(&self, rank: u8, point: Point) {
        (**self).pass(rank, point);
    }

    #[inline(always)]
    fn turn(&self, rank: u8, number: u64) {
        (**self).turn(rank, number);
    }

    #[inline(always)]
    fn free(&self, rank: u8, number: u64) -> u64 {
        (**self).free(rank, number)
    }

    #[inline(always)]
    fn is_awaited(&self, rank: u8) -> bool {
        (**self).is_awaited(rank)
    }

    #[inline(always)]
    fn roll(&self) -> Option<&Roll> {
        (**self).roll()
    }
}

/// A rank's way past a gate. Dropping it passes `End`, so that each rank passes that on every way it may end.
pub(crate) struct Passage<G: Gate + Drop> {
    gate: G,
    rank: u8,
}

impl<G: Gate + Drop> Passage<G> {
    pub(crate) fn new(gate: G, rank: u8) -> Passage<G> {
        Passage { gate, rank }
    }

    pub(crate) fn begin(&self) {
        self.gate.pass(self.rank, Point::Begin);
    }

    #[inline(always)]
    pub(crate) fn turn(&self, number: u64) {
        self.gate.turn(self.rank, number);
    }

    #[inline(always)]
    pub(crate) fn free(&self, number: u64) -> u64 {
        self.gate.free(self.rank, number)
    }

    #[inline(always)]
    pub(crate) fn is_awaited(&self) -> bool {
        self.gate.is_awaited(self.rank)
    }

    /// What the rank looks out for behind its turns, by a plan that gives so many until each of its harts had one.
    pub(crate) fn lookout(&self, round: usize) -> Lookout<'_> {
        Lookout::new(self.gate.roll(), self.rank, round)
    }
}

impl<G: Gate + Drop> Drop for Passage<G> {
    fn drop(self) {
        let Passage { gate, rank } = self;
        gate.pass(rank, Point::End);
    }
}
