//! A pace that is watched: whether it lets a rank take a turn that is too far ahead.

use cl_threads::{Gate, Pace, Point};
use std::sync::atomic::{AtomicU64, Ordering};

/// A pace of two ranks or of three, and how far each of them has come by now.
#[derive(Drop)]
pub struct Watched {
    pace: Pace,
    lead: u64,
    /// How many turns each rank has come to; of one that has ended, and of one that isn't there, more than there can be.
    come: [AtomicU64; 3],
    /// How many turns it let pass that were more than `lead` ahead of another rank.
    far: AtomicU64,
}

impl Watched {
    /// For the ranks below this number, which is 2 or 3.
    pub fn new(ranks: u8, lead: u64) -> Watched {
        let third = if ranks == 3 { 0 } else { u64::MAX };
        Watched {
            pace: Pace::new(ranks, lead),
            lead,
            come: [AtomicU64::new(0), AtomicU64::new(0), AtomicU64::new(third)],
            far: AtomicU64::new(0),
        }
    }

    /// How many turns were too far ahead.
    pub fn far(&self) -> u64 {
        self.far.load(Ordering::SeqCst)
    }

    /// Counts the turn of this number if it is too far ahead of another rank.
    fn watch(&self, mine: usize, number: u64) {
        for (rank, come) in self.come.iter().enumerate() {
            if rank != mine && number > come.load(Ordering::SeqCst).saturating_add(self.lead) {
                self.far.fetch_add(1, Ordering::SeqCst);
                return;
            }
        }
    }
}

impl Gate for Watched {
    fn pass(&self, rank: u8, point: Point) {
        if rank < 3 && point == Point::End {
            self.come[usize::from(rank)].store(u64::MAX, Ordering::SeqCst);
        }
        self.pace.pass(rank, point);
    }

    fn turn(&self, rank: u8, number: u64) {
        if rank > 2 {
            return;
        }
        let mine = usize::from(rank);
        self.come[mine].store(number.saturating_add(1), Ordering::SeqCst);
        self.pace.turn(rank, number);
        self.watch(mine, number);
    }

    fn is_awaited(&self, rank: u8) -> bool {
        self.pace.is_awaited(rank)
    }
}
