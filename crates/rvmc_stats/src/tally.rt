//! A list of numbers that are counted up.

ghost use Rattle.std.specs.Prelude.{◌≡◌, IfOk, length, replicate};
ghost use Rattle.rvmc_stats.specs.MoreAt.{added};
ghost use Rattle.rvmc_stats.specs.Tallies.{count_at};

use std::alloc::{AllocError, Global};
use std::marker::Model;

/// A list of numbers that are counted up, each by its place, from 0. Contracts see a list.
#[derive(Drop)]
pub struct Tally {
    counts: Vec<u64>,
}

impl Model for Tally {
    ghost use Rattle.std.specs.Prelude.{List, ℕ};

    ghost Value = { List ℕ };

    ghost view = { λ tally. tally.counts.items };
}

impl Tally {
    /// So many numbers, each 0. The only error is want of memory.
    pub fn new(alloc: Global, len: usize) -> Result<Tally, AllocError>
        ensures { IfOk result (λ tally. tally ≡ replicate len 0) }
    {
        let counts = vec![in alloc; 0; len]?;
        Ok(Tally { counts })
    }

    /// How many numbers there are.
    pub fn len(&self) -> usize
        ensures { result ≡ length self.now }
    {
        self.counts.len()
    }

    /// The number at a place; 0 where there is no such place.
    pub fn get(&self, place: usize) -> u64
        ensures { result ≡ count_at self.now place }
    {
        match self.counts.get(place) {
            None => 0,
            Some(count) => *count,
        }
    }

    /// Adds to the number at a place; where there is no such place, nothing. A number that would no longer fit into 64 bits
    /// stays the greatest that does.
    pub fn add(&mut self, place: usize, more: u64)
        ensures { self.new ≡ added self.old place more }
    {
        if place < self.counts.len() {
            self.counts[place] = self.counts[place].saturating_add(more);
        }
    }
}
