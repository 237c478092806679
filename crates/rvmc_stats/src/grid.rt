//! A table of numbers that are counted up.

ghost use Rattle.std.specs.Prelude.{◌≡◌, IfOk, length, replicate};
ghost use Rattle.rvmc_stats.specs.MoreAt.{added_in};
ghost use Rattle.rvmc_stats.specs.Tallies.{cell_at};

use crate::tally::Tally;
use std::alloc::{AllocError, Global};
use std::marker::Model;

/// A table of numbers that are counted up, each by its row and its column, from 0. Contracts see its rows.
#[derive(Drop)]
pub struct Grid {
    rows: Vec<Tally>,
}

impl Model for Grid {
    ghost use Rattle.std.specs.Prelude.{List, ℕ};

    ghost Value = { List (List ℕ) };

    ghost view = { λ grid. grid.rows.items };
}

impl Grid {
    /// So many rows of so many numbers, each 0. The only error is want of memory.
    pub fn new(alloc: Global, rows: usize, columns: usize) -> Result<Grid, AllocError>
        ensures { IfOk result (λ grid. grid ≡ replicate rows (replicate columns 0)) }
    {
        let mut made = Vec::with_capacity(alloc, rows)?;
        for _n in 0..rows {
            made.push(Tally::new(alloc, columns)?)?;
        }
        Ok(Grid { rows: made })
    }

    /// How many rows there are.
    pub fn len(&self) -> usize
        ensures { result ≡ length self.now }
    {
        self.rows.len()
    }

    /// The number in a row and a column; 0 where there is no such place.
    pub fn get(&self, row: usize, column: usize) -> u64
        ensures { result ≡ cell_at self.now row column }
    {
        match self.rows.get(row) {
            None => 0,
            Some(tally) => tally.get(column),
        }
    }

    /// Adds to the number in a row and a column; where there is no such place, nothing. A number that would no longer fit
    /// into 64 bits stays the greatest that does.
    pub fn add(&mut self, row: usize, column: usize, more: u64)
        ensures { self.new ≡ added_in self.old row column more }
    {
        if row < self.rows.len() {
            self.rows[row].add(column, more);
        }
    }
}
