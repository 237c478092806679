//! The tables of steps.

ghost use Rattle.std.specs.Prelude.{◌≡◌, [], IfOk};
ghost use Rattle.rvmc_stats.specs.Counted.{taken_seen};
ghost use Rattle.rvmc_stats.specs.Tables.{AreOf};
ghost use Rattle.rvmc_stats.specs.Adding.{Adds};

use crate::calls::CALL_ROWS;
use crate::counting::{count_call, count_place, count_taken, count_turn, count_wait};
use crate::grid::Grid;
use crate::mail::Mail;
use crate::tally::Tally;
use cl_machine::Step;
use rv_hart::Hart;
use std::alloc::{AllocError, Global};

/// What steps are counted by.
#[derive(Drop)]
pub struct Tables {
    /// Turns by rank.
    pub(crate) taken: Tally,
    /// Turns that found nothing new, by rank.
    pub(crate) waits: Tally,
    /// Turns by rank and kind.
    pub(crate) turns: Grid,
    /// Calls by number and by how they ended.
    pub(crate) calls: Grid,
    /// Messages and bytes by sender and receiver.
    pub(crate) mail: Mail,
    /// Turns by the word of the text where the hart was.
    pub(crate) places: Tally,
}

impl Tables {
    /// Tables of no steps, for so many ranks and so many words of text. The only error is want of memory.
    pub fn new(alloc: Global, ranks: u8, words: usize) -> Result<Tables, AllocError>
        ensures { IfOk result (λ tables. AreOf ranks words [] tables) }
    {
        let ranks = usize::from(ranks);
        Ok(Tables {
            taken: Tally::new(alloc, ranks)?,
            waits: Tally::new(alloc, ranks)?,
            turns: Grid::new(alloc, ranks, 9)?,
            calls: Grid::new(alloc, CALL_ROWS, 21)?,
            mail: Mail::new(alloc, ranks)?,
            places: Tally::new(alloc, words)?,
        })
    }

    /// Counts one step more, of its hart before it and after it.
    pub fn add(&mut self, step: &Step, before: &Hart, after: &Hart)
        ensures { Adds self.old (taken_seen step.now before.now after.now) self.new }
    {
        count_taken(&mut self.taken, step);
        count_wait(&mut self.waits, step);
        count_turn(&mut self.turns, step);
        count_call(&mut self.calls, step, before, after);
        self.mail.add_step(step);
        count_place(&mut self.places, step, before);
    }

    /// Turns by the word of the text where the hart was.
    pub fn places(&self) -> &Tally
        ensures { result.now ≡ self.now.places }
    {
        &self.places
    }
}
