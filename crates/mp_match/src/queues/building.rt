//! Posts built anew, from lists of all that is known of them.

ghost use Rattle.std.specs.Prelude.{◌≡◌, ◌+◌, ◌++◌, ◌<◌, ◌^◌, ◌-◌, length, IfOk, OnOk};
ghost use Rattle.mp_match.specs.Board.{board_with};
ghost use Rattle.mp_match.specs.PostPairs.{pairs, pairs_on, posts_of};

use super::Queues;
use crate::live::body_copy;
use crate::posts::{Line, Post};
use mp_types::Bytes;
use std::alloc::{AllocError, Global};

impl Queues {
    /// These posts, each with the place of its partner, with the messages that are held of them, in memory of its own:
    /// what was told of other queues makes the same ones here. The messages share their bytes with those that are given.
    /// `compared` is how many waiting receives the last send compared.
    ///
    /// The posts are made again in their order, and find the partners that they had: so the lines must be those that the
    /// posts themselves make. The only error is want of memory.
    pub fn of(
        alloc: Global,
        lines: &[Line],
        bodies: &[Option<Bytes>],
        compared: u64,
    ) -> Result<Queues, AllocError>
        requires paired { lines.now ≡ pairs (posts_of lines.now) }
        requires even { length bodies.now ≡ length lines.now }
        ensures { IfOk result (λ queues.
            queues ≡ record { lines = lines.now; bodies = bodies.now; compared = compared }) }
    {
        let mut queues = Queues::new(alloc);
        queues.add_all(lines, bodies)?;
        queues.set_compared(compared);
        Ok(queues)
    }

    // The last send compared so many waiting receives.
    fn set_compared(&mut self, compared: u64)
        ensures { self.new ≡ record { lines = self.old.lines; bodies = self.old.bodies; compared = compared } }
    {
        self.compared = compared;
        self.history = self.history.with_compared(&compared);
    }

    // The posts of the lines in turn, each with a copy of its body.
    fn add_all(&mut self, lines: &[Line], bodies: &[Option<Bytes>]) -> Result<(), AllocError>
        requires few { length self.old.lines + length lines.now < 2 ^ 64 }
        requires even { length bodies.now ≡ length lines.now }
        ensures lines { OnOk result (self.new.lines ≡ pairs_on self.old.lines (posts_of lines.now)) }
        ensures bodies { OnOk result (self.new.bodies ≡ self.old.bodies ++ bodies.now) }
    {
        let mut rest = lines;
        let mut left = bodies;
        while let Some((line, after)) = rest.split_first() {
            let Some((body, more)) = left.split_first() else {
                unreachable!()
            };
            self.add_again(line.post, body)?;
            rest = after;
            left = more;
        }
        Ok(())
    }

    // One post more, with a copy of its body.
    fn add_again(&mut self, new: Post, body: &Option<Bytes>) -> Result<(), AllocError>
        requires { length self.old.lines < 2 ^ 64 - 1 }
        ensures { OnOk result (self.new ≡ board_with self.old new body.now) }
    {
        let copy = body_copy(self.alloc, body)?;
        let found = self.find(new);
        self.add_to(found, new, copy)
    }
}
