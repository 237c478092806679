//! The first operands of a statement, in place: as many as an instruction takes.

ghost use Rattle.std.specs.Prelude.{◌≡◌, ◌<◌, ◌∷◌, ◌++◌, [], List, MatchOption, length, map};
ghost use Rattle.rv_asm_statements.specs.Arguments.{Argument};
ghost use Rattle.rv_asm_statements.specs.CodeViews.{argument_view};
ghost use Rattle.rv_asm_statements.specs.First.{AreFirst};

use crate::operand_list::Operand;

/// The most operands that an instruction takes.
const MOST: usize = 3;

/// The first operands of a statement, and how many it has: `MOST + 1` where it has more than `MOST`.
#[derive(Clone, Copy)]
pub struct Few<'a> {
    operands: [Operand<'a>; MOST],
    count: usize,
}

impl<'a> Few<'a> {
    /// No operand.
    pub fn none() -> Few<'a>
        ensures { AreFirst result [] }
    {
        Few {
            operands: [Operand::Text(b""); MOST],
            count: 0,
        }
    }

    /// Puts an operand behind the others.
    #[inline(always)]
    pub fn push(&mut self, operand: Operand<'a>)
        ensures { (xs : List Argument) → AreFirst self.old xs
            → AreFirst self.new (xs ++ argument_view operand.entry ∷ []) }
    {
        if self.count < MOST {
            self.operands[self.count] = operand;
            self.count += 1;
        } else {
            self.count = MOST + 1;
        }
    }

    /// All operands, if there are no more than an instruction takes.
    pub fn all(&self) -> Option<&[Operand<'a>]>
        ensures { (xs : List Argument) → AreFirst self.now xs
            → MatchOption result (3 < length xs) (λ few. map argument_view few.now ≡ xs) }
    {
        if self.count <= MOST {
            Some(&self.operands[..self.count])
        } else {
            None
        }
    }
}
