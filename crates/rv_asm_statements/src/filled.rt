//! The operands of an instruction, by what they are: in the source, and with a copy of the label.

ghost use Rattle.std.specs.Prelude.{◌≡◌, IfOk, IsOk, None};
ghost use Rattle.rv_asm_statements.specs.Read.{read_target, read_filled};

use crate::values::{Integer, Label};
use rv_asm_tokens::Number;
use rv_decode::Reg;
use std::alloc::{AllocError, Global};

/// Where a branch goes or what an immediate is: a number, or a label and a number behind it.
#[derive(Drop)]
pub struct Target {
    pub label: Option<Label>,
    pub number: Integer,
}

/// The registers in the order in which they stand, and the number or target. What a shape lacks is x0 or 0.
#[derive(Drop)]
pub struct Filled {
    pub first: Reg,
    pub second: Reg,
    pub third: Reg,
    pub target: Target,
}

/// A target whose label still stands in the source.
#[derive(Clone, Copy)]
pub struct TargetRef<'a> {
    pub label: Option<&'a [u8]>,
    pub number: Number,
}

impl TargetRef<'_> {
    /// The target with a copy of its label. Without a label no memory is asked for.
    pub fn copied(&self, alloc: Global) -> Result<Target, AllocError>
        ensures value { IfOk result (λ target. target ≡ read_target self.now) }
        ensures no_label { self.now.label ≡ None → IsOk result }
    {
        let label = match self.label {
            None => None,
            Some(name) => Some(Label::copied(alloc, name)?),
        };
        Ok(Target {
            label,
            number: Integer::from_number(self.number),
        })
    }
}

/// The operands of an instruction whose label still stands in the source.
#[derive(Clone, Copy)]
pub struct FilledRef<'a> {
    pub first: Reg,
    pub second: Reg,
    pub third: Reg,
    pub target: TargetRef<'a>,
}

impl FilledRef<'_> {
    /// The operands with a copy of their label. Without a label no memory is asked for.
    pub fn copied(&self, alloc: Global) -> Result<Filled, AllocError>
        ensures value { IfOk result (λ filled. filled ≡ read_filled self.now) }
        ensures no_label { self.now.target.label ≡ None → IsOk result }
    {
        Ok(Filled {
            first: self.first,
            second: self.second,
            third: self.third,
            target: self.target.copied(alloc)?,
        })
    }
}
