//! What statements keep of the source: names and numbers.

use rv_asm_tokens::Number;
use std::alloc::{AllocError, Global};
use std::marker::Model;

/// A name. Contracts see its bytes.
#[derive(Drop)]
pub struct Label {
    bytes: Vec<u8>,
}

impl Model for Label {
    ghost use Rattle.std.specs.Prelude.{List, ℕ};

    ghost Value = { List ℕ };

    ghost view = { λ label. label.bytes.items };
}

impl Label {
    ghost use Rattle.std.specs.Prelude.{◌≡◌, IfOk};

    /// A copy of a name.
    pub fn copied(alloc: Global, name: &[u8]) -> Result<Label, AllocError>
        ensures { IfOk result (λ label. label ≡ name.now) }
    {
        let bytes = Vec::from_slice(alloc, name)?;
        Ok(Label { bytes })
    }

    /// The name's bytes.
    pub fn as_slice(&self) -> &[u8]
        ensures { result.now ≡ self.now }
    {
        self.bytes.as_slice()
    }
}

/// A number between -2^64 and 2^64. Contracts see the integer.
#[derive(Drop)]
pub struct Integer {
    number: Number,
}

impl Model for Integer {
    ghost use Rattle.std.specs.Prelude.{ℤ};
    ghost use Rattle.rv_asm_tokens.specs.Lexeme.{number_value};

    ghost Value = { ℤ };

    ghost view = { λ z. number_value z.number };
}

impl Integer {
    ghost use Rattle.std.specs.Prelude.{◌≡◌, ◌<ℤ◌, ◌^◌, pos, neg_ℤ};
    ghost use Rattle.rv_asm_tokens.specs.Lexeme.{number_value};

    /// The integer of a number in the source.
    pub fn from_number(number: Number) -> Integer
        ensures { result ≡ number_value number }
    {
        Integer { number }
    }

    /// The integer as a number in the source.
    pub fn number(&self) -> Number
        ensures { number_value result ≡ self.now }
    {
        self.number
    }

    /// The integer as a machine number.
    pub fn value(&self) -> i128
        ensures value { result ≡ self.now }
        ensures low { neg_ℤ (pos (2 ^ 64)) <ℤ result }
        ensures high { result <ℤ pos (2 ^ 64) }
    {
        rv_asm_tokens::value_of(self.number)
    }
}
