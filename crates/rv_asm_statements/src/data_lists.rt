//! The lists that directives hold, which contracts see as lists.

ghost use Rattle.std.specs.Prelude.{◌≡◌};

use crate::filled::Target;
use crate::values::Integer;
use std::marker::Model;

/// The numbers of a communicator. Contracts see a list of integers.
#[derive(Drop)]
pub struct Integers {
    numbers: Vec<Integer>,
}

impl Model for Integers {
    ghost use Rattle.std.specs.Prelude.{List, ℤ};

    ghost Value = { List ℤ };

    ghost view = { λ integers. integers.numbers.items };
}

impl Integers {
    /// The vector's numbers.
    pub fn from_vec(numbers: Vec<Integer>) -> Integers
        ensures { result ≡ numbers.items }
    {
        Integers { numbers }
    }

    /// The numbers.
    pub fn as_slice(&self) -> &[Integer]
        ensures { result.now ≡ self.now }
    {
        self.numbers.as_slice()
    }
}

/// The items of a line of data: numbers, and labels with nothing behind them. Contracts see a list of targets.
#[derive(Drop)]
pub struct Items {
    targets: Vec<Target>,
}

impl Model for Items {
    ghost use Rattle.std.specs.Prelude.{List};
    ghost use Rattle.rv_asm_statements.specs.declared.filled.Target.{Target};

    ghost Value = { List Target };

    ghost view = { λ items. items.targets.items };
}

impl Items {
    /// The vector's items.
    pub fn from_vec(targets: Vec<Target>) -> Items
        ensures { result ≡ targets.items }
    {
        Items { targets }
    }

    /// The items.
    pub fn as_slice(&self) -> &[Target]
        ensures { result.now ≡ self.now }
    {
        self.targets.as_slice()
    }
}

/// The bytes of a string. Contracts see a list of numbers.
#[derive(Drop)]
pub struct Bytes {
    bytes: Vec<u8>,
}

impl Model for Bytes {
    ghost use Rattle.std.specs.Prelude.{List, ℕ};

    ghost Value = { List ℕ };

    ghost view = { λ text. text.bytes.items };
}

impl Bytes {
    /// The vector's bytes.
    pub fn from_vec(bytes: Vec<u8>) -> Bytes
        ensures { result ≡ bytes.items }
    {
        Bytes { bytes }
    }

    /// The bytes.
    pub fn as_slice(&self) -> &[u8]
        ensures { result.now ≡ self.now }
    {
        self.bytes.as_slice()
    }
}
