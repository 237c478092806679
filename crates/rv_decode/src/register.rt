//! The number of a register.
use std::marker::Model;

/// The number of an integer register, from 0 to 31: `Reg::new(5)` is x5. Contracts see the number.
#[derive(Clone, Copy, Drop)]
pub struct Reg(u8);

impl Model for Reg {
    ghost use Rattle.std.specs.Prelude.{ℕ, ◌<◌};

    ghost Value = { ℕ };

    ghost view = { λ r. r.0 };

    ghost invariant = { λ r. r.0 < 32 };

    ghost inverse = { λ n. record { 0 = n } };
}

impl Reg {
    ghost use Rattle.std.specs.Prelude.{◌≡◌, ◌<◌};

    /// The register of this number, which is below 32.
    #[inline(always)]
    pub fn new(number: u8) -> Reg
        requires { number < 32 }
        ensures { result ≡ number }
    {
        Reg(number)
    }

    /// The register's number.
    #[inline(always)]
    pub fn number(self) -> u8
        ensures value { result ≡ self }
        ensures bound { result < 32 }
    {
        self.0
    }
}
