//! Numbers that keep limits.

ghost use Rattle.std.specs.Prelude.{◌≡◌};
ghost use Rattle.rv_asm_tokens.specs.Lexeme.{number_value};
ghost use Rattle.rv_asm_statements.specs.Limits.{natural_of};

use rv_asm_tokens::Number;
use std::marker::Model;

/// A number that is not negative.
fn natural(number: Number) -> Option<u64>
    ensures { result ≡ natural_of (number_value number) }
{
    if number.negative && number.magnitude > 0 {
        None
    } else {
        Some(number.magnitude)
    }
}

/// A number from `LEAST` to `MOST`, which is a multiple of `STEP`. Contracts see the number.
#[derive(Clone, Copy)]
pub struct Limited<const LEAST: u32, const MOST: u32, const STEP: u32> {
    number: u32,
}

impl<const LEAST: u32, const MOST: u32, const STEP: u32> Model for Limited<LEAST, MOST, STEP> {
    ghost use Rattle.std.specs.Prelude.{ℕ};
    ghost use Rattle.rv_asm_statements.specs.Limits.{IsWithinLimits};

    ghost Value = { ℕ };

    ghost view = { λ limited. limited.number };

    ghost inverse = { λ n. record { number = n } };

    ghost invariant = { λ limited. IsWithinLimits LEAST MOST STEP limited.number };
}

impl<const LEAST: u32, const MOST: u32, const STEP: u32> Limited<LEAST, MOST, STEP> {
    ghost use Rattle.std.specs.Prelude.{◌≡◌, ◌<◌};
    ghost use Rattle.rv_asm_tokens.specs.Lexeme.{number_value};
    ghost use Rattle.rv_asm_statements.specs.Limits.{IsWithinLimits, limited};

    /// The number, if it keeps the limits.
    #[tactic(auto, unfolding(crate::specs::Limits::limited))]
    pub fn from_number(number: Number) -> Option<Limited<LEAST, MOST, STEP>>
        requires { 0 < STEP }
        ensures { result ≡ limited LEAST MOST STEP (number_value number) }
    {
        let n = natural(number)?;
        if n < u64::from(LEAST) || n > u64::from(MOST) || n % u64::from(STEP) != 0 {
            return None;
        }
        Some(Limited { number: n as u32 })
    }

    /// The number. Whoever asks knows that it keeps the limits.
    pub fn number(&self) -> u32
        ensures value { result ≡ self.now }
        ensures limits { IsWithinLimits LEAST MOST STEP result }
    {
        self.number
    }
}
