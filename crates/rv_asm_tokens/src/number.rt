//! The numbers that a source can spell.

ghost use Rattle.std.specs.Prelude.{◌≡◌, ◌≤ℤ◌, ◌<ℤ◌, ◌^◌, pos, neg_ℤ};
ghost use Rattle.rv_asm_tokens.specs.Lexeme.{number_value};

/// A number between -2^64 and 2^64, as its sign and magnitude. Tokens have those from -2^63 to 2^64 - 1.
#[derive(Clone, Copy)]
pub struct Number {
    pub negative: bool,
    pub magnitude: u64,
}

/// Zero.
pub const ZERO: Number = Number {
    negative: false,
    magnitude: 0,
};

/// A number as an integer.
pub fn value_of(number: Number) -> i128
    ensures value { result ≡ number_value number }
    ensures low { neg_ℤ (pos (2 ^ 64)) <ℤ result }
    ensures high { result <ℤ pos (2 ^ 64) }
{
    if number.negative {
        -i128::from(number.magnitude)
    } else {
        i128::from(number.magnitude)
    }
}
