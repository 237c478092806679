//! Numbers by their digits.

ghost use Rattle.std.specs.Prelude.{◌≡◌};
ghost use Rattle.rv_asm_tokens.specs.Digits.{digit_value, with_digit, digits_from, magnitude};

/// The value of a digit below the base.
fn value_of_digit(base: u64, b: u8) -> Option<u64>
    ensures { result ≡ digit_value base b }
{
    let d = match b {
        b'0'..=b'9' => u64::from(b - b'0'),
        b'a'..=b'f' => u64::from(b - b'a' + 10),
        b'A'..=b'F' => u64::from(b - b'A' + 10),
        _ => base,
    };
    if d < base { Some(d) } else { None }
}

/// The number with one more digit behind it.
#[tactic(auto, unfolding(crate::specs::Digits::with_digit))]
fn followed_by(base: u64, value: u64, b: u8) -> Option<u64>
    ensures { result ≡ with_digit base value b }
{
    let d = value_of_digit(base, b)?;
    value.checked_mul(base)?.checked_add(d)
}

/// The number that digits spell, if it is below 2^64.
#[tactic(auto, unfolding(crate::specs::Digits::digits_from))]
fn number_of(base: u64, digits: &[u8]) -> Option<u64>
    ensures { result ≡ digits_from base 0 digits.now }
{
    let mut value: u64 = 0;
    let mut rest = digits;
    while let [b, after @ ..] = rest {
        value = followed_by(base, value, *b)?;
        rest = after;
    }
    Some(value)
}

/// The number that a word spells: decimal digits, or `0x` and hexadecimal digits.
#[tactic(auto, unfolding(crate::specs::Digits::magnitude))]
pub fn magnitude_of(word: &[u8]) -> Option<u64>
    ensures { result ≡ magnitude word.now }
{
    match word {
        [] => None,
        [b'0', b'x', digits @ ..] if !digits.is_empty() => number_of(16, digits),
        _ => number_of(10, word),
    }
}
