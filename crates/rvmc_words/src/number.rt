//! Numbers in a range, in decimal or in hexadecimal digits.

ghost use Rattle.std.specs.Prelude.{◌≡◌, ◌≤◌, IfSome};
ghost use Rattle.rvmc_words.specs.Number.{any_number_in, number_in, number_in_base};

/// The number that a text writes in digits of the base (2 to 36), where it is from `least` to `most`.
fn number_in_base(base: u32, least: u64, most: u64, text: &str) -> Option<u64>
    requires least_base { 2 ≤ base }
    requires most_base { base ≤ 36 }
    ensures value { result ≡ number_in_base base least most text.now }
    ensures bound { IfSome result (λ number. number ≤ most) }
{
    let bytes = text.as_bytes();
    if bytes.is_empty() {
        return None;
    }
    // The library takes a plus before the digits, as Rust does.
    if bytes[0] == b'+' {
        return None;
    }
    let Ok(number) = u64::from_str_radix(text, base) else {
        return None;
    };
    if number < least {
        return None;
    }
    if most < number {
        return None;
    }
    Some(number)
}

/// The number that a text writes in decimal digits, where it is from `least` to `most`. A sign, a
/// blank or no digit at all is no number.
#[tactic(auto, unfolding(crate::specs::Number::number_in))]
pub fn number_in(least: u64, most: u64, text: &str) -> Option<u64>
    ensures value { result ≡ number_in least most text.now }
    ensures bound { IfSome result (λ number. number ≤ most) }
{
    number_in_base(10, least, most, text)
}

/// The number that a text writes in decimal digits, or in hexadecimal ones (of either case) behind `0x`, where it is at
/// most `most`. A sign, a blank or no digit at all is no number.
pub fn any_number_in(most: u64, text: &str) -> Option<u64>
    ensures value { result ≡ any_number_in most text.now }
    ensures bound { IfSome result (λ number. number ≤ most) }
{
    match text.strip_prefix("0x") {
        Some(digits) => number_in_base(16, 0, most, digits),
        None => number_in_base(10, 0, most, text),
    }
}
