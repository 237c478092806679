//! The sum of a packet's text, and its two digits.

ghost use Rattle.std.specs.Prelude.{◌≡◌, ◌<◌};
ghost use Rattle.rvmc_protocol.specs.Packets.Texts.{digit, is_sum, sum_of};

/// The sum of the bytes, modulo 256.
pub(crate) fn sum_of(text: &[u8]) -> u8
    ensures { result ≡ sum_of text.now }
{
    let mut sum: u8 = 0;
    for byte in text {
        sum = sum.wrapping_add(*byte);
    }
    sum
}

/// The digit of a number below 16, in lower case.
pub(crate) fn digit(number: u8) -> u8
    requires { number < 16 }
    ensures { result ≡ digit number }
{
    if number < 10 {
        b'0' + number
    } else {
        b'a' + (number - 10)
    }
}

/// Whether two bytes are the digits of the text's sum, in either case.
pub(crate) fn is_sum(text: &[u8], high: u8, low: u8) -> bool
    ensures { result ≡ is_sum text.now high low }
{
    let Some(high) = char::from(high).to_digit(16) else {
        return false;
    };
    let Some(low) = char::from(low).to_digit(16) else {
        return false;
    };
    high * 16 + low == u32::from(sum_of(text))
}
