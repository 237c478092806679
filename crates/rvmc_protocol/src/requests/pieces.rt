//! Pieces of a payload: what stands behind a beginning, before a mark, between marks, and numbers.

ghost use Rattle.std.specs.Prelude.{◌≡◌, ◌==◌, IfOk, map, option_map};
ghost use Rattle.std.specs.List.{slice_split};
ghost use Rattle.std.specs.Str.{bytes_eq};
ghost use Rattle.rvmc_protocol.specs.Requests.Pieces.{behind, cut, number_in, numbers_in};

use std::alloc::{AllocError, Global};

/// With one more digit a number from here on has more than 64 bits: 2^60.
const TOO_LARGE: u64 = 1_152_921_504_606_846_976;

/// Whether a text is this word.
pub(crate) fn is_word(text: &[u8], word: &[u8]) -> bool
    ensures { result ≡ bytes_eq text.now word.now }
{
    text == word
}

/// What stands behind a beginning, where the text begins so.
pub(crate) fn behind<'a>(text: &'a [u8], beginning: &[u8]) -> Option<&'a [u8]>
    ensures { option_map (λ rest. rest.now) result ≡ behind text.now beginning.now }
{
    if text.starts_with(beginning) {
        Some(&text[beginning.len()..])
    } else {
        None
    }
}

/// What stands before the first such mark, and behind it, where there is one.
pub(crate) fn cut(text: &[u8], mark: u8) -> Option<(&[u8], &[u8])>
    ensures { option_map (λ sides. (sides.0.now, sides.1.now)) result ≡ cut mark text.now }
{
    for at in 0..text.len() {
        if text[at] == mark {
            return Some((&text[..at], &text[at + 1..]));
        }
    }
    None
}

/// What stands before, between and behind such marks.
pub(crate) fn parts(alloc: Global, text: &[u8], mark: u8) -> Result<Vec<&[u8]>, AllocError>
    ensures { IfOk result
        (λ parts. map (λ part. part.now) parts.items ≡ slice_split (λ byte. byte == mark) text.now) }
{
    text.split(|byte| *byte == mark).collect(alloc)
}

/// The number below 2^64 that a text writes in hexadecimal digits of either case, the high one first.
pub(crate) fn number_in(text: &[u8]) -> Option<u64>
    ensures { result ≡ number_in text.now }
{
    if text.is_empty() {
        return None;
    }
    let mut number: u64 = 0;
    for byte in text {
        let Some(digit) = char::from(*byte).to_digit(16) else {
            return None;
        };
        if number >= TOO_LARGE {
            return None;
        }
        number = number * 16 + u64::from(digit);
    }
    Some(number)
}

/// Two numbers with a comma between them.
pub(crate) fn numbers_in(text: &[u8]) -> Option<(u64, u64)>
    ensures { result ≡ numbers_in text.now }
{
    let (first, second) = cut(text, b',')?;
    let first = number_in(first)?;
    let second = number_in(second)?;
    Some((first, second))
}
