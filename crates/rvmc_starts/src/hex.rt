//! Hexadecimal digits, as many as are asked for.

ghost use Rattle.std.specs.Prelude.{◌≡◌, ◌++◌, ◌<◌, OnOk};
ghost use Rattle.std.specs.List.{list_all};
ghost use Rattle.rvmc_starts.specs.Hex.{hex_digit, hex_in, hex_text, hex_word, is_hex_digit};

use std::alloc::AllocError;

/// The digit of a number below 16, in lower case.
fn hex_digit(number: u8) -> u8
    requires { number < 16 }
    ensures { result ≡ hex_digit number }
{
    if number < 10 {
        48 + number
    } else {
        87 + number
    }
}

/// Adds so many of a number's lowest hexadecimal digits, the highest one first.
#[tactic(auto, using(crate::proofs::Hexes::hex_step))]
fn put_hex(text: &mut Vec<u8>, digits: u32, number: u64) -> Result<(), AllocError>
    ensures { OnOk result (text.new.items ≡ text.old.items ++ hex_text digits number) }
{
    if digits == 0 {
        return Ok(());
    }
    put_hex(text, digits - 1, number / 16)?;
    text.push(hex_digit((number % 16) as u8))?;
    Ok(())
}

/// Adds the 16 hexadecimal digits of a number.
#[tactic(auto, unfolding(crate::specs::Hex::hex_word))]
pub(crate) fn put_word(text: &mut Vec<u8>, number: u64) -> Result<(), AllocError>
    ensures { OnOk result (text.new.items ≡ text.old.items ++ hex_word number) }
{
    put_hex(text, 16, number)
}

/// Whether the byte is a decimal digit or a letter from `a` to `f`.
fn is_hex_digit(byte: u8) -> bool
    ensures { result ≡ is_hex_digit byte }
{
    byte.is_ascii_digit() || (97 <= byte && byte <= 102)
}

fn are_hex_digits(bytes: &[u8]) -> bool
    ensures { result ≡ list_all is_hex_digit bytes.now }
{
    bytes.iter().all(|byte| is_hex_digit(*byte))
}

/// The number that a text of 16 hexadecimal digits in lower case writes.
pub(crate) fn hex_in(text: &str) -> Option<u64>
    ensures { result ≡ hex_in text.now }
{
    let bytes = text.as_bytes();
    if bytes.len() != 16 {
        return None;
    }
    if !are_hex_digits(bytes) {
        return None;
    }
    u64::from_str_radix(text, 16).ok()
}
