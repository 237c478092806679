//! Texts that are written into a row of bytes from its end on: each piece stands before those that were written.

ghost use Rattle.std.specs.Prelude.{◌≡◌, ◌+◌, ◌<◌, ◌≤◌, false, length};
ghost use Rattle.std.specs.Fmt.{decimal, digit_glyph, digits};
ghost use Rattle.rvmc_places.specs.Places.{hex_text};
ghost use Rattle.rvmc_sights.specs.Rows.{StandsBefore};

use itoa::write_digits;

/// The digit of a number below 16, as `f`.
#[inline(always)]
fn hex_digit(n: u64) -> u8
    requires { n < 16 }
    ensures { result ≡ digit_glyph false n }
{
    let digit = n as u8;
    if digit < 10 {
        b'0' + digit
    } else {
        b'a' + (digit - 10)
    }
}

/// Writes the digits of a number in hex before the end, and says where they begin.
#[inline(always)]
fn write_hex_digits(n: u64, row: &mut [u8], end: usize) -> usize
    requires room { length (digits 16 false n) ≤ end }
    requires within { end ≤ length row.old }
    ensures { StandsBefore (digits 16 false n) end row.old row.new result }
{
    let mut left = n;
    let mut at = end;
    while left >= 16 {
        at -= 1;
        row[at] = hex_digit(left % 16);
        left /= 16;
    }
    at -= 1;
    row[at] = hex_digit(left);
    at
}

/// Writes a word before the end, and says where it begins.
#[inline(always)]
pub(crate) fn write_word(word: &[u8], row: &mut [u8], end: usize) -> usize
    requires room { length word.now ≤ end }
    requires within { end ≤ length row.old }
    ensures { StandsBefore word.now end row.old row.new result }
{
    let at = end - word.len();
    row[at..end].copy_from_slice(word);
    at
}

/// Writes a number as `0x1c` before the end, and says where it begins: it takes 18 bytes at most.
#[inline(always)]
#[tactic(auto, using(crate::proofs::Hex::hex_short))]
pub(crate) fn write_hex(n: u64, row: &mut [u8], end: usize) -> usize
    requires room { 18 ≤ end }
    requires within { end ≤ length row.old }
    ensures written { StandsBefore (hex_text n) end row.old row.new result }
    ensures short { end ≤ result + 18 }
{
    let at = write_hex_digits(n, row, end);
    write_word(b"0x", row, at)
}

/// Writes a number as `28` before the end, and says where it begins: it takes 20 bytes at most.
#[inline(always)]
#[tactic(auto, using(crate::proofs::Hex::decimal_short))]
pub(crate) fn write_decimal(n: u64, row: &mut [u8], end: usize) -> usize
    requires room { 20 ≤ end }
    requires within { end ≤ length row.old }
    ensures written { StandsBefore (decimal n) end row.old row.new result }
    ensures short { end ≤ result + 20 }
{
    write_digits(n, row, end)
}
