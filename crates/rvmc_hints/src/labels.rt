//! The labels of a source.

ghost use Rattle.std.specs.Prelude.{◌≡◌, IfSome, true};
ghost use Rattle.rvmc_hints.specs.Near.{is_near};
ghost use Rattle.rvmc_hints.specs.Sources.{IsMissingHint, IsTwiceHint};

use crate::hint::Hint;
use crate::lines::{first_line, first_word, is_label, is_number, statement};
use crate::near::is_near;
use rv_asm_statements::register;

/// Whether a line defines a label of this name.
fn defines(line: &[u8], name: &[u8]) -> bool {
    let mut rest = line;
    while let Some(word) = first_word(rest) {
        if !is_label(&word) {
            return false;
        }
        if word.text == name {
            return true;
        }
        rest = word.behind;
    }
    false
}

/// The number of the first line that defines a label of this name, from 1 on.
pub fn first_definition(bytes: &[u8], name: &[u8]) -> Option<u64> {
    let mut rest = bytes;
    let mut number: u64 = 1;
    while let Some(line) = first_line(rest) {
        if defines(line.text, name) {
            return Some(number);
        }
        number = number.saturating_add(1);
        rest = line.behind;
    }
    None
}

/// The first label of a line that is near to a name.
fn near_in_line<'a>(line: &'a [u8], name: &[u8]) -> Option<&'a [u8]>
    ensures { IfSome result (λ near. is_near near.now name.now ≡ true) }
{
    let mut rest = line;
    while let Some(word) = first_word(rest) {
        if !is_label(&word) {
            return None;
        }
        if is_near(word.text, name) {
            return Some(word.text);
        }
        rest = word.behind;
    }
    None
}

/// The first label of a source that is near to a name.
fn near_label<'a>(bytes: &'a [u8], name: &[u8]) -> Option<&'a [u8]>
    ensures { IfSome result (λ near. is_near near.now name.now ≡ true) }
{
    let mut rest = bytes;
    while let Some(line) = first_line(rest) {
        if let Some(near) = near_in_line(line.text, name) {
            return Some(near);
        }
        rest = line.behind;
    }
    None
}

/// How many names of a line are looked up in the source.
const LOOKED_UP: usize = 8;

/// A label that is defined by an earlier line too.
pub fn twice_hint<'a>(bytes: &[u8], number: u64, line: &'a [u8]) -> Option<Hint<'a>>
    ensures { IfSome result (IsTwiceHint number) }
{
    let mut rest = line;
    for _ in 0..LOOKED_UP {
        let word = first_word(rest)?;
        if !is_label(&word) {
            return None;
        }
        if let Some(earlier) = first_definition(bytes, word.text) {
            if earlier < number {
                return Some(Hint::Twice {
                    word: word.text,
                    line: earlier,
                });
            }
        }
        rest = word.behind;
    }
    None
}

/// An operand that is a name of no register, and that no line defines.
pub fn missing_hint<'a>(bytes: &'a [u8], line: &'a [u8]) -> Option<Hint<'a>>
    ensures { IfSome result IsMissingHint }
{
    let mut rest = statement(line)?.behind;
    for _ in 0..LOOKED_UP {
        let word = first_word(rest)?;
        let name = word.text;
        if !is_number(name) && register(name).is_none() && first_definition(bytes, name).is_none() {
            return Some(Hint::NoLabel {
                word: name,
                near: near_label(bytes, name),
            });
        }
        rest = word.behind;
    }
    None
}
