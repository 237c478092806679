//! What is no token of a line.

ghost use Rattle.std.specs.Prelude.{◌≡◌, IfSome};
ghost use Rattle.rvmc_hints.specs.Lines.{is_sign};
ghost use Rattle.rvmc_hints.specs.Sources.{IsTokenHint};

use crate::hint::Hint;
use crate::lines::{is_number, is_word_byte, word_at};
use rv_asm_tokens::Tokens;

/// Whether a byte is a sign of the language, or stands between tokens.
fn is_sign(byte: u8) -> bool
    ensures { result ≡ is_sign byte }
{
    matches!(byte, b' ' | b'\t' | b',' | b':' | b'(' | b')' | b'+')
}

/// The first word or character of a line that is no token, before any comment; of a string only that one begins.
pub fn token_hint(line: &[u8]) -> Option<Hint<'_>>
    ensures { IfSome result IsTokenHint }
{
    let mut rest = line;
    while let Some((byte, after)) = rest.split_first() {
        if *byte == b'#' {
            return None;
        }
        if *byte == b'"' {
            return Some(Hint::NoString);
        }
        if is_word_byte(*byte) {
            let word = word_at(rest)?;
            if is_number(word.text) && Tokens::of_line(word.text).is_err() {
                return Some(Hint::NoNumber(word.text));
            }
            rest = word.behind;
        } else if is_sign(*byte) {
            rest = after;
        } else {
            return Some(Hint::Character(*byte));
        }
    }
    None
}
