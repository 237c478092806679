//! Lines with the words of `debug`.

ghost use Rattle.std.specs.Prelude.{◌≡◌, ◌==◌, IfOk, filter, map};
ghost use Rattle.std.specs.List.{slice_split};
ghost use Rattle.rvmc_protocol.specs.Monitor.Lines.{is_some_text, words_in, words_of_text};
ghost use Rattle.rvmc_words.specs.Debug.{debug_words_in};

use rvmc_words::{DebugWords, debug_word_in};
use std::alloc::{AllocError, Global};

/// What is before, between and behind the blanks.
fn parts<'a>(alloc: Global, line: &'a str) -> Result<Vec<&'a str>, AllocError>
    ensures { IfOk result (λ parts. map (λ part. part.now) parts.items ≡ slice_split (λ byte. byte == 32) line.now) }
{
    line.split(' ').collect(alloc)
}

/// The word of each text that isn't empty, or None where one of them is no word.
fn each_word(alloc: Global, texts: &[&str]) -> Result<Option<DebugWords>, AllocError>
    ensures { IfOk result (λ found.
        found ≡ debug_words_in (filter is_some_text (map (λ text. text.now) texts.now))) }
{
    let mut words = DebugWords::new(alloc);
    for text in texts {
        if text.is_empty() {
            continue;
        }
        let Some(word) = debug_word_in(alloc, text)? else {
            return Ok(None);
        };
        words.push(word)?;
    }
    Ok(Some(words))
}

/// The words of a line that is UTF-8.
fn words_of_text(alloc: Global, line: &str) -> Result<Option<DebugWords>, AllocError>
    ensures { IfOk result (λ found. found ≡ words_of_text line.now) }
{
    let texts = parts(alloc, line)?;
    each_word(alloc, &texts)
}

/// The words of a line, which have blanks between them, one or more: each is a word of `debug`, as on the command line. None
/// where a text is no word, or the line isn't UTF-8. The only error is want of memory.
pub fn words_in(alloc: Global, line: &[u8]) -> Result<Option<DebugWords>, AllocError>
    ensures { IfOk result (λ found. found ≡ words_in line.now) }
{
    match std::str::from_utf8(line) {
        Ok(line) => words_of_text(alloc, line),
        Err(_) => Ok(None),
    }
}
