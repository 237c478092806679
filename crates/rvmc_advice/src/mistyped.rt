//! What is told of words that are refused.

ghost use Rattle.std.specs.Prelude.{◌≡◌, IfSome, Some, map, option_map};
ghost use Rattle.std.specs.List.{list_any};
ghost use Rattle.rvmc_advice.specs.Mistyped.{IsForm, IsTold, command_in, files_text, ranks_in};
ghost use Rattle.rvmc_hints.specs.Texts.{hint_text};
ghost use Rattle.rvmc_hints.specs.Words.{is_rank_option};

use crate::hints::put_hint;
use rvmc_hints::{Hint, command_near, form_of, is_file_name, is_rank_option};
use rvmc_words::debug_word_in;
use std::alloc::Global;
use std::io::Write;

/// The right form of a text that is no word of `debug`, by what stands before its `=`.
#[tactic(auto, using(crate::proofs::Told::form_is))]
fn form(alloc: Global, text: &str) -> Option<&'static str>
    ensures { IfSome result (λ form. IsForm form.now) }
{
    match debug_word_in(alloc, text) {
        Ok(None) => {
            let head = match text.split_once('=') {
                Some((head, _)) => head,
                None => text,
            };
            form_of(head.as_bytes())
        }
        _ => None,
    }
}

/// The right form of the first text that is no word of `debug`.
fn debug_form(alloc: Global, texts: &[&str]) -> Option<&'static str>
    ensures { IfSome result (λ form. IsForm form.now) }
{
    for text in texts {
        if let Some(form) = form(alloc, text) {
            return Some(form);
        }
    }
    None
}

/// The form of a word of `debug`, where one of its words is none.
fn form_hint<'a>(alloc: Global, words: &[&str]) -> Option<Hint<'a>>
    ensures { IfSome result (λ hint. IsForm (hint_text hint)) }
{
    let (command, texts) = words.split_first()?;
    if *command == "debug" {
        Some(Hint::Form(debug_form(alloc, texts)?))
    } else {
        None
    }
}

/// Where the number of ranks is fixed.
const RANKS: &str =
    "the image fixes the number of ranks: rvmc-mpi run -n 4 FILE.c, rvmc-cc -n 4 FILE.c, or .ranks 4 in a \
                     source";

/// How files are named.
const FILES: &str = "name one FILE at most, after the command, and one OUTPUT at most, after -o";

/// Whether one of the words is the option by which other programs are told how many ranks there are to be.
fn asks_for_ranks(words: &[&str]) -> bool
    ensures { result ≡ list_any is_rank_option (map (λ w. w.now) words.now) }
{
    for word in words {
        if is_rank_option(*word) {
            return true;
        }
    }
    false
}

/// Where a command is asked for so many ranks.
fn ranks_hint<'a>(words: &[&str]) -> Option<Hint<'a>>
    ensures { option_map hint_text result ≡ ranks_in (map (λ w. w.now) words.now) }
{
    if asks_for_ranks(words) {
        Some(Hint::Form(RANKS))
    } else {
        None
    }
}

/// Where no command has the name that the first word is, but one has a name that is near to it. A text that names one
/// already says so itself.
fn command_hint<'a>(words: &'a [&'a str], text: &str) -> Option<Hint<'a>>
    ensures { IfSome result (λ hint. command_in (map (λ w. w.now) words.now) ≡ Some (hint_text hint)) }
{
    let (word, _) = words.split_first()?;
    if text.contains("tip:") {
        return None;
    }
    let near = command_near(*word)?;
    Some(Hint::Command { word: *word, near })
}

/// Where files are named that aren't taken.
fn files_hint<'a>(words: &[&str]) -> Option<Hint<'a>>
    ensures { IfSome result (λ hint. hint_text hint ≡ files_text) }
{
    let files = words.iter().filter(|word| is_file_name(**word)).count();
    if files > 1 || words.iter().any(|word| *word == "-o") {
        Some(Hint::Form(FILES))
    } else {
        None
    }
}

/// What can be told of words that are refused with this text.
fn hint_of_words<'a>(alloc: Global, words: &'a [&'a str], text: &str) -> Option<Hint<'a>>
    ensures { IfSome result (λ hint. IsTold (map (λ w. w.now) words.now) (hint_text hint)) }
{
    if let Some(hint) = ranks_hint(words) {
        return Some(hint);
    }
    if let Some(hint) = command_hint(words, text) {
        return Some(hint);
    }
    match form_hint(alloc, words) {
        Some(hint) => Some(hint),
        None => files_hint(words),
    }
}

/// Writes what can be told of words that are refused with this text, if there is anything.
pub fn hint_words<E: Write>(alloc: Global, words: &[&str], text: &str, err: &mut E) {
    if let Some(hint) = hint_of_words(alloc, words, text) {
        put_hint(err, hint);
    }
}
