//! Words behind `monitor`.

ghost use Rattle.std.specs.Prelude.{◌≡◌, ◌++◌, IfOk, codes};
ghost use Rattle.rvmc_protocol.specs.Monitor.Typed.{debug_spelling, last_write_in, marked_byte, next_mark, number_or_name, rank_in, spelled_word};
ghost use Rattle.rvmc_protocol.specs.Monitor.Typed.{taken, typed_word, word_alone, word_of_text, word_spelled};

use rvmc_words::{DebugWord, Spot, any_number_in, debug_word_in};
use std::alloc::{AllocError, Global};

/// A word behind `monitor`. Whether a rank or a hart is there is not known here.
#[derive(Drop)]
pub enum Typed {
    /// What can be typed.
    Help,
    /// What each hart waits for.
    Why,
    /// The rank that is shown from then on.
    Rank(u8),
    /// Goes to the place at which so many of the steps are done.
    Go(u64),
    /// The place.
    Place,
    /// How a hart is, and its registers.
    Regs { rank: u8, hart: u8 },
    /// So many bytes of a rank's memory.
    Bytes { rank: u8, at: Spot, count: u64 },
    /// Where the message was sent that is got.
    Sent,
    /// Where the message is got that was sent.
    Got,
    /// Which step changed the bytes of an address, or of a symbol, last.
    LastWrite(Spot),
    /// Anything else.
    Unknown,
}

/// A byte as `debug` has it, where a blank stands for this mark.
fn marked_byte(mark: u8, byte: u8) -> u8
    ensures { result ≡ marked_byte mark byte }
{
    if byte == b' ' { mark } else { byte }
}

/// What the next blank stands for.
fn next_mark(mark: u8, byte: u8) -> u8
    ensures { result ≡ next_mark mark byte }
{
    if byte == b' ' { b',' } else { mark }
}

/// What was typed, as a word of `debug`: the first blank is `=`, and further ones are commas.
fn debug_spelling(alloc: Global, typed: &[u8]) -> Result<Vec<u8>, AllocError>
    ensures { IfOk result (λ text. text.items ≡ debug_spelling 61 typed.now) }
{
    let mut text = Vec::new(alloc);
    let mut mark = b'=';
    for byte in typed {
        text.push(marked_byte(mark, *byte))?;
        mark = next_mark(mark, *byte);
    }
    Ok(text)
}

/// The rank that is named behind `rank=`.
#[tactic(auto, unfolding(crate::specs::Monitor::Typed::rank_in))]
fn rank_in(text: &str) -> Option<Typed>
    ensures { result ≡ rank_in text.now }
{
    let digits = text.strip_prefix("rank=")?;
    let number = any_number_in(255, digits)?;
    Some(Typed::Rank(number as u8))
}

/// A word of `debug` as `monitor` takes it, if it does.
fn taken(word: DebugWord) -> Option<Typed>
    ensures { result ≡ taken word }
{
    match word {
        DebugWord::Go(n) => Some(Typed::Go(n)),
        DebugWord::Place => Some(Typed::Place),
        DebugWord::Regs { rank, hart } => Some(Typed::Regs { rank, hart }),
        DebugWord::Bytes { rank, at, count } => Some(Typed::Bytes { rank, at, count }),
        DebugWord::Step
        | DebugWord::Back
        | DebugWord::Run
        | DebugWord::Break { .. }
        | DebugWord::Frames { .. }
        | DebugWord::Output(_) => None,
    }
}

/// The address or the symbol that is named among the arguments of `bytes`.
fn number_or_name(word: Option<DebugWord>) -> Option<Typed>
    ensures { result ≡ number_or_name word }
{
    match word {
        Some(DebugWord::Bytes { at, .. }) => Some(Typed::LastWrite(at)),
        _ => None,
    }
}

/// The address or the symbol that is named behind `last-write=`, as `bytes` has one.
#[tactic(auto, unfolding(crate::specs::Monitor::Typed::last_write_in))]
fn last_write_in(alloc: Global, text: &str) -> Result<Option<Typed>, AllocError>
    ensures { IfOk result (λ found. found ≡ last_write_in text.now) }
{
    let Some(at) = text.strip_prefix("last-write=") else {
        return Ok(None);
    };
    let among = format!(in alloc; "bytes=0,{at},0")?;
    Ok(number_or_name(debug_word_in(alloc, among.as_str())?))
}

/// A word that stands alone, and isn't one of `debug`.
fn word_alone(text: &str) -> Option<Typed>
    ensures { result ≡ word_alone text.now }
{
    if text == "help" {
        return Some(Typed::Help);
    }
    if text == "why" {
        return Some(Typed::Why);
    }
    if text == "sent" {
        return Some(Typed::Sent);
    }
    if text == "got" {
        return Some(Typed::Got);
    }
    None
}

/// A word of `debug`, or none of any kind.
fn spelled_word(alloc: Global, text: &str) -> Result<Typed, AllocError>
    ensures { IfOk result (λ word. word ≡ spelled_word text.now) }
{
    let Some(word) = debug_word_in(alloc, text)? else {
        return Ok(Typed::Unknown);
    };
    match taken(word) {
        Some(word) => Ok(word),
        None => Ok(Typed::Unknown),
    }
}

/// The word that is spelled so.
#[tactic(auto, unfolding(crate::specs::Monitor::Typed::word_spelled))]
fn word_spelled(alloc: Global, text: &str) -> Result<Typed, AllocError>
    ensures { IfOk result (λ word. word ≡ word_spelled text.now) }
{
    if let Some(word) = word_alone(text) {
        return Ok(word);
    }
    if let Some(rank) = rank_in(text) {
        return Ok(rank);
    }
    if let Some(word) = last_write_in(alloc, text)? {
        return Ok(word);
    }
    spelled_word(alloc, text)
}

fn word_of_text(alloc: Global, text: &[u8]) -> Result<Typed, AllocError>
    ensures { IfOk result (λ word. word ≡ word_of_text text.now) }
{
    match std::str::from_utf8(text) {
        Ok(text) => word_spelled(alloc, text),
        Err(_) => Ok(Typed::Unknown),
    }
}

/// The word that was typed: `help`, `why`, `sent`, `got`, `last-write A`, `rank R`, or a word of `debug` among `go N`,
/// `place`, `regs R H` and `bytes R A N`, each with a blank where `debug` has `=` or a comma. Numbers are as those of `debug`:
/// R and H from 0 to 255, the others up to 2^64-1. What is no text in UTF-8, and any other text, is [`Typed::Unknown`]. The only error is want of
/// memory.
pub fn typed_word(alloc: Global, typed: &[u8]) -> Result<Typed, AllocError>
    ensures { IfOk result (λ word. word ≡ typed_word typed.now) }
{
    let text = debug_spelling(alloc, typed)?;
    word_of_text(alloc, text.as_slice())
}
