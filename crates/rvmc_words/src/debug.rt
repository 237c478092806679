//! The words of the command `debug`.

ghost use Rattle.std.specs.Prelude.{◌≡◌, ◌==◌, ◌++◌, ◌∷◌, [], IfOk, OnErr, OnOk, map};
ghost use Rattle.std.specs.Prelude.{Some, option_and_then, option_map};
ghost use Rattle.std.specs.List.{list_all, slice_split};
ghost use Rattle.rv_image_types.specs.Names as names;
ghost use Rattle.rvmc_words.specs.declared.debug.DebugWord.TheVariants.{Break, Bytes};
ghost use Rattle.rvmc_words.specs.Debug.{bare_word, break_in, bytes_word_in, debug_word_in, frames_in, go_in, is_name};
ghost use Rattle.rvmc_words.specs.Debug.{is_line_number, large_number_in, line_spot, output_in, regs_in, small_number_in};
ghost use Rattle.rvmc_words.specs.Debug.{spot_in, spot_named, word_of, word_spot, word_with};

use crate::list::parts;
use crate::number::any_number_in;
use std::alloc::{AllocError, Global};
use std::marker::Model;

/// A name of the source language, of any length, or the number of a line. Contracts see its bytes.
#[derive(Drop)]
pub struct Name {
    text: String,
}

impl Model for Name {
    ghost use Rattle.std.specs.Prelude.{List, ℕ, string_bytes};

    ghost Value = { List ℕ };

    ghost view = { λ name. string_bytes name.text };
}

impl Name {
    /// The name as it was written.
    pub fn as_str(&self) -> &str
        ensures { result.now ≡ self.now }
    {
        self.text.as_str()
    }
}

/// Where something stands in a rank's memory: an address, the name of the symbol there, or the line of a source that
/// begins there, as `farm.c:46`. Whether the memory reaches so far, has a symbol of this name, or one where the line
/// begins, is not known here.
#[derive(Drop)]
pub enum Spot {
    Address(u64),
    Name(Name),
    Line { file: Name, number: Name },
}

/// A word of `debug`. Whether a rank or a hart is there is not known here.
#[derive(Drop)]
pub enum DebugWord {
    /// Goes to the place at which so many of the steps are done, and tells it.
    Go(u64),
    /// Goes one step forward, if there is one, and tells the place.
    Step,
    /// Goes one step back, if there is one, and tells the place.
    Back,
    /// Goes forward to the next break, or else to the end, and tells the place.
    Run,
    /// Tells the place.
    Place,
    /// Stops `run` where the next step is this hart's and its pc is this, or any of those where the line begins.
    Break { rank: u8, hart: u8, at: Spot },
    /// Shows how a hart is, and its registers.
    Regs { rank: u8, hart: u8 },
    /// Shows how a hart is, and the calls that led there.
    Frames { rank: u8, hart: u8 },
    /// Shows what a rank has put out.
    Output(u8),
    /// Shows so many bytes of a rank's memory, of a line from where it begins first.
    Bytes { rank: u8, at: Spot, count: u64 },
}

/// The words of `debug`, in the order in which they were given. Contracts see a list of words.
#[derive(Drop)]
pub struct DebugWords {
    items: Vec<DebugWord>,
}

impl Model for DebugWords {
    ghost use Rattle.std.specs.Prelude.{List};
    ghost use Rattle.rvmc_words.specs.declared.debug.DebugWord.{DebugWord};

    ghost Value = { List DebugWord };

    ghost view = { λ words. words.items.items };
}

impl DebugWords {
    /// No words.
    pub fn new(alloc: Global) -> DebugWords
        ensures { result ≡ [] }
    {
        DebugWords {
            items: Vec::new(alloc),
        }
    }

    /// Adds a word behind the others. Where memory is refused the words stay as they were.
    pub fn push(&mut self, word: DebugWord) -> Result<(), AllocError>
        ensures added { OnOk result (self.new ≡ self.old ++ word ∷ []) }
        ensures unchanged { OnErr result (self.new ≡ self.old) }
    {
        self.items.push(word)?;
        Ok(())
    }

    /// The words, in order.
    pub fn as_slice(&self) -> &[DebugWord]
        ensures { result.now ≡ self.now }
    {
        self.items.as_slice()
    }
}

/// Whether the byte is a letter, a digit, `_`, `.` or `$`.
fn is_name_byte(byte: u8) -> bool
    ensures { result ≡ names.is_name_byte byte }
{
    byte.is_ascii_alphanumeric() || byte == b'_' || byte == b'.' || byte == b'$'
}

fn are_name_bytes(bytes: &[u8]) -> bool
    ensures { result ≡ list_all names.is_name_byte bytes.now }
{
    bytes.iter().all(|byte| is_name_byte(*byte))
}

fn are_digits(bytes: &[u8]) -> bool
    ensures { result ≡ list_all names.is_digit bytes.now }
{
    bytes.iter().all(|byte| byte.is_ascii_digit())
}

/// Whether a text is a name of the source language.
fn is_name(text: &str) -> bool
    ensures { result ≡ is_name text.now }
{
    let bytes = text.as_bytes();
    if bytes.is_empty() {
        return false;
    }
    are_name_bytes(bytes) && !bytes[0].is_ascii_digit()
}

/// The number of a rank or of a hart.
fn small_number_in(text: &str) -> Option<u8>
    ensures { result ≡ small_number_in text.now }
{
    let number = any_number_in(255, text)?;
    Some(number as u8)
}

/// A number of 64 bits.
fn large_number_in(text: &str) -> Option<u64>
    ensures { result ≡ large_number_in text.now }
{
    any_number_in(u64::MAX, text)
}

/// Whether a text is the number of a line: digits, of which the first is no 0.
fn is_line_number(text: &str) -> bool
    ensures { result ≡ is_line_number text.now }
{
    let bytes = text.as_bytes();
    if bytes.is_empty() {
        return false;
    }
    are_digits(bytes) && bytes[0] != b'0'
}

/// The text as it was written.
fn name_of(alloc: Global, text: &str) -> Result<Name, AllocError>
    ensures { IfOk result (λ name. name ≡ text.now) }
{
    let text = text.to_string(alloc)?;
    Ok(Name { text })
}

/// A name, or the number of an address.
#[tactic(auto, unfolding(crate::specs::Debug::word_spot))]
fn word_spot(alloc: Global, text: &str) -> Result<Option<Spot>, AllocError>
    ensures { IfOk result (λ found. found ≡ word_spot text.now) }
{
    if is_name(text) {
        return Ok(Some(Spot::Name(name_of(alloc, text)?)));
    }
    let Some(address) = large_number_in(text) else {
        return Ok(None);
    };
    Ok(Some(Spot::Address(address)))
}

/// A line, by its file and its number.
#[tactic(auto, unfolding(crate::specs::Debug::line_spot))]
fn line_spot(alloc: Global, file: &str, number: &str) -> Result<Option<Spot>, AllocError>
    ensures { IfOk result (λ found. found ≡ line_spot file.now number.now) }
{
    if !is_name(file) || !is_line_number(number) {
        return Ok(None);
    }
    let file = name_of(alloc, file)?;
    let number = name_of(alloc, number)?;
    Ok(Some(Spot::Line { file, number }))
}

/// The spot of what stands before, between and behind the colons.
fn spot_named(alloc: Global, sides: &[&str]) -> Result<Option<Spot>, AllocError>
    ensures { IfOk result (λ found. found ≡ spot_named (map (λ side. side.now) sides.now)) }
{
    match sides {
        [text] => word_spot(alloc, text),
        [file, number] => line_spot(alloc, file, number),
        _ => Ok(None),
    }
}

/// A name, the number of an address, or a line.
#[tactic(auto, unfolding(crate::specs::Debug::spot_in))]
fn spot_in(alloc: Global, text: &str) -> Result<Option<Spot>, AllocError>
    ensures { IfOk result (λ found. found ≡ spot_in text.now) }
{
    let sides = parts(alloc, ':', text)?;
    spot_named(alloc, &sides)
}

fn go_in(arguments: &[&str]) -> Option<DebugWord>
    ensures { result ≡ go_in (map (λ argument. argument.now) arguments.now) }
{
    let [n] = arguments else {
        return None;
    };
    Some(DebugWord::Go(large_number_in(n)?))
}

/// A break at what a text writes.
fn break_at(alloc: Global, rank: u8, hart: u8, at: &str) -> Result<Option<DebugWord>, AllocError>
    ensures { IfOk result (λ found. found ≡ option_map (λ spot. Break rank hart spot) (spot_in at.now)) }
{
    let Some(at) = spot_in(alloc, at)? else {
        return Ok(None);
    };
    Ok(Some(DebugWord::Break { rank, hart, at }))
}

fn break_in(alloc: Global, arguments: &[&str]) -> Result<Option<DebugWord>, AllocError>
    ensures { IfOk result (λ found. found ≡ break_in (map (λ argument. argument.now) arguments.now)) }
{
    let [r, h, at] = arguments else {
        return Ok(None);
    };
    let (Some(rank), Some(hart)) = (small_number_in(r), small_number_in(h)) else {
        return Ok(None);
    };
    break_at(alloc, rank, hart, at)
}

fn regs_in(arguments: &[&str]) -> Option<DebugWord>
    ensures { result ≡ regs_in (map (λ argument. argument.now) arguments.now) }
{
    let [r, h] = arguments else {
        return None;
    };
    let rank = small_number_in(r)?;
    let hart = small_number_in(h)?;
    Some(DebugWord::Regs { rank, hart })
}

fn frames_in(arguments: &[&str]) -> Option<DebugWord>
    ensures { result ≡ frames_in (map (λ argument. argument.now) arguments.now) }
{
    let [r, h] = arguments else {
        return None;
    };
    let rank = small_number_in(r)?;
    let hart = small_number_in(h)?;
    Some(DebugWord::Frames { rank, hart })
}

fn output_in(arguments: &[&str]) -> Option<DebugWord>
    ensures { result ≡ output_in (map (λ argument. argument.now) arguments.now) }
{
    let [r] = arguments else {
        return None;
    };
    let rank = small_number_in(r)?;
    Some(DebugWord::Output(rank))
}

/// So many bytes from what a text writes.
fn bytes_at(alloc: Global, rank: u8, at: &str, count: u64) -> Result<Option<DebugWord>, AllocError>
    ensures { IfOk result
        (λ found. found ≡ option_and_then (λ spot. Some (Bytes rank spot count)) (spot_in at.now)) }
{
    let Some(at) = spot_in(alloc, at)? else {
        return Ok(None);
    };
    Ok(Some(DebugWord::Bytes { rank, at, count }))
}

fn bytes_in(alloc: Global, arguments: &[&str]) -> Result<Option<DebugWord>, AllocError>
    ensures { IfOk result (λ found. found ≡ bytes_word_in (map (λ argument. argument.now) arguments.now)) }
{
    let [r, at, n] = arguments else {
        return Ok(None);
    };
    let (Some(rank), Some(count)) = (small_number_in(r), large_number_in(n)) else {
        return Ok(None);
    };
    bytes_at(alloc, rank, at, count)
}

/// A word that stands alone.
#[tactic(auto, unfolding(crate::specs::Debug::bare_word))]
fn bare_word(name: &str) -> Option<DebugWord>
    ensures { result ≡ bare_word name.now }
{
    match name {
        "step" => Some(DebugWord::Step),
        "back" => Some(DebugWord::Back),
        "run" => Some(DebugWord::Run),
        "place" => Some(DebugWord::Place),
        _ => None,
    }
}

/// A word with arguments.
#[tactic(auto, unfolding(crate::specs::Debug::word_with))]
fn word_with(alloc: Global, name: &str, arguments: &[&str]) -> Result<Option<DebugWord>, AllocError>
    ensures { IfOk result (λ found. found ≡ word_with name.now (map (λ argument. argument.now) arguments.now)) }
{
    match name {
        "go" => Ok(go_in(arguments)),
        "break" => break_in(alloc, arguments),
        "regs" => Ok(regs_in(arguments)),
        "frames" => Ok(frames_in(arguments)),
        "bytes" => bytes_in(alloc, arguments),
        "output" => Ok(output_in(arguments)),
        _ => Ok(None),
    }
}

/// A word with what stands behind the equals sign.
fn word_before(alloc: Global, name: &str, arguments: &str) -> Result<Option<DebugWord>, AllocError>
    ensures { IfOk result
        (λ found. found ≡ word_with name.now (slice_split (λ byte. byte == 44) arguments.now)) }
{
    let arguments = parts(alloc, ',', arguments)?;
    word_with(alloc, name, &arguments)
}

/// The word of what stands before, between and behind the equals signs.
fn word_of(alloc: Global, sides: &[&str]) -> Result<Option<DebugWord>, AllocError>
    ensures { IfOk result (λ found. found ≡ word_of (map (λ side. side.now) sides.now)) }
{
    match sides {
        [name] => Ok(bare_word(name)),
        [name, arguments] => word_before(alloc, name, arguments),
        _ => Ok(None),
    }
}

/// The word that a text writes: `step`, `back`, `run` or `place`, or `go=N`, `break=R,H,AT`, `regs=R,H`, `frames=R,H`,
/// `output=R` or `bytes=R,AT,N`. R and H are numbers from 0 to 255, the others are up to 2^64-1; each is in decimal, or
/// in hexadecimal behind `0x`. AT is the number of an address, a name, which is one of the source language, of any length,
/// or such a name with `:` and a line's number behind it, in decimal and without zeros in front. Any other text is no word.
#[tactic(auto, unfolding(crate::specs::Debug::debug_word_in))]
pub fn debug_word_in(alloc: Global, text: &str) -> Result<Option<DebugWord>, AllocError>
    ensures { IfOk result (λ found. found ≡ debug_word_in text.now) }
{
    let sides = parts(alloc, '=', text)?;
    word_of(alloc, &sides)
}
