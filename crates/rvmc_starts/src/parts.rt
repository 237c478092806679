//! What was told of one start, as a text.

ghost use Rattle.std.specs.Prelude.{◌≡◌, ◌++◌, ◌∷◌, [], IfOk, OnOk, codes, length, string_bytes};
ghost use Rattle.std.specs.List.{flat_map};
ghost use Rattle.std.specs.Fmt.{decimal};
ghost use Rattle.rvmc_starts.specs.Parts.{counts_end, counts_line, end_text, image_line, lines_above, lines_below, part_text, split_line, verdict_of_part};
ghost use Rattle.rvmc_starts.specs.Telling.{summary};

use crate::hex::put_word;
use crate::sums::{ImageSum, put_sum};
use crate::telling::{put_unending, summary};
use crate::words::{put_number, put_numbers};
use rvmc_words::Numbers;
use std::alloc::{AllocError, Global};
use std::marker::Model;

/// Bytes of any kind. Contracts see a list of numbers.
#[derive(Drop)]
pub struct Text {
    bytes: Vec<u8>,
}

impl Model for Text {
    ghost use Rattle.std.specs.Prelude.{List, ℕ};

    ghost Value = { List ℕ };

    ghost view = { λ text. text.bytes.items };
}

impl Text {
    /// The vector's bytes. Takes no memory.
    pub fn from_vec(bytes: Vec<u8>) -> Text
        ensures { result ≡ bytes.items }
    {
        Text { bytes }
    }

    /// The bytes, in memory of their own.
    pub fn copy_of(alloc: Global, bytes: &[u8]) -> Result<Text, AllocError>
        ensures { IfOk result (λ text. text ≡ bytes.now) }
    {
        let mut copy = Vec::with_capacity(alloc, bytes.len())?;
        copy.extend_from_slice(bytes)?;
        Ok(Text { bytes: copy })
    }

    /// The bytes.
    pub fn as_slice(&self) -> &[u8]
        ensures { result.now ≡ self.now }
    {
        self.bytes.as_slice()
    }
}

/// What was told of one end of a start.
#[derive(Drop)]
pub struct EndText {
    /// Its line, without the newline behind it: any bytes but a newline.
    pub head: Text,
    /// All that was told below the line, with the newline of its last line.
    pub body: Text,
}

/// Ends, in the order in which they were told. Contracts see a list of ends.
#[derive(Drop)]
pub struct Ends {
    items: Vec<EndText>,
}

impl Model for Ends {
    ghost use Rattle.std.specs.Prelude.{List};
    ghost use Rattle.rvmc_starts.specs.declared.parts.EndText.{EndText};

    ghost Value = { List EndText };

    ghost view = { λ ends. ends.items.items };
}

impl Ends {
    /// The vector's ends. Takes no memory.
    pub fn from_vec(items: Vec<EndText>) -> Ends
        ensures { result ≡ items.items }
    {
        Ends { items }
    }

    /// The ends, in order.
    pub fn as_slice(&self) -> &[EndText]
        ensures { result.now ≡ self.now }
    {
        self.items.as_slice()
    }
}

/// What was told of one start.
#[derive(Drop)]
pub struct Part {
    /// The start's number, from 1 to the count.
    pub number: u64,
    /// How many starts the split has.
    pub count: u64,
    /// By what the split is known again.
    pub split: u64,
    /// The image that was searched.
    pub image: ImageSum,
    /// The harts that take turns.
    pub harts: Numbers,
    /// The ends that were found.
    pub ends: Ends,
    /// How many states were found.
    pub states: u64,
    /// How many of them are left whose moves weren't made: with none the start is told whole.
    pub left: u64,
    /// The status of the search.
    pub status: u8,
    /// Whether some runs go on for ever.
    pub unending: bool,
}

/// Adds the line of the split: `start 3 of 12 of split 9f31c0de12345678`.
fn put_split_line(alloc: Global, text: &mut Vec<u8>, part: &Part) -> Result<(), AllocError>
    ensures { OnOk result (text.new.items ≡ text.old.items ++ (split_line part.now.number part.now.count part.now.split ++ 10 ∷ [])) }
{
    let number = part.number;
    let count = part.count;
    let words = format!(in alloc; "start {number} of {count} of split ")?;
    text.extend_from_slice(words.as_bytes())?;
    put_word(text, part.split)?;
    text.push(b'\n')?;
    Ok(())
}

/// Adds the line of the image: `image 1234-0123456789abcdef harts 0,1`.
fn put_image_line(alloc: Global, text: &mut Vec<u8>, part: &Part) -> Result<(), AllocError>
    ensures { OnOk result (text.new.items ≡ text.old.items ++ (image_line part.now.image part.now.harts ++ 10 ∷ [])) }
{
    text.extend_from_slice(b"image ")?;
    put_sum(alloc, text, part.image)?;
    text.extend_from_slice(b" harts ")?;
    put_numbers(alloc, text, part.harts.as_slice())?;
    text.push(b'\n')?;
    Ok(())
}

/// What ends the line of the counts.
fn counts_end(unending: bool) -> &'static str
    ensures { result.now ≡ counts_end unending }
{
    if unending { ", for ever" } else { "" }
}

/// Adds the line of the counts: `2 outcomes, 20 states, 0 left, status 7`, and `, for ever` where some runs go on.
fn put_counts_line(alloc: Global, text: &mut Vec<u8>, part: &Part) -> Result<(), AllocError>
    ensures { OnOk result
        (text.new.items ≡ text.old.items ++ (counts_line (length part.now.ends) part.now ++ 10 ∷ [])) }
{
    let ends = part.ends.as_slice().len();
    let states = part.states;
    let left = part.left;
    let status = part.status;
    let last = counts_end(part.unending);
    let words = format!(in alloc;
        "{ends} outcomes, {states} states, {left} left, status {status}{last}"
    )?;
    text.extend_from_slice(words.as_bytes())?;
    text.push(b'\n')?;
    Ok(())
}

/// Adds the line that says how many bytes a text has.
fn put_size(alloc: Global, text: &mut Vec<u8>, size: u64) -> Result<(), AllocError>
    ensures { OnOk result (text.new.items ≡ text.old.items ++ (decimal size ++ codes " bytes\n")) }
{
    put_number(alloc, text, size)?;
    text.extend_from_slice(b" bytes\n")
}

/// Adds an end: its line, a line that says how many bytes its text has, and the text.
fn put_end(alloc: Global, text: &mut Vec<u8>, end: &EndText) -> Result<(), AllocError>
    ensures { OnOk result (text.new.items ≡ text.old.items ++ end_text end.now) }
{
    text.extend_from_slice(end.head.as_slice())?;
    text.push(b'\n')?;
    let body = end.body.as_slice();
    put_size(alloc, text, body.len() as u64)?;
    text.extend_from_slice(body)?;
    Ok(())
}

fn put_ends(alloc: Global, text: &mut Vec<u8>, ends: &[EndText]) -> Result<(), AllocError>
    ensures { OnOk result (text.new.items ≡ text.old.items ++ flat_map end_text ends.now) }
{
    for end in ends {
        put_end(alloc, text, end)?;
    }
    Ok(())
}

/// What the last line says behind the counts, where all ends were told and where not.
fn verdict_of_part(alloc: Global, part: &Part) -> Result<String, AllocError>
    ensures { IfOk result (λ text. string_bytes text ≡ verdict_of_part part.now) }
{
    let number = part.number;
    let count = part.count;
    let left = part.left;
    if left == 0 {
        format!(in alloc; ": no other outcome with buffered sends from start {number} of {count}")
    } else {
        format!(in alloc; ": not all from start {number} of {count}: {left} states are left")
    }
}

/// Adds the last line: `2 outcomes of 20 states: no other outcome with buffered sends from start 3 of 12`.
fn put_last_line(alloc: Global, text: &mut Vec<u8>, part: &Part) -> Result<(), AllocError>
    ensures { OnOk result (text.new.items
        ≡ text.old.items ++ (summary (length part.now.ends) part.now.states ++ (verdict_of_part part.now ++ 10 ∷ []))) }
{
    let ends = part.ends.as_slice().len() as u64;
    let summary = summary(alloc, ends, u128::from(part.states))?;
    let verdict = verdict_of_part(alloc, part)?;
    text.extend_from_slice(summary.as_bytes())?;
    text.extend_from_slice(verdict.as_bytes())?;
    text.push(b'\n')?;
    Ok(())
}

/// Adds the lines above the ends.
fn put_lines_above(alloc: Global, text: &mut Vec<u8>, part: &Part) -> Result<(), AllocError>
    ensures { OnOk result (text.new.items ≡ text.old.items ++ lines_above part.now) }
{
    put_split_line(alloc, text, part)?;
    put_image_line(alloc, text, part)?;
    put_counts_line(alloc, text, part)
}

/// Adds the lines below the ends.
fn put_lines_below(alloc: Global, text: &mut Vec<u8>, part: &Part) -> Result<(), AllocError>
    ensures { OnOk result (text.new.items ≡ text.old.items ++ lines_below part.now) }
{
    put_unending(text, part.unending)?;
    put_last_line(alloc, text, part)
}

/// Adds what was told of a start: the split, the image and the harts, the counts; each end, of which a line says how many
/// bytes its text has; whether some runs go on for ever; and whether these are all ends.
#[tactic(auto, unfolding(crate::specs::Parts::part_text))]
pub fn put_part(alloc: Global, text: &mut Vec<u8>, part: &Part) -> Result<(), AllocError>
    ensures { OnOk result (text.new.items ≡ text.old.items ++ part_text part.now) }
{
    put_lines_above(alloc, text, part)?;
    put_ends(alloc, text, part.ends.as_slice())?;
    put_lines_below(alloc, text, part)
}
