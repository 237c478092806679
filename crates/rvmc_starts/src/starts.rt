//! One start of a split, in one word.

ghost use Rattle.std.specs.Prelude.{◌≡◌, ◌++◌, ◌∷◌, [], IfOk, OnOk, map};
ghost use Rattle.rvmc_starts.specs.Starts.{place_in, place_of, place_of_parts, place_text, start_in, start_of_parts, start_text};

use crate::hex::{hex_in, put_word};
use crate::sums::{ImageSum, put_sum, sum_in};
use crate::turns::{Turns, put_turns, turns_in};
use crate::words::{parts, put_number, put_numbers};
use rvmc_words::{Numbers, number_in, numbers_in};
use std::alloc::{AllocError, Global};

/// One of the starts of a split: the turns that lead to where a search begins.
#[derive(Drop)]
pub struct Start {
    /// Its number, from 1 to the count.
    pub number: u64,
    /// How many starts the split has.
    pub count: u64,
    /// The image that is searched.
    pub image: ImageSum,
    /// By what the split is known again.
    pub split: u64,
    /// The harts that take turns.
    pub harts: Numbers,
    /// The turns up to the start.
    pub turns: Turns,
}

/// A number from 1 to the count.
#[derive(Clone, Copy, Drop)]
pub(crate) struct Place {
    pub number: u64,
    pub count: u64,
}

/// The place that two numbers in decimal write.
pub(crate) fn place_of(number: &str, count: &str) -> Option<Place>
    ensures { result ≡ place_of number.now count.now }
{
    let count = number_in(1, u64::MAX, count)?;
    let number = number_in(1, count, number)?;
    Some(Place { number, count })
}

fn place_of_parts(parts: &[&str]) -> Option<Place>
    ensures { result ≡ place_of_parts (map (λ part. part.now) parts.now) }
{
    let [number, count] = parts else {
        return None;
    };
    place_of(number, count)
}

#[tactic(auto, unfolding(crate::specs::Starts::place_in))]
fn place_in(alloc: Global, text: &str) -> Result<Option<Place>, AllocError>
    ensures { IfOk result (λ found. found ≡ place_in text.now) }
{
    let parts = parts(alloc, '/', text)?;
    Ok(place_of_parts(&parts))
}

/// The start that the texts of its parts write.
fn start_of(
    alloc: Global,
    place: &str,
    image: &str,
    split: &str,
    harts: &str,
    turns: &str,
) -> Result<Option<Start>, AllocError>
    ensures { IfOk result
        (λ found. found ≡ start_of_parts (place.now ∷ image.now ∷ split.now ∷ harts.now ∷ turns.now ∷ [])) }
{
    let Some(place) = place_in(alloc, place)? else {
        return Ok(None);
    };
    let Some(image) = sum_in(alloc, image)? else {
        return Ok(None);
    };
    let Some(split) = hex_in(split) else {
        return Ok(None);
    };
    let Some(harts) = numbers_in(alloc, harts)? else {
        return Ok(None);
    };
    let Some(turns) = turns_in(alloc, turns)? else {
        return Ok(None);
    };
    Ok(Some(Start {
        number: place.number,
        count: place.count,
        image,
        split,
        harts,
        turns,
    }))
}

fn start_of_parts(alloc: Global, parts: &[&str]) -> Result<Option<Start>, AllocError>
    ensures { IfOk result (λ found. found ≡ start_of_parts (map (λ part. part.now) parts.now)) }
{
    match parts {
        [place, image, split, harts, turns] => start_of(alloc, place, image, split, harts, turns),
        _ => Ok(None),
    }
}

/// The start that a word writes: `K/M:SIZE-DIGEST:SPLIT:HARTS:TURNS`, as
/// `3/12:1234-0123456789abcdef:9f31c0de12345678:0,1:0x18,1,2-,0x3`. K is the start's number, M how many there are, SIZE
/// the image's bytes, each in decimal; DIGEST and SPLIT have 16 hexadecimal digits in lower case; HARTS are numbers up
/// to 255 with one comma between them; TURNS may be empty, or items with one comma between them: `R` a turn of rank R
/// (up to 255), `RxN` N such turns (2 to 16777216), `R-` one that misses. Any other text is no start.
#[tactic(auto, unfolding(crate::specs::Starts::start_in))]
pub fn start_in(alloc: Global, text: &str) -> Result<Option<Start>, AllocError>
    ensures { IfOk result (λ found. found ≡ start_in text.now) }
{
    let parts = parts(alloc, ':', text)?;
    start_of_parts(alloc, &parts)
}

fn put_place(alloc: Global, text: &mut Vec<u8>, start: &Start) -> Result<(), AllocError>
    ensures { OnOk result
        (text.new.items ≡ text.old.items ++ place_text start.now.number start.now.count) }
{
    put_number(alloc, text, start.number)?;
    text.push(b'/')?;
    put_number(alloc, text, start.count)
}

/// Adds a start, in the form that `start_in` reads. Equal turns that follow one another and don't miss are joined.
#[tactic(auto, unfolding(crate::specs::Starts::start_text))]
pub fn put_start(alloc: Global, text: &mut Vec<u8>, start: &Start) -> Result<(), AllocError>
    ensures { OnOk result (text.new.items ≡ text.old.items ++ start_text start.now) }
{
    put_place(alloc, text, start)?;
    text.push(b':')?;
    put_sum(alloc, text, start.image)?;
    text.push(b':')?;
    put_word(text, start.split)?;
    text.push(b':')?;
    put_numbers(alloc, text, start.harts.as_slice())?;
    text.push(b':')?;
    put_turns(alloc, text, start.turns.as_slice())?;
    Ok(())
}
