//! What was told of a start, read back.

ghost use Rattle.std.specs.Prelude.{◌≡◌, ◌<◌, ◌≤◌, IfOk, IfSome, drop, length, map, option_map, position};
ghost use Rattle.std.specs.List.{list_all};
ghost use Rattle.rvmc_starts.specs.PartRead.{IsPartRead};
ghost use Rattle.rvmc_starts.specs.Parts.{is_line, is_part};
ghost use Rattle.rvmc_starts.specs.Sums.{any_number};
ghost use Rattle.rvmc_starts.specs.Reading.{IsBehind, IsEndRead, counts_before, counts_in, counts_of, counts_with, cut_in, end_of, ends_in, head_of, image_in, image_of};
ghost use Rattle.rvmc_starts.specs.Reading.{place_in, place_of, is_newline, size_in, text_cut_in, told_in, told_of};

use crate::hex::hex_in;
use crate::parts::{EndText, Ends, Part, Text, put_part};
use crate::sums::{ImageSum, sum_in};
use crate::words::parts;
use rvmc_words::{Numbers, number_in, numbers_in};
use std::alloc::{AllocError, Global};

/// A line, and what stands behind its newline.
#[derive(Clone, Copy, Drop)]
struct Cut<'a> {
    line: &'a [u8],
    rest: &'a [u8],
}

/// Where the first newline is.
fn line_end(bytes: &[u8]) -> Option<usize>
    ensures place { result ≡ position is_newline bytes.now }
    ensures within { IfSome result (λ place. place < length bytes.now) }
{
    bytes.iter().position(|byte| *byte == b'\n')
}

/// The first line, where a newline ends it.
#[tactic(auto, using(crate::proofs::Steps::behind_drop), unfolding(crate::specs::Reading::cut_in))]
fn first_line(bytes: &[u8]) -> Option<Cut<'_>>
    ensures line { option_map (λ cut. (cut.line.now, cut.rest.now)) result ≡ cut_in bytes.now }
    ensures behind { IfSome result (λ cut. IsBehind cut.rest.now bytes.now) }
{
    let end = line_end(bytes)?;
    Some(Cut {
        line: &bytes[..end],
        rest: &bytes[end + 1..],
    })
}

/// A line that is text, and what stands behind its newline.
#[derive(Clone, Copy, Drop)]
struct TextCut<'a> {
    line: &'a str,
    rest: &'a [u8],
}

/// The first line, where a newline ends it and it is text.
#[tactic(auto, unfolding(crate::specs::Reading::text_cut_in))]
fn text_line(bytes: &[u8]) -> Option<TextCut<'_>>
    ensures line { option_map (λ cut. (cut.line.now, cut.rest.now)) result ≡ text_cut_in bytes.now }
    ensures behind { IfSome result (λ cut. IsBehind cut.rest.now bytes.now) }
{
    let cut = first_line(bytes)?;
    match std::str::from_utf8(cut.line) {
        Ok(line) => Some(TextCut {
            line,
            rest: cut.rest,
        }),
        Err(_) => None,
    }
}

/// Which start of which split.
#[derive(Clone, Copy, Drop)]
struct SplitPlace {
    number: u64,
    count: u64,
    split: u64,
}

/// The number that a word writes in decimal.
fn any_number(word: &str) -> Option<u64>
    ensures { result ≡ any_number word.now }
{
    number_in(0, u64::MAX, word)
}

fn place_of(words: &[&str]) -> Option<SplitPlace>
    ensures { result ≡ place_of (map (λ word. word.now) words.now) }
{
    let [_, number, _, count, _, _, split] = words else {
        return None;
    };
    let number = any_number(number)?;
    let count = any_number(count)?;
    let split = hex_in(split)?;
    Some(SplitPlace {
        number,
        count,
        split,
    })
}

/// What the line of the split says. The words between the numbers are compared when the whole text is.
#[tactic(auto, unfolding(crate::specs::Reading::place_in))]
fn place_in(alloc: Global, line: &str) -> Result<Option<SplitPlace>, AllocError>
    ensures { IfOk result (λ found. found ≡ place_in line.now) }
{
    let words = parts(alloc, ' ', line)?;
    Ok(place_of(&words))
}

/// An image and harts.
#[derive(Drop)]
struct Searched {
    image: ImageSum,
    harts: Numbers,
}

fn image_of(alloc: Global, words: &[&str]) -> Result<Option<Searched>, AllocError>
    ensures { IfOk result (λ found. found ≡ image_of (map (λ word. word.now) words.now)) }
{
    let [_, image, _, harts] = words else {
        return Ok(None);
    };
    let Some(image) = sum_in(alloc, image)? else {
        return Ok(None);
    };
    let Some(harts) = numbers_in(alloc, harts)? else {
        return Ok(None);
    };
    Ok(Some(Searched { image, harts }))
}

/// What the line of the image says.
#[tactic(auto, unfolding(crate::specs::Reading::image_in))]
fn image_in(alloc: Global, line: &str) -> Result<Option<Searched>, AllocError>
    ensures { IfOk result (λ found. found ≡ image_in line.now) }
{
    let words = parts(alloc, ' ', line)?;
    image_of(alloc, &words)
}

/// What the line of the counts says.
#[derive(Clone, Copy, Drop)]
struct Counts {
    ends: u64,
    states: u64,
    left: u64,
    status: u8,
    unending: bool,
}

/// The counts that the words of a line write; `status` stands before the comma of the last one.
fn counts_of(words: &[&str], status: &str) -> Option<Counts>
    ensures { result ≡ counts_of (map (λ word. word.now) words.now) status.now }
{
    let [ends, _, states, _, left, _, _, _, more @ ..] = words else {
        return None;
    };
    let ends = any_number(ends)?;
    let states = any_number(states)?;
    let left = any_number(left)?;
    let status = number_in(0, 255, status)?;
    Some(Counts {
        ends,
        states,
        left,
        status: status as u8,
        unending: !more.is_empty(),
    })
}

/// The same, by what stands round the commas of the word that has the status.
fn counts_before(words: &[&str], sides: &[&str]) -> Option<Counts>
    ensures { result ≡ counts_before (map (λ word. word.now) words.now) (map (λ side. side.now) sides.now) }
{
    let [status, ..] = sides else {
        return None;
    };
    counts_of(words, status)
}

fn counts_with(alloc: Global, words: &[&str]) -> Result<Option<Counts>, AllocError>
    ensures { IfOk result (λ found. found ≡ counts_with (map (λ word. word.now) words.now)) }
{
    let [_, _, _, _, _, _, _, word, ..] = words else {
        return Ok(None);
    };
    let sides = parts(alloc, ',', word)?;
    Ok(counts_before(words, &sides))
}

/// What the line of the counts says.
#[tactic(auto, unfolding(crate::specs::Reading::counts_in))]
fn counts_in(alloc: Global, line: &str) -> Result<Option<Counts>, AllocError>
    ensures { IfOk result (λ found. found ≡ counts_in line.now) }
{
    let words = parts(alloc, ' ', line)?;
    counts_with(alloc, &words)
}

/// The number of bytes that a line says.
#[tactic(auto, unfolding(crate::specs::Reading::size_in))]
fn size_in(alloc: Global, line: &str) -> Result<Option<u64>, AllocError>
    ensures { IfOk result (λ found. found ≡ size_in line.now) }
{
    let words = parts(alloc, ' ', line)?;
    let [size, _] = words.as_slice() else {
        return Ok(None);
    };
    Ok(any_number(size))
}

/// An end, and the length of its text.
#[derive(Drop)]
struct EndRead {
    end: EndText,
    length: usize,
}

/// The end that stands first, behind whose line and the line of its size its body has so many bytes.
fn end_of(alloc: Global, head: &[u8], size: u64, rest: &[u8]) -> Result<Option<EndText>, AllocError>
    ensures { IfOk result (λ found. found ≡ end_of head.now size rest.now) }
{
    let size = size as usize;
    if rest.len() < size {
        return Ok(None);
    }
    let head = Text::copy_of(alloc, head)?;
    let body = Text::copy_of(alloc, &rest[..size])?;
    Ok(Some(EndText { head, body }))
}

/// The end that stands first, and the length of its text.
fn end_in(alloc: Global, bytes: &[u8]) -> Result<Option<EndRead>, AllocError>
    ensures { IfOk result (IsEndRead bytes.now) }
{
    let Some(head) = first_line(bytes) else {
        return Ok(None);
    };
    let Some(line) = text_line(head.rest) else {
        return Ok(None);
    };
    let Some(size) = size_in(alloc, line.line)? else {
        return Ok(None);
    };
    let Some(end) = end_of(alloc, head.line, size, line.rest)? else {
        return Ok(None);
    };
    let length = bytes.len() - line.rest.len() + size as usize;
    Ok(Some(EndRead { end, length }))
}

/// What stands behind so many bytes.
pub(crate) fn behind(bytes: &[u8], count: usize) -> &[u8]
    requires { count ≤ length bytes.now }
    ensures { result.now ≡ drop count bytes.now }
{
    &bytes[count..]
}

/// So many ends, one behind another.
fn ends_in(alloc: Global, count: u64, bytes: &[u8]) -> Result<Option<Ends>, AllocError>
    ensures { IfOk result (λ found. found ≡ ends_in count bytes.now) }
{
    let mut ends = Vec::new(alloc);
    let mut at = 0;
    for _place in 0..count {
        let Some(read) = end_in(alloc, behind(bytes, at))? else {
            return Ok(None);
        };
        at += read.length;
        ends.push(read.end)?;
    }
    Ok(Some(Ends::from_vec(ends)))
}

/// The lines above the ends.
#[derive(Drop)]
struct Head {
    place: SplitPlace,
    searched: Searched,
    counts: Counts,
}

fn head_of(
    alloc: Global,
    place: &str,
    image: &str,
    counts: &str,
) -> Result<Option<Head>, AllocError>
    ensures { IfOk result (λ found. found ≡ head_of place.now image.now counts.now) }
{
    let Some(place) = place_in(alloc, place)? else {
        return Ok(None);
    };
    let Some(searched) = image_in(alloc, image)? else {
        return Ok(None);
    };
    let Some(counts) = counts_in(alloc, counts)? else {
        return Ok(None);
    };
    Ok(Some(Head {
        place,
        searched,
        counts,
    }))
}

/// What is told behind the lines above the ends.
fn told_of(alloc: Global, head: Head, rest: &[u8]) -> Result<Option<Part>, AllocError>
    ensures { IfOk result (λ found. found ≡ told_of head rest.now) }
{
    let Some(ends) = ends_in(alloc, head.counts.ends, rest)? else {
        return Ok(None);
    };
    Ok(Some(Part {
        number: head.place.number,
        count: head.place.count,
        split: head.place.split,
        image: head.searched.image,
        harts: head.searched.harts,
        ends,
        states: head.counts.states,
        left: head.counts.left,
        status: head.counts.status,
        unending: head.counts.unending,
    }))
}

/// What is told of a start, by the numbers of its text alone.
#[tactic(auto, unfolding(crate::specs::Reading::told_in))]
fn told_in(alloc: Global, bytes: &[u8]) -> Result<Option<Part>, AllocError>
    ensures { IfOk result (λ found. found ≡ told_in bytes.now) }
{
    let Some(one) = text_line(bytes) else {
        return Ok(None);
    };
    let Some(two) = text_line(one.rest) else {
        return Ok(None);
    };
    let Some(three) = text_line(two.rest) else {
        return Ok(None);
    };
    let Some(head) = head_of(alloc, one.line, two.line, three.line)? else {
        return Ok(None);
    };
    told_of(alloc, head, three.rest)
}

/// Whether a part is one that can be told: of a start of its split, for some harts, with lines that are lines.
fn is_part(part: &Part) -> bool
    ensures { result ≡ is_part part.now }
{
    1 <= part.number
        && part.number <= part.count
        && !part.harts.as_slice().is_empty()
        && are_lines(part.ends.as_slice())
}

fn is_line(bytes: &[u8]) -> bool
    ensures { result ≡ is_line bytes.now }
{
    bytes.iter().all(|byte| *byte != b'\n')
}

fn are_lines(ends: &[EndText]) -> bool
    ensures { result ≡ list_all (λ end. is_line end.head) ends.now }
{
    ends.iter().all(|end| is_line(end.head.as_slice()))
}

/// What was told of a start, and the length of its text.
#[derive(Drop)]
pub(crate) struct PartRead {
    pub part: Part,
    pub length: usize,
}

/// What the text that stands first tells of a start. It is one only if it is, byte for byte, what is written of what it
/// tells.
pub(crate) fn part_in(alloc: Global, bytes: &[u8]) -> Result<Option<PartRead>, AllocError>
    ensures { IfOk result (IsPartRead bytes.now) }
{
    let Some(part) = told_in(alloc, bytes)? else {
        return Ok(None);
    };
    if !is_part(&part) {
        return Ok(None);
    }
    let mut text = Vec::new(alloc);
    put_part(alloc, &mut text, &part)?;
    if !bytes.starts_with(&text) {
        return Ok(None);
    }
    let length = text.len();
    Ok(Some(PartRead { part, length }))
}
