//! The texts of several starts, joined.

ghost use Rattle.std.specs.Prelude.{◌≡◌, ◌++◌, ◌==◌, ◌<◌, [], IfErr, IfOk, OnOk, fold, is_none, length, map, string_bytes, sum_by};
ghost use Rattle.std.specs.List.{list_any};
ghost use Rattle.rvmc_starts.specs.Joining.{AreTexts, IsFaulty, IsJoined, IsNext, IsNotNext, count_of, ends_of, is_kept, is_of_split, is_same_split, kept_ends, last_line};
ghost use Rattle.rvmc_starts.specs.Joining.{status_together, text_of, told_text, told_texts, verdict, with_end};
ghost use Rattle.rvmc_starts.specs.Using.{lacking};
ghost use Rattle.rvmc_starts.specs.declared.joining.JoinFault.TheVariants as faults;

use crate::parts::{EndText, Part, Text};
use crate::reading::{behind, part_in};
use crate::telling::{counted, put_unending, summary};
use crate::using::{lacking, used};
use std::alloc::{AllocError, Global};

/// Why texts weren't joined.
#[derive(Clone, Copy, Drop)]
pub enum JoinFault {
    /// 1: memory was refused.
    Memory,
    /// 2: the text of this number, from 1, isn't what is told of a start; with 1 there may be no text at all.
    NotAText(u64),
    /// 3: the text of this number is told of another split, image or harts, or another count of starts, than the text before
    /// it.
    OtherSplit(u64),
}

impl From<AllocError> for JoinFault {
    ghost from_gives = { λ _ fault. fault ≡ faults.Memory };

    fn from(_: AllocError) -> JoinFault {
        JoinFault::Memory
    }
}

/// What several texts tell, and its status.
#[derive(Drop)]
pub struct Joined {
    pub text: Vec<u8>,
    pub status: u8,
}

/// The number that an end has among those of its start.
#[derive(Clone, Copy, Drop)]
struct EndName {
    number: u64,
    start: u64,
}

/// An end, as the start that tells it numbers it.
#[derive(Drop)]
struct ToldEnd {
    name: EndName,
    body: Text,
}

/// Whether an end with this text is among these.
fn is_kept(kept: &[ToldEnd], body: &[u8]) -> bool
    ensures { result ≡ is_kept kept.now body.now }
{
    kept.iter().any(|end| end.body.as_slice() == body)
}

/// Adds an end whose text isn't there yet.
fn keep_end(
    alloc: Global,
    kept: &mut Vec<ToldEnd>,
    name: EndName,
    body: &[u8],
) -> Result<(), AllocError>
    ensures { OnOk result (kept.new.items ≡ with_end kept.old.items (record { name = name; body = body.now })) }
{
    if is_kept(kept, body) {
        return Ok(());
    }
    let body = Text::copy_of(alloc, body)?;
    kept.push(ToldEnd { name, body })?;
    Ok(())
}

/// Adds the ends of a part whose texts aren't there yet.
fn keep_ends(alloc: Global, kept: &mut Vec<ToldEnd>, part: &Part) -> Result<(), AllocError>
    ensures { OnOk result (kept.new.items ≡ fold with_end kept.old.items (ends_of part.now)) }
{
    let ends = part.ends.as_slice();
    for place in 0..ends.len() {
        let name = EndName {
            number: place as u64 + 1,
            start: part.number,
        };
        keep_end(alloc, kept, name, ends[place].body.as_slice())?;
    }
    Ok(())
}

/// The different ends of parts, each as it is told first.
fn kept_ends(alloc: Global, parts: &[&Part]) -> Result<Vec<ToldEnd>, AllocError>
    ensures { IfOk result (λ kept. kept.items ≡ kept_ends (map (λ part. part.now) parts.now)) }
{
    let mut kept = Vec::new(alloc);
    for part in parts {
        keep_ends(alloc, &mut kept, part)?;
    }
    Ok(kept)
}

/// Adds an end: its number, and whose end of which number it is; and its text.
fn put_told(
    alloc: Global,
    text: &mut Vec<u8>,
    number: usize,
    end: &ToldEnd,
) -> Result<(), AllocError>
    ensures { OnOk result (text.new.items ≡ text.old.items ++ told_text number end.now) }
{
    let of_start = end.name.number;
    let start = end.name.start;
    let head = format!(in alloc; "outcome {number}: outcome {of_start} of start {start}\n")?;
    text.extend_from_slice(head.as_bytes())?;
    text.extend_from_slice(end.body.as_slice())?;
    Ok(())
}

fn put_all_told(alloc: Global, text: &mut Vec<u8>, ends: &[ToldEnd]) -> Result<(), AllocError>
    ensures { OnOk result (text.new.items ≡ text.old.items ++ told_texts 1 ends.now) }
{
    for place in 0..ends.len() {
        put_told(alloc, text, place + 1, &ends[place])?;
    }
    Ok(())
}

/// How many states the parts found.
fn all_states(parts: &[&Part]) -> u128
    ensures { result ≡ sum_by (λ part. part.states) (map (λ part. part.now) parts.now) }
{
    let mut sum = 0;
    for part in parts {
        sum += u128::from(part.states);
    }
    sum
}

/// Whether these are all outcomes, or which start isn't told whole. Ranks may need buffers before a start, where no part looks:
/// so the outcomes are all with buffered sends.
fn verdict(alloc: Global, lacking: Option<u64>) -> Result<String, AllocError>
    ensures { IfOk result (λ text. string_bytes text ≡ verdict lacking) }
{
    match lacking {
        None => format!(in alloc; "no other outcome with buffered sends"),
        Some(start) => format!(in alloc; "not all: start {start} isn't told whole"),
    }
}

/// The last line: `3 outcomes of 45 states of 12 starts: no other outcome with buffered sends`.
fn last_line(alloc: Global, found: &Found) -> Result<String, AllocError>
    ensures { IfOk result (λ text. string_bytes text ≡ last_line found.now) }
{
    let summary = summary(alloc, found.ends, found.states)?;
    let starts = counted(alloc, u128::from(found.count), "start")?;
    let verdict = verdict(alloc, found.lacking)?;
    format!(in alloc; "{summary} of {starts}: {verdict}\n")
}

/// What the last line counts.
#[derive(Clone, Copy, Drop)]
struct Found {
    ends: u64,
    states: u128,
    count: u64,
    lacking: Option<u64>,
}

fn any_unending(parts: &[&Part]) -> bool
    ensures { result ≡ list_any (λ part. part.now.unending) parts.now }
{
    parts.iter().any(|part| part.unending)
}

fn any_status(parts: &[&Part], status: u8) -> bool
    ensures { result ≡ list_any (λ part. part.now.status == status) parts.now }
{
    parts.iter().any(|part| part.status == status)
}

/// 4 where some start isn't told whole, else 3 where a part has that, else 7 where one has that, else 8 where one has that,
/// else 0.
#[tactic(auto, using(crate::proofs::Steps::list_any_map), unfolding(crate::specs::Joining::status_together))]
fn status_together(parts: &[&Part], is_all: bool) -> u8
    ensures { result ≡ status_together (map (λ part. part.now) parts.now) is_all }
{
    if !is_all {
        4
    } else if any_status(parts, 3) {
        3
    } else if any_status(parts, 7) {
        7
    } else if any_status(parts, 8) {
        8
    } else {
        0
    }
}

/// What the parts that count tell together.
#[tactic(auto, using(crate::proofs::Steps::list_any_map), unfolding(crate::specs::Joining::text_of))]
fn join_used(
    alloc: Global,
    parts: &[&Part],
    count: u64,
    lacking: Option<u64>,
) -> Result<Joined, AllocError>
    ensures text { IfOk result (λ joined. joined.text.items ≡ text_of (map (λ part. part.now) parts.now) count lacking) }
    ensures status { IfOk result (λ joined. joined.status ≡ status_together (map (λ part. part.now) parts.now) (is_none lacking)) }
{
    let ends = kept_ends(alloc, parts)?;
    let mut text = Vec::new(alloc);
    put_all_told(alloc, &mut text, &ends)?;
    put_unending(&mut text, any_unending(parts))?;
    let found = Found {
        ends: ends.len() as u64,
        states: all_states(parts),
        count,
        lacking,
    };
    let last = last_line(alloc, &found)?;
    text.extend_from_slice(last.as_bytes())?;
    let status = status_together(parts, lacking.is_none());
    Ok(Joined { text, status })
}

/// Whether a part is of the split of these, if there are any.
fn is_of_split(parts: &[Part], part: &Part) -> bool
    ensures { result ≡ is_of_split parts.now part.now }
{
    match parts.last() {
        None => true,
        Some(last) => is_same_split(last, part),
    }
}

/// Whether two parts are told of the same search.
fn is_same_split(one: &Part, other: &Part) -> bool
    ensures { result ≡ is_same_split one.now other.now }
{
    one.count == other.count
        && one.split == other.split
        && one.image == other.image
        && one.harts == other.harts
}

/// Reads the part that stands first in the bytes, and adds it to those before it. Tells the length of its text.
fn next_part(alloc: Global, parts: &mut Vec<Part>, bytes: &[u8]) -> Result<usize, JoinFault>
    ensures read { IfOk result (IsNext parts.old.items bytes.now parts.new.items) }
    ensures fault { IfErr result (IsNotNext parts.old.items bytes.now) }
{
    let number = parts.len() as u64 + 1;
    let Some(read) = part_in(alloc, bytes)? else {
        return Err(JoinFault::NotAText(number));
    };
    if !is_of_split(parts, &read.part) {
        return Err(JoinFault::OtherSplit(number));
    }
    let length = read.length;
    parts.push(read.part).map_err(AllocError::from)?;
    Ok(length)
}

/// The parts that stand one behind another: one at least.
fn parts_in(alloc: Global, bytes: &[u8]) -> Result<Vec<Part>, JoinFault>
    ensures read { IfOk result (λ parts. AreTexts bytes.now parts.items) }
    ensures fault { IfErr result (IsFaulty bytes.now) }
{
    let mut parts = Vec::new(alloc);
    let mut at = 0;
    'texts: loop {
        at += next_part(alloc, &mut parts, behind(bytes, at))?;
        if at == bytes.len() {
            return Ok(parts);
        }
    }
}

/// What texts that stand one behind another, each as `put_part` writes it, tell together: each different end once, by its
/// text's bytes, in the order of the texts; whether some runs go on for ever; whether these are all ends of all starts.
/// One text of each start counts: the first that is whole, or else the first. States are the sum over those. The status is
/// 4 where some start isn't told whole, else 3 where a text that counts has 3, else 7 where one has 7, else 8 where one has 8,
/// else 0.
///
/// Refusals: NotAText, OtherSplit, Memory.
pub fn join_texts(alloc: Global, bytes: &[u8]) -> Result<Joined, JoinFault>
    ensures joined { IfOk result (IsJoined bytes.now) }
    ensures fault { IfErr result (IsFaulty bytes.now) }
{
    let parts = parts_in(alloc, bytes)?;
    let count = count_of(&parts);
    let lacking = lacking(&parts, count);
    let used = used(alloc, &parts)?;
    let joined = join_used(alloc, &used, count, lacking)?;
    Ok(joined)
}

/// How many starts the first part speaks of.
fn count_of(parts: &[Part]) -> u64
    ensures { result ≡ count_of parts.now }
{
    match parts.first() {
        None => 0,
        Some(part) => part.count,
    }
}
