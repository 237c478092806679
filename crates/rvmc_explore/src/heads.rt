//! The line of an outcome.

ghost use Rattle.std.specs.Prelude.{◌≡◌, IfOk, OnOk, string_bytes};
ghost use Rattle.rvmc_explore.specs.Telling.{AddsHead, outcome_number};

use crate::differences::{Difference, Reception, first_difference};
use crate::outcomes::Outcome;
use cl_machine::Step;
use cl_replay::replay;
use cl_state::RankState;
use rv_hart::Hart;
use rv_image_types::Image;
use rvmc_draw::{Arrow, Carried};
use rvmc_picture::arrows;
use rvmc_places::{is_in_library, put_name, put_own_place};
use std::alloc::{AllocError, Global};

/// The number of an outcome, from 1 on.
fn number_text(alloc: Global, number: usize) -> Result<String, AllocError>
    ensures { IfOk result (λ text. string_bytes text ≡ outcome_number number) }
{
    format!(in alloc; "outcome {number}")
}

/// Adds where a hart is: in the library, the program's own call that led there.
fn put_line(
    text: &mut Vec<u8>,
    image: &Image,
    rank: &RankState,
    hart: &Hart,
) -> Result<(), AllocError> {
    let symbols = image.parts().symbols.as_slice();
    if !is_in_library(symbols, &rank.memory, hart) {
        return put_name(text, symbols, hart.pc());
    }
    put_own_place(text, symbols, &rank.memory, hart, "")?;
    // the comma behind the call
    let _ = text.pop();
    Ok(())
}

/// Adds where the hart is whose turn the step at this place is, before the step.
fn put_line_before(
    alloc: Global,
    text: &mut Vec<u8>,
    image: &Image,
    steps: &[Step],
    place: usize,
) -> Result<(), AllocError> {
    let Some(step) = steps.get(place) else {
        return Ok(());
    };
    let Ok(state) = replay(alloc, image, steps, place as u64) else {
        return Err(AllocError);
    };
    let Some(rank) = state.ranks.get(usize::from(step.rank())) else {
        return Ok(());
    };
    match rank.harts.get(usize::from(step.hart())) {
        None => Ok(()),
        Some(hart) => put_line(text, image, rank, hart),
    }
}

/// Whether an arrow leads from the reception's source to the step that received.
fn is_of(arrow: &Arrow, reception: &Reception) -> bool {
    match (arrow.carried, arrow.to) {
        (Carried::Message { .. }, Some(to)) => {
            arrow.from.rank == reception.source && to.place == reception.place as u64
        }
        _ => false,
    }
}

/// By which step the message was sent. None if it was only seen by a probe.
fn sent_by(
    alloc: Global,
    image: &Image,
    steps: &[Step],
    reception: &Reception,
) -> Result<Option<usize>, AllocError> {
    if !reception.got {
        return Ok(None);
    }
    let Ok(arrows) = arrows(alloc, image, steps) else {
        return Err(AllocError);
    };
    let mut before = reception.nth;
    for arrow in arrows.as_slice() {
        if is_of(arrow, reception) {
            if before == 0 {
                return Ok(Some(arrow.from.place as usize));
            }
            before = before.saturating_sub(1);
        }
    }
    Ok(None)
}

/// Adds where the message was sent, if it was received.
fn put_sent(
    alloc: Global,
    text: &mut Vec<u8>,
    image: &Image,
    steps: &[Step],
    reception: &Reception,
) -> Result<(), AllocError> {
    let Some(place) = sent_by(alloc, image, steps, reception)? else {
        return Ok(());
    };
    text.extend_from_slice(b" (sent at ")?;
    put_line_before(alloc, text, image, steps, place)?;
    text.push(b')')?;
    Ok(())
}

/// Where a rank got or saw another message than in the first outcome, whose it is and where it was sent, and the same of
/// the first outcome.
fn message_text(
    alloc: Global,
    image: &Image,
    steps: &[Step],
    first: &[Step],
    found: &Difference,
) -> Result<Vec<u8>, AllocError> {
    let mut text = Vec::new(alloc);
    let Difference {
        rank,
        here,
        first: there,
    } = found;
    let (mine, theirs) = (here.source, there.source);
    let rank = format!(in alloc; ": rank {rank} at ")?;
    text.extend_from_slice(rank.as_bytes())?;
    put_line_before(alloc, &mut text, image, steps, here.place)?;
    let word = if here.got { "got" } else { "saw" };
    let message = format!(in alloc; " {word} rank {mine}'s message")?;
    text.extend_from_slice(message.as_bytes())?;
    put_sent(alloc, &mut text, image, steps, here)?;
    let other = format!(in alloc; ", in outcome 1 rank {theirs}'s")?;
    text.extend_from_slice(other.as_bytes())?;
    put_sent(alloc, &mut text, image, first, there)?;
    Ok(text)
}

/// By which message an outcome differs from the first one, if it does by a message.
fn difference_text(
    alloc: Global,
    image: &Image,
    outcome: &Outcome,
    first: &Outcome,
) -> Result<Vec<u8>, AllocError> {
    let steps = outcome.steps(alloc)?;
    let first = first.steps(alloc)?;
    let ranks = image.parts().ranks;
    match first_difference(alloc, ranks, steps.as_slice(), first.as_slice())? {
        None => Ok(Vec::new(alloc)),
        Some(found) => message_text(alloc, image, steps.as_slice(), first.as_slice(), &found),
    }
}

/// Adds the line of an outcome: its number, and by which message it differs from the first one.
pub(crate) fn put_head(
    alloc: Global,
    text: &mut Vec<u8>,
    image: &Image,
    outcome: &Outcome,
    first: &Outcome,
    number: usize,
) -> Result<(), AllocError>
    ensures { OnOk result (AddsHead number text.old.items text.new.items) }
{
    let name = number_text(alloc, number)?;
    let other = difference_text(alloc, image, outcome, first)?;
    text.extend_from_slice(name.as_bytes())?;
    text.extend_from_slice(other.as_slice())?;
    text.push(b'\n')?;
    Ok(())
}
