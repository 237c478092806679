//! The first message by which one outcome differs from another.

use cl_machine::{KindRef, Step};
use mp_types::{Envelope, Gots, Reply};
use std::alloc::{AllocError, Global};

/// A message that a rank got or saw: by which step, and whose it is.
#[derive(Clone, Copy, Drop)]
pub(crate) struct Reception {
    pub place: usize,
    pub source: u8,
    /// Whether it was received; else it was only seen by a probe.
    pub got: bool,
    /// How many messages of the same rank the step brought before it.
    pub nth: usize,
}

/// How many messages of this source the step at this place brought up to now.
fn brought(found: &[Reception], place: usize, source: u8) -> usize {
    let mut count = 0_usize;
    for reception in found.iter().rev() {
        if reception.place != place {
            return count;
        }
        if reception.source == source {
            count = count.saturating_add(1);
        }
    }
    count
}

/// One more message, of this envelope.
fn note(
    found: &mut Vec<Reception>,
    place: usize,
    envelope: &Envelope,
    got: bool,
) -> Result<(), AllocError> {
    let source = envelope.source;
    let nth = brought(found.as_slice(), place, source);
    found.push(Reception {
        place,
        source,
        got,
        nth,
    })?;
    Ok(())
}

/// Each message of several that were received at once.
fn note_all(found: &mut Vec<Reception>, place: usize, gots: &Gots) -> Result<(), AllocError> {
    for got in gots.as_slice() {
        if let Some(message) = got {
            note(found, place, &message.envelope, true)?;
        }
    }
    Ok(())
}

/// The messages of a reply.
fn note_reply(found: &mut Vec<Reception>, place: usize, reply: &Reply) -> Result<(), AllocError> {
    match reply {
        Reply::Got(message) => note(found, place, &message.envelope, true),
        Reply::Seen(envelope) => note(found, place, envelope, false),
        Reply::Held(_, envelope) => note(found, place, envelope, false),
        Reply::AllGot(gots) => note_all(found, place, gots),
        _ => Ok(()),
    }
}

/// The messages that a rank got or saw, in their order.
fn receptions(alloc: Global, steps: &[Step], rank: u8) -> Result<Vec<Reception>, AllocError> {
    let mut found = Vec::new(alloc);
    for (place, step) in steps.iter().enumerate() {
        if let KindRef::Hub(reply) = step.kind() {
            if step.rank() == rank {
                note_reply(&mut found, place, reply)?;
            }
        }
    }
    Ok(found)
}

/// Another message than in the first outcome: which it is, and which it was there.
#[derive(Clone, Copy, Drop)]
pub(crate) struct Difference {
    pub rank: u8,
    pub here: Reception,
    pub first: Reception,
}

/// The first message by which two lists differ.
fn first_apart(rank: u8, mine: &[Reception], theirs: &[Reception]) -> Option<Difference> {
    for (here, there) in mine.iter().zip(theirs.iter()) {
        if here.source != there.source {
            return Some(Difference {
                rank,
                here: *here,
                first: *there,
            });
        }
    }
    None
}

/// The first rank that got or saw another message by these steps than by the first ones, and which it was.
pub(crate) fn first_difference(
    alloc: Global,
    ranks: u8,
    steps: &[Step],
    first: &[Step],
) -> Result<Option<Difference>, AllocError> {
    for rank in 0..ranks {
        let mine = receptions(alloc, steps, rank)?;
        let theirs = receptions(alloc, first, rank)?;
        let found = first_apart(rank, mine.as_slice(), theirs.as_slice());
        if found.is_some() {
            return Ok(found);
        }
    }
    Ok(None)
}
