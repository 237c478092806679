//! The two ends of a message or of a partition, by the arrows of the record's picture.

ghost use Rattle.std.specs.Prelude.{◌≡◌, ◌++◌, OnOk};
ghost use Rattle.rvmc_gdb.specs.Ends.{arrow_if, arrow_text, begin_text, counts, earlier, got_text, got_word, nearest, nothing_text, other_end};
ghost use Rattle.rvmc_gdb.specs.Ends.{other_spot, own_from, own_place, own_spot, sent_text, spot_goal, spot_text, verb};

use crate::session::{Goal, Who};
use rvmc_draw::{Arrow, Carried, Spot};
use rvmc_protocol::replies::put_name;
use std::io;
use std::io::Write;

/// On which side of a message a hart is.
#[derive(Clone, Copy)]
pub(crate) enum Side {
    /// It gets the message, and where that was sent is asked.
    Gets,
    /// It sends the message, and where that is got is asked.
    Sends,
}

/// Whether an arrow tells of what a hart on that side does: what a receive could have taken it doesn't take, and a claim
/// isn't where a message is got.
fn counts(side: Side, carried: Carried) -> bool
    ensures { result ≡ counts side carried }
{
    match carried {
        Carried::Message { .. } | Carried::Partition { .. } => true,
        Carried::Claim { .. } => matches!(side, Side::Gets),
        Carried::Could { .. } => false,
    }
}

/// The step on that side of an arrow.
fn own_spot(side: Side, arrow: &Arrow) -> Option<Spot>
    ensures { result ≡ own_spot side arrow.now }
{
    match side {
        Side::Gets => arrow.to,
        Side::Sends => Some(arrow.from),
    }
}

/// The step on the other side.
fn other_spot(side: Side, arrow: &Arrow) -> Option<Spot>
    ensures { result ≡ other_spot side arrow.now }
{
    match side {
        Side::Gets => Some(arrow.from),
        Side::Sends => arrow.to,
    }
}

/// The place before a step, and its hart.
fn spot_goal(spot: Spot) -> Goal
    ensures { result ≡ spot_goal spot }
{
    Goal {
        place: spot.place,
        rank: spot.rank,
        hart: spot.hart,
    }
}

/// Where the other end is, if there is one.
pub(crate) fn other_end(side: Side, arrow: &Arrow) -> Option<Goal>
    ensures { result ≡ other_end side arrow.now }
{
    match other_spot(side, arrow) {
        Some(spot) => Some(spot_goal(spot)),
        None => None,
    }
}

/// The place before a step, if it is one of the hart from a place on.
fn own_from(who: Who, from: u64, spot: Option<Spot>) -> Option<u64>
    ensures { result ≡ own_from who from spot }
{
    match spot {
        Some(spot) => {
            if spot.rank == who.rank && spot.hart == who.hart && from <= spot.place {
                Some(spot.place)
            } else {
                None
            }
        }
        None => None,
    }
}

/// The place of the hart's own end of an arrow, if the arrow is one that is asked for.
fn own_place(side: Side, who: Who, from: u64, arrow: &Arrow) -> Option<u64>
    ensures { result ≡ own_place side who from arrow.now }
{
    if counts(side, arrow.carried) {
        own_from(who, from, own_spot(side, arrow))
    } else {
        None
    }
}

/// An arrow with the place of the hart's own end.
#[derive(Clone, Copy)]
pub(crate) struct Found {
    pub(crate) place: u64,
    pub(crate) arrow: Arrow,
}

/// The arrow with its place, if it is one that is asked for.
fn arrow_if(side: Side, who: Who, from: u64, arrow: &Arrow) -> Option<Found>
    ensures { result ≡ arrow_if side who from arrow.now }
{
    match own_place(side, who, from, arrow) {
        Some(place) => Some(Found {
            place,
            arrow: *arrow,
        }),
        None => None,
    }
}

/// The one of the lesser place, and the first of two that have the same.
fn earlier(one: Option<Found>, other: Option<Found>) -> Option<Found>
    ensures { result ≡ earlier one other }
{
    match (one, other) {
        (Some(first), Some(second)) => {
            if first.place <= second.place {
                Some(first)
            } else {
                Some(second)
            }
        }
        (Some(first), None) => Some(first),
        (None, other) => other,
    }
}

/// What the hart gets, or sends, first from a place on.
#[tactic(auto, using(crate::proofs::Nearest::earlier_assoc, crate::proofs::Nearest::earlier_none))]
pub(crate) fn nearest(side: Side, who: Who, from: u64, arrows: &[Arrow]) -> Option<Found>
    ensures { result ≡ nearest side who from arrows.now }
{
    let mut found = None;
    for arrow in arrows {
        found = earlier(found, arrow_if(side, who, from, arrow));
    }
    found
}

/// Adds what an arrow carries, and that it was sent.
fn put_sent(text: &mut Vec<u8>, carried: Carried) -> io::Result<()>
    ensures { OnOk result (text.new.items ≡ text.old.items ++ sent_text carried) }
{
    match carried {
        Carried::Message { tag, count }
        | Carried::Claim { tag, count }
        | Carried::Could { tag, count } => {
            write!(text, "message of {count} bytes, tag {tag}, sent")
        }
        Carried::Partition { link, part, .. } => {
            write!(text, "partition {part} of link {link}, made ready")
        }
    }
}

/// How it arrived, in a word.
fn got_word(carried: Carried) -> &'static [u8]
    ensures { result.now ≡ got_word carried }
{
    match carried {
        Carried::Message { .. } => b"got",
        Carried::Claim { .. } => b"claimed",
        Carried::Could { .. } => b"not taken",
        Carried::Partition { .. } => b"taken",
    }
}

/// Adds a step.
fn put_spot(text: &mut Vec<u8>, spot: Spot) -> io::Result<()>
    ensures { OnOk result (text.new.items ≡ text.old.items ++ spot_text spot) }
{
    let place = spot.place;
    write!(text, " at {place} by ")?;
    put_name(text, spot.rank, spot.hart)
}

/// Adds how and where it arrived.
fn put_got(text: &mut Vec<u8>, carried: Carried, to: Option<Spot>) -> io::Result<()>
    ensures { OnOk result (text.new.items ≡ text.old.items ++ got_text carried to) }
{
    text.extend_from_slice(got_word(carried))?;
    match to {
        Some(spot) => put_spot(text, spot),
        None => {
            text.extend_from_slice(b" by nobody")?;
            Ok(())
        }
    }
}

/// Adds what an arrow carries, and where it was sent.
fn put_begin(text: &mut Vec<u8>, arrow: &Arrow) -> io::Result<()>
    ensures { OnOk result (text.new.items ≡ text.old.items ++ begin_text arrow.now) }
{
    put_sent(text, arrow.carried)?;
    put_spot(text, arrow.from)?;
    text.extend_from_slice(b", ")?;
    Ok(())
}

/// Adds what an arrow carries and both its ends, as a line.
pub(crate) fn put_arrow(text: &mut Vec<u8>, arrow: &Arrow) -> io::Result<()>
    ensures { OnOk result (text.new.items ≡ text.old.items ++ arrow_text arrow.now) }
{
    put_begin(text, arrow)?;
    put_got(text, arrow.carried, arrow.to)?;
    text.extend_from_slice(b"\n")?;
    Ok(())
}

/// What a hart on that side does, in a word.
fn verb(side: Side) -> &'static [u8]
    ensures { result.now ≡ verb side }
{
    match side {
        Side::Gets => b" gets",
        Side::Sends => b" sends",
    }
}

/// Adds that a hart gets, or sends, nothing any more.
pub(crate) fn put_nothing(text: &mut Vec<u8>, side: Side, who: Who) -> io::Result<()>
    ensures { OnOk result (text.new.items ≡ text.old.items ++ nothing_text side who) }
{
    put_name(text, who.rank, who.hart)?;
    text.extend_from_slice(verb(side))?;
    text.extend_from_slice(b" nothing from here on\n")?;
    Ok(())
}
