//! Marks: a shape for each step that is shown, and what stands beside it.

ghost use Rattle.std.specs.Prelude.{IfOk, OnOk};
ghost use Rattle.std.specs.List.{All};
ghost use Rattle.rvmc_draw.specs.declared.drawing.Mark.{Mark as MarkView};
ghost use Rattle.rvmc_svg.specs.Adding.{Adds};
ghost use Rattle.rvmc_svg.specs.Shown.{HasTitle};

use crate::forms::{COUNT, NOTE, ONCE, PLACE, RING, SHAPE, STEP, TIMES};
use crate::labels::{LETTER, Places};
use crate::layout::{Layout, TOP};
use crate::pieces::Piece::{Across, Guest, Number, Rank, Words};
use crate::pieces::put;
use crate::safe::put_text;
use rvmc_draw::{Mark, Shape};
use std::alloc::{AllocError, Global};
use std::io;

/// The name of its drawn shape.
pub(crate) fn shape_name(shape: Shape) -> &'static str {
    match shape {
        Shape::Send => "send",
        Shape::SyncSend => "ssend",
        Shape::Posted => "posted",
        Shape::Got => "got",
        Shape::Claimed => "claimed",
        Shape::Seen => "seen",
        Shape::Done => "done",
        Shape::Ready => "ready",
        Shape::Taken => "taken",
        Shape::Freed => "freed",
        Shape::Put => "put",
        Shape::Exit => "exit",
        Shape::Trap => "trap",
        Shape::Refused => "refused",
        Shape::Look => "look",
        Shape::Other => "other",
    }
}

/// How far from its mark a note begins.
const BESIDE: u64 = 12;

/// How many letters of a note are tried.
static TRIED: [usize; 2] = [26, 14];

/// Where a note stands: at the left of its mark or at its right, and how many of its letters are shown.
#[derive(Clone, Copy, Drop)]
struct Room {
    left: bool,
    letters: usize,
}

/// The room for a note of so many letters, which is taken: at this side of its mark, or else at the other, if nothing is
/// written there and the page doesn't end there.
fn room_beside(
    places: &mut Places,
    left: bool,
    at: u64,
    row: u64,
    length: usize,
) -> Result<Option<Room>, AllocError> {
    for most in &TRIED {
        let letters = length.min(*most);
        // two dots stand for the rest of the note
        let dots = if letters < length { 2 } else { 0 };
        let wide = places.pixels((letters as u64).saturating_mul(LETTER));
        let beside = places.pixels(BESIDE);
        for left in [left, !left] {
            let from = if left {
                at.saturating_sub(beside.saturating_add(wide))
            } else {
                at.saturating_add(beside)
            };
            if places.is_inside(left, at, BESIDE, letters.saturating_add(dots))
                && places.take(from, wide, row)?
            {
                return Ok(Some(Room { left, letters }));
            }
        }
    }
    Ok(None)
}

/// Whether an arrow comes to a mark in this lane from the right.
fn comes_from_right(layout: &Layout<'_>, mark: &Mark, at: u64) -> bool {
    for arrow in layout.drawing.arrows.as_slice() {
        if let Some(to) = arrow.to {
            let from = layout.lane_at(arrow.from.rank, arrow.from.hart);
            if to.place == mark.spot.place && from > at {
                return true;
            }
        }
    }
    false
}

/// What is written beside a mark: to its right, or to its left where an arrow comes from the right; at the other side where
/// there is more room.
fn put_note(
    text: &mut Vec<u8>,
    places: &mut Places,
    layout: &Layout<'_>,
    mark: &Mark,
    at: u64,
    row: u64,
) -> io::Result<()> {
    let shown = mark.note.as_slice();
    if shown.is_empty() {
        return Ok(());
    }
    let left = comes_from_right(layout, mark, at);
    let Some(room) = room_beside(places, left, at, row, shown.len())? else {
        return Ok(());
    };
    let class = match mark.shape {
        Shape::Refused | Shape::Trap => "red",
        _ => "dim",
    };
    let (anchor, sign) = if room.left {
        ("end", "-")
    } else {
        ("start", "")
    };
    let letters = room.letters.min(shown.len());
    let more = if letters < shown.len() { ".." } else { "" };
    put(
        text,
        NOTE,
        &[
            Words(class),
            Words(anchor),
            Words(sign),
            Number(BESIDE),
            Across(at),
            Number(row),
            Guest(&shown[..letters]),
            Words(more),
        ],
    )
}

/// Adds how many of these there were, at the left of a lane, where there is room.
pub(crate) fn put_count(
    text: &mut Vec<u8>,
    places: &mut Places,
    at: u64,
    row: u64,
    count: u64,
    these: &'static str,
) -> io::Result<()> {
    let wide = places.pixels(50);
    let beside = places.pixels(7);
    if !places.take(at.saturating_sub(wide.saturating_add(beside)), wide, row)? {
        return Ok(());
    }
    put(
        text,
        COUNT,
        &[Across(at), Number(row), Number(count), Words(these)],
    )
}

/// Adds a title of these bytes, each of them escaped, with what stands before its tag and what stands behind the bytes.
#[tactic(auto, using(crate::proofs::Shown::adds_titled))]
pub(crate) fn put_titled(
    text: &mut Vec<u8>,
    before: &[u8],
    title: &[u8],
    behind: &[u8],
) -> io::Result<()>
    ensures { OnOk result (Adds text.old.items title.now text.new.items) }
{
    text.extend_from_slice(before)?;
    text.extend_from_slice(b"<title>")?;
    put_text(text, title)?;
    text.extend_from_slice(behind)?;
    Ok(())
}

/// Adds what stands behind a mark's title: how many steps it stands for, its shape, in the ring of a receive of any source if
/// it is one, and what is written beside it; and how many steps the hart took without a mark, if they are many.
fn put_behind(
    text: &mut Vec<u8>,
    places: &mut Places,
    layout: &Layout<'_>,
    mark: &Mark,
    row: u64,
) -> io::Result<()> {
    let at = layout.lane_at(mark.spot.rank, mark.spot.hart);
    let pieces = [
        Words(shape_name(mark.shape)),
        Rank(mark.spot.rank),
        Across(at),
        Number(row),
        Number(mark.times),
    ];
    put(text, if mark.times > 1 { TIMES } else { ONCE }, &pieces)?;
    if mark.wild {
        put(text, RING, &pieces)?;
    }
    put(text, SHAPE, &pieces)?;
    put_note(text, places, layout, mark, at, row)?;
    put(text, "</g>\n", &[])?;
    let above = row.saturating_sub(11);
    if mark.quiet < layout.long || above < TOP {
        return Ok(());
    }
    put_count(text, places, at, above, mark.quiet, "steps")
}

/// All marks, which stand in the rows of the layout, each with what is told of it.
pub(crate) fn all_marks(
    alloc: Global,
    places: &mut Places,
    layout: &Layout<'_>,
    marks: &[Mark],
) -> io::Result<Vec<u8>>
    ensures { IfOk result (λ text. All (λ (m : MarkView). HasTitle text.items m.tip.items) marks.now) }
{
    let mut text = Vec::new(alloc);
    let mut number: usize = 0;
    for mark in marks {
        let row = layout.rows.as_slice().get(number).copied().unwrap_or(0);
        number = number.saturating_add(1);
        let mut before = Vec::new(alloc);
        put(&mut before, STEP, &[Number(mark.spot.place)])?;
        let mut behind = Vec::new(alloc);
        put_behind(&mut behind, places, layout, mark, row)?;
        let tip = mark.tip.as_slice();
        put_titled(&mut text, before.as_slice(), tip, behind.as_slice())?;
    }
    Ok(text)
}

/// How far apart two places that stand in one column are.
const PLACES_APART: u64 = 11;

/// Adds the places of all marks at the left. Where there is no room in the first column a place stands in the second, which
/// a narrow page hasn't.
pub(crate) fn put_places(text: &mut Vec<u8>, layout: &Layout<'_>) -> io::Result<()> {
    let mut number: usize = 0;
    let mut first: u64 = 0;
    let mut second: u64 = 0;
    for mark in layout.drawing.marks.as_slice() {
        let row = layout.rows.as_slice().get(number).copied().unwrap_or(0);
        number = number.saturating_add(1);
        let (class, across) = if row >= first.saturating_add(PLACES_APART) {
            first = row;
            ("dim", 3)
        } else if row >= second.saturating_add(PLACES_APART) {
            second = row;
            ("dim wide", 36)
        } else {
            continue;
        };
        let down = Number(row.saturating_add(3));
        let place = Number(mark.spot.place);
        put(text, PLACE, &[Words(class), Number(across), down, place])?;
    }
    Ok(())
}
