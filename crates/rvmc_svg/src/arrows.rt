//! Arrows: messages, claims, what a wildcard receive could have taken, and partitions.

ghost use Rattle.std.specs.Prelude.{◌≡◌, ◌++◌, OnOk};
ghost use Rattle.rvmc_svg.specs.Adding.{AddsIf, AddsWanted, is_wanted};
ghost use Rattle.rvmc_svg.specs.Titles.{arrow_title, cargo_text};

use crate::forms::{BARE, BORDER, BOW, CLOSED, LABEL, LOSS, OPEN, STRAIGHT};
use crate::labels::{LETTER, Places};
use crate::layout::{Layout, part_way};
use crate::marks::put_titled;
use crate::pieces::Piece::{Across, Number, Rank, Words};
use crate::pieces::put;
use rvmc_draw::{Arrow, Carried, Spot};
use std::alloc::Global;
use std::io;
use std::io::Write;

/// What is told of what an arrow carries.
fn put_carried(text: &mut Vec<u8>, carried: &Carried) -> io::Result<()>
    ensures { OnOk result (text.new.items ≡ text.old.items ++ cargo_text carried.now) }
{
    match carried {
        Carried::Message { tag, count } => write!(text, "tag {tag}, {count} bytes"),
        Carried::Claim { tag, count } => write!(text, "claimed, tag {tag}, {count} bytes"),
        Carried::Could { tag, count } => {
            write!(text, "could have been taken, tag {tag}, {count} bytes")
        }
        Carried::Partition { link, part, phase } => {
            write!(text, "link {link} partition {part} phase {phase}")
        }
    }
}

/// What is told of an arrow.
fn put_title(text: &mut Vec<u8>, arrow: &Arrow) -> io::Result<()>
    ensures { OnOk result (text.new.items ≡ text.old.items ++ arrow_title arrow.now) }
{
    let Spot { place, rank, .. } = arrow.from;
    write!(text, "step {place} of rank {rank} to ")?;
    match arrow.to {
        Some(to) => {
            let Spot { place, rank, .. } = to;
            write!(text, "step {place} of rank {rank}: ")?
        }
        None => {
            let dest = arrow.dest;
            write!(text, "rank {dest}, where nobody got it: ")?
        }
    }
    put_carried(text, &arrow.carried)
}

/// How an arrow's line is drawn, and its end: closed where it was got, open where nobody got it, none where it could have
/// been.
fn drawn_as(arrow: &Arrow) -> (&'static str, &'static str) {
    let got = arrow.to.is_some();
    let head = if got { CLOSED } else { OPEN };
    match arrow.carried {
        Carried::Could { .. } => ("a thin far", BARE),
        Carried::Claim { .. } => ("a thin claim", head),
        Carried::Partition { .. } => (if got { "a part" } else { "a part lost" }, head),
        Carried::Message { .. } => (if got { "a" } else { "a lost" }, head),
    }
}

/// Adds what stands behind an arrow's title: its line, straight from one lane to another or a bow beside its lane, and the
/// numbers of its steps that aren't shown, at the border.
fn put_drawn(text: &mut Vec<u8>, layout: &Layout<'_>, arrow: &Arrow) -> io::Result<()> {
    let line = layout.line_of(arrow);
    let (class, head) = drawn_as(arrow);
    let (shape, end) = if line.from == line.to {
        (BOW, "</svg>")
    } else {
        (STRAIGHT, "")
    };
    let pieces = [
        Words(class),
        Rank(arrow.from.rank),
        Across(line.from),
        Number(line.from_row),
        Across(line.to),
        Number(line.to_row),
        Number(line.to_row.saturating_sub(line.from_row)),
    ];
    put(text, shape, &pieces)?;
    put(text, head, &pieces)?;
    put(text, end, &[])?;
    let from = arrow.from.place;
    if from < layout.drawing.from {
        let row = Number(line.from_row.saturating_add(3));
        put(text, BORDER, &[Across(line.from), row, Number(from)])?;
    }
    if let Some(to) = arrow.to {
        if to.place >= layout.drawing.to {
            let row = Number(line.to_row.saturating_add(3));
            put(text, BORDER, &[Across(line.to), row, Number(to.place)])?;
        }
    }
    put(text, "</g>\n", &[])
}

/// Adds an arrow if it is wanted: if it tells of what could have been taken, or else if it doesn't.
#[tactic(auto, using(crate::proofs::Shown::adds_none, crate::proofs::Shown::adds_some))]
fn put_arrow(
    alloc: Global,
    text: &mut Vec<u8>,
    layout: &Layout<'_>,
    could: bool,
    arrow: &Arrow,
) -> io::Result<()>
    ensures { OnOk result
        (AddsIf (is_wanted could arrow.now.carried) text.old.items (arrow_title arrow.now) text.new.items) }
{
    let wanted = match arrow.carried {
        Carried::Could { .. } => could,
        _ => !could,
    };
    if wanted {
        let mut title = Vec::new(alloc);
        put_title(&mut title, arrow)?;
        let mut behind = Vec::new(alloc);
        put_drawn(&mut behind, layout, arrow)?;
        put_titled(text, b"<g>", title.as_slice(), behind.as_slice())?;
    }
    Ok(())
}

/// Adds those that tell of what could have been taken, or the others.
pub(crate) fn put_arrows(
    alloc: Global,
    text: &mut Vec<u8>,
    layout: &Layout<'_>,
    could: bool,
    arrows: &[Arrow],
) -> io::Result<()>
    ensures { OnOk result (AddsWanted could arrows.now text.old.items text.new.items) }
{
    for arrow in arrows {
        put_arrow(alloc, text, layout, could, arrow)?;
    }
    Ok(())
}

/// The tags and sizes of a picture's messages.
#[derive(Clone, Copy, Drop)]
pub(crate) enum Kinds {
    /// There is no message.
    None,
    /// All have this tag and this size.
    One(u16, u16),
    Several,
}

/// The tags and sizes of messages among arrows.
pub(crate) fn kinds_of(arrows: &[Arrow]) -> Kinds {
    let mut kinds = Kinds::None;
    for arrow in arrows {
        if let Carried::Message { tag, count } = arrow.carried {
            if let Kinds::One(other_tag, other_count) = kinds {
                if tag != other_tag || count != other_count {
                    return Kinds::Several;
                }
            }
            kinds = Kinds::One(tag, count);
        }
    }
    kinds
}

/// How far along an arrow its label is tried, in hundredths.
static TRIED: [u64; 4] = [18, 32, 50, 68];

/// How many letters a label has, about.
const LABEL_LETTERS: u64 = 9;

/// Adds the tag and the size of each message that was got beside its arrow, where there is room, unless all have one kind.
pub(crate) fn put_labels(
    text: &mut Vec<u8>,
    places: &mut Places,
    layout: &Layout<'_>,
) -> io::Result<()> {
    let arrows = layout.drawing.arrows.as_slice();
    if let Kinds::One(..) = kinds_of(arrows) {
        return Ok(());
    }
    let width = places.pixels(LABEL_LETTERS * LETTER);
    for arrow in arrows {
        let Carried::Message { tag, count } = arrow.carried else {
            continue;
        };
        let line = layout.line_of(arrow);
        if line.from == line.to || arrow.to.is_none() {
            continue;
        }
        for way in &TRIED {
            let at = part_way(line.from, line.to, *way);
            let row = part_way(line.from_row, line.to_row, *way).saturating_sub(2);
            if places.take(at.saturating_sub(width / 2), width, row)? {
                let rank = Rank(arrow.from.rank);
                let (tag, count) = (Number(u64::from(tag)), Number(u64::from(count)));
                put(text, LABEL, &[rank, Across(at), Number(row), tag, count])?;
                break;
            }
        }
    }
    Ok(())
}

/// How many letters the label of an open head has, and how many pixels it takes.
const NOT_GOT: usize = 13;

const NOT_GOT_PIXELS: u64 = 78;

/// How far below an open head its label is tried.
static LOWER: [u64; 3] = [4, 16, 28];

/// Adds at the open head of what nobody got that it wasn't, where there is room: behind the head, or where the arrow leads to
/// its own lane at the side that has room.
pub(crate) fn put_losses(
    text: &mut Vec<u8>,
    places: &mut Places,
    layout: &Layout<'_>,
) -> io::Result<()> {
    let width = places.pixels(NOT_GOT_PIXELS);
    for arrow in layout.drawing.arrows.as_slice() {
        if arrow.to.is_some() {
            continue;
        }
        let line = layout.line_of(arrow);
        let right = if line.to == line.from {
            places.is_inside(false, line.to, 4, NOT_GOT)
        } else {
            line.to > line.from
        };
        let (anchor, dx, left) = if right {
            (Words("start"), Words("4"), line.to)
        } else {
            (Words("end"), Words("-4"), line.to.saturating_sub(width))
        };
        for lower in &LOWER {
            let row = line.to_row.saturating_add(*lower);
            if places.take(left, width, row)? {
                let (rank, dest) = (Rank(arrow.from.rank), Rank(arrow.dest));
                put(
                    text,
                    LOSS,
                    &[rank, anchor, dx, Across(line.to), Number(row), dest],
                )?;
                break;
            }
        }
    }
    Ok(())
}
