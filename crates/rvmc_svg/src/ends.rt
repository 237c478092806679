//! The end: whom each hart that waits there waits for, and what is told of it.

use crate::forms::{AWAITED, HEAD, OWN, ROW, TOLD, WAITS, WAITS_FOR};
use crate::layout::Layout;
use crate::pieces::Piece::{Across, Guest, Hart, Number, Rank, Words};
use crate::pieces::put;
use rvmc_draw::Row;
use std::io;

/// How far apart two rows are, and two lines.
const ROWS_APART: u64 = 18;

const LINES_APART: u64 = 14;

/// The middle of the page.
const MIDDLE: u64 = 5_000;

/// Adds a row's heads, of this class, at each rank that the hart waits for, or that it waits for its own.
fn put_heads(
    text: &mut Vec<u8>,
    layout: &Layout<'_>,
    row: &Row,
    own: u64,
    down: u64,
    class: &'static str,
) -> io::Result<()> {
    for rank in row.awaited.as_slice() {
        let at = layout.rank_at(*rank);
        let name = Words(if at < own { "to-left" } else { "to-right" });
        put(text, HEAD, &[name, Words(class), Across(at), Number(down)])?;
    }
    if !row.awaited.is_empty() {
        return Ok(());
    }
    let (anchor, dx) = if own > MIDDLE {
        (Words("end"), Words("-9"))
    } else {
        (Words("start"), Words("9"))
    };
    let down = Number(down.saturating_add(4));
    put(text, OWN, &[anchor, dx, Across(own), down])
}

/// Adds a row: its title, its line, over the hart's lane and each rank that it waits for, its begin, at the hart's lane, and
/// its heads.
fn put_row(text: &mut Vec<u8>, layout: &Layout<'_>, row: &Row, down: u64) -> io::Result<()> {
    let own = layout.lane_at(row.rank, row.hart);
    let mut least = own;
    let mut most = own;
    put(text, WAITS, &[Rank(row.rank), Hart(row.hart)])?;
    for rank in row.awaited.as_slice() {
        put(text, AWAITED, &[Rank(*rank)])?;
        let at = layout.rank_at(*rank);
        least = least.min(at);
        most = most.max(at);
    }
    let itself = if row.awaited.is_empty() {
        " its own rank"
    } else {
        ""
    };
    // of a rank in a deadlock, or of another
    let (stuck, line, begin, head) = if row.stuck {
        (": in a deadlock", "rule", "ever", "red")
    } else {
        ("", "lane", "wait", "dim")
    };
    put(
        text,
        ROW,
        &[
            Words(itself),
            Words(stuck),
            Words(line),
            Across(least),
            Across(most),
            Number(down),
            Words(begin),
            Across(own),
        ],
    )?;
    put_heads(text, layout, row, own, down, head)?;
    put(text, "</g>\n", &[])
}

/// Adds what the rows are, and the rows, from this one on, and tells where they end.
pub(crate) fn put_rows(text: &mut Vec<u8>, layout: &Layout<'_>, from: u64) -> io::Result<u64> {
    let rows = layout.drawing.rows.as_slice();
    let mut down = from;
    if !rows.is_empty() {
        put(text, WAITS_FOR, &[Number(down.saturating_add(3))])?;
    }
    for row in rows {
        put_row(text, layout, row, down)?;
        down = down.saturating_add(ROWS_APART);
    }
    Ok(down)
}

/// Where a line of the end is parted, so that it fits a narrow page: before what a hart waits for, behind the comma of a place
/// that has a line, or else before the name of the call, which is the last ` in ` with ` for ` behind it.
fn parted(line: &[u8]) -> usize {
    let mut found = line.len();
    let mut last = line.len();
    for at in 0..line.len() {
        if line[at..].starts_with(b" in ") {
            last = at;
        }
        if line[at..].starts_with(b" for ") {
            found = if line[..at].ends_with(b",") { at } else { last };
        }
    }
    found
}

/// Adds what is told, from this row on, and tells where it ends: each line in one or two, but the verdict on a deadlock in one.
pub(crate) fn put_told(text: &mut Vec<u8>, told: &[u8], from: u64) -> io::Result<u64> {
    let mut down = from;
    let mut begun: usize = 0;
    for at in 0..told.len() {
        if told[at] != b'\n' {
            continue;
        }
        let line = &told[begun.min(at)..at];
        begun = at.saturating_add(1);
        let (class, part) = if line.starts_with(b"deadlock: ") {
            (Words("red bold"), line.len())
        } else {
            (Words("ink"), parted(line).min(line.len()))
        };
        let begin = Guest(&line[..part]);
        put(text, TOLD, &[class, Number(12), Number(down), begin])?;
        down = down.saturating_add(LINES_APART);
        if part < line.len() {
            let rest = Guest(&line[part..]);
            put(text, TOLD, &[class, Number(28), Number(down), rest])?;
            down = down.saturating_add(LINES_APART);
        }
    }
    Ok(down)
}
