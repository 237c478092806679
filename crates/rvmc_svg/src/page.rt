//! The whole page.

ghost use Rattle.std.specs.Prelude.{◌≡◌, ◌++◌, IfOk};
ghost use Rattle.std.specs.List.{All};
ghost use Rattle.rvmc_svg.specs.Safe.{IsAllowed};
ghost use Rattle.rvmc_svg.specs.Shown.{HasTitle, IsShown};
ghost use Rattle.rvmc_svg.specs.Titles.{arrow_title};
ghost use Rattle.rvmc_draw.specs.declared.drawing.Arrow.{Arrow as ArrowView};

use crate::arrows::{put_arrows, put_labels, put_losses};
use crate::bars::put_bars;
use crate::ends::{put_rows, put_told};
use crate::fonts::{SHAPES, STYLE};
use crate::forms::{BAND, FRONT, HART, HEADS, LANE, NAME};
use crate::labels::{LETTER, NARROW, Places};
use crate::layout::{Layout, NAMES_APART, NAMES_ROW, TOP};
use crate::legend::put_legend;
use crate::marks::{all_marks, put_places};
use crate::pieces::Piece::{Across, Hart, Number, Rank, Words};
use crate::pieces::put;
use crate::ribbons::put_ribbons;
use crate::safe::put_safe;
use rvmc_draw::{Arrow, Drawing};
use std::alloc::Global;
use std::io;

/// Where the names of the ranks are written first, and where in its strip a name is written once more.
const FIRST_NAMES: u64 = 24;

const IN_STRIP: u64 = 18;

/// How many letters the name of a rank has.
const NAME_LETTERS: u64 = 7;

/// Adds the names of all ranks each time that a long picture would have none in view, and takes their places.
fn put_names(text: &mut Vec<u8>, places: &mut Places, layout: &Layout<'_>) -> io::Result<()> {
    let wide = places.pixels(NAME_LETTERS * LETTER);
    let class = Words(layout.word);
    let again = Words(" halo again");
    let mut down = NAMES_APART.saturating_add(IN_STRIP);
    for _ in 0..layout.foot.saturating_sub(NAMES_ROW) / NAMES_APART {
        for rank in 0..layout.drawing.ranks {
            let at = layout.rank_at(rank);
            places.take(at.saturating_sub(wide / 2), wide, down)?;
            put(
                text,
                NAME,
                &[Rank(rank), again, Across(at), Number(down), class],
            )?;
        }
        down = down.saturating_add(NAMES_APART);
    }
    Ok(())
}

/// Adds the heads that each sender's arrows have.
fn put_heads(text: &mut Vec<u8>, ranks: u8) -> io::Result<()> {
    put(text, "<defs>\n", &[])?;
    for rank in 0..ranks {
        put(text, HEADS, &[Rank(rank)])?;
    }
    put(text, "</defs>\n", &[])
}

/// Adds the lane of each hart of a rank, with the hart's name above it where a rank has several.
fn put_lanes(text: &mut Vec<u8>, layout: &Layout<'_>, rank: u8) -> io::Result<()> {
    let harts = layout.drawing.harts;
    for hart in 0..harts {
        let at = Across(layout.lane_at(rank, hart));
        let pieces = [at, Number(TOP), Number(layout.foot), Hart(hart)];
        put(text, LANE, &pieces)?;
        if harts > 1 {
            put(text, HART, &pieces)?;
        }
    }
    Ok(())
}

/// Adds all ranks: of each its name above, a band behind every second one, and its lanes.
fn put_ranks(text: &mut Vec<u8>, layout: &Layout<'_>) -> io::Result<()> {
    for rank in 0..layout.drawing.ranks {
        let at = layout.rank_at(rank);
        if rank % 2 == 1 {
            let left = Across(at.saturating_sub(layout.share / 2));
            let high = Number(layout.foot.saturating_sub(8));
            put(text, BAND, &[left, Across(layout.share), high])?;
        }
        let (down, class) = (Number(FIRST_NAMES), Words(layout.word));
        put(
            text,
            NAME,
            &[Rank(rank), Words(""), Across(at), down, class],
        )?;
        put_lanes(text, layout, rank)?;
    }
    Ok(())
}

/// Adds what lies below the arrows: their heads, the ranks, the bars, the ribbons and the steps' numbers. The names that lie above all are
/// written first, so that nothing else takes their places.
fn put_below(
    alloc: Global,
    text: &mut Vec<u8>,
    over: &mut Vec<u8>,
    places: &mut Places,
    layout: &Layout<'_>,
) -> io::Result<()> {
    put_names(over, places, layout)?;
    put_heads(text, layout.drawing.ranks)?;
    put_ranks(text, layout)?;
    put_bars(text, places, layout)?;
    put_ribbons(alloc, text, layout)?;
    put_places(text, layout)
}

/// Adds what lies above the marks or stands below the lanes, to the end of the page, and tells the page's height: labels, the
/// rows of the end, what is told of it, and the legend.
fn put_over(text: &mut Vec<u8>, places: &mut Places, layout: &Layout<'_>) -> io::Result<u64> {
    put_labels(text, places, layout)?;
    put_losses(text, places, layout)?;
    let down = put_rows(text, layout, layout.foot.saturating_add(20))?;
    let told = layout.drawing.told.as_slice();
    let down = put_told(text, told, down.saturating_add(10))?;
    let high = put_legend(text, layout.drawing, down.saturating_add(12))?;
    put(text, "</svg>\n", &[])?;
    Ok(high)
}

/// All that lies below the marks, on a page of this height: what stands before all that is drawn, what lies below the
/// arrows, and these.
#[tactic(auto, using(crate::proofs::ArrowTitles::all_behind))]
fn under(
    alloc: Global,
    layout: &Layout<'_>,
    arrows: &[Arrow],
    high: u64,
    below: &[u8],
) -> io::Result<Vec<u8>>
    ensures { IfOk result (λ text. All (λ (a : ArrowView). HasTitle text.items (arrow_title a)) arrows.now) }
{
    let narrow = layout.wide.min(NARROW);
    let mut text = Vec::new(alloc);
    put(
        &mut text,
        FRONT,
        &[
            Number(layout.wide),
            Number(high),
            Number(narrow),
            Words(STYLE),
            Words(SHAPES),
        ],
    )?;
    text.extend_from_slice(below)?;
    // those that tell of what could have been taken lie below the others
    put_arrows(alloc, &mut text, layout, true, arrows)?;
    put_arrows(alloc, &mut text, layout, false, arrows)?;
    Ok(text)
}

/// The page before its bytes are made safe: what lies below the marks, the marks, and what lies above them.
fn page(alloc: Global, drawing: &Drawing) -> io::Result<Vec<u8>>
    ensures { IfOk result (λ text. IsShown drawing.now text.items) }
{
    let layout = Layout::new(alloc, drawing)?;
    let mut places = Places {
        page: layout.wide,
        taken: Vec::new(alloc),
    };
    let mut over = Vec::new(alloc);
    let mut below = Vec::new(alloc);
    put_below(alloc, &mut below, &mut over, &mut places, &layout)?;
    let marks = all_marks(alloc, &mut places, &layout, drawing.marks.as_slice())?;
    let high = put_over(&mut over, &mut places, &layout)?;
    let arrows = drawing.arrows.as_slice();
    let mut text = under(alloc, &layout, arrows, high, below.as_slice())?;
    text.extend_from_slice(marks.as_slice())?;
    text.extend_from_slice(over.as_slice())?;
    Ok(text)
}

/// The picture as an SVG image: what the drawing tells of each mark stands in it as a title, each of its bytes escaped, and
/// so do the two ends of each arrow and what it carries. Each byte is one that XML allows, whatever the drawing holds. The
/// only error is want of memory.
#[tactic(auto, using(crate::proofs::Allowed::all_safe, crate::proofs::Shown::page_safe))]
pub fn svg(alloc: Global, drawing: &Drawing) -> io::Result<Vec<u8>>
    ensures allowed { IfOk result (λ text. All IsAllowed text.items) }
    ensures shown { IfOk result (λ text. IsShown drawing.now text.items) }
{
    let page = page(alloc, drawing)?;
    let mut text = Vec::new(alloc);
    put_safe(&mut text, page.as_slice())?;
    Ok(text)
}
