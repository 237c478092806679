//! Bars: looks in vain of a hart that follow one another.

use crate::forms::BAR;
use crate::labels::Places;
use crate::layout::{Layout, TOP};
use crate::marks::put_count;
use crate::pieces::Piece::{Across, Hart, Number, Rank, Words};
use crate::pieces::put;
use rvmc_draw::Spot;
use std::io;

/// The least number of looks that is written beside a bar.
const MANY: u64 = 40;

/// Adds all bars, each with what is told of it.
pub(crate) fn put_bars(
    text: &mut Vec<u8>,
    places: &mut Places,
    layout: &Layout<'_>,
) -> io::Result<()> {
    for bar in layout.drawing.bars.as_slice() {
        let Spot { place, rank, hart } = bar.first;
        let at = layout.lane_at(rank, hart);
        let above = layout.row_at(place).unwrap_or(TOP);
        let (class, end, last, foot) = if bar.went_on {
            let foot = layout.row_at(bar.last).unwrap_or(layout.foot);
            ("wait", "step ", Number(bar.last), foot)
        } else {
            ("ever", "the end", Words(""), layout.foot)
        };
        let high = foot.saturating_sub(above);
        put(
            text,
            BAR,
            &[
                Rank(rank),
                Hart(hart),
                Number(place),
                Words(end),
                last,
                Number(bar.looks),
                Words(class),
                Across(at),
                Number(above),
                Number(high),
            ],
        )?;
        if bar.looks >= MANY {
            let middle = above.saturating_add(high / 2);
            put_count(text, places, at, middle, bar.looks, "looks")?;
        }
    }
    Ok(())
}
