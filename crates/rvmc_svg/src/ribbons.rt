//! Ribbons: all arrows of one phase of a link have one behind them, so that they read as one thing.

use crate::forms::{BETWEEN, RIBBON};
use crate::layout::Layout;
use crate::pieces::Piece::{Across, Number, Rank};
use crate::pieces::put;
use rvmc_draw::Carried;
use std::alloc::{AllocError, Global};
use std::io;

/// The ribbon of a phase: from the sender's lane to the other, behind all of its arrows.
#[derive(Drop)]
struct Ribbon {
    link: u8,
    phase: u64,
    rank: u8,
    from: u64,
    to: u64,
    /// The rows between which the arrows begin, and those between which they end.
    from_top: u64,
    from_foot: u64,
    to_top: u64,
    to_foot: u64,
    /// How many arrows there are.
    count: u64,
}

/// The ribbons of all phases of which a partition got to a step, in the order of their first arrows.
fn ribbons(alloc: Global, layout: &Layout<'_>) -> Result<Vec<Ribbon>, AllocError> {
    let mut ribbons: Vec<Ribbon> = Vec::new(alloc);
    for arrow in layout.drawing.arrows.as_slice() {
        let Carried::Partition { link, phase, .. } = arrow.carried else {
            continue;
        };
        if arrow.to.is_none() {
            continue;
        }
        let line = layout.line_of(arrow);
        let mut is_new = true;
        for ribbon in ribbons.as_mut_slice() {
            if ribbon.link == link && ribbon.phase == phase {
                ribbon.from_top = ribbon.from_top.min(line.from_row);
                ribbon.from_foot = ribbon.from_foot.max(line.from_row);
                ribbon.to_top = ribbon.to_top.min(line.to_row);
                ribbon.to_foot = ribbon.to_foot.max(line.to_row);
                ribbon.count = ribbon.count.saturating_add(1);
                is_new = false;
            }
        }
        if is_new {
            ribbons.push(Ribbon {
                link,
                phase,
                rank: arrow.from.rank,
                from: line.from,
                to: line.to,
                from_top: line.from_row,
                from_foot: line.from_row,
                to_top: line.to_row,
                to_foot: line.to_row,
                count: 1,
            })?;
        }
    }
    Ok(ribbons)
}

/// Adds a ribbon.
fn put_ribbon(text: &mut Vec<u8>, ribbon: &Ribbon) -> io::Result<()> {
    let left = ribbon.from.min(ribbon.to);
    let wide = ribbon.from.max(ribbon.to).saturating_sub(left);
    let top = ribbon.from_top.min(ribbon.to_top);
    let high = ribbon.from_foot.max(ribbon.to_foot).saturating_sub(top);
    let (begin, end) = if ribbon.from < ribbon.to {
        (0, 100)
    } else {
        (100, 0)
    };
    put(
        text,
        RIBBON,
        &[Across(left), Across(wide), Number(top), Number(high.max(1))],
    )?;
    put(
        text,
        BETWEEN,
        &[
            Rank(ribbon.rank),
            Number(begin),
            Number(ribbon.from_top.saturating_sub(top)),
            Number(end),
            Number(ribbon.to_top.saturating_sub(top)),
            Number(ribbon.to_foot.saturating_sub(top)),
            Number(ribbon.from_foot.saturating_sub(top)),
        ],
    )
}

/// Adds a ribbon for each phase of a link that has several arrows.
pub(crate) fn put_ribbons(
    alloc: Global,
    text: &mut Vec<u8>,
    layout: &Layout<'_>,
) -> io::Result<()> {
    let ribbons = ribbons(alloc, layout)?;
    for ribbon in ribbons.as_slice() {
        if ribbon.count > 1 {
            put_ribbon(text, ribbon)?;
        }
    }
    Ok(())
}
