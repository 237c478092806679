//! Where on the page things stand: across in hundredths of a per cent of its width, down in pixels.

use rvmc_draw::{Arrow, Drawing};
use std::alloc::{AllocError, Global};

/// Where the first row may stand, and how far below the last mark the lanes end.
pub(crate) const TOP: u64 = 46;

const FOOT: u64 = 34;

/// How far apart any two marks are, those of one hart, and the two ends of an arrow.
const ROW: u64 = 7;

const LANE_ROW: u64 = 17;

const SLOPE: u64 = 13;

/// The least number of steps without a mark that is told, and how much room that takes.
const LONG: u64 = 40;

const LONG_ROW: u64 = 26;

/// How far apart the names of the ranks are written once more, and how high the strip is that no mark stands in.
pub(crate) const NAMES_APART: u64 = 640;

pub(crate) const NAMES_ROW: u64 = 30;

/// The left margin in pixels, and where the part of the page ends that the ranks share.
const LEFT: u64 = 70;

const RIGHT: u64 = 9800;

/// How many pixels a rank has, a hart has at least, and the page has at least and at most; and those at its margins.
const RANK_PIXELS: u64 = 220;

const HART_PIXELS: u64 = 80;

const MARGINS: u64 = 120;

const LEAST: u64 = 480;

const PAGE: u64 = 1200;

/// Where an arrow begins and ends.
#[derive(Clone, Copy, Drop)]
pub(crate) struct Line {
    pub from: u64,
    pub from_row: u64,
    pub to: u64,
    pub to_row: u64,
}

/// A drawing as it is laid out.
#[derive(Drop)]
pub(crate) struct Layout<'a> {
    pub drawing: &'a Drawing,
    /// How many pixels wide the page is.
    pub wide: u64,
    /// Where the part of the page begins that the ranks share.
    left: u64,
    /// How wide a rank's share is.
    pub share: u64,
    /// How many steps of a hart without a mark are told.
    pub long: u64,
    /// The class of the word in a rank's name: a narrow page has no room for many.
    pub word: &'static str,
    /// The row of each mark, each below that of the one before.
    pub rows: Vec<u64>,
    /// The row where the lanes end.
    pub foot: u64,
}

impl<'a> Layout<'a> {
    /// Lays a drawing out.
    pub(crate) fn new(alloc: Global, drawing: &'a Drawing) -> Result<Layout<'a>, AllocError> {
        let ranks = u64::from(drawing.ranks);
        let harts = u64::from(drawing.harts);
        let pixels = harts.saturating_mul(HART_PIXELS).max(RANK_PIXELS);
        let wide = pixels.saturating_mul(ranks).saturating_add(MARGINS);
        let wide = wide.max(LEAST).min(PAGE);
        let left = LEFT.saturating_mul(10_000) / wide.max(1);
        let steps = drawing.to.saturating_sub(drawing.from);
        let lanes = ranks.saturating_mul(harts);
        let mut layout = Layout {
            drawing,
            wide,
            left,
            share: RIGHT.saturating_sub(left) / ranks.max(1),
            long: LONG.max(steps / lanes.saturating_mul(50).max(1)),
            word: if ranks > 5 { "wide" } else { "" },
            rows: Vec::new(alloc),
            foot: TOP,
        };
        layout.place_marks(alloc)?;
        Ok(layout)
    }

    /// The middle of a rank's share.
    pub(crate) fn rank_at(&self, rank: u8) -> u64 {
        self.share
            .saturating_mul(u64::from(rank))
            .saturating_add(self.share / 2)
            .saturating_add(self.left)
    }

    /// Where a hart's lane stands.
    pub(crate) fn lane_at(&self, rank: u8, hart: u8) -> u64 {
        let harts = u64::from(self.drawing.harts);
        let between = self.share / harts.saturating_add(1);
        let half = between.saturating_mul(harts.saturating_sub(1)) / 2;
        self.rank_at(rank)
            .saturating_add(between.saturating_mul(u64::from(hart)))
            .saturating_sub(half)
    }

    /// The row of the mark at a place, if there is one.
    pub(crate) fn row_at(&self, place: u64) -> Option<u64> {
        let marks = self.drawing.marks.as_slice();
        for number in 0..marks.len() {
            if marks[number].spot.place == place {
                return self.rows.as_slice().get(number).copied();
            }
        }
        None
    }

    /// Where an arrow begins and ends. Where one of its steps isn't shown it goes to the picture's border, and where nobody
    /// got it a part of the way.
    pub(crate) fn line_of(&self, arrow: &Arrow) -> Line {
        let from = self.lane_at(arrow.from.rank, arrow.from.hart);
        let from_row = self.row_at(arrow.from.place).unwrap_or(TOP);
        let (to, to_row) = match arrow.to {
            Some(to) => (
                self.lane_at(to.rank, to.hart),
                self.row_at(to.place).unwrap_or(self.foot),
            ),
            None => (
                part_way(from, self.rank_at(arrow.dest), 25),
                from_row.saturating_add(12),
            ),
        };
        Line {
            from,
            from_row,
            to,
            to_row,
        }
    }

    /// The first row at this one or below it that the arrows to the mark at a place leave it, and the names.
    fn lowered(&self, place: u64, row: u64) -> u64 {
        let mut row = row;
        for arrow in self.drawing.arrows.as_slice() {
            if let Some(to) = arrow.to {
                if to.place == place {
                    if let Some(from) = self.row_at(arrow.from.place) {
                        row = row.max(from.saturating_add(SLOPE));
                    }
                }
            }
        }
        let strip = row.saturating_sub(row % NAMES_APART);
        if strip == 0 {
            return row;
        }
        row.max(strip.saturating_add(NAMES_ROW))
    }

    /// Gives each mark a row.
    fn place_marks(&mut self, alloc: Global) -> Result<(), AllocError> {
        let drawing = self.drawing;
        let harts = usize::from(drawing.harts);
        let lanes = usize::from(drawing.ranks).saturating_mul(harts);
        // where each lane was last used
        let mut used = Vec::from_elem(alloc, TOP, lanes)?;
        let mut row = TOP;
        for mark in drawing.marks.as_slice() {
            let lane = usize::from(mark.spot.rank)
                .saturating_mul(harts)
                .saturating_add(usize::from(mark.spot.hart));
            let last = used.get(lane).copied().unwrap_or(TOP);
            let apart = if mark.quiet >= self.long && last > TOP {
                LONG_ROW
            } else {
                LANE_ROW
            };
            let least = row.saturating_add(ROW).max(last.saturating_add(apart));
            row = self.lowered(mark.spot.place, least);
            self.rows.push(row)?;
            if let Some(last) = used.get_mut(lane) {
                *last = row;
            }
        }
        self.foot = row.saturating_add(FOOT);
        Ok(())
    }
}

/// A part of the way from one to the other, in hundredths.
pub(crate) fn part_way(from: u64, to: u64, hundredths: u64) -> u64 {
    if to >= from {
        from.saturating_add(to.saturating_sub(from).saturating_mul(hundredths) / 100)
    } else {
        from.saturating_sub(from.saturating_sub(to).saturating_mul(hundredths) / 100)
    }
}
