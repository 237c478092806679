//! Room for what is written beside marks and arrows.

use std::alloc::AllocError;

/// How high a line of writing is.
const HIGH: u64 = 12;

/// How wide a letter is, about, in pixels.
pub(crate) const LETTER: u64 = 6;

/// How wide a letter is at most, and how many pixels a page has at least that shows more than marks and places.
const WIDEST: u64 = 11;

pub(crate) const NARROW: u64 = 700;

/// The width of the page, in hundredths of a per cent.
const WHOLE: u64 = 10_000;

/// Where something is written already: from here to there across, and the row.
#[derive(Clone, Copy, Drop)]
pub(crate) struct Place {
    left: u64,
    right: u64,
    row: u64,
}

/// All places where something is written, on a page of so many pixels.
#[derive(Drop)]
pub(crate) struct Places {
    pub page: u64,
    pub taken: Vec<Place>,
}

impl Places {
    /// So many pixels, as a length across.
    pub(crate) fn pixels(&self, count: u64) -> u64 {
        count.saturating_mul(WHOLE) / self.page.max(1)
    }

    /// Whether so many letters fit between this place and the page's edge at its left or its right, the first of them so
    /// many pixels beside the place: whichever letters they are, and also where the page is shown as narrow as it may be.
    pub(crate) fn is_inside(&self, left: bool, at: u64, beside: u64, letters: usize) -> bool {
        let there = if left { at } else { WHOLE.saturating_sub(at) };
        let room = there.saturating_mul(self.page.min(NARROW)) / WHOLE;
        let wide = (letters as u64).saturating_mul(WIDEST);
        beside.saturating_add(wide) <= room
    }

    /// Takes the place, if nothing is written there.
    pub(crate) fn take(&mut self, left: u64, width: u64, row: u64) -> Result<bool, AllocError> {
        let right = left.saturating_add(width);
        for other in self.taken.as_slice() {
            let high = other.row.max(row).saturating_sub(other.row.min(row));
            if other.left < right && left < other.right && high < HIGH {
                return Ok(false);
            }
        }
        self.taken.push(Place { left, right, row })?;
        Ok(true)
    }
}
