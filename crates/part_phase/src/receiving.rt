//! The receiver's side of a link.

ghost use Rattle.std.specs.Prelude.{◌≡◌, ◌<◌, ◌≤◌, ◌&&◌, ℕ, false};
ghost use Rattle.part_phase.specs.Receiving.{begun_receiving, cut_into as cut_into_of, is_cut as is_cut_of, is_left};
ghost use Rattle.part_phase.specs.Receiving.{lowest_from, next_box, next_box_of, one_taken as one_taken_of};
ghost use Rattle.part_phase.specs.Receiving.{overlaps as overlaps_in, shaped_receiving, unshaped_receiving};

use crate::limits::{are_parts, is_size};
use crate::marks::{is_marked, with_mark};
use rv_image_types::ImageVersion;

/// The receiver's side of a link: its shape, the sender's cut, and how far this phase is.
#[derive(Clone, Copy, Drop)]
pub struct RecvPhase {
    /// How many partitions there are, 1 to 16, and the bytes of each. Both are 0 until a transfer has the side.
    pub parts: u8,
    pub size: u8,
    /// The sender's cut: so many boxes in use, of so many bytes each. Both are 0 until it is known.
    pub boxes: u8,
    pub bytes: u8,
    /// Whether a phase is going on, in which a box is left.
    pub active: bool,
    /// Which boxes are taken in this phase.
    pub taken: [bool; 16],
}

impl RecvPhase {
    // A side that no transfer has.
    pub(crate) fn unshaped() -> RecvPhase
        ensures { result ≡ unshaped_receiving }
    {
        RecvPhase {
            parts: 0,
            size: 0,
            boxes: 0,
            bytes: 0,
            active: false,
            taken: [false; 16],
        }
    }

    /// The lowest box that isn't taken in this phase. None between phases, and while the sender's cut isn't known.
    pub fn next(&self) -> Option<u8>
        ensures { result ≡ next_box self.now }
    {
        if self.active {
            lowest(&self.taken, self.boxes)
        } else {
            None
        }
    }

    /// The lowest box, not yet taken in this phase, that one of this side's partitions overlaps: some byte of the
    /// transfer is in both. None where all of them were taken, between phases, and while the sender's cut isn't known.
    pub fn next_of(&self, part: u8) -> Option<u8>
        ensures { result ≡ next_box_of self.now part }
    {
        if !self.active {
            return None;
        }
        for i in self.first_over(part)..self.boxes {
            if self.wants(part, i) {
                return Some(i);
            }
        }
        None
    }

    // The first box that doesn't end before one of this side's partitions begins.
    fn first_over(&self, part: u8) -> u8
        ensures few { result ≤ self.now.boxes }
        ensures before { (place : ℕ) → place < result → overlaps_in self.now part place ≡ false }
    {
        if self.bytes == 0 {
            return 0;
        }
        let first = u32::from(part) * u32::from(self.size) / u32::from(self.bytes);
        if first < u32::from(self.boxes) {
            first as u8
        } else {
            self.boxes
        }
    }

    // Whether a box isn't taken, and has a byte of one of this side's partitions.
    fn wants(&self, part: u8, place: u8) -> bool
        ensures { result ≡ (is_left self.now.taken place && overlaps_in self.now part place) }
    {
        !is_marked(&self.taken, place) && self.overlaps(part, place)
    }

    // Whether some byte is in a partition of this side and in a box.
    fn overlaps(&self, part: u8, place: u8) -> bool
        ensures { result ≡ overlaps_in self.now part place }
    {
        let (size, bytes) = (u32::from(self.size), u32::from(self.bytes));
        let (part, place) = (u32::from(part), u32::from(place));
        place * bytes < (part + 1) * size && part * size < (place + 1) * bytes
    }

    /// Whether the sender's cut may be this one, of so many boxes of so many bytes: a shape inside the limits, of this
    /// side's total, and no other cut is known.
    pub fn is_cut(&self, version: ImageVersion, boxes: u8, bytes: u8) -> bool
        ensures { result ≡ is_cut_of version self.now boxes bytes }
    {
        let (total, cut) = (
            u32::from(self.parts) * u32::from(self.size),
            u32::from(boxes) * u32::from(bytes),
        );
        are_parts(u64::from(boxes))
            && is_size(version, u64::from(bytes))
            && cut == total
            && self.boxes == 0
    }

    // A transfer has the side: so many partitions of so many bytes.
    pub(crate) fn shaped(self, parts: u8, size: u8) -> RecvPhase
        ensures { result ≡ shaped_receiving parts size self }
    {
        RecvPhase {
            parts,
            size,
            ..self
        }
    }

    // The sender's cut is known: so many boxes of so many bytes.
    pub(crate) fn cut_into(self, boxes: u8, bytes: u8) -> RecvPhase
        ensures { result ≡ cut_into_of boxes bytes self }
    {
        RecvPhase {
            boxes,
            bytes,
            ..self
        }
    }

    // A phase begins, unless one is going on.
    pub(crate) fn begun(self) -> RecvPhase
        ensures { result ≡ begun_receiving self }
    {
        if self.active {
            self
        } else {
            RecvPhase {
                active: true,
                taken: [false; 16],
                ..self
            }
        }
    }

    // A box is taken. With the last one the phase ends.
    pub(crate) fn one_taken(self, place: u8) -> RecvPhase
        ensures { result ≡ one_taken_of place self }
    {
        let taken = with_mark(self.taken, place);
        if lowest(&taken, self.boxes).is_some() {
            RecvPhase {
                active: true,
                taken,
                ..self
            }
        } else {
            RecvPhase {
                active: false,
                taken: [false; 16],
                ..self
            }
        }
    }
}

// The lowest of the first `boxes` boxes that isn't taken.
fn lowest(taken: &[bool; 16], boxes: u8) -> Option<u8>
    ensures { result ≡ lowest_from (is_left taken.now) 0 boxes }
{
    for i in 0..boxes {
        if !is_marked(taken, i) {
            return Some(i);
        }
    }
    None
}
