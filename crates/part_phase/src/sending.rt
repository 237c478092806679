//! The sender's side of a link.

ghost use Rattle.std.specs.Prelude.{◌≡◌, ◌≤◌, IsTrue, not};
ghost use Rattle.part_phase.specs.Sending.{all_freed as all_freed_in, begun_sending, is_part_ready as is_ready_in};
ghost use Rattle.part_phase.specs.Sending.{next_to_free, one_freed as one_freed_of, readied as readied_of};
ghost use Rattle.part_phase.specs.Sending.{shaped_sending, unshaped_sending};

use crate::marks::{is_marked, with_mark};

/// The sender's side of a link: its shape, and how far this phase is.
#[derive(Clone, Copy, Drop)]
pub struct SendPhase {
    /// How many partitions there are, 1 to 16, and the bytes of each. Both are 0 until a transfer has the side.
    pub parts: u8,
    pub size: u8,
    /// Which partitions are ready in this phase.
    pub ready: [bool; 16],
    /// How many partitions, from the lowest on, are known to be taken; all of them between phases.
    pub freed: u8,
}

impl SendPhase {
    // A side that no transfer has.
    pub(crate) fn unshaped() -> SendPhase
        ensures { result ≡ unshaped_sending }
    {
        SendPhase {
            parts: 0,
            size: 0,
            ready: [false; 16],
            freed: 0,
        }
    }

    /// Whether no phase is going on: all partitions are freed.
    pub fn all_freed(&self) -> bool
        ensures { result ≡ all_freed_in self.now }
    {
        self.parts <= self.freed
    }

    /// The lowest partition of this phase that isn't freed. None between phases.
    pub fn next(&self) -> Option<u8>
        ensures { result ≡ next_to_free self.now }
    {
        if self.all_freed() {
            None
        } else {
            Some(self.freed)
        }
    }

    /// Whether a partition is ready in this phase. One that isn't there never is.
    pub fn is_ready(&self, part: u8) -> bool
        ensures { result ≡ is_ready_in self.now part }
    {
        is_marked(&self.ready, part)
    }

    // A transfer has the side: so many partitions of so many bytes.
    pub(crate) fn shaped(self, parts: u8, size: u8) -> SendPhase
        ensures { result ≡ shaped_sending parts size self }
    {
        SendPhase {
            parts,
            size,
            freed: parts,
            ..self
        }
    }

    // A phase begins, unless one is going on.
    pub(crate) fn begun(self) -> SendPhase
        ensures { result ≡ begun_sending self }
    {
        if self.all_freed() {
            SendPhase {
                ready: [false; 16],
                freed: 0,
                ..self
            }
        } else {
            self
        }
    }

    // A partition is made ready.
    pub(crate) fn readied(self, part: u8) -> SendPhase
        ensures { result ≡ readied_of part self }
    {
        SendPhase {
            ready: with_mark(self.ready, part),
            ..self
        }
    }

    // The lowest partition that isn't freed is freed.
    pub(crate) fn one_freed(self) -> SendPhase
        requires { IsTrue (not (all_freed_in self)) }
        ensures { result ≡ one_freed_of self }
    {
        let freed = self.freed + 1;
        if freed == self.parts {
            SendPhase {
                ready: [false; 16],
                freed,
                ..self
            }
        } else {
            SendPhase { freed, ..self }
        }
    }
}
