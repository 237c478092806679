//! What a test of the sending side found, and what a take gave.

use mp_types::Stamp;

/// What a test found.
#[derive(Clone, Copy, PartialEq, Eq, Drop)]
pub enum Progress {
    /// No partition of this phase is left. Nothing was looked at.
    AllFreed,
    /// The lowest that isn't freed hasn't been made ready. Nothing was looked at.
    NotReady,
    /// Its take wasn't seen. The stamp is the clock's next.
    Missed(Stamp),
    /// Its take was seen. The stamp is above the clock and the take's.
    Freed(Stamp),
}

/// What a take gave.
#[derive(Clone, Copy, PartialEq, Eq, Drop)]
pub enum Take {
    /// The bytes of the box, 0 past its width. The stamp is above the clock and the thing's.
    Taken([u8; 128], Stamp),
    /// Nothing was seen in the box. The stamp is the clock's next.
    Missed(Stamp),
}
