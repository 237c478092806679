//! What a box is left with.

/// What lies in a box at the end.
#[derive(Clone, Copy, PartialEq, Eq)]
pub struct Settled {
    /// Whether one thing that was made ready wasn't taken.
    pub full: bool,
    /// The stamp of that thing. Where there is none, the stamp of the last take, 0 at first.
    pub stamp: u64,
    /// The data words of that thing, and 0 past the width of the box. Where there is none, 0.
    pub words: [u64; 16],
}
