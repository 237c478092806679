//! The change of a step.

use crate::edits::Edit;
use rv_hart::Mode;

/// Where a hart stands.
#[derive(Clone, Copy, Drop)]
pub struct Stand {
    pub pc: u64,
    pub mode: Mode,
}

/// What a step changed, old and new.
#[derive(Drop)]
pub struct Change {
    pub rank: u8,
    pub hart: u8,
    pub old: Stand,
    pub new: Stand,
    /// Of the hart.
    pub registers: Vec<Edit>,
    /// Of the rank's memory.
    pub bytes: Vec<Edit>,
    /// What came behind the rank's output.
    pub put: Vec<u8>,
}
