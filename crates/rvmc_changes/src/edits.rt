//! Places in which two lists differ.

/// What stood at a place, and what stands there now.
#[derive(Clone, Copy, Drop)]
pub struct Edit {
    pub place: u64,
    pub old: u64,
    pub new: u64,
}
