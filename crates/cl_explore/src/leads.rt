//! Where moves led.

/// A move of a rank led from the node of one number to that of another.
#[derive(Clone, Copy, Drop)]
pub struct Lead {
    pub rank: u8,
    pub from: usize,
    pub to: usize,
}
