//! Turns of an order: whose they are, and whether a box that is looked at seems empty.
#![tactic(auto)]

/// A turn of an order: of the hart that is next in this rank. With `misses` it looks at a box, and doesn't see what may be in it.
#[derive(Clone, Copy, PartialEq, Eq, Drop)]
pub struct Turn {
    pub rank: u8,
    pub misses: bool,
}
