//! What two states of a cluster are compared by, part by part: harts and requests by the names of posts, and boxes but for their
//! stamps.
#![tactic(auto)]

mod boxes;
mod harts;

pub use boxes::are_alike_boxes;
pub use harts::{are_alike_harts, are_alike_slots};
