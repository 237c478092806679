//! What a step did, as far as a picture shows it.

use crate::drawing::{Shape, Spot};
use mp_match::Post;

/// What a step did.
#[derive(Drop)]
pub struct Deed {
    pub spot: Spot,
    /// How it is shown. None of an instruction, and of a turn of a stopped hart.
    pub shape: Option<Shape>,
    /// Whether it was a look in vain.
    pub vain: bool,
    /// The post that it made.
    pub made: Option<Post>,
    /// The numbers of the posts whose messages it got.
    pub got: Vec<u64>,
    /// The partition that it made ready: its link and its place there.
    pub ready: Option<(u8, u8)>,
    /// The partition that it took.
    pub taken: Option<(u8, u8)>,
}
