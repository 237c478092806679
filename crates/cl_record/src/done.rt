//! A rank that is at its end.

use cl_rank::{Rank, Stop};

/// A rank that takes no turn any more, and why.
#[derive(Drop)]
pub struct Done {
    pub rank: Rank,
    pub stop: Stop,
}
