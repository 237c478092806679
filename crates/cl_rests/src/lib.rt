//! Which ranks rest behind a standard send that nobody received, or before a WAIT or WAITALL of one, and which need buffers:
//! together they would be stuck if each such send waited for its receive.
//!
//! The rule and the theorem about it are those of `cl_rest_laws`.
#![tactic(auto)]

mod buffering;
mod handles;
mod resting;
mod sets;
mod sought;

pub use buffering::needing;
pub use handles::{handles_ahead, post_of_send};
pub use resting::{resting_ranks, rests, says_buffered};
pub use sets::RankSet;
