//! What `run` and `one` answer: runs of an image, and the report or the record of one.
#![tactic(auto)]

mod explaining;
mod runs;
mod stuck;
mod threads;
mod waiting;

pub use runs::one;
pub use stuck::one_until_stuck;
pub use threads::{MaybeThreads, NoThreads};
