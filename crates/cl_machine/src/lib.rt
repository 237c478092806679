//! The written cluster machine, and what holds of it.
//!
//! The machine stands in specs/: the table of steps, runs, the order by stamps, and the same step as a product of
//! parts; with the law by which ranks that ran apart make one run. All that runs here is steps: how they are made, read
//! and compared.
#![tactic(auto)]

pub mod laws;
mod steps;
pub mod worked;

pub use steps::{KindRef, Step};
