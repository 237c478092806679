//! Runs of a cluster with a thread for each rank: one hub behind a lock, and boxes between the ranks without one.
#![tactic(auto)]

mod driver;
mod gates;
mod leaving;
mod loading;
mod lookout;
mod pace;
mod rests;
mod roll;
mod sights;
mod threads;
mod ties;
mod told;
mod turns;
mod until;
pub mod worked;

pub use gates::{Gate, NoGate, Point};
pub use pace::Pace;
pub use roll::Roll;
pub use threads::{Ended, run_threads, run_threads_until_told};
