//! One instruction of a hart that is no call: what a turn, a replay and a check do most of the time.
#![tactic(auto)]

mod steps;

pub use steps::{step_plain, step_running};
