//! What each step of a record changes, old and new, as data.
//!
//! The meaning stands in specs/: what is seen of a cluster, the change of a step, what the changes of steps come to where
//! they are done one after another, and where they are undone, the last first; and what a walk through a record is.
#![tactic(auto)]

mod before;
mod edits;
pub mod laws;
mod making;
mod starts;
mod steps;
mod walking;
mod walks;

pub use cl_replay::{ClusterState, ReplayFault};
pub use edits::Edit;
pub use starts::{HartStart, RankStart};
pub use steps::{Change, Stand};
pub use walking::{begin, go_on};
pub use walks::Walk;
