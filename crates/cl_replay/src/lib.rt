//! The written cluster machine on real parts: one step after another, each compared with the
//! machine's table.
//!
//! The meaning stands in specs/: which cluster a state stands for, what a step may be refused for,
//! and where a list of steps leads.
#![tactic(auto)]

mod boxes;
mod calls;
mod faults;
mod kept;
mod kept_cluster;
mod laws;
mod replaying;
mod states;
mod stepping;
mod turns;
mod walking;
mod words;

pub use cl_machine::{KindRef, Step};
pub use faults::{StepFault, WalkFault};
pub use kept::{KeptRanks, SharedRank};
pub use kept_cluster::KeptCluster;
pub use laws::run_law;
pub use replaying::{ReplayFault, replay};
pub use states::ClusterState;
