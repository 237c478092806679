//! What rvmc tells and what it takes: the report of a run and of a record, the listing of an image, the
//! faults, and the whole input.
#![tactic(auto)]

pub mod faults;
pub mod input;
pub mod laws;
pub mod listing;
pub mod recorded;
pub mod report;
pub mod stuck;

pub use cl_debug::{DebugFault, Debugger};
pub use cl_replay::{ClusterState, ReplayFault, replay};
