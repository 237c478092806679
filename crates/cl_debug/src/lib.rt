//! A record of a cluster, walked through forwards and back.
//!
//! The meaning stands in specs/: how far apart kept states are, what the cluster is at a place, where a run stops, and
//! what is shown.
#![tactic(auto)]

mod breaks;
mod debugging;
mod faults;
mod laws;
mod moving;
mod showing;
mod spacing;
mod stepping;

pub use breaks::Break;
pub use debugging::Debugger;
pub use faults::DebugFault;
pub use laws::{one_stop_law, spacing_rows};
