//! Ranks that rest for a standard send which nobody received, and ranks that need buffers: laws over the written cluster
//! machine, with no code.
#![tactic(auto)]

pub mod laws;
pub mod worked;
