//! Matched probes: messages that were claimed, and are received by their handles (MPI 4.1, chapters 3.8.2 and 3.8.3).
#![tactic(auto)]

mod handles;
mod laws;

pub use handles::{ClaimFault, Claims, Waiting};
pub use laws::claims_law;
