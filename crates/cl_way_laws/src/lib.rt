//! The cluster on whose network messages take their time: laws over definitions alone, with no code.
#![tactic(auto)]

pub mod laws;
pub mod worked;
