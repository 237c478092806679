//! Alike hubs, which differ in the numbers of posts alone: laws over the hub's meaning, with no code.
#![tactic(auto)]

pub mod laws;
pub mod worked;
