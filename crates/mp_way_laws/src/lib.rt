//! A hub at which each message is on its way until it arrives: laws over its meaning, with no code.
#![tactic(auto)]

pub mod laws;
pub mod worked;
