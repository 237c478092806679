//! Who could bring what a rank waits for: laws over the hub's meaning, with no code.
#![tactic(auto)]

pub mod laws;
