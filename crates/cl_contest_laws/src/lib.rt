//! What a list of clusters tells that is closed under turns of which those that nobody contests go first: laws over
//! definitions alone, with no code.
#![tactic(auto)]

pub mod laws;
