//! Turns of two ranks of a cluster that may change places: laws over the definitions alone, with no code.
#![tactic(auto)]

pub mod laws;
