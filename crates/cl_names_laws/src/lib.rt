//! A rank by other names of posts asks the same by them, and goes on the same: laws of ranks, with no code.
#![tactic(auto)]

pub mod laws;
