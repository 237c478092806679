//! All orders: laws over the written cluster machine, with no code.
#![tactic(auto)]

pub mod laws;
pub mod worked;
