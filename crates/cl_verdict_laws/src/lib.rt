//! Alike clusters that were reached have the same verdict: their ranks wait for the same, and the same ranks are stuck. Laws
//! over the written cluster machine, with no code.
#![tactic(auto)]

pub mod laws;
