//! What a finished search tells of runs in which standard sends wait for their receives: laws over definitions alone, with no
//! code.
#![tactic(auto)]

pub mod laws;
