//! What each rank alone keeps, so that the steps of a run may be put in order of their stamps, and worked rows:
//! functions with empty bodies, whose contracts are the laws.
#![tactic(auto)]

pub mod laws;
pub mod worked;
