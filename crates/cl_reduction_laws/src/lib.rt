//! The cluster as a machine whose ranks' turns may change places: laws over definitions alone, with no code.
#![tactic(auto)]

pub mod laws;
