//! Which turns may go first, in any machine whose turns commute: laws over definitions alone, with no code.
#![tactic(auto)]

pub mod laws;
