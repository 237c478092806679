//! Which calls of two ranks clash at the hub, and that all others may be exchanged: laws over the hub's meaning, with no
//! code.
#![tactic(auto)]

pub mod laws;
pub mod worked;
