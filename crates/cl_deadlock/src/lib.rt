//! Which ranks of a state are stuck: each of their harts is stopped, or waits on what these ranks alone could bring.
//!
//! The rule and the theorem about it, that such ranks are in a deadlock, are those of `cl_deadlock_laws`.
#![tactic(auto)]

mod among;
mod boxes;
mod companies;
mod harts;
pub mod laws;
mod requests;
mod verdicts;

pub use companies::{is_stuck_beside, stuck};
pub use verdicts::deadlock;
