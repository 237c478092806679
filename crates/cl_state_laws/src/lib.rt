//! Laws of `asked` and `told`, and worked rows, over the definitions of `cl_state` alone: functions with empty bodies,
//! whose contracts are the laws.
#![tactic(auto)]

pub mod laws;
pub mod worked;
