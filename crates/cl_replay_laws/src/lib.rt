//! What a replay of a record shows: functions with empty bodies, whose contracts are the laws.
#![tactic(auto)]

pub mod laws;
