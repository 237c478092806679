//! Each step of a run is inside the limits of a record's text: functions with empty bodies, whose contracts are the
//! laws.
#![tactic(auto)]

pub mod laws;
