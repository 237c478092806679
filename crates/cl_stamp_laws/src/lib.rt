//! Laws by which a run of the cluster may be put in another order: functions with empty bodies, whose contracts are the
//! laws.
#![tactic(auto)]

pub mod laws;
