//! Laws of partitions over whole runs: functions with empty bodies, whose contracts are the laws, and rows that meet what
//! these ask for.
#![tactic(auto)]

pub mod laws;
pub mod worked;
