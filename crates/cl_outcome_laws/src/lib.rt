//! What a closed list tells of runs that never end: ranks that are stuck while others run, and runs that go round for
//! good. Laws over the written cluster machine, with no code.
#![tactic(auto)]

pub mod laws;
