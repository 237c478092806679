//! Facts of the program's crates that their contracts give, each proved by a call in one line.
#![tactic(auto)]

pub mod answers;
pub mod cli;
pub mod gdb;
pub mod inspected;
pub mod line;
pub mod report;
pub mod tool;
pub mod walks;
