//! Witnesses of the cluster's layer: traces, ranks, runs, merges, replays, checks and who is stuck. A witness calls a public function
//! and says, by its contract, what must be answered there; it is proved from the contract of what it calls alone.
#![tactic(auto)]

pub mod calls;
pub mod check;
pub mod debug;
pub mod ends;
pub mod merge;
pub mod premises;
pub mod rank;
pub mod replay;
pub mod run;
pub mod step;
pub mod stuck;
pub mod text;
pub mod trace;
