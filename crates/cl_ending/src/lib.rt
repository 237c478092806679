//! Runs that end where nobody can go on: a run on one thread, or with a thread for each rank, that is ended where all that
//! is left looks in vain, and the judgement of where it was ended.
//!
//! Who is stuck is decided by `cl_deadlock`, of the state to which the steps of the record lead.
#![tactic(auto)]

mod judging;
mod one;
mod threads;

pub use one::{Stuck, run_one_until_stuck};
pub use threads::{Outcome, StuckThreads, run_threads_until_stuck};
