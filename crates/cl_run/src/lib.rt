//! Runs of a cluster: all ranks on one thread. Each such run is a run of the written cluster machine, which stands in
//! `cl_machine` with its laws.
#![tactic(auto)]

mod ahead;
mod closing;
mod driver;
mod ended;
mod loading;
mod looks;
mod one;
mod quiet;

pub use cl_machine::{KindRef, Step, laws, worked};
pub use cl_record::{BUDGET_MAX, Plan, Record, RunFault, are_plans};
pub use ended::Ended;
pub use loading::Loaded;
pub use one::{run_one, run_one_until_quiet};
