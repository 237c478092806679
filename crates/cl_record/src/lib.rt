//! What a run of a cluster is made from, its plans and the channels of its links, and what it leaves, its record: the
//! same for ranks on one thread and for ranks on threads of their own.
#![tactic(auto)]

mod done;
mod leaving;
mod lists;
mod loading;
mod plans;
mod records;
mod seats;
mod settling;
mod wiring;

pub use done::Done;
pub use lists::Lists;
pub use loading::load_seats;
pub use plans::{BUDGET_MAX, Plan, are_plans, has_plans};
pub use records::{Record, RunFault};
pub use seats::Seat;
pub use settling::settle_all;
pub use wiring::{Ends, Wiring};
