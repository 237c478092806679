//! Turns that nobody contests, taken before all others: what ranks ask for, as patterns without post numbers and bytes; the
//! turns of ranks that go first; and whether a cluster is one at which all ranks are let go.
//!
//! Why nothing is lost by that is proved in `cl_contest_laws`.
#![tactic(auto)]

mod alone;
mod asking;
mod complete;
mod first;
mod fit;
mod lone;
mod order;
mod patterns;
mod polls;
mod starts;

pub use first::{Went, go_first};
pub use fit::is_fit;
pub use order::is_first_hart;
pub use patterns::{AskedBy, Pattern, Patterns};
pub use starts::{add_waits, may_start};
