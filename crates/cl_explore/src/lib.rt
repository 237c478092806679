//! A search of all orders: from the loaded cluster each turn of each hart that is next in its rank, a look that misses
//! too, until no node is left that isn't alike one that is kept. Of each node it is decided whether nobody goes on there, which
//! ranks are stuck, and, in a search in which standard sends may wait for their receives, which ranks need buffers.
//!
//! The laws of closed sets are those of `cl_order_laws`; what is done at one cluster is `cl_moves`.
#![tactic(auto)]

mod bounds;
mod candidates;
mod companies;
mod course;
mod diving;
mod exploring;
mod halt;
mod kept;
mod leads;
mod likeness;
mod listening;
mod moving;
mod needs;
mod orders;
mod runs;
mod search;
mod seeking;
mod sorting;
mod stepping;

pub use companies::Company;
pub use course::Course;
pub use exploring::{Exploration, explore, explore_from, split};
pub use kept::KeptNode;
pub use leads::Lead;
pub use listening::{Deaf, Listener};
pub use needs::Needs;
pub use orders::OrderFault;
pub use runs::Runs;
pub use sorting::in_order;
pub use stepping::steps_to;
