//! What a search of all orders does at one cluster: the turns that a hart may take, all that the written machine has, also
//! a look that misses; turns that need only their rank, and calls for what is there, taken at once; and whether nobody
//! goes on.
//!
//! The laws of closed sets of clusters are those of `cl_order_laws`.
#![tactic(auto)]

mod cycles;
mod ends;
mod faults;
mod same;
mod single;
mod standing;
mod sure;
mod turns;

pub use cycles::{Alone, Watch};
pub use ends::{is_done, is_end, is_in_vain};
pub use faults::MoveFault;
pub use single::Whose;
pub use standing::Standing;
pub use turns::turns_of;
