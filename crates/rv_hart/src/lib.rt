//! One step of a hart: what an instruction does to the registers, the pc and the memory.
#![tactic(auto)]

mod results;
pub mod state;
pub mod stepping;
pub mod stores;

pub use state::{Did, Hart, Mode, Wait};
pub use stepping::{step, step_with};
pub use stores::{StoreRange, store_range};
