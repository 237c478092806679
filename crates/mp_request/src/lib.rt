//! The handle table of one rank: its open requests, as a map from the handles 1 to 255.
//!
//! MPI 4.1's words are used: an ordinary request is completed once (chapter 3.7), a persistent one is started again
//! and again (3.9), a partitioned one moves its bytes part by part (chapter 4).
#![tactic(auto)]

mod call_laws;
mod entries;
mod kept;
mod laws;
mod refusals;
mod table;
mod worked;

pub use call_laws::{nothing_law, start_law, states_law, test_law};
pub use entries::{OpenRequest, Partitions, Progress, State, Transfer, is_same_transfer};
pub use kept::KeptRequests;
pub use laws::{completion_law, map_law};
pub use refusals::Refusal;
pub use table::{HANDLES, Requests};
pub use worked::{
    completion_rows, done_rows, lowest_free_rows, named_rows, refusal_rows, testable_rows,
};
