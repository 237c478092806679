//! Partitioned transfers (MPI 4.1, chapter 4.2): which initialisations are a pair, which link a pair has, and how each
//! side cuts its bytes.
//!
//! A transfer is a communicator, a source, a destination and a tag; a side of it sends or receives. The i-th sender and
//! the i-th receiver of a transfer are a pair.
//! The first of a pair reserves a link for good, and the second has the same.
#![tactic(auto)]

mod laws;
mod sides;

pub use laws::link_law;
pub use sides::{Setup, Side, find_link, find_peer, find_sender, has_same_total, receives_over};
