//! Matching of sends with receives, by MPI's rules of order.
//!
//! Posts are sends, receives and successful claims, numbered from 1 in the order of the calls that make them. A new
//! receive or claim takes the least-numbered send that it accepts and that has no partner; a new send goes to the
//! least-numbered receive without a partner that accepts it (MPI 4.1, chapter 3.5).
#![tactic(auto)]

mod entering;
mod history;
pub mod laws;
mod live;
mod post_queues;
mod posts;
mod queues;
mod table;
mod waiting;

pub use posts::{Line, Post, Selection, Sent};
pub use queues::{HELD_MAX, PostFault, Queues};
