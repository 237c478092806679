//! What the steps of a run are counted by: tables, and their text.
//!
//! The meaning stands in specs/: what is added where to numbers that are counted up, and which place has most; what is
//! seen of a step, the number that belongs in each place of each table, and the tables' lines.
#![tactic(auto)]

mod calls;
mod counting;
mod grid;
mod hottest;
mod kinds;
pub mod laws;
mod lines;
mod mail;
mod names;
mod tables;
mod tally;
mod texts;

pub use grid::Grid;
pub use hottest::next_hottest;
pub use names::code_name;
pub use tables::Tables;
pub use tally::Tally;
pub use texts::{put_calls, put_messages, put_turns};
