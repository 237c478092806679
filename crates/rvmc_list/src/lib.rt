//! A record in words: a line for each of its steps, or tables of their numbers.
//!
//! The meaning stands in specs/: which lines are told, the text of a record, and its tables. What a line has is the matter of
//! rvmc_sights.
#![tactic(auto)]

mod folding;
mod fronts;
mod kept;
pub mod laws;
mod listing;
mod phases;
mod places;
mod plain;
mod tables;
mod walk;

pub use folding::Wanted;
pub use listing::list;
pub use tables::stats;
pub use walk::ListFault;
