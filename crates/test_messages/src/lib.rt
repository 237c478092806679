//! What the contracts of the message crates come to, each fact proved from the contract alone. A module is named for
//! the crate that it speaks of; `memory` and `posting` speak of several.
#![tactic(auto)]

pub mod hub;
pub mod journal;
pub mod matching;
pub mod memory;
pub mod posting;
pub mod probe;
pub mod requests;
pub mod types;
