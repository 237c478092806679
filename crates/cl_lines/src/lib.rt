//! Lines for a person who waits: how far a search came, each written as far as the writer takes it.
#![tactic(auto)]

mod beginnings;
mod progress;

pub use beginnings::put_beginning;
pub use progress::{Progress, put_progress};
