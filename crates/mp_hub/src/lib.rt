//! The hub: one answer to each request of a rank, as a function of the links and of all requests before.
#![tactic(auto)]

pub mod laws;
mod state;

pub use state::{CallFault, HubParts, HubState, twin_of};
