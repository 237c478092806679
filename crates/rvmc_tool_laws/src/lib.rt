//! Laws of what the program answers, and of what it tells that harts wait for. The functions do nothing; their contracts
//! are the laws.
#![tactic(auto)]

pub mod answers;
pub mod frames;
pub mod waits;
pub mod witnesses;
