//! What a rank is told of its posts: laws over the definitions alone, with no code.
#![tactic(auto)]

pub mod laws;
