//! Alike clusters, whose messages of different sources may stand in any order where nobody asks for any source: laws over
//! the definitions alone, with no code.
#![tactic(auto)]

pub mod laws;
