//! Alike hubs, which differ in the numbers of posts, in the order of messages from different sources where nobody asks for
//! any source, and in messages that were collected: laws over the hub's meaning, with no code.
#![tactic(auto)]

pub mod laws;
pub mod worked;
