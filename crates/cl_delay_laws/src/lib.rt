//! Machines whose messages take their time, over machines at which a message arrives as soon as it is sent: laws over
//! definitions alone, with no code.
#![tactic(auto)]

pub mod laws;
