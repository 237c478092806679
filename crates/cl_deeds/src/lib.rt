//! A rank alone: its events with all that they met outside it, and what these make of the rank. Definitions, and two laws.
//!
//! The written machine and the laws above it stand on these, and not on the code of a turn.
#![tactic(auto)]

pub mod laws;
