//! Alike ends have one text: what harts wait for, which messages weren't received, and the ranks of the deadlock. So two
//! complete searches list the same texts.
#![tactic(auto)]

pub mod laws;
