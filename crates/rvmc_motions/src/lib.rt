//! The places of a record to which gdb's motions lead: the first place behind this one, or the last one before it, at
//! which a hart has made a step, an instruction with a breakpoint comes next, or watched bytes were changed or read.
#![tactic(auto)]

pub mod laws;
mod marks;
mod motions;
mod reads;
mod turns;
mod watching;

pub use marks::{Halt, Mark, Motion, Mover, Ranks};
pub use motions::{backwards, forwards};
