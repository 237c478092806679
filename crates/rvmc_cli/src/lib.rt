//! The command line of rvmc: which words are taken, and what they ask for.
//!
//! A command is a module of its name, which has what help says of it, builds it for clap and reads its options; a row of
//! the table in `table`; and a row in specs/Commands.antt.
#![tactic(auto)]

mod asm;
mod check;
mod debug;
mod dis;
mod draw;
mod explore;
mod files;
mod gdb;
pub mod laws;
mod list;
mod one;
mod page;
mod parsing;
mod parts;
mod places;
mod report;
mod run;
mod runner;
mod sources;
mod table;
mod values;
mod why;
mod wrong;

pub use files::{Named, named_in};
pub use parsing::parse;
