//! What is written in one word of the command line: numbers, lists of them, and the words of `debug`.
#![tactic(auto)]

mod debug;
mod list;
mod number;

pub use debug::{DebugWord, DebugWords, Name, Spot, debug_word_in};
pub use list::{Numbers, numbers_in};
pub use number::{any_number_in, number_in};
