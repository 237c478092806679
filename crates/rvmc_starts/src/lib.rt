//! The starts into which a search is split: how one is written in a word, how what was told of one is written and read,
//! and how the texts of all of them are joined.
#![tactic(auto)]

mod hex;
mod joining;
mod laws;
mod parts;
mod reading;
mod starts;
mod sums;
mod telling;
mod turns;
mod using;
mod words;

pub use joining::{JoinFault, Joined, join_texts};
pub use laws::{parts_read_once, starts_read_back};
pub use parts::{EndText, Ends, Part, Text, put_part};
pub use starts::{Start, put_start, start_in};
pub use sums::{ImageSum, sum_of};
pub use turns::Turns;
