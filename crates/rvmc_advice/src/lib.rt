//! What stands on standard error: the line of a fault, and the hint behind it, behind refused words or beside an output.
#![tactic(auto)]

mod beside;
mod failing;
mod hints;
mod mistyped;

pub use beside::{tell_run_hint, tell_search_hint, tell_wait};
pub use failing::{fail, fail_to_read, fail_with_hint};
pub use mistyped::hint_words;
