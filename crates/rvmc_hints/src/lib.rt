//! What a person can be told behind a fault's line: hints, each a function of what stands in the input, of the words of
//! the command line and of the fault. None of these takes memory. And what can be told of a run that is as it should
//! be.
#![tactic(auto)]

mod content;
mod hint;
mod labels;
pub mod laws;
mod lines;
mod mnemonics;
mod near;
mod plans;
mod records;
mod runs;
mod seen;
mod sources;
mod tokens;
mod words;

pub use content::content_hint;
pub use hint::{Awaited, Hint, Wanted};
pub use near::is_near;
pub use plans::plans_hint;
pub use records::{magic_hint, short_hint};
pub use runs::{INPUT_MOST, RunHint, Runner, next_bound, put_run_hint};
pub use seen::{Seen, seen_in};
pub use sources::source_hint;
pub use words::{command_near, form_of, is_file_name, is_rank_option};
