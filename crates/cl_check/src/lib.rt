//! The check of a list of steps, or of the text of a record: whether the steps are a run of the written machine, in order,
//! and if not, which is the first with which they aren't.
//!
//! The meaning stands in specs/: what a verdict says, and that a list has one.
#![tactic(auto)]

mod checking;
mod laws;
mod texts;

pub use checking::{Verdict, check};
pub use laws::{merged_is_good_law, one_verdict_law};
pub use texts::{Checked, check_text};
