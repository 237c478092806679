//! The places of a program as people write them: `farm.c:46 in worker`, by the symbols of its image; the calls that led to
//! where a hart is, by its frames; by which of them the program itself came into the library; and why a hart trapped.
//!
//! Whoever tells a place tells it by this crate, so that it has one text everywhere.
#![tactic(auto)]

mod callers;
mod causes;
mod frames;
mod laws;
mod names;
mod near;
mod own_calls;
mod pointers;
mod starts;
mod texts;
mod ways;

pub use callers::{put_callers, put_calls};
pub use causes::{has_overflowed, put_trap, put_trapped};
pub use frames::{Frame, frame_above, own_frame};
pub use laws::one_line_law;
pub use names::{SourceLine, line_named};
pub use near::{line_at, nearest_label};
pub use own_calls::{is_in_library, put_made, put_own_place};
pub use pointers::Keeps;
pub use starts::{line_start, line_starts};
pub use texts::{put_name, put_place};
