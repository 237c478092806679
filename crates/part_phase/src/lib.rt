//! The phases of a rank's partitioned transfers (MPI 4.1, chapter 4), as plain data: for each link of the image the
//! side that the rank has of it, with its shape and how far this phase is.
//!
//! The meaning stands in specs/: limits, what a side's phase is and what each call makes of it, all of a rank's, laws
//! of them, and worked values.
#![tactic(auto)]

mod contents;
mod laws;
mod limits;
mod marks;
mod phases;
mod receiving;
mod same;
mod sending;
mod side_laws;
mod worked;

pub use contents::Contents;
pub use laws::{arrival_law, beginning_law, freeing_law, sides_law, taking_law};
pub use limits::{are_parts, box_words, is_size};
pub use phases::{Phase, Phases};
pub use receiving::RecvPhase;
pub use sending::SendPhase;
pub use side_laws::{bounds_law, one_side_law, phase_law, shape_law};
pub use worked::{cut_rows, limit_rows, padded_rows, sending_rows, side_rows, width_rows};
