//! What a picture of a record shows, as data: the marks of its steps, the arrows between the steps of each message and of
//! each partition, and the looks in vain.
//!
//! The meaning stands in specs/: the arrows to a step (`Board`, `Parts`), the bars of a hart (`Looks`), which steps have a
//! mark (`Marks`), what is shown (`Views`), all of a list of steps (`Walks`), and what an arrow (`Laws`) and a bar (`Waits`)
//! say of the steps.
#![tactic(auto)]

mod asked;
mod board;
mod deeds;
mod drawing;
pub mod laws;
mod looks;
mod marks;
mod parts;
mod views;
mod walks;

pub use asked::{got_by, made_by};
pub use board::{Board, Manner, wildcard_in};
pub use deeds::Deed;
pub use drawing::{Arrow, Bar, Carried, Drawing, Mark, Row, Shape, Spot};
pub use looks::Looks;
pub use marks::{MARKS_MAX, Marks};
pub use parts::{Cell, Parts, Untaken};
pub use views::{View, arrows_seen, bars_seen};
pub use walks::{Sizes, Walk};
