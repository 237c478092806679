//! A picture of a record: as data, and as the text of an SVG image (W3C, Scalable Vector Graphics 2) that any browser
//! opens, with no script and nothing from outside.
//!
//! Proved is that each byte of the text is one that XML 1.0 allows, that what is told of each mark stands in it, and
//! how text of a guest is made safe. Where on the page a thing stands is tried, and not proved.
#![tactic(auto)]

mod arrows;
mod bars;
mod ends;
mod fonts;
mod forms;
mod labels;
mod layout;
mod legend;
mod marks;
mod page;
mod pieces;
mod ribbons;
mod safe;

pub use page::svg;
pub use rvmc_draw::{Arrow, Bar, Carried, Drawing, Mark, Row, Shape, Spot};
