//! What one line of a source adds in each of the two passes: where its labels and its statement stand, and then their
//! words and bytes.
#![tactic(auto)]

mod cluster;
mod data;
mod encoded;
mod fields;
mod globals;
mod instructions;
mod item;
mod labels;
mod layout;
mod offsets;
mod output;
mod parts;
mod resolved;
mod words;

pub use fields::{Fields, NO_FIELDS, harts_of, memory_of, ranks_of, take_fields};
pub use globals::take_global;
pub use item::Item;
pub use labels::{find_label, take_labels};
pub use layout::{Layout, next_place};
pub use output::{Output, take_item};
pub use parts::{Part, Place, length_of_statement, may_stand, part_after};
