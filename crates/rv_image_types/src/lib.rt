//! What an image is made of: what every rank of a cluster loads, as data. The crate `rv_image` has its bytes.
//!
//! An [`Image`] keeps every limit of the format, so whoever holds one need not test it again.
#![tactic(auto)]

mod images;
mod limits;
mod lists;
mod names;

pub use images::{Image, ImageParts, ImageVersion, Link, Symbol};
pub use limits::{
    COMM_NUMBERS, COMMS_MAX, HARTS_MAX, LINKS_MAX, MEMORY_MAX, PAGE, RANKS_MAX, SYMBOLS_MAX,
};
pub use lists::{Comms, Links, Members, Segment, SymbolName, Symbols};
pub use names::{is_symbol_name, name_before};
