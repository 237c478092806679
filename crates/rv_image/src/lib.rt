//! The bytes of a program, and back: an image is what every rank of a cluster loads.
//!
//! An [`Image`] keeps every limit of the format, so whoever holds one need not test it again. [`read_image`] and
//! [`write_image`] go between an image and its one text of bytes, which docs/FORMATS.md lays out field by field. An
//! image is of version 1, or of version 2, which has symbols, and is written in its own.
#![tactic(auto)]

mod faults;
mod header;
pub mod laws;
mod reading;
mod writing;

pub use faults::ImageFault;
pub use reading::read_image;
pub use rv_image_types::{
    Comms, Image, ImageParts, ImageVersion, Link, Links, Members, Segment, Symbol, SymbolName,
    Symbols, is_symbol_name, name_before,
};
pub use writing::write_image;
