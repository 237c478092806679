//! The sides that a rank has of its links: finding one, its steps on boxes, and how it follows its phase.
//!
//! A rank has a side of each of its links, the sender's or the receiver's, and no other rank has that one. The rank's
//! phases say, as plain data, how far each side is; specs/Sides.antt says what of them agrees.
#![tactic(auto)]

mod steps;

pub use steps::{BoxId, begin, find, follow_receiver, follow_sender, make_ready, take, test};
