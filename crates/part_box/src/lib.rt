//! A box that carries one thing at a time from a sender to a receiver.
//!
//! A box is a gate and 8 or 16 data words. The sender fills the data words and makes them ready under a stamp. The
//! receiver looks, copies the words and empties the box under a stamp of its own. The six calls `fill`, `ready`,
//! `freed`, `look`, `copy` and `empty` are one atomic step each on one word; they take no memory and no lock, and
//! always return. `agree` tells who holds both keys what they know of each other, and changes nothing. `new` takes
//! memory, and `settle` ends the box and isn't a step.
#![tactic(auto)]

mod gate;
mod keys;
mod laws;
mod partition;
mod rule;
mod settled;
mod view;
mod worked;

pub use keys::{RecvKey, SendKey};
pub use laws::{gate_law, look_law, settled_law};
pub use partition::PartBox;
pub use settled::Settled;
pub use view::{Got, Loaded, Made, Receiving, Sending};
pub use worked::settled_rows;
