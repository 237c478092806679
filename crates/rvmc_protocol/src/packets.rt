//! The packets of GDB's remote serial protocol (GDB manual, appendix 'Remote Protocol', 'Overview').
//!
//! A packet is `$`, a text, `#` and two digits of the text's sum. The text carries a payload: `$`, `#`, `}` and `*` stand
//! in it behind `}`, and runs of one byte may be written short. Bytes outside a packet mean nothing, but for `-`, which
//! asks for the last packet again, and `+`, which says that it has arrived.

pub mod laws;
mod reader;
mod sums;
mod texts;
mod writing;

pub use reader::{Message, Reader, acknowledgement};
pub use texts::Payload;
pub use writing::put_packet;
