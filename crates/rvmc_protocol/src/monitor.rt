//! What a person types in a session, as data: behind gdb's `monitor` (GDB manual, 'General Query Packets': `qRcmd`), and the
//! lines of `debug -`.

mod lines;
mod typed;

pub use lines::words_in;
pub use typed::{Typed, typed_word};
