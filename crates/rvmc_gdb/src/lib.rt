//! A record under gdb: what a rank's session of GDB's remote serial protocol answers to each packet, by the place in the
//! record, the rank, the harts that are meant, and the points that are set (GDB manual, appendix 'Remote Protocol').
//!
//! The meaning stands in specs/: what is told of the rank at the place, where motions lead, what points are set, what is
//! printed for words behind `monitor`, where the two ends of a message are, the answer to each request, and the whole of a
//! session over a stream of bytes.
#![tactic(auto)]

mod answers;
mod ends;
mod finding;
pub mod laws;
mod moving;
mod points;
mod server;
mod session;
mod shown;
mod typing;

pub use rvmc_picture::{faults, tell_all};
pub use server::{Flow, Server};
pub use session::Session;
pub use typing::refusal;
