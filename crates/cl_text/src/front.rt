//! A record at the front of a stream that goes on behind it: at which byte it is decided what it is, and the stream's
//! bytes up to there.

mod input;
pub mod laws;
mod replies;
mod scans;
mod steps;

pub use input::{Front, FrontFault, read_front};
pub use scans::Scan;
