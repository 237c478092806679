//! Sessions over streams: a record is read, and behind it the packets of gdb, or lines with the words of `debug`. Each packet
//! and each line is answered as it comes.
//!
//! specs/Sessions.antt says where the record ends, which packets were heard, and what is written for them;
//! specs/Lines.antt says what is written for lines.
#![tactic(auto)]

pub mod laws;
mod serving;
mod typing;
mod words;

pub use rvmc_gdb::laws::heard_law;
pub use rvmc_gdb::{Flow, Server};
pub use serving::{Refused, serve};
pub use words::serve_words;
