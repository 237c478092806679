//! Requests to the hub of a cluster, its replies, and what they carry, as plain values.
//!
//! MPI 4.1's words are used: an envelope (chapter 3.2.3), a message, a status (3.2.5), a post. Ranks in these
//! values are ranks of the cluster, never positions in a communicator.
#![tactic(auto)]

mod codes;
mod lists;
mod messages;
mod replies;
mod requests;
mod rising;

pub use codes::Code;
pub use lists::{Bytes, MESSAGE_MAX, Posts, SHORT_MAX};
pub use messages::{Envelope, Gots, Message, Stamp, Status};
pub use replies::Reply;
pub use requests::Request;
pub use rising::are_rising;
