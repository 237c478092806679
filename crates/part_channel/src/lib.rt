//! Phases of partitions over boxes: a partitioned transfer (MPI 4.1, chapter 4) between one sender and one receiver.
//!
//! A channel has sixteen boxes, one for each partition of its sender. Both sides begin a phase by `start`. In it the
//! sender makes each partition ready once and looks whether they were taken; the receiver takes each of them once, in
//! any order. Each call touches one box at most. After `Channel::new` no call takes memory, a lock or the runtime, and
//! each returns; `Channel::settle` ends the channel.
#![tactic(auto)]

mod channel;
mod lanes;
mod laws;
mod progress;
mod receiving;
mod sending;

pub use channel::Channel;
pub use lanes::{put_word, word};
pub use laws::bytes_law;
pub use progress::{Progress, Take};
pub use receiving::RecvSide;
pub use sending::SendSide;
