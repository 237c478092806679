//! What is told of a state or a record of a cluster, as text: what the words of `debug` do and print; how each hart
//! stands, what one that waits is waiting for, and which messages weren't received; and the ranks of a deadlock.
//!
//! The meaning stands in specs/: the texts; what a word does or is refused for, and what all words print up to the first
//! that is refused; and what a hart waits for. Places are told by `rvmc_places`, and the verdict on a deadlock is that of
//! `cl_deadlock`.
#![tactic(auto)]

mod awaited;
mod finding;
mod harts;
mod telling;
mod unreceived;
mod word_texts;
mod words;

pub use awaited::{Wait, put_waits};
pub use cl_deadlock::deadlock;
pub use finding::waits;
pub use harts::put_harts;
pub use rvmc_report::{
    ClusterState, ReplayFault, faults, input, listing, recorded, replay, report, stuck,
};
pub use telling::{put_company, put_live_ranks, why};
pub use unreceived::put_unreceived;
pub use word_texts::{bytes_text, place_text, regs_text};
pub use words::{Told, address_of, tell_all};
