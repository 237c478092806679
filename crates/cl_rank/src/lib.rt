//! A rank of the cluster and its turns: each asks, is answered, and is recorded as one event.
//!
//! The meaning stands in specs/: deeds, which are events with all that they met, the rank alone, what a deed makes of
//! the keys of its rank's sides, and turns.
#![tactic(auto)]

mod agreeing;
mod desks;
mod plains;
mod quick_handles;
mod quick_parts;
mod quick_receives;
mod quick_sends;
mod ranks;
mod stops;
mod turning;

pub use agreeing::agree;
pub use cl_calls::{ANY, Call, Communicators, NO_RANK, Needs, Peer, Range, Site, Tag, position};
pub use cl_sides::BoxId;
pub use cl_state::{Answer, Ask, Doing, RankState};
pub use cl_trace::{Bare, Cursor, Event, Kind, Seen, Trace};
pub use desks::{Desk, LockedDesk, PlainDesk, Replied};
pub use ranks::Rank;
pub use stops::Stop;
