//! The calls of a guest: their numbers and names, how registers spell them, what each needs, and the checks that it meets
//! in their order.
//!
//! The meaning stands in specs/: what the image fixes of a rank, the rows of calls and of their names, what each needs,
//! and the list of checks.
#![tactic(auto)]

mod calls;
mod checking;
mod handles;
mod names;
mod needs;
mod rows;
mod sites;

pub use calls::{
    ANY, Call, Claimed, Completing, NO_MESSAGE, NO_RANK, Partitioning, Probing, Receiving, Sending,
    Several,
};
pub use checking::{Standing, fault, receiving_side, sending_side};
pub use handles::{Handles, handles_at};
pub use names::{call_name, call_number, call_numbers_law, called_number, is_call_number};
pub use needs::{Array, Named, Needs, Peer, Range, Region, Statuses, Tag};
pub use rows::{IRECV, NUMBERS_END, PARRIVED, PREADY, RECV, SEND, WAIT};
pub use sites::{Communicators, Site, position};
