//! What a hart asks in its next turn, and what it is answered.

use cl_calls::Call;
use mp_types::{Code, Reply, Request};
use part_phase::Contents;

/// What the next turn of a hart is.
#[derive(Clone, Copy, Drop)]
pub enum Doing {
    /// The instruction at the pc, which is no ECALL.
    Step,
    /// A call that a check refused, with the code of the first check that failed.
    Refused(Code),
    /// A call that is right.
    Go(Call),
    /// A call that waits on a post, which is asked for again.
    Poll(Call, u64),
    /// Nothing: the hart is stopped.
    Stopped,
}

/// What a hart asks in its next turn.
#[derive(Drop)]
pub enum Ask {
    /// Nothing: it does an instruction.
    Plain,
    /// Nothing: it makes a call that needs only the rank.
    Local,
    /// A call of the hub.
    Hub(Request),
    /// To make a partition ready, with these bytes, as they are to stand in its box.
    Ready { link: u8, part: u8, bytes: Contents },
    /// Whether a partition was made ready.
    Look { link: u8, part: u8 },
    /// Whether a partition was taken.
    Freed { link: u8, part: u8 },
    /// Nothing: it waits for a partition that its own rank hasn't made ready.
    Held,
    /// Nothing: it is stopped.
    Idle,
}

/// What a hart is answered.
#[derive(Drop)]
pub enum Answer {
    /// Nothing was asked of anybody, or nothing is told but that it was done.
    Alone,
    /// The hub's reply.
    Reply(Reply),
    /// The partition was ready, and these are the bytes of its box.
    Taken(Contents),
    /// The partition wasn't ready, or wasn't taken.
    Missed,
    /// The partition was taken.
    Freed,
}
