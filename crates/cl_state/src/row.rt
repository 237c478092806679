//! A row of the table of calls: what a turn does at once, or which reply or box it wants and what that does.

use crate::pending::{Manner, Target};
use cl_calls::{Partitioning, Several};
use mp_request::{OpenRequest, Partitions, Progress, Transfer};
use mp_types::Code;

/// What a turn does to its hart, the memory, the requests and the output.
#[derive(Clone, Copy, Drop)]
pub enum Outcome {
    /// The instruction at the pc.
    Steps,
    /// Nothing.
    Stays,
    /// The hart ends with this code.
    Exits(u64),
    /// The call ends with this code and this value.
    Ends(Code, u64),
    /// The hart waits for this post.
    Waits(u64),
    /// These bytes of the memory are put behind the output.
    Puts { buffer: u64, count: u64 },
    /// A request is opened at the lowest free handle, which the call gives.
    Opens(OpenRequest),
    /// The inactive request of this handle is started.
    Starts { handle: u64, progress: Progress },
    /// The inactive request of this handle is freed.
    Frees(u64),
    /// A receive of nothing completes: the status has this source.
    Completes { source: u64, target: Target },
    /// A probe finds that nothing comes from the null process.
    FindsNothing { value: u64, status: u64 },
    /// All requests of an array complete, none of which needs the hub.
    CompletesAll { value: u64, several: Several },
    /// The inactive partitioned request of this handle is started, and with it a phase of this link.
    BeginsPhase { handle: u64, link: u8 },
    /// The call is made anew: its own rank has a partition to make ready first.
    Holds,
    /// A partitioned receive completes: the status has its source, its tag and all its bytes.
    Arrives { side: Partitions, target: Target },
}

/// Why a call begins a transfer.
#[derive(Clone, Copy, Drop)]
pub enum Purpose {
    /// To send: the call ends once the transfer is finished.
    Send,
    /// To open a request.
    Open,
    /// To start the request of this handle.
    Start(u64),
}

/// The reply that a call wants of the hub, and what it does with it.
#[derive(Clone, Copy, Drop)]
pub enum Wanted {
    /// The post of a transfer.
    Post(Purpose, Transfer),
    /// A message, or the post to wait for.
    MessageOrPost(Target),
    /// A message.
    Message(Target),
    /// Word that the send of a request is complete.
    Word(Target),
    /// Word that a send without a request is complete.
    Sent,
    /// What all the requests of an array wait for.
    All { value: u64, several: Several },
    /// The envelope of a message that is there.
    Sight { value: u64, status: u64 },
    /// A claimed message, whose handle is the call's value.
    Claim { status: u64 },
    /// The link of the sender's side of a partitioned transfer, or of the receiver's.
    SendingLink(Partitioning),
    ReceivingLink(Partitioning),
    /// The sender's cut of this link, after which the call isn't yet at its end.
    Cut { manner: Manner, link: u8 },
    /// None.
    Nothing,
}

/// The one step of a turn on one partition box, and what its answer does.
#[derive(Clone, Copy, Drop)]
pub enum Visit {
    /// A partition is made ready.
    Readies {
        link: u8,
        part: u8,
    },
    /// A partition may be found taken; with the last one the request completes.
    Frees {
        manner: Manner,
        link: u8,
        target: Target,
    },
    /// A box may be taken; with the last one the request completes.
    Takes {
        manner: Manner,
        side: Partitions,
        part: u8,
        target: Target,
    },
    /// A box may be taken; the value tells whether that was the last one which this partition overlaps.
    Sees {
        side: Partitions,
        part: u8,
        asked: u8,
    },
}

/// What a turn does.
#[derive(Clone, Copy, Drop)]
pub enum Row {
    /// Nobody is asked.
    AtOnce(Outcome),
    /// The hub is asked for what is wanted. The manner is that of a reply that it isn't there yet.
    OnReply(Manner, Wanted),
    /// One partition box is asked.
    OnBox(Visit),
}
