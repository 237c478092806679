//! The calls of a guest, as its registers spell them.

ghost use Rattle.std.specs.Prelude.{◌≡◌, ◌<◌};
ghost use Rattle.cl_calls.specs.Calls.{argument as argument_of, call_named, claimed_by, completing_by, partitioning_by};
ghost use Rattle.cl_calls.specs.Calls.{probing_by, receiving_by, sending_by, several_by};

use crate::rows::{IRECV, PARRIVED, PREADY, RECV, SEND, WAIT, calls};
use rv_decode::Reg;
use rv_hart::Hart;

/// ANY_SOURCE and ANY_TAG, -1 in 64 bits.
pub const ANY: u64 = u64::MAX;

/// PROC_NULL, -2 in 64 bits.
pub const NO_RANK: u64 = u64::MAX - 1;

/// MESSAGE_NO_PROC, -2 in 64 bits: the message of a matched probe of the null process (MPI 4.1, 3.8.2).
pub const NO_MESSAGE: u64 = u64::MAX - 1;

/// The arguments of a send: the bytes, and where to.
#[derive(Clone, Copy, Drop)]
pub struct Sending {
    pub buffer: u64,
    pub count: u64,
    pub dest: u64,
    pub tag: u64,
    pub comm: u64,
}

/// The arguments of a receive: where to put the bytes, at most so many, and what is accepted.
#[derive(Clone, Copy, Drop)]
pub struct Receiving {
    pub buffer: u64,
    pub capacity: u64,
    pub source: u64,
    pub tag: u64,
    pub comm: u64,
}

/// The arguments of a receive of a claimed message: where to put the bytes, and the message's handle.
#[derive(Clone, Copy, Drop)]
pub struct Claimed {
    pub buffer: u64,
    pub capacity: u64,
    pub message: u64,
}

/// The arguments of a probe: what is accepted, and the address of a status, or 0.
#[derive(Clone, Copy, Drop)]
pub struct Probing {
    pub source: u64,
    pub tag: u64,
    pub comm: u64,
    pub status: u64,
}

/// The arguments of a completing call: the handle of a request, and the address of a status, or 0.
#[derive(Clone, Copy, Drop)]
pub struct Completing {
    pub handle: u64,
    pub status: u64,
}

/// The arguments of a call that completes several requests: an array of handles, 8 bytes each, how many there are, and
/// the address of as many statuses, or 0.
#[derive(Clone, Copy, Drop)]
pub struct Several {
    pub array: u64,
    pub count: u64,
    pub statuses: u64,
}

/// The arguments of a call that begins one side of a partitioned transfer: where its partitions stand, how many there
/// are, the bytes of each, and the other side.
#[derive(Clone, Copy, Drop)]
pub struct Partitioning {
    pub buffer: u64,
    pub parts: u64,
    pub size: u64,
    pub peer: u64,
    pub tag: u64,
    pub comm: u64,
}

/// A call, with its arguments as the registers spell them. The sections are those of MPI 4.1.
#[derive(Clone, Copy, Drop)]
pub enum Call {
    /// Ends the hart.
    Exit { code: u64 },
    /// Puts bytes behind the rank's output.
    Put { buffer: u64, count: u64 },
    /// Asks for the caller's position in a communicator (7.4.1, MPI_COMM_RANK).
    Rank { comm: u64 },
    /// Asks how many members a communicator has (7.4.1, MPI_COMM_SIZE).
    Size { comm: u64 },
    /// Asks for the hart's number.
    Hart,
    /// Sends in standard mode (3.2.1, MPI_SEND).
    Send(Sending),
    /// Sends in synchronous mode: it is complete once a receive has the message (3.4, MPI_SSEND).
    Ssend(Sending),
    /// Receives (3.2.4, MPI_RECV).
    Recv { receiving: Receiving, status: u64 },
    /// Begins a send in standard mode (3.7.2, MPI_ISEND).
    Isend(Sending),
    /// Begins a send in synchronous mode (3.7.2, MPI_ISSEND).
    Issend(Sending),
    /// Begins a receive (3.7.2, MPI_IRECV).
    Irecv(Receiving),
    /// Completes a request if it can be (3.7.3, MPI_TEST).
    Test(Completing),
    /// Completes a request as soon as it can be (3.7.3, MPI_WAIT).
    Wait(Completing),
    /// Tells what a receive would give, if anything (3.8.1, MPI_IPROBE).
    Iprobe(Probing),
    /// Tells what a receive would give, as soon as there is something (3.8.1, MPI_PROBE).
    Probe(Probing),
    /// Takes a message out of matching, if there is one (3.8.2, MPI_IMPROBE).
    Improbe(Probing),
    /// Takes a message out of matching, as soon as there is one (3.8.2, MPI_MPROBE).
    Mprobe(Probing),
    /// Begins a receive of a claimed message (3.8.3, MPI_IMRECV).
    Imrecv(Claimed),
    /// Receives a claimed message (3.8.3, MPI_MRECV).
    Mrecv { claimed: Claimed, status: u64 },
    /// Makes a persistent send in standard mode (3.9, MPI_SEND_INIT).
    SendInit(Sending),
    /// Makes a persistent receive (3.9, MPI_RECV_INIT).
    RecvInit(Receiving),
    /// Starts a persistent request (3.9, MPI_START).
    Start { handle: u64 },
    /// Frees a persistent request (3.7.3, MPI_REQUEST_FREE).
    RequestFree { handle: u64 },
    /// Completes all of several requests if all can be (3.7.5, MPI_TESTALL).
    Testall(Several),
    /// Completes all of several requests as soon as all can be (3.7.5, MPI_WAITALL).
    Waitall(Several),
    /// Makes the sender's side of a partitioned transfer (4.2.1, MPI_PSEND_INIT).
    PsendInit(Partitioning),
    /// Makes the receiver's side of a partitioned transfer (4.2.1, MPI_PRECV_INIT).
    PrecvInit(Partitioning),
    /// Makes a partition ready (4.2.2, MPI_PREADY).
    Pready { handle: u64, part: u64 },
    /// Asks whether a partition has arrived (4.2.3, MPI_PARRIVED).
    Parrived { handle: u64, part: u64 },
    /// A number that is no call's.
    Unknown,
}

fn argument(hart: &Hart, number: u8) -> u64
    requires { number < 8 }
    ensures { result ≡ argument_of hart.now number }
{
    hart.get(Reg::new(10 + number))
}

impl Sending {
    /// The arguments of a send, as a hart's registers have them.
    #[inline(always)]
    pub fn of(hart: &Hart) -> Sending
        ensures { result ≡ sending_by (argument_of hart.now) }
    {
        Sending {
            buffer: argument(hart, 0),
            count: argument(hart, 1),
            dest: argument(hart, 2),
            tag: argument(hart, 3),
            comm: argument(hart, 4),
        }
    }
}

impl Receiving {
    /// The arguments of a receive, as a hart's registers have them.
    #[inline(always)]
    pub fn of(hart: &Hart) -> Receiving
        ensures { result ≡ receiving_by (argument_of hart.now) }
    {
        Receiving {
            buffer: argument(hart, 0),
            capacity: argument(hart, 1),
            source: argument(hart, 2),
            tag: argument(hart, 3),
            comm: argument(hart, 4),
        }
    }
}

impl Claimed {
    fn of(hart: &Hart) -> Claimed
        ensures { result ≡ claimed_by (argument_of hart.now) }
    {
        Claimed {
            buffer: argument(hart, 0),
            capacity: argument(hart, 1),
            message: argument(hart, 2),
        }
    }
}

impl Probing {
    fn of(hart: &Hart) -> Probing
        ensures { result ≡ probing_by (argument_of hart.now) }
    {
        Probing {
            source: argument(hart, 0),
            tag: argument(hart, 1),
            comm: argument(hart, 2),
            status: argument(hart, 3),
        }
    }
}

impl Completing {
    fn of(hart: &Hart) -> Completing
        ensures { result ≡ completing_by (argument_of hart.now) }
    {
        Completing {
            handle: argument(hart, 0),
            status: argument(hart, 1),
        }
    }
}

impl Several {
    fn of(hart: &Hart) -> Several
        ensures { result ≡ several_by (argument_of hart.now) }
    {
        Several {
            array: argument(hart, 0),
            count: argument(hart, 1),
            statuses: argument(hart, 2),
        }
    }
}

impl Partitioning {
    fn of(hart: &Hart) -> Partitioning
        ensures { result ≡ partitioning_by (argument_of hart.now) }
    {
        Partitioning {
            buffer: argument(hart, 0),
            parts: argument(hart, 1),
            size: argument(hart, 2),
            peer: argument(hart, 3),
            tag: argument(hart, 4),
            comm: argument(hart, 5),
        }
    }
}

/// The call whose row has the number that stands in a7, by one match on it.
macro_rules! call_of {
    ($hart:ident $($number:tt $name:literal $call:expr;)*) => {
        match argument($hart, 7) {
            $($number => $call,)*
            _ => Call::Unknown,
        }
    };
}

impl Call {
    /// The call that a hart's registers spell.
    pub fn of(hart: &Hart) -> Call
        ensures { result ≡ call_named hart.now }
    {
        calls!(call_of, hart)
    }
}
