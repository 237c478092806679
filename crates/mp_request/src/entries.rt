//! What the table holds of a request. Ranks are ranks of the cluster, and every range was found right when the request
//! was made.

ghost use Rattle.std.specs.Prelude.{◌≡◌, ◌↔◌, IsTrue};
ghost use Rattle.mp_request.specs.Entries as entry;
ghost use Rattle.mp_request.specs.Awaited as awaited;

/// What a request moves, with the arguments of the call that made it.
#[derive(Clone, Copy, PartialEq, Eq, Drop)]
pub enum Transfer {
    /// A send to the null process, which moves nothing (MPI 4.1, chapter 3.11).
    SendToNull,
    /// A receive from the null process, which moves nothing. Its status has the source -2.
    ReceiveFromNull,
    /// A standard send, or a synchronous one. An ordinary one's bytes were copied by its call, a persistent one's are
    /// read each time that it is started.
    Send {
        sync: bool,
        /// The address of the first byte, and the number of bytes, from 0 to 4,096.
        buffer: u64,
        count: u16,
        dest: u8,
        tag: u16,
        comm: u8,
    },
    /// A receive, of any source or any tag where that is None.
    Receive {
        /// The address of the buffer, and the most bytes that it takes, from 0 to 4,096.
        buffer: u64,
        capacity: u16,
        source: Option<u8>,
        tag: Option<u16>,
        comm: u8,
    },
    /// A receive of a message that a matched probe claimed (MPI 4.1, chapter 3.8.3).
    ReceiveClaimed {
        buffer: u64,
        capacity: u16,
    },
    /// The sender's side of a partitioned transfer.
    SendPartitions(Partitions),
    /// The receiver's side of a partitioned transfer.
    ReceivePartitions(Partitions),
}

/// One side of a partitioned transfer (MPI 4.1, chapter 4.2).
#[derive(Clone, Copy, PartialEq, Eq, Drop)]
pub struct Partitions {
    /// The number of the link that the hub reserved.
    pub link: u8,
    /// The address of partition 0. Partition i stands i times the size behind it.
    pub buffer: u64,
    /// How many partitions there are, from 1 to 16.
    pub parts: u8,
    /// The bytes of one partition.
    pub size: u8,
    /// The rank of the other side.
    pub peer: u8,
    pub tag: u16,
    pub comm: u8,
}

/// How far an active request is.
#[derive(Clone, Copy, Drop)]
pub enum Progress {
    /// Nothing is awaited: a synchronous send that is known to be received, or a transfer with the null process.
    Finished,
    /// Nothing is awaited of a standard send, for its bytes were copied (MPI 4.1, chapter 3.4). This is its post, of which
    /// the hub is never asked.
    Sent(u64),
    /// The hub is to be asked of this post.
    OnPost(u64),
    /// The partitions of one phase are to be moved.
    InPhase,
}

/// How long a request lasts, and how far it is.
#[derive(Clone, Copy, Drop)]
pub enum State {
    /// It is active from the call that opened it, and gone when it completes (MPI 4.1, chapter 3.7.3).
    Ordinary(Progress),
    /// A persistent request that isn't started: as it was made, or completed since (MPI 4.1, chapter 3.9).
    Inactive,
    /// A persistent request that is started.
    Active(Progress),
}

/// One open request.
#[derive(Clone, Copy, Drop)]
pub struct OpenRequest {
    pub transfer: Transfer,
    pub state: State,
}

impl Transfer {
    /// Whether it moves partitions.
    pub fn is_partitioned(self) -> bool
        ensures { result ≡ entry.is_partitioned self }
    {
        matches!(
            self,
            Transfer::SendPartitions(_) | Transfer::ReceivePartitions(_)
        )
    }
}

/// Whether both move the same, with the same arguments of the calls that made them.
pub fn is_same_transfer(a: &Transfer, b: &Transfer) -> bool
    ensures { IsTrue result ↔ (a.now ≡ b.now) }
{
    a == b
}

impl State {
    /// Whether the request outlives its completion (MPI 4.1, chapter 3.9).
    pub fn is_persistent(self) -> bool
        ensures { result ≡ entry.is_persistent self }
    {
        !matches!(self, State::Ordinary(_))
    }

    /// Whether the request is active, as an ordinary one always is.
    pub fn is_active(self) -> bool
        ensures { result ≡ entry.is_active self }
    {
        !matches!(self, State::Inactive)
    }

    /// Whether the request may complete without awaiting anything. An inactive one counts as complete.
    pub fn is_done(self) -> bool
        ensures { result ≡ awaited.is_done self }
    {
        matches!(
            self,
            State::Inactive
                | State::Ordinary(Progress::Finished | Progress::Sent(_))
                | State::Active(Progress::Finished | Progress::Sent(_))
        )
    }
}

impl OpenRequest {
    /// What completion leaves of the request: nothing of an ordinary one, an inactive one of a persistent one.
    pub fn remainder(self) -> Option<OpenRequest>
        ensures { result ≡ entry.remainder self }
    {
        match self.state {
            State::Ordinary(_) => None,
            State::Inactive | State::Active(_) => Some(OpenRequest {
                state: State::Inactive,
                ..self
            }),
        }
    }
}
