//! What each call needs to be right.

ghost use Rattle.std.specs.Prelude.{◌≡◌, Some, false};
ghost use Rattle.cl_calls.specs.Needs.{destination as destination_of, needs_of, needs_of_claimed, nothing};
ghost use Rattle.cl_calls.specs.Needs.{needs_of_completing, needs_of_partitioning};
ghost use Rattle.cl_calls.specs.Needs.{needs_of_probing, needs_of_receiving, needs_of_sending, needs_of_several};
ghost use Rattle.cl_calls.specs.Needs.{one_status, one_tag, opening as opening_of, other_side as other_side_of, reads};
ghost use Rattle.cl_calls.specs.Needs.{region_read, region_written, source as source_of, tag_or_any, writes};

use crate::calls::{Call, Claimed, Completing, Partitioning, Probing, Receiving, Sending, Several};

/// A rank argument, and which of the wildcard and the null process may stand for it.
#[derive(Clone, Copy, Drop)]
pub struct Peer {
    pub rank: u64,
    pub any: bool,
    pub null: bool,
}

/// A tag argument, and whether the wildcard may stand for it.
#[derive(Clone, Copy, Drop)]
pub struct Tag {
    pub tag: u64,
    pub any: bool,
}

/// Bytes of the memory that a call reads or writes.
#[derive(Clone, Copy, Drop)]
pub struct Range {
    pub address: u64,
    pub count: u64,
    pub writing: bool,
}

/// An array of handles, 8 bytes each.
#[derive(Clone, Copy, Drop)]
pub struct Array {
    pub address: u64,
    pub count: u64,
}

/// Statuses that a call writes, 24 bytes each and one after the other. Address 0 means that none is wanted.
#[derive(Clone, Copy, Drop)]
pub struct Statuses {
    pub address: u64,
    pub count: u64,
}

/// What a handle argument has to name.
#[derive(Clone, Copy, Drop)]
pub enum Named {
    /// The call takes no handle.
    Nothing,
    /// The null request or an open one.
    NullOrOpen(u64),
    /// A persistent request, which isn't active.
    Persistent(u64),
    /// An open request, which isn't active.
    Open(u64),
    /// A partitioned send that is started, and one of its partitions, which isn't ready.
    SendPart { handle: u64, part: u64 },
    /// A partitioned receive, and one of its partitions.
    ReceivePart { handle: u64, part: u64 },
}

/// The partitions of a transfer: so many of so many bytes, from an address on, which the transfer reads or writes.
#[derive(Clone, Copy, Drop)]
pub struct Region {
    pub address: u64,
    pub parts: u64,
    pub size: u64,
    pub writing: bool,
}

/// What a call needs to be right. Where it needs nothing of a kind, that field is None, 0 or false.
#[derive(Clone, Copy, Drop)]
pub struct Needs {
    /// There is such a call.
    pub known: bool,
    /// Handles of requests that may be completed together.
    pub handles: Array,
    /// A request of the rank.
    pub request: Named,
    /// A communicator of which the caller is a member.
    pub comm: Option<u64>,
    /// A member of that communicator.
    pub peer: Option<Peer>,
    pub tag: Tag,
    /// The partitions of a transfer, whose shape is inside the limits.
    pub region: Option<Region>,
    pub buffer: Range,
    pub statuses: Statuses,
    /// How many bytes the output grows by.
    pub growth: u64,
    /// A handle that isn't open.
    pub slot: bool,
}

/// What a call needs that needs nothing.
const NOTHING: Needs = Needs {
    known: true,
    handles: Array {
        address: 0,
        count: 0,
    },
    request: Named::Nothing,
    comm: None,
    peer: None,
    tag: Tag { tag: 0, any: false },
    region: None,
    buffer: Range {
        address: 0,
        count: 0,
        writing: false,
    },
    statuses: Statuses {
        address: 0,
        count: 0,
    },
    growth: 0,
    slot: false,
};

impl Peer {
    fn destination(rank: u64) -> Peer
        ensures { result ≡ destination_of rank }
    {
        Peer {
            rank,
            any: false,
            null: true,
        }
    }

    fn source(rank: u64) -> Peer
        ensures { result ≡ source_of rank }
    {
        Peer {
            rank,
            any: true,
            null: true,
        }
    }

    fn other_side(rank: u64) -> Peer
        ensures { result ≡ other_side_of rank }
    {
        Peer {
            rank,
            any: false,
            null: false,
        }
    }
}

impl Tag {
    fn one(tag: u64) -> Tag
        ensures { result ≡ one_tag tag }
    {
        Tag { tag, any: false }
    }

    fn or_any(tag: u64) -> Tag
        ensures { result ≡ tag_or_any tag }
    {
        Tag { tag, any: true }
    }
}

impl Statuses {
    fn one(address: u64) -> Statuses
        ensures { result ≡ one_status address }
    {
        Statuses { address, count: 1 }
    }
}

impl Range {
    fn reading(address: u64, count: u64) -> Range
        ensures { result ≡ reads address count }
    {
        Range {
            address,
            count,
            writing: false,
        }
    }

    fn writing(address: u64, count: u64) -> Range
        ensures { result ≡ writes address count }
    {
        Range {
            address,
            count,
            writing: true,
        }
    }
}

impl Needs {
    // A request alone.
    fn naming(request: Named) -> Needs
        ensures { result ≡ record nothing { request = request } }
    {
        Needs { request, ..NOTHING }
    }

    // A communicator alone.
    fn in_comm(comm: u64) -> Needs
        ensures { result ≡ record nothing { comm = Some comm } }
    {
        Needs {
            comm: Some(comm),
            ..NOTHING
        }
    }

    // Bytes, and room for them behind the output.
    fn putting(buffer: u64, count: u64) -> Needs
        ensures { result ≡ record nothing { buffer = reads buffer count; growth = count } }
    {
        Needs {
            buffer: Range::reading(buffer, count),
            growth: count,
            ..NOTHING
        }
    }

    // What a number needs that is no call's.
    fn unknown() -> Needs
        ensures { result ≡ record nothing { known = false } }
    {
        Needs {
            known: false,
            ..NOTHING
        }
    }

    // A handle that isn't open, too.
    fn opening(self) -> Needs
        ensures { result ≡ opening_of self }
    {
        Needs { slot: true, ..self }
    }
}

impl Sending {
    fn needs(&self) -> Needs
        ensures { result ≡ needs_of_sending self.now }
    {
        Needs {
            comm: Some(self.comm),
            peer: Some(Peer::destination(self.dest)),
            tag: Tag::one(self.tag),
            buffer: Range::reading(self.buffer, self.count),
            ..NOTHING
        }
    }
}

impl Receiving {
    fn needs(&self, status: u64) -> Needs
        ensures { result ≡ needs_of_receiving status self.now }
    {
        Needs {
            comm: Some(self.comm),
            peer: Some(Peer::source(self.source)),
            tag: Tag::or_any(self.tag),
            buffer: Range::writing(self.buffer, self.capacity),
            statuses: Statuses::one(status),
            ..NOTHING
        }
    }
}

impl Claimed {
    fn needs(&self, status: u64) -> Needs
        ensures { result ≡ needs_of_claimed status self.now }
    {
        Needs {
            buffer: Range::writing(self.buffer, self.capacity),
            statuses: Statuses::one(status),
            ..NOTHING
        }
    }
}

impl Probing {
    fn needs(&self) -> Needs
        ensures { result ≡ needs_of_probing self.now }
    {
        Needs {
            comm: Some(self.comm),
            peer: Some(Peer::source(self.source)),
            tag: Tag::or_any(self.tag),
            statuses: Statuses::one(self.status),
            ..NOTHING
        }
    }
}

impl Completing {
    fn needs(&self) -> Needs
        ensures { result ≡ needs_of_completing self.now }
    {
        Needs {
            request: Named::NullOrOpen(self.handle),
            statuses: Statuses::one(self.status),
            ..NOTHING
        }
    }
}

impl Several {
    fn needs(&self) -> Needs
        ensures { result ≡ needs_of_several self.now }
    {
        Needs {
            handles: Array {
                address: self.array,
                count: self.count,
            },
            statuses: Statuses {
                address: self.statuses,
                count: self.count,
            },
            ..NOTHING
        }
    }
}

impl Region {
    // The partitions of a transfer, which its sender reads.
    fn read(transfer: &Partitioning) -> Region
        ensures { result ≡ region_read transfer.now }
    {
        Region {
            address: transfer.buffer,
            parts: transfer.parts,
            size: transfer.size,
            writing: false,
        }
    }

    // And which its receiver writes.
    fn written(transfer: &Partitioning) -> Region
        ensures { result ≡ region_written transfer.now }
    {
        Region {
            writing: true,
            ..Region::read(transfer)
        }
    }
}

impl Partitioning {
    fn needs(&self, region: Region) -> Needs
        ensures { result ≡ needs_of_partitioning region self.now }
    {
        Needs {
            comm: Some(self.comm),
            peer: Some(Peer::other_side(self.peer)),
            tag: Tag::one(self.tag),
            region: Some(region),
            ..NOTHING
        }
    }
}

impl Call {
    /// What the call needs to be right.
    pub fn needs(&self) -> Needs
        ensures { result ≡ needs_of self.now }
    {
        match *self {
            Call::Exit { .. } | Call::Hart => NOTHING,
            Call::Put { buffer, count } => Needs::putting(buffer, count),
            Call::Rank { comm } | Call::Size { comm } => Needs::in_comm(comm),
            Call::Send(sending) | Call::Ssend(sending) => sending.needs(),
            Call::Isend(sending) | Call::Issend(sending) | Call::SendInit(sending) => {
                sending.needs().opening()
            }
            Call::Recv { receiving, status } => receiving.needs(status),
            Call::Irecv(receiving) | Call::RecvInit(receiving) => receiving.needs(0).opening(),
            Call::Test(completing) | Call::Wait(completing) => completing.needs(),
            Call::Iprobe(probing)
            | Call::Probe(probing)
            | Call::Improbe(probing)
            | Call::Mprobe(probing) => probing.needs(),
            Call::Imrecv(claimed) => claimed.needs(0).opening(),
            Call::Mrecv { claimed, status } => claimed.needs(status),
            Call::Start { handle } => Needs::naming(Named::Persistent(handle)),
            Call::RequestFree { handle } => Needs::naming(Named::Open(handle)),
            Call::Testall(several) | Call::Waitall(several) => several.needs(),
            Call::PsendInit(transfer) => transfer.needs(Region::read(&transfer)).opening(),
            Call::PrecvInit(transfer) => transfer.needs(Region::written(&transfer)).opening(),
            Call::Pready { handle, part } => Needs::naming(Named::SendPart { handle, part }),
            Call::Parrived { handle, part } => Needs::naming(Named::ReceivePart { handle, part }),
            Call::Unknown => Needs::unknown(),
        }
    }
}
