//! What partitioned requests await, and what they ask.

ghost use Rattle.std.specs.Prelude.{◌≡◌, ◌+◌, ◌*◌, ◌-◌, ◌^◌, length, min};
ghost use Rattle.rv_memory.specs.Memory.{bytes_at};
ghost use Rattle.mp_request.specs.Table.{request_at};
ghost use Rattle.part_phase.specs.Phases.{receiving_at};
ghost use Rattle.cl_calls.specs.Checks.{receiving_side as receiving_side_of, sending_side as sending_side_of};
ghost use Rattle.cl_calls.specs.Needs.{needs_of};
ghost use Rattle.cl_calls.specs.declared.calls.Call.TheVariants as call;
ghost use Rattle.cl_state.specs.Moves.{started_in};
ghost use Rattle.cl_state.specs.Partitions.{asked_arrived, asked_awaited, asked_ready, asked_receiving, asked_sending};
ghost use Rattle.cl_state.specs.Partitions.{awaited as awaited_of, awaited_by, awaited_by_sender};
ghost use Rattle.cl_state.specs.Partitions.{awaited_in, awaited_of_part, boxed as boxed_of, side_on as side_of};
ghost use Rattle.cl_state.specs.Right.{IsRight, IsThere};

use crate::asking::{Ask, Doing};
use crate::pending::Manner;
use cl_calls::{Call, Partitioning, Site, Standing, receiving_side, sending_side};
use mp_request::{OpenRequest, Partitions, Requests, State, Transfer};
use mp_types::Request;
use part_phase::{Contents, Phases, RecvPhase, SendPhase, box_words};
use rv_image_types::ImageVersion;
use rv_memory::RankMemory;

/// What a partitioned request awaits in a phase (MPI 4.1, chapter 4.2).
#[derive(Clone, Copy, Drop)]
pub enum Awaited {
    /// Nothing: all partitions are freed or taken, or no phase is going on.
    Nothing,
    /// That the own rank makes the lowest partition ready that isn't freed.
    Unready,
    /// That the receiver takes this partition.
    Taking { link: u8, part: u8 },
    /// The sender's cut of this link.
    Cut { link: u8 },
    /// That the sender makes this box ready.
    Box { link: u8, part: u8 },
}

impl Awaited {
    /// What the sender's side of a link awaits.
    fn by_sender(link: u8, phase: &SendPhase) -> Awaited
        ensures { result ≡ awaited_by_sender link phase.now }
    {
        match phase.next() {
            None => Awaited::Nothing,
            Some(part) => {
                if phase.is_ready(part) {
                    Awaited::Taking { link, part }
                } else {
                    Awaited::Unready
                }
            }
        }
    }

    /// What the receiver's side of a link awaits, of which this is the next box.
    fn by_receiver(link: u8, phase: &RecvPhase, next: Option<u8>) -> Awaited
        ensures { result ≡ awaited_in link phase.now next }
    {
        if !phase.active {
            return Awaited::Nothing;
        }
        if phase.boxes == 0 {
            return Awaited::Cut { link };
        }
        match next {
            None => Awaited::Nothing,
            Some(part) => Awaited::Box { link, part },
        }
    }

    /// What a request that is active awaits, if it is partitioned.
    fn by(phases: &Phases, transfer: &Transfer) -> Option<Awaited>
        ensures { result ≡ awaited_by phases.now transfer.now }
    {
        match *transfer {
            Transfer::SendPartitions(side) => {
                Some(Awaited::by_sender(side.link, &phases.sending(side.link)))
            }
            Transfer::ReceivePartitions(side) => {
                let phase = phases.receiving(side.link);
                Some(Awaited::by_receiver(side.link, &phase, phase.next()))
            }
            _ => None,
        }
    }

    /// What TEST and WAIT of a partitioned request that is active await. No other awaits partitions.
    pub(crate) fn of(phases: &Phases, request: Option<OpenRequest>) -> Option<Awaited>
        ensures { result ≡ awaited_of phases.now request }
    {
        match request {
            None => None,
            Some(OpenRequest { transfer, state }) => match state {
                State::Inactive => None,
                State::Ordinary(_) => Awaited::by(phases, &transfer),
                State::Active(_) => Awaited::by(phases, &transfer),
            },
        }
    }

    /// What PARRIVED of one of the receiver's partitions awaits.
    pub(crate) fn of_part(phases: &Phases, link: u8, part: u8) -> Awaited
        ensures { result ≡ awaited_of_part link (receiving_at phases.now link) part }
    {
        let phase = phases.receiving(link);
        Awaited::by_receiver(link, &phase, phase.next_of(part))
    }

    /// What is asked for it.
    pub(crate) fn ask(self, manner: Manner) -> Ask
        ensures { result ≡ asked_awaited manner self }
    {
        match self {
            Awaited::Nothing => Ask::Local,
            Awaited::Unready => match manner {
                Manner::Immediate => Ask::Local,
                Manner::Blocking | Manner::Polling | Manner::Posting => Ask::Held,
            },
            Awaited::Taking { link, part } => Ask::Freed { link, part },
            Awaited::Cut { link } => Ask::Hub(Request::Cut { link }),
            Awaited::Box { link, part } => Ask::Look { link, part },
        }
    }
}

impl Doing {
    /// The link whose phase the turn begins: that of the partitioned request that it starts.
    pub(crate) fn starts(&self, requests: &Requests) -> Option<u8>
        ensures { result ≡ started_in requests.now self.now }
    {
        let Doing::Go(Call::Start { handle }) = *self else {
            return None;
        };
        match requests.get(handle) {
            None => None,
            Some(request) => match request.transfer {
                Transfer::SendPartitions(side) => Some(side.link),
                Transfer::ReceivePartitions(side) => Some(side.link),
                _ => None,
            },
        }
    }
}

/// Where a partition or box stands: so many sizes behind the buffer. One past all addresses is at the last of them,
/// where no memory is.
pub fn place_at(buffer: u64, part: u8, size: u8) -> u64
    ensures { result ≡ min (buffer + part * size) (2 ^ 64 - 1) }
{
    buffer.saturating_add(u64::from(part) * u64::from(size))
}

/// As many bytes of the memory from an address on as there are and `out` has room for.
pub(crate) fn read_into<'a>(memory: &RankMemory, address: u64, out: &'a mut [u8]) -> &'a [u8]
    ensures { result.now ≡ bytes_at memory.now address (length out.old) }
{
    let count = memory.read_into(address, out);
    &out[..count]
}

/// Bytes as they stand in a box: no more than it has, and 0 behind them.
fn boxed(version: ImageVersion, bytes: &[u8]) -> Contents
    ensures { result ≡ boxed_of version bytes.now }
{
    let most = 8 * box_words(version);
    if bytes.len() <= most {
        Contents::of(version, bytes)
    } else {
        Contents::of(version, &bytes[..most])
    }
}

/// The bytes of a partition, as they are to stand in its box.
#[tactic(auto, using(crate::proofs::Places::bytes_there))]
pub fn part_contents(site: &Site, memory: &RankMemory, side: &Partitions, part: u8) -> Contents
    ensures { result
        ≡ boxed_of site.now.version
        (bytes_at memory.now (side.now.buffer + part * side.now.size) side.now.size) }
{
    // an address past all others is past the memory too
    prove!(memory.size() <= 1048576);
    let address = place_at(side.buffer, part, side.size);
    let mut bytes = [0; 255];
    let size = usize::from(side.size);
    boxed(site.version, read_into(memory, address, &mut bytes[..size]))
}

/// What PREADY asks: that the partition is made ready, with its bytes.
pub(crate) fn ask_ready(standing: &Standing, handle: u64, part: u64) -> Ask
    requires { IsThere standing.now.requests.now standing.now.phases.now (needs_of (call.Pready handle part)) }
    ensures { result
        ≡ asked_ready standing.now.site.now standing.now.memory.now part
        (sending_side_of (request_at standing.now.requests.now handle)) }
{
    match sending_side(standing.requests, handle) {
        None => Ask::Local,
        Some(side) => {
            // ghost: brings into scope that the phase keeps its limits; no effect at run time
            let _phase = standing.phases.sending(side.link);
            let part = part as u8;
            Ask::Ready {
                link: side.link,
                part,
                bytes: part_contents(standing.site, standing.memory, &side, part),
            }
        }
    }
}

/// What PARRIVED asks.
pub(crate) fn ask_arrived(standing: &Standing, handle: u64, part: u64) -> Ask
    requires { IsThere standing.now.requests.now standing.now.phases.now (needs_of (call.Parrived handle part)) }
    ensures { result
        ≡ asked_arrived standing.now.phases.now part
        (receiving_side_of (request_at standing.now.requests.now handle)) }
{
    match receiving_side(standing.requests, handle) {
        None => Ask::Local,
        Some(side) => {
            // ghost: brings into scope that the phase keeps its limits; no effect at run time
            let _phase = standing.phases.receiving(side.link);
            let awaited = Awaited::of_part(standing.phases, side.link, part as u8);
            awaited.ask(Manner::Immediate)
        }
    }
}

/// What PSEND_INIT asks: the hub pairs initialisations, and gives each pair a link.
pub(crate) fn ask_sending(site: &Site, t: &Partitioning) -> Ask
    requires { IsRight site.now (needs_of (call.PsendInit t.now)) }
    ensures { result ≡ asked_sending site.now t.now }
{
    Ask::Hub(Request::Init {
        sending: true,
        comm: site.comm_number(t.comm),
        peer: site.member(t.comm, t.peer),
        tag: t.tag as u16,
        parts: t.parts as u8,
        size: t.size as u8,
    })
}

/// What PRECV_INIT asks.
pub(crate) fn ask_receiving(site: &Site, t: &Partitioning) -> Ask
    requires { IsRight site.now (needs_of (call.PrecvInit t.now)) }
    ensures { result ≡ asked_receiving site.now t.now }
{
    Ask::Hub(Request::Init {
        sending: false,
        comm: site.comm_number(t.comm),
        peer: site.member(t.comm, t.peer),
        tag: t.tag as u16,
        parts: t.parts as u8,
        size: t.size as u8,
    })
}

/// The side of a transfer that an initialisation begins, once the hub gave it a link.
pub(crate) fn side_on(site: &Site, t: &Partitioning, link: u8) -> Partitions
    requires { IsRight site.now (needs_of (call.PsendInit t.now)) }
    ensures { result ≡ side_of site.now t.now link }
{
    Partitions {
        link,
        buffer: t.buffer,
        parts: t.parts as u8,
        size: t.size as u8,
        peer: site.member(t.comm, t.peer),
        tag: t.tag as u16,
        comm: site.comm_number(t.comm),
    }
}
