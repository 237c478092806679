//! What a call transfers, what the hub is asked for it, and how far it is once it has its post.

ghost use Rattle.std.specs.Prelude.{◌≡◌, ◌≢◌, ◌<◌, ◌≤◌, IsTrue, MatchResult, Some, false, true, length};
ghost use Rattle.rv_memory.specs.Memory.{bytes_at};
ghost use Rattle.cl_calls.specs.Calls.{no_rank};
ghost use Rattle.cl_calls.specs.Checks.{is_peer, is_tag};
ghost use Rattle.cl_calls.specs.Needs.{needs_of_receiving, needs_of_sending, source as source_peer, tag_or_any};
ghost use Rattle.cl_state.specs.TurnRoom.{carried};
ghost use Rattle.cl_state.specs.Blocking.{is_blocking};
ghost use Rattle.cl_state.specs.Right.{IsRight};
ghost use Rattle.cl_state.specs.Transfers.{asked_claimed, asked_transfer, claimed_of, posted as posted_by, receive_of};
ghost use Rattle.cl_state.specs.Transfers.{send_of, source_of, tag_of};

use crate::asking::Ask;
use crate::partitions::read_into;
use crate::pending::Manner;
use cl_calls::{ANY, Claimed, NO_MESSAGE, NO_RANK, Receiving, Sending, Site};
use mp_request::{Progress, Transfer};
use mp_types::{Bytes, MESSAGE_MAX, Request, SHORT_MAX};
use rv_memory::RankMemory;
use std::alloc::{AllocError, Global};

/// A source argument as a rank of the cluster; None is any.
pub fn source(site: &Site, comm: u64, source: u64) -> Option<u8>
    requires right { IsTrue (is_peer site.now (Some comm) (Some (source_peer source))) }
    requires there { source ≢ no_rank }
    ensures { result ≡ source_of site.now comm source }
{
    if source == ANY {
        None
    } else {
        Some(site.member(comm, source))
    }
}

/// A tag argument; None is any.
pub fn tag(tag: u64) -> Option<u16>
    requires { IsTrue (is_tag (tag_or_any tag)) }
    ensures { result ≡ tag_of tag }
{
    if tag == ANY { None } else { Some(tag as u16) }
}

/// What a send with right arguments transfers, in standard mode.
pub(crate) fn send(site: &Site, sending: &Sending) -> Transfer
    requires { IsRight site.now (needs_of_sending sending.now) }
    ensures { result ≡ send_of site.now false sending.now }
{
    if sending.dest == NO_RANK {
        return Transfer::SendToNull;
    }
    Transfer::Send {
        sync: false,
        buffer: sending.buffer,
        count: sending.count as u16,
        dest: site.member(sending.comm, sending.dest),
        tag: sending.tag as u16,
        comm: site.comm_number(sending.comm),
    }
}

/// The same in synchronous mode.
pub(crate) fn sync_send(site: &Site, sending: &Sending) -> Transfer
    requires { IsRight site.now (needs_of_sending sending.now) }
    ensures { result ≡ send_of site.now true sending.now }
{
    if sending.dest == NO_RANK {
        return Transfer::SendToNull;
    }
    Transfer::Send {
        sync: true,
        buffer: sending.buffer,
        count: sending.count as u16,
        dest: site.member(sending.comm, sending.dest),
        tag: sending.tag as u16,
        comm: site.comm_number(sending.comm),
    }
}

/// What a receive with right arguments transfers.
pub(crate) fn receive(site: &Site, receiving: &Receiving) -> Transfer
    requires { IsRight site.now (needs_of_receiving 0 receiving.now) }
    ensures { result ≡ receive_of site.now receiving.now }
{
    if receiving.source == NO_RANK {
        return Transfer::ReceiveFromNull;
    }
    Transfer::Receive {
        buffer: receiving.buffer,
        capacity: receiving.capacity as u16,
        source: source(site, receiving.comm, receiving.source),
        tag: tag(receiving.tag),
        comm: site.comm_number(receiving.comm),
    }
}

/// What a receive of a claimed message transfers. Its buffer takes at most 4,096 bytes.
pub(crate) fn receive_claimed(claimed: &Claimed) -> Transfer
    requires { claimed.now.capacity ≤ 4096 }
    ensures { result ≡ claimed_of claimed.now }
{
    if claimed.message == NO_MESSAGE {
        return Transfer::ReceiveFromNull;
    }
    Transfer::ReceiveClaimed {
        buffer: claimed.buffer,
        capacity: claimed.capacity as u16,
    }
}

/// How many of these bytes are in the memory. All of a send's are: its range was checked when it was made.
fn present(memory: &RankMemory, buffer: u64, count: u16) -> u64
    ensures { result ≡ length (bytes_at memory.now buffer count) }
{
    u64::from(count).min(memory.size().saturating_sub(buffer))
}

/// So few bytes of the memory, in place.
fn short(memory: &RankMemory, buffer: u64, count: usize) -> Bytes
    requires { count ≤ 16 }
    ensures { result ≡ bytes_at memory.now buffer count }
{
    let mut bytes = [0; SHORT_MAX];
    Bytes::short(read_into(memory, buffer, &mut bytes[..count]))
}

/// The bytes of a send, at most 4,096. At most 16 take no memory.
fn copy(alloc: Global, memory: &RankMemory, buffer: u64, count: u16) -> Result<Bytes, AllocError>
    ensures { MatchResult result (λ bytes. bytes ≡ bytes_at memory.now buffer count)
        (λ e. 16 < length (bytes_at memory.now buffer count)) }
{
    let present = present(memory, buffer, count);
    if present <= SHORT_MAX as u64 {
        return Ok(short(memory, buffer, present as usize));
    }
    let Ok(bytes) = memory.read_bytes(alloc, buffer, present) else {
        return Err(AllocError);
    };
    if bytes.len() > MESSAGE_MAX {
        return Err(AllocError);
    }
    Bytes::from_vec(bytes)
}

/// What is asked for a transfer. Only a copy of bytes to be sent takes memory, and is refused where there is none.
pub(crate) fn ask(
    alloc: Global,
    memory: &RankMemory,
    manner: Manner,
    transfer: &Transfer,
) -> Result<Ask, AllocError>
    ensures { MatchResult result (λ ask. ask ≡ asked_transfer memory.now (is_blocking manner) transfer.now)
        (λ e. 0 < carried (asked_transfer memory.now (is_blocking manner) transfer.now)) }
{
    match *transfer {
        Transfer::Send {
            sync,
            buffer,
            count,
            dest,
            tag,
            comm,
        } => Ok(Ask::Hub(Request::Send {
            sync,
            comm,
            dest,
            tag,
            bytes: copy(alloc, memory, buffer, count)?,
        })),
        Transfer::Receive {
            source,
            tag,
            comm,
            ..
        } => Ok(Ask::Hub(Request::Recv {
            now: manner.is_blocking(),
            comm,
            source,
            tag,
        })),
        Transfer::SendToNull
        | Transfer::ReceiveFromNull
        | Transfer::ReceiveClaimed { .. }
        | Transfer::SendPartitions(_)
        | Transfer::ReceivePartitions(_) => Ok(Ask::Local),
    }
}

/// What is asked for a receive of a claimed message.
pub(crate) fn ask_claimed(manner: Manner, claimed: &Claimed) -> Ask
    ensures { result ≡ asked_claimed (is_blocking manner) claimed.now }
{
    if claimed.message == NO_MESSAGE {
        return Ask::Local;
    }
    Ask::Hub(Request::Claimed {
        now: manner.is_blocking(),
        message: claimed.message,
    })
}

/// What the hub said of a post: its number, and whether it is a send and complete.
#[derive(Clone, Copy, Drop)]
pub(crate) struct Posted {
    pub(crate) post: u64,
    pub(crate) done: bool,
}

impl Posted {
    /// How far a transfer is once it has its post: a standard send is complete, and a synchronous one waits until
    /// it is paired with a receive.
    pub(crate) fn progress(self, transfer: &Transfer) -> Progress
        ensures { result ≡ posted_by transfer.now self.post self.done }
    {
        match *transfer {
            Transfer::Send { sync, .. } => {
                if !sync {
                    Progress::Sent(self.post)
                } else if self.done {
                    Progress::Finished
                } else {
                    Progress::OnPost(self.post)
                }
            }
            _ => Progress::OnPost(self.post),
        }
    }
}
