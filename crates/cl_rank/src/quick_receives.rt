//! RECVs whose buffer's pages are there, which are worked out straight from the registers.

ghost use Rattle.std.specs.Prelude.{◌≡◌, ◌<◌, length, vec_len, IfSome, IsTrue, true};
ghost use Rattle.rv_hart.specs.State.{read};
ghost use Rattle.rv_hart.specs.declared.state.Mode.TheVariants.{Running};
ghost use Rattle.rv_memory.specs.Access.{word_at};
ghost use Rattle.rv_memory.specs.MorePages.{missing_pages};
ghost use Rattle.rv_memory.specs.Present.{IsWritable};
ghost use Rattle.mp_types.specs.declared.requests.Request.TheVariants as request;
ghost use Rattle.cl_state.specs.Asked.{is_ecall as is_ecall_of};
ghost use Rattle.cl_state.specs.Room.{rank_of};
ghost use Rattle.cl_state.specs.Transfers.{source_of, tag_of};
ghost use Rattle.cl_state.specs.Written.{written};
ghost use Rattle.cl_rank.specs.QuickReceives.{Fits, IsRightReceive, IsRoomyReceive, Receives, got_at};
ghost use Rattle.cl_rank.specs.QuickReceives.{request_in, waits_at};

use crate::quick_sends::{is_at, return_ok};
use cl_calls::{ANY, NO_RANK, Peer, RECV, Receiving, Site, position};
use cl_state::{RankState, source, tag};
use mp_types::{Reply, Request, Stamp};
use rv_decode::Reg;
use rv_hart::{Hart, Mode, Wait};
use rv_memory::RankMemory;

/// Whether a running hart is at an ECALL that is a RECV which wants no status.
#[inline(always)]
fn is_at_recv(hart: &Hart, memory: &RankMemory) -> bool
    ensures running { IsTrue result → hart.now.mode ≡ Running }
    ensures ecall { IsTrue result → is_ecall_of (word_at memory.now hart.now.pc) ≡ true }
    ensures number { IsTrue result → read hart.now 17 ≡ 18 }
    ensures status { IsTrue result → read hart.now 15 ≡ 0 }
{
    is_at(hart, memory, RECV) && hart.get(Reg::new(15)) == 0
}

/// Whether a receive is right and doesn't name the null process.
#[inline(always)]
pub(crate) fn is_right(site: &Site, memory: &RankMemory, receiving: &Receiving) -> bool
    ensures { IsTrue result → IsRightReceive site.now memory.now receiving.now }
{
    let peer = Peer {
        rank: receiving.source,
        any: true,
        null: true,
    };
    receiving.capacity <= 4096
        && (receiving.tag <= 32767 || receiving.tag == ANY)
        && receiving.source != NO_RANK
        && site.is_comm(Some(receiving.comm))
        && site.is_peer(Some(receiving.comm), Some(peer))
        && memory.in_range(receiving.buffer, receiving.capacity, true)
}

/// Whether it is, and the pages of its buffer are there.
#[inline(always)]
fn is_roomy(site: &Site, memory: &RankMemory, receiving: &Receiving) -> bool
    ensures { IsTrue result → IsRoomyReceive site.now memory.now receiving.now }
{
    is_right(site, memory, receiving) && memory.missing(receiving.buffer, receiving.capacity) == 0
}

/// What such a receive asks the hub: its message now, or a post.
#[inline(always)]
pub(crate) fn request_of(
    site: &Site,
    memory: &RankMemory,
    now: bool,
    receiving: &Receiving,
) -> Request
    requires { IsRightReceive site.now memory.now receiving.now }
    ensures { result ≡ request.Recv now receiving.now.comm
        (source_of site.now receiving.now.comm receiving.now.source) (tag_of receiving.now.tag) }
{
    Request::Recv {
        now,
        comm: site.comm_number(receiving.comm),
        source: source(site, receiving.comm, receiving.source),
        tag: tag(receiving.tag),
    }
}

/// The receive of a hart whose turn is a RECV of this kind. Any other turn is left to the table of calls.
#[inline(always)]
pub(crate) fn received(state: &RankState, hart: u8) -> Option<Receiving>
    requires { hart < vec_len state.now.harts }
    ensures { IfSome result (λ receiving. Receives state.now hart receiving (request_in state.now receiving)) }
{
    let at = &state.harts[hart as usize];
    if !is_at_recv(at, &state.memory) {
        return None;
    }
    let receiving = Receiving::of(at);
    if !is_roomy(&state.site, &state.memory, &receiving) {
        return None;
    }
    Some(receiving)
}

/// Whether a reply is a message of a member, which the buffer takes whole.
#[inline(always)]
pub(crate) fn fits(site: &Site, receiving: &Receiving, reply: &Reply) -> bool
    ensures { IsTrue result → Fits site.now receiving.now reply.now }
{
    match reply {
        Reply::Got(message) => {
            let members = site.members(u64::from(message.envelope.comm));
            position(message.envelope.source, members).is_some()
                && message.bytes.as_slice().len() as u64 <= receiving.capacity
        }
        _ => false,
    }
}

/// Writes bytes where they may be, in pages that are there.
#[inline(always)]
fn write(memory: &mut RankMemory, address: u64, bytes: &[u8])
    requires right { IsWritable memory.old address (length bytes.now) }
    requires present { missing_pages memory.old.pages address (length bytes.now) ≡ 0 }
    ensures { memory.new ≡ written memory.old address bytes.now }
{
    if !bytes.is_empty() {
        memory.write_present(address, bytes);
    }
}

/// Tells the rank that the RECV of a hart has these bytes, at this stamp: they stand in its buffer, and the call is over.
#[inline(always)]
pub(crate) fn tell_got(state: &mut RankState, hart: u8, buffer: u64, bytes: &[u8], stamp: Stamp)
    requires hart { hart < vec_len state.old.harts }
    requires right { IsWritable state.old.memory buffer (length bytes.now) }
    requires present { missing_pages state.old.memory.pages buffer (length bytes.now) ≡ 0 }
    ensures told { rank_of state.new ≡ got_at (rank_of state.old) hart buffer bytes.now stamp }
    ensures harts { vec_len state.new.harts ≡ vec_len state.old.harts }
{
    write(&mut state.memory, buffer, bytes);
    return_ok(&mut state.harts[hart as usize]);
    state.clock = stamp;
}

/// Tells the rank that the RECV of a hart has its post, at this stamp: the hart waits for it.
pub(crate) fn tell_waits(state: &mut RankState, hart: u8, post: u64, stamp: Stamp)
    requires { hart < vec_len state.old.harts }
    ensures told { rank_of state.new ≡ waits_at (rank_of state.old) hart post stamp }
    ensures harts { vec_len state.new.harts ≡ vec_len state.old.harts }
{
    state.harts[hart as usize].set_mode(Mode::Waiting(Wait::Post(post)));
    state.clock = stamp;
}
