//! SENDs of few bytes, which are worked out straight from the registers.
//!
//! A rank that sends does this call again and again: so its row isn't looked up, and its reply is told at once.

ghost use Rattle.std.specs.Prelude.{◌≡◌, ◌<◌, ◌≤◌, vec_len, IfSome, IsTrue, false, true};
ghost use Rattle.rv_hart.specs.State.{read};
ghost use Rattle.rv_hart.specs.declared.state.Mode.TheVariants.{Running};
ghost use Rattle.rv_memory.specs.Access.{word_at};
ghost use Rattle.rv_memory.specs.Memory.{bytes_at};
ghost use Rattle.mp_types.specs.declared.codes.Code.TheVariants as code;
ghost use Rattle.mp_types.specs.declared.requests.Request.TheVariants as request;
ghost use Rattle.cl_calls.specs.Site.{member};
ghost use Rattle.cl_state.specs.Asked.{is_ecall as is_ecall_of};
ghost use Rattle.cl_state.specs.Room.{rank_of};
ghost use Rattle.cl_state.specs.Told.{returned};
ghost use Rattle.cl_rank.specs.QuickSends.{IsShortSend, Sends, sent_at};

use cl_calls::{NO_RANK, Peer, SEND, Sending, Site};
use cl_state::{RankState, is_ecall};
use mp_types::{Bytes, Request, SHORT_MAX, Stamp};
use rv_decode::Reg;
use rv_hart::{Hart, Mode};
use rv_memory::RankMemory;

/// Whether a running hart is at an ECALL.
#[inline(always)]
pub(crate) fn is_at_call(hart: &Hart, memory: &RankMemory) -> bool
    ensures running { IsTrue result → hart.now.mode ≡ Running }
    ensures ecall { IsTrue result → is_ecall_of (word_at memory.now hart.now.pc) ≡ true }
{
    let Mode::Running = hart.mode() else {
        return false;
    };
    is_ecall(memory.text_word(hart.pc()))
}

/// Whether a running hart is at the ECALL of the call of this number.
#[inline(always)]
pub(crate) fn is_at(hart: &Hart, memory: &RankMemory, number: u64) -> bool
    ensures running { IsTrue result → hart.now.mode ≡ Running }
    ensures ecall { IsTrue result → is_ecall_of (word_at memory.now hart.now.pc) ≡ true }
    ensures number { IsTrue result → read hart.now 17 ≡ number }
{
    let Mode::Running = hart.mode() else {
        return false;
    };
    hart.get(Reg::new(17)) == number && is_ecall(memory.text_word(hart.pc()))
}

/// Whether a send is right, goes to a member, and has so few bytes that they take no memory.
#[inline(always)]
fn is_short(site: &Site, memory: &RankMemory, sending: &Sending) -> bool
    ensures { IsTrue result → IsShortSend site.now memory.now sending.now }
{
    let peer = Peer {
        rank: sending.dest,
        any: false,
        null: true,
    };
    sending.count <= 16
        && sending.tag <= 32767
        && sending.dest != NO_RANK
        && site.is_comm(Some(sending.comm))
        && site.is_peer(Some(sending.comm), Some(peer))
        && memory.in_range(sending.buffer, sending.count, false)
}

/// So few bytes of the memory, in place.
#[inline(always)]
fn short(memory: &RankMemory, buffer: u64, count: usize) -> Bytes
    requires { count ≤ 16 }
    ensures { result ≡ bytes_at memory.now buffer count }
{
    let mut bytes = [0; SHORT_MAX];
    let read = memory.read_into(buffer, &mut bytes[..count]);
    Bytes::short(&bytes[..read])
}

/// What such a send asks the hub.
#[inline(always)]
fn request_of(site: &Site, memory: &RankMemory, sending: &Sending) -> Request
    requires { IsShortSend site.now memory.now sending.now }
    ensures { result ≡ request.Send false sending.now.comm (member site.now sending.now.comm sending.now.dest)
        sending.now.tag (bytes_at memory.now sending.now.buffer sending.now.count) }
{
    Request::Send {
        sync: false,
        comm: site.comm_number(sending.comm),
        dest: site.member(sending.comm, sending.dest),
        tag: sending.tag as u16,
        bytes: short(memory, sending.buffer, sending.count as usize),
    }
}

/// What a hart asks whose turn is a SEND of few bytes. Any other turn is left to the table of calls.
#[inline(always)]
pub(crate) fn sent(state: &RankState, hart: u8) -> Option<Request>
    requires { hart < vec_len state.now.harts }
    ensures { IfSome result (λ request. Sends state.now hart request) }
{
    let at = &state.harts[hart as usize];
    if !is_at(at, &state.memory, SEND) {
        return None;
    }
    let sending = Sending::of(at);
    if !is_short(&state.site, &state.memory, &sending) {
        return None;
    }
    Some(request_of(&state.site, &state.memory, &sending))
}

/// A call returns with the code Ok, and gives no value.
#[tactic(auto, unfolding(cl_state::specs::Told::returned))]
pub(crate) fn return_ok(hart: &mut Hart)
    ensures { hart.new ≡ returned code.Ok 0 hart.old }
{
    let next = hart.pc().wrapping_add(4);
    hart.set(Reg::new(10), 0);
    hart.set(Reg::new(11), 0);
    hart.set_pc(next);
    hart.set_mode(Mode::Running);
}

/// Tells the rank that the SEND of a hart has its post, at this stamp: the call is over.
pub(crate) fn tell_sent(state: &mut RankState, hart: u8, stamp: Stamp)
    requires { hart < vec_len state.old.harts }
    ensures told { rank_of state.new ≡ sent_at (rank_of state.old) hart stamp }
    ensures harts { vec_len state.new.harts ≡ vec_len state.old.harts }
{
    return_ok(&mut state.harts[hart as usize]);
    state.clock = stamp;
}
