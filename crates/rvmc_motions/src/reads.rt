//! What the next turn of a hart reads: what an instruction loads (RISC-V Unprivileged ISA 20191213, 2.6), or the buffer of
//! a call.

ghost use Rattle.std.specs.Prelude.{◌≡◌, ◌+ℤ◌, pos};
ghost use Rattle.cl_state.specs.Room.{rank_of};
ghost use Rattle.mp_request.specs.Table.{request_at};
ghost use Rattle.rv_hart.specs.Numbers.{in_64};
ghost use Rattle.rv_hart.specs.Results.{load_width};
ghost use Rattle.rv_memory.specs.Access.{size_of};
ghost use Rattle.rvmc_motions.specs.Reads.{load_at, load_range, loaded_by, meets, read_by, read_by_call, read_by_part};
ghost use Rattle.rvmc_motions.specs.Reads.{read_by_request, read_by_sending, read_by_transfer, read_doing};

use cl_calls::{Call, NO_RANK, Sending, sending_side};
use cl_state::{Doing, RankState};
use mp_request::{Partitions, Requests, Transfer};
use rv_decode::{Instr, LoadOp, decode};
use rv_hart::Hart;
use rv_memory::{RankMemory, Width};

/// Bytes that a turn reads.
#[derive(Clone, Copy)]
pub(crate) struct Loaded {
    pub(crate) address: u64,
    /// How many there are; 0 where nothing is read.
    pub(crate) count: u64,
}

const NOTHING: Loaded = Loaded {
    address: 0,
    count: 0,
};

/// How many bytes a load moves.
fn width_of(op: LoadOp) -> Width
    ensures { result ≡ load_width op }
{
    match op {
        LoadOp::Lb | LoadOp::Lbu => Width::Byte,
        LoadOp::Lh | LoadOp::Lhu => Width::Half,
        LoadOp::Lw | LoadOp::Lwu => Width::Word,
        LoadOp::Ld => Width::Double,
    }
}

/// The bytes of a load at an address, or none where it traps.
fn load_at(memory: &RankMemory, address: u64, width: Width) -> Loaded
    ensures { result ≡ load_at memory.now address (size_of width) }
{
    match memory.load(address, width) {
        Err(_) => NOTHING,
        Ok(_) => Loaded {
            address,
            count: width.size(),
        },
    }
}

/// The bytes that an instruction loads.
fn loaded_by(hart: &Hart, memory: &RankMemory, instr: &Instr) -> Loaded
    ensures { result ≡ loaded_by instr.now hart.now memory.now }
{
    match *instr {
        Instr::Load { op, rs1, off, .. } => {
            let address = hart.get(rs1).wrapping_add_signed(i64::from(off));
            load_at(memory, address, width_of(op))
        }
        _ => NOTHING,
    }
}

/// The bytes that the instruction of the word at a hart's pc loads.
#[tactic(auto, unfolding(crate::specs::Reads::load_range))]
fn word_range(hart: &Hart, memory: &RankMemory) -> Loaded
    ensures { result ≡ load_range hart.now memory.now }
{
    let Some(word) = memory.text_word(hart.pc()) else {
        return NOTHING;
    };
    let Some(instr) = decode(word) else {
        return NOTHING;
    };
    loaded_by(hart, memory, &instr)
}

/// The bytes that the instruction at a hart's pc loads. Of a text that was decoded no word is decoded once more.
#[tactic(auto, using(crate::proofs::Loads::fetched_loads))]
fn load_range(hart: &Hart, memory: &RankMemory) -> Loaded
    ensures { result ≡ load_range hart.now memory.now }
{
    match memory.instruction(hart.pc()) {
        Some(instr) => loaded_by(hart, memory, &instr),
        None => word_range(hart, memory),
    }
}

/// The bytes of a message that is sent.
fn read_by_sending(sending: &Sending) -> Loaded
    ensures { result ≡ read_by_sending sending.now }
{
    if sending.dest == NO_RANK {
        return NOTHING;
    }
    Loaded {
        address: sending.buffer,
        count: sending.count,
    }
}

/// The bytes of the message that a request sends each time that it is started.
fn read_by_transfer(transfer: Transfer) -> Loaded
    ensures { result ≡ read_by_transfer transfer }
{
    match transfer {
        Transfer::Send { buffer, count, .. } => Loaded {
            address: buffer,
            count: u64::from(count),
        },
        _ => NOTHING,
    }
}

/// The bytes that the start of a request reads, if there is one.
fn read_by_request(requests: &Requests, handle: u64) -> Loaded
    ensures { result ≡ read_by_request (request_at requests.now handle) }
{
    match requests.get(handle) {
        Some(request) => read_by_transfer(request.transfer),
        None => NOTHING,
    }
}

/// The bytes of a partition.
fn read_by_part(side: Option<Partitions>, part: u64) -> Loaded
    ensures { result ≡ read_by_part part side }
{
    match side {
        Some(side) => Loaded {
            address: side
                .buffer
                .wrapping_add(part.wrapping_mul(u64::from(side.size))),
            count: u64::from(side.size),
        },
        None => NOTHING,
    }
}

/// The bytes that a right call reads when it is made.
fn read_by_call(requests: &Requests, call: &Call) -> Loaded
    ensures { result ≡ read_by_call requests.now call.now }
{
    match *call {
        Call::Put { buffer, count } => Loaded {
            address: buffer,
            count,
        },
        Call::Send(sending) | Call::Ssend(sending) | Call::Isend(sending) | Call::Issend(sending) =>
            { read_by_sending(&sending) }
        Call::Start { handle } => read_by_request(requests, handle),
        Call::Pready { handle, part } => read_by_part(sending_side(requests, handle), part),
        _ => NOTHING,
    }
}

/// The bytes that a turn reads.
fn read_doing(owner: &RankState, hart: &Hart, doing: &Doing) -> Loaded
    ensures { result ≡ read_doing (rank_of owner.now) hart.now doing.now }
{
    match doing {
        Doing::Step => load_range(hart, &owner.memory),
        Doing::Go(call) => read_by_call(&owner.requests, call),
        Doing::Refused(_) | Doing::Poll(_, _) | Doing::Stopped => NOTHING,
    }
}

/// The bytes that the next turn of a rank's hart reads.
pub(crate) fn read_by(owner: &RankState, hart: u8) -> Loaded
    ensures { result ≡ read_by (rank_of owner.now) hart }
{
    if usize::from(hart) < owner.harts.len() {
        let doing = owner.next(hart);
        read_doing(owner, &owner.harts[usize::from(hart)], &doing)
    } else {
        NOTHING
    }
}

/// Whether two ranges have a byte in common.
pub(crate) fn meets(address: u64, size: u64, loaded: Loaded) -> bool
    ensures { result ≡ meets address size loaded }
{
    u128::from(loaded.address) < u128::from(address) + u128::from(size)
        && u128::from(address) < u128::from(loaded.address) + u128::from(loaded.count)
}
