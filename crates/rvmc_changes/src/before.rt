//! What is known of a step before it is done.

ghost use Rattle.std.specs.Prelude.{◌≡◌, ◌≤◌, ◌+◌, ◌^◌, IfOk, IfSome, IsNone, length};
ghost use Rattle.cl_state.specs.Room.{rank_of};
ghost use Rattle.rv_hart.specs.Stores.{store_range as store_range_of};
ghost use Rattle.rv_memory.specs.Memory.{bytes_at};
ghost use Rattle.rvmc_changes.specs.Changes.{hart_in};
ghost use Rattle.rvmc_changes.specs.Walking.{Fits, IsBefore, IsBeforeIn, window, window_in};

use cl_machine::{KindRef, Step};
use cl_replay::ClusterState;
use cl_state::RankState;
use cl_trace::Bare;
use rv_hart::{Hart, store_range};
use rv_memory::RankMemory;
use std::alloc::{AllocError, Global};

/// A range of a memory's bytes.
#[derive(Clone, Copy, Drop)]
pub(crate) struct Window {
    pub(crate) address: u64,
    pub(crate) count: u64,
}

/// What a step may change of its rank, as it is before: its hart, how many bytes were put out, and some bytes of the
/// memory, among which are all that the step may change.
#[derive(Drop)]
pub(crate) struct Before {
    pub(crate) hart: Hart,
    pub(crate) written: usize,
    pub(crate) window: Window,
    pub(crate) bytes: Vec<u8>,
}

/// All bytes of a memory.
fn whole(memory: &RankMemory) -> Window
    ensures all { result ≡ window 0 (length memory.now.bytes) }
    ensures fits { result.address + result.count ≤ 2 ^ 20 }
{
    Window {
        address: 0,
        count: memory.size(),
    }
}

/// A step's hart, if the rank has it.
pub(crate) fn hart_of(rank: &RankState, step: &Step) -> Option<Hart>
    ensures some { IfSome result (λ hart. hart ≡ hart_in step.now (rank_of rank.now)) }
    ensures none { IsNone result → length rank.now.harts.items ≤ step.now.hart }
{
    let number = usize::from(step.hart());
    if number >= rank.harts.len() {
        return None;
    }
    Some(rank.harts[number])
}

/// The bytes that an instruction may change.
fn stored(rank: &RankState, hart: &Hart) -> Window
    ensures is { result
        ≡ window (store_range_of hart.now rank.now.memory).address (store_range_of hart.now rank.now.memory).count }
    ensures fits { result.address + result.count ≤ 2 ^ 20 }
{
    // ghost: brings into scope that the memory has at most 2^20 bytes; no effect at run time
    let _size = rank.memory.size();
    let stored = store_range(hart, &rank.memory);
    Window {
        address: stored.address,
        count: stored.count,
    }
}

/// The bytes that a step may change.
fn window_of(rank: &RankState, step: &Step, hart: &Hart) -> Window
    requires there { hart.now ≡ hart_in step.now (rank_of rank.now) }
    ensures is { result ≡ window_in step.now (rank_of rank.now) }
    ensures fits { result.address + result.count ≤ 2 ^ 20 }
{
    match step.kind() {
        KindRef::Hub(_) => whole(&rank.memory),
        KindRef::Bare(kind) => match kind {
            Bare::Plain => stored(rank, hart),
            Bare::Local
            | Bare::Ready
            | Bare::Take
            | Bare::Miss
            | Bare::Freed
            | Bare::Held
            | Bare::Idle => whole(&rank.memory),
        },
    }
}

/// The bytes of a window.
pub(crate) fn bytes_in(
    alloc: Global,
    memory: &RankMemory,
    window: Window,
) -> Result<Vec<u8>, AllocError>
    ensures read { IfOk result (λ bytes. bytes.items ≡ bytes_at memory.now window.address window.count) }
    ensures few { IfOk result (λ bytes. length bytes.items ≤ window.count) }
{
    match memory.read_bytes(alloc, window.address, window.count) {
        Ok(bytes) => Ok(bytes),
        Err(_) => Err(AllocError),
    }
}

/// What is known of a step of a rank before it is done. None where the rank hasn't that hart.
fn look_in(alloc: Global, rank: &RankState, step: &Step) -> Result<Option<Before>, AllocError>
    ensures before { IfOk result (IsBefore step.now (rank_of rank.now)) }
    ensures fits { IfOk result (λ before. IfSome before Fits) }
{
    let Some(hart) = hart_of(rank, step) else {
        return Ok(None);
    };
    let window = window_of(rank, step, &hart);
    Ok(Some(Before {
        hart,
        written: rank.out.len(),
        window,
        bytes: bytes_in(alloc, &rank.memory, window)?,
    }))
}

/// What is known of a step before it is done.
pub(crate) fn look_at(
    alloc: Global,
    state: &ClusterState,
    step: &Step,
) -> Result<Option<Before>, AllocError>
    ensures before { IfOk result (IsBeforeIn state.now step.now) }
    ensures fits { IfOk result (λ before. IfSome before Fits) }
{
    let Some(rank) = state.ranks.get(usize::from(step.rank())) else {
        return Ok(None);
    };
    look_in(alloc, rank, step)
}
