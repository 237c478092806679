//! What is seen of a cluster at a place, as data.

ghost use Rattle.std.specs.Prelude.{◌≡◌, IfOk, map};
ghost use Rattle.cl_state.specs.Room.{rank_of};
ghost use Rattle.rvmc_changes.specs.Seen.{registers_of as registers_in, seen_hart, seen_rank};
ghost use Rattle.rvmc_changes.specs.Walks.{hart_at_start, rank_at_start};

use cl_replay::ClusterState;
use cl_state::RankState;
use rv_decode::Reg;
use rv_hart::{Hart, Mode};
use rv_memory::RankMemory;
use std::alloc::{AllocError, Global};

/// What is seen of a hart.
#[derive(Drop)]
pub struct HartStart {
    /// What x0 to x31 read.
    pub registers: Vec<u64>,
    pub pc: u64,
    pub mode: Mode,
}

/// What is seen of a rank.
#[derive(Drop)]
pub struct RankStart {
    pub harts: Vec<HartStart>,
    /// Of its whole memory.
    pub bytes: Vec<u8>,
    /// What it has put out.
    pub out: Vec<u8>,
}

/// What the registers of a hart read.
fn registers_of(alloc: Global, hart: &Hart) -> Result<Vec<u64>, AllocError>
    ensures { IfOk result (λ registers. registers.items ≡ registers_in hart.now) }
{
    let mut registers = Vec::with_capacity(alloc, 32)?;
    for number in 0..32 {
        registers.push(hart.get(Reg::new(number)))?;
    }
    Ok(registers)
}

/// What is seen of a hart.
fn hart_start(alloc: Global, hart: &Hart) -> Result<HartStart, AllocError>
    ensures { IfOk result (λ start. hart_at_start start ≡ seen_hart hart.now) }
{
    Ok(HartStart {
        registers: registers_of(alloc, hart)?,
        pc: hart.pc(),
        mode: hart.mode(),
    })
}

/// What is seen of each hart.
fn harts_start(alloc: Global, harts: &[Hart]) -> Result<Vec<HartStart>, AllocError>
    ensures { IfOk result (λ starts. map hart_at_start starts.items ≡ map seen_hart harts.now) }
{
    let mut starts = Vec::with_capacity(alloc, harts.len())?;
    for hart in harts {
        starts.push(hart_start(alloc, hart)?)?;
    }
    Ok(starts)
}

/// All bytes of a memory.
fn bytes_of(alloc: Global, memory: &RankMemory) -> Result<Vec<u8>, AllocError>
    ensures { IfOk result (λ bytes. bytes.items ≡ memory.now.bytes) }
{
    match memory.read_bytes(alloc, 0, memory.size()) {
        Ok(bytes) => Ok(bytes),
        Err(_) => Err(AllocError),
    }
}

/// What is seen of a rank.
fn rank_start(alloc: Global, rank: &RankState) -> Result<RankStart, AllocError>
    ensures { IfOk result (λ start. rank_at_start start ≡ seen_rank (rank_of rank.now)) }
{
    Ok(RankStart {
        harts: harts_start(alloc, rank.harts.as_slice())?,
        bytes: bytes_of(alloc, &rank.memory)?,
        out: Vec::from_slice(alloc, rank.out.as_slice())?,
    })
}

/// What is seen of each rank.
pub(crate) fn start_of(alloc: Global, state: &ClusterState) -> Result<Vec<RankStart>, AllocError>
    ensures { IfOk result
        (λ starts. map rank_at_start starts.items ≡ map seen_rank (map rank_of state.now.ranks.items)) }
{
    let mut starts = Vec::with_capacity(alloc, state.ranks.len())?;
    for rank in state.ranks.as_slice() {
        starts.push(rank_start(alloc, rank)?)?;
    }
    Ok(starts)
}
