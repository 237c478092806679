//! What is shown of the cluster at the place.

ghost use Rattle.std.specs.Prelude.{◌≡◌, ◌↔◌, ◌<◌, ◌≤◌, Err, IfErr, IfOk, IsOk};
ghost use Rattle.cl_debug.specs.Faults.{IsBytesFault, IsNameFault};
ghost use Rattle.cl_debug.specs.Shown.{IsOutside, ShowsBytes, ShowsHart, ShowsRank};
ghost use Rattle.cl_state.specs.Room.{rank_of};

use crate::debugging::Debugger;
use crate::faults::DebugFault;
use cl_state::RankState;
use rv_hart::Hart;
use rv_memory::BytesFault;

impl Debugger {
    /// A hart as it is at the place. Refusals: NoRank, NoHart, in this order. Takes no memory.
    pub fn regs(&self, rank: u8, hart: u8) -> Result<&Hart, DebugFault>
        ensures shown { IfOk result (λ shown. ShowsHart self.now rank hart shown.now) }
        ensures no_rank { (result ≡ Err DebugFault.NoRank) ↔ (self.now.image.ranks ≤ rank) }
        ensures no_hart { (result ≡ Err DebugFault.NoHart)
            ↔ ((rank < self.now.image.ranks) × (self.now.image.harts ≤ hart)) }
        ensures fault { IfErr result IsNameFault }
    {
        let parts = self.image.parts();
        if rank >= parts.ranks {
            return Err(DebugFault::NoRank);
        }
        if hart >= parts.harts {
            return Err(DebugFault::NoHart);
        }
        let owner = &self.state.ranks[usize::from(rank)];
        Ok(&owner.harts[usize::from(hart)])
    }

    /// A rank as it is at the place: its output, its harts and its memory. The only refusal is NoRank. Takes no memory.
    pub fn rank(&self, rank: u8) -> Result<&RankState, DebugFault>
        ensures shown { IfOk result (λ shown. ShowsRank self.now rank (rank_of shown.now)) }
        ensures no_rank { (result ≡ Err DebugFault.NoRank) ↔ (self.now.image.ranks ≤ rank) }
        ensures fault { IfErr result (λ fault. fault ≡ DebugFault.NoRank) }
    {
        if rank >= self.image.parts().ranks {
            return Err(DebugFault::NoRank);
        }
        Ok(&self.state.ranks[usize::from(rank)])
    }

    /// So many bytes of a rank's memory from an address on, as they are at the place. Refusals, in this order: NoRank;
    /// Range where some of them are outside the memory; Memory. No bytes are right at any address, and take no memory.
    pub fn bytes(&self, rank: u8, address: u64, count: u64) -> Result<Vec<u8>, DebugFault>
        ensures shown { IfOk result (λ bytes. ShowsBytes self.now rank address count bytes.items) }
        ensures no_rank { (result ≡ Err DebugFault.NoRank) ↔ (self.now.image.ranks ≤ rank) }
        ensures range { (result ≡ Err DebugFault.Range)
            ↔ ((rank < self.now.image.ranks) × IsOutside self.now rank address count) }
        ensures no_bytes { rank < self.now.image.ranks → count ≡ 0 → IsOk result }
        ensures fault { IfErr result IsBytesFault }
    {
        if rank >= self.image.parts().ranks {
            return Err(DebugFault::NoRank);
        }
        let owner = &self.state.ranks[usize::from(rank)];
        match owner.memory.read_bytes(self.alloc, address, count) {
            Ok(bytes) => Ok(bytes),
            Err(BytesFault::Range) => Err(DebugFault::Range),
            Err(BytesFault::Memory) => Err(DebugFault::Memory),
        }
    }
}
