//! A rank in memory of its own.

ghost use Rattle.std.specs.Prelude.{◌≡◌, vec_len, IfOk};

use crate::parts::{Core, Transfers};
use crate::state::RankState;
use std::alloc::{AllocError, Global};

impl RankState {
    ghost use Rattle.cl_state.specs.Room.{rank_of};

    /// The memory and the harts, copied.
    fn copy_core(&self, alloc: Global) -> Result<Core, AllocError>
        ensures memory { IfOk result (λ core. core.memory ≡ self.now.memory) }
        ensures harts { IfOk result (λ core. core.harts.items ≡ self.now.harts.items) }
        ensures count { IfOk result (λ core. vec_len core.harts ≡ vec_len self.now.harts) }
    {
        let harts = Vec::from_slice(alloc, self.harts.as_slice())?;
        let memory = self.memory.try_copy(alloc)?;
        Ok(Core { memory, harts })
    }

    /// The requests and the phases, copied.
    fn copy_transfers(&self, alloc: Global) -> Result<Transfers, AllocError>
        ensures requests { IfOk result (λ transfers. transfers.requests ≡ self.now.requests) }
        ensures phases { IfOk result (λ transfers. transfers.phases ≡ self.now.phases) }
    {
        let phases = self.phases.try_copy(alloc)?;
        let requests = self.requests.try_copy(alloc)?;
        Ok(Transfers { requests, phases })
    }

    /// The same rank in memory of its own: the same parts, output and clock. What `room` made for the next turn isn't
    /// copied. The only error is want of memory.
    pub fn try_copy(&self, alloc: Global) -> Result<RankState, AllocError>
        ensures copy { IfOk result (λ copy. rank_of copy ≡ rank_of self.now) }
        ensures harts { IfOk result (λ copy. vec_len copy.harts ≡ vec_len self.now.harts) }
    {
        let out = Vec::from_slice(alloc, self.out.as_slice())?;
        let transfers = self.copy_transfers(alloc)?;
        let site = self.site.try_copy(alloc)?;
        let core = self.copy_core(alloc)?;
        let copy = RankState::of(alloc, site, core, transfers);
        Ok(copy.at(out, self.clock))
    }
}
