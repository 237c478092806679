//! Places to stop at.

ghost use Rattle.std.specs.Prelude.{◌≡◌, ◌↔◌, ◌<◌, ◌≤◌, length, Contains};
ghost use Rattle.std.specs.Prelude.{Err, IfErr, IfOk, IsFalse, IsTrue, OnErr, OnOk};
ghost use Rattle.cl_debug.specs.Debugging.{with_break};
ghost use Rattle.cl_debug.specs.Faults.{IsBreakFault};
ghost use Rattle.cl_debug.specs.Leads.{LeadFaultHolds};
ghost use Rattle.cl_debug.specs.Stops.{IsNoStop, IsStopPlace, StopsAt};

use crate::debugging::Debugger;
use crate::faults::DebugFault;
use crate::stepping::advance;
use cl_replay::{ClusterState, Step};

/// A break: a run stops where the next step is that of this hart of this rank, and its pc is this.
#[derive(Clone, Copy, Drop)]
pub struct Break {
    pub rank: u8,
    pub hart: u8,
    pub pc: u64,
}

/// Whether there is a break of this hart at this pc.
fn has_break(breaks: &[Break], rank: u8, hart: u8, pc: u64) -> bool
    ensures { IsTrue result ↔ Contains breaks.now (record { rank = rank; hart = hart; pc = pc }) }
{
    for set in breaks {
        if set.rank == rank && set.hart == hart && set.pc == pc {
            return true;
        }
    }
    false
}

/// Whether a break stops a run at place n, where the cluster is this.
fn is_break_place(state: &ClusterState, steps: &[Step], breaks: &[Break], n: u64) -> bool
    ensures stops { IsTrue result → IsStopPlace state.now steps.now breaks.now n }
    ensures goes_on { IsFalse result → IsNoStop state.now steps.now breaks.now n }
{
    let Some(step) = steps.get(n as usize) else {
        return false;
    };
    let Some(rank) = state.ranks.get(usize::from(step.rank())) else {
        return false;
    };
    let Some(hart) = rank.harts.get(usize::from(step.hart())) else {
        return false;
    };
    has_break(breaks, step.rank(), step.hart(), hart.pc())
}

/// Does the steps from a place to the least later one where a break stops it, or else to the end: and says where that
/// is. After a refusal the state may be anything.
pub(crate) fn run_on(
    state: &mut ClusterState,
    steps: &[Step],
    breaks: &[Break],
    from: u64,
) -> Result<u64, DebugFault>
    requires { from ≤ length steps.now }
    ensures stops { IfOk result (λ to. StopsAt steps.now breaks.now from state.old to state.new) }
    ensures fault { IfErr result (LeadFaultHolds steps.now from state.old (length steps.now)) }
{
    let len = steps.len() as u64;
    for n in from..len {
        advance(state, steps, n, n + 1)?;
        if is_break_place(state, steps, breaks, n + 1) {
            return Ok(n + 1);
        }
    }
    Ok(len)
}

impl Debugger {
    /// Sets a break; all that were set are kept. Refusals: NoRank, NoHart, Memory, in this order. After a refusal the
    /// debugger is as it was.
    pub fn set_break(&mut self, rank: u8, hart: u8, pc: u64) -> Result<(), DebugFault>
        ensures added { OnOk result (self.new ≡ with_break self.old (record { rank = rank; hart = hart; pc = pc })) }
        ensures no_rank { (result ≡ Err DebugFault.NoRank) ↔ (self.old.image.ranks ≤ rank) }
        ensures no_hart { (result ≡ Err DebugFault.NoHart)
            ↔ ((rank < self.old.image.ranks) × (self.old.image.harts ≤ hart)) }
        ensures unchanged { OnErr result (self.new ≡ self.old) }
        ensures fault { IfErr result IsBreakFault }
    {
        let parts = self.image.parts();
        if rank >= parts.ranks {
            return Err(DebugFault::NoRank);
        }
        if hart >= parts.harts {
            return Err(DebugFault::NoHart);
        }
        self.breaks.push(Break { rank, hart, pc })?;
        Ok(())
    }
}
