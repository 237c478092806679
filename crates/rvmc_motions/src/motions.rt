//! Motions of a debugger, forwards and backwards.

ghost use Rattle.std.specs.Prelude.{◌≡◌, ◌≤◌, IfErr, IfOk, OnOk, length, ℕ};
ghost use Rattle.cl_debug.specs.Debugging.{at_place};
ghost use Rattle.cl_debug.specs.declared.faults.DebugFault.TheVariants as faults;
ghost use Rattle.cl_machine.specs.Cluster.{Cluster};
ghost use Rattle.rvmc_motions.specs.Motions.{GoesBackwards, GoesForwards};
ghost use Rattle.rvmc_motions.specs.Turns.{IsHistory, backward_stop};
ghost use Rattle.rvmc_motions.specs.Walking.{IsBelow, IsLastIn, later};

use crate::marks::{Halt, Mark, Mover};
use crate::turns::{next_stop, turn};
use cl_debug::{DebugFault, Debugger};
use rvmc_protocol::replies::Stop;
use std::alloc::Global;

/// Goes forwards to the first place at which the motion ends, and tells why it ends there.
///
/// A run ends before an instruction of a hart of the mover's ranks with a breakpoint, and a step behind the next turn of its
/// hart that isn't idle, and after which the hart doesn't wait; both also behind a turn of the ranks that changed or read
/// the bytes of a watchpoint; or else at the end of the record. A stopped hart's idle turns meet no breakpoint. It is never
/// the place where the debugger is, unless that is the end. All other ranks move with the record. The only error is want of
/// memory, and then the debugger is at some place of the record.
pub fn forwards(
    alloc: Global,
    debugger: &mut Debugger,
    marks: &[Mark],
    mover: Mover,
) -> Result<Halt, DebugFault>
    ensures goes { IfOk result (λ halt. GoesForwards debugger.old marks.now mover halt debugger.new) }
    ensures fault { IfErr result (λ fault. fault ≡ faults.Memory) }
{
    let (from, end) = debugger.place();
    let mut seen = Vec::new(alloc);
    for _n in from..end {
        let turned = turn(alloc, debugger, &mut seen, marks, mover)?;
        let next = next_stop(debugger, marks, mover);
        if let Some(halt) = turned.or(next) {
            return Ok(halt);
        }
    }
    Ok(Halt {
        stop: Stop::End,
        rank: mover.rank,
        hart: mover.hart,
    })
}

/// What is found last: at this place, or before it.
fn later(found: Option<(u64, Halt)>, place: u64, halt: Option<Halt>) -> Option<(u64, Halt)>
    ensures { result ≡ later found place halt }
{
    match halt {
        Some(halt) => Some((place, halt)),
        None => found,
    }
}

/// The last place from one on and below another at which a motion backwards ends, and why it ends there. The steps
/// between the two are done once.
fn last_between(
    alloc: Global,
    debugger: &mut Debugger,
    marks: &[Mark],
    mover: Mover,
    from: u64,
    to: u64,
) -> Result<Option<(u64, Halt)>, DebugFault>
    requires forwards { from ≤ to }
    requires inside { to ≤ length debugger.old.steps }
    ensures moved { OnOk result (debugger.new ≡ at_place debugger.old debugger.new.place) }
    ensures below { IfOk result (IsBelow to) }
    ensures found { IfOk result (λ found. (history : ℕ → Cluster)
        → IsHistory debugger.old.image debugger.old.steps history
        → IsLastIn (backward_stop mover marks.now debugger.old.steps history) from to found) }
    ensures fault { IfErr result (λ fault. fault ≡ faults.Memory) }
{
    debugger.go(from)?;
    let mut seen = Vec::new(alloc);
    let mut found = None;
    for n in from..to {
        let next = next_stop(debugger, marks, mover);
        let turned = turn(alloc, debugger, &mut seen, marks, mover)?;
        found = later(found, n, turned.or(next));
    }
    Ok(found)
}

/// Goes backwards to the last place before this one at which the motion ends, and tells why it ends there.
///
/// A run ends before an instruction of a hart of the mover's ranks with a breakpoint, and a step before the last turn of its
/// hart that isn't idle, and after which the hart doesn't wait; both also before a turn of the ranks that changed or read
/// the bytes of a watchpoint; or else at the start of the record. Each step on the way is done once, from the places where states are kept, and those
/// behind the last such place once more. The only error is want of memory, and then the debugger is at some place of the
/// record.
pub fn backwards(
    alloc: Global,
    debugger: &mut Debugger,
    marks: &[Mark],
    mover: Mover,
) -> Result<Halt, DebugFault>
    ensures goes { IfOk result (λ halt. GoesBackwards debugger.old marks.now mover halt debugger.new) }
    ensures fault { IfErr result (λ fault. fault ≡ faults.Memory) }
{
    let (mut to, _) = debugger.place();
    let spacing = debugger.spacing();
    while to > 0 {
        let from = (to - 1) / spacing * spacing;
        if let Some((place, halt)) = last_between(alloc, debugger, marks, mover, from, to)? {
            debugger.go(place)?;
            return Ok(halt);
        }
        to = from;
    }
    debugger.go(0)?;
    Ok(Halt {
        stop: Stop::Begin,
        rank: mover.rank,
        hart: mover.hart,
    })
}
