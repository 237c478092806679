//! Why a motion ends at the place of a debugger.

ghost use Rattle.std.specs.Prelude.{◌≡◌, ◌<◌, IfErr, IfOk, OnOk, Some, length, option_map, slice_get};
ghost use Rattle.cl_debug.specs.declared.faults.DebugFault.TheVariants as faults;
ghost use Rattle.cl_state.specs.Room.{rank_of};
ghost use Rattle.rvmc_motions.specs.Turns.{at_turn, break_at, goes_on, is_live, is_meant, is_waiting, own_turn};
ghost use Rattle.rvmc_motions.specs.Turns.{step_stop, stepped, stop_behind};
ghost use Rattle.rvmc_motions.specs.Walking.{TellsNext, TellsTurn, one_on};

use crate::marks::{Halt, Mark, Motion, Mover, Ranks, broken, covers};
use crate::watching::{Seen, see_all, watched};
use cl_debug::{DebugFault, Debugger};
use cl_replay::Step;
use cl_state::RankState;
use rv_hart::{Hart, Mode};
use rvmc_protocol::replies::Stop;
use std::alloc::{AllocError, Global};

/// Whose turn a step is.
#[derive(Clone, Copy)]
pub(crate) struct Whose {
    pub(crate) rank: u8,
    pub(crate) hart: u8,
}

/// Whose turn a step is, if its rank is one of these.
fn own_turn(ranks: Ranks, step: Option<&Step>) -> Option<Whose>
    ensures { result ≡ own_turn ranks (option_map (λ step. step.now) step.entry) }
{
    let step = step?;
    if covers(ranks, step.rank()) {
        Some(Whose {
            rank: step.rank(),
            hart: step.hart(),
        })
    } else {
        None
    }
}

/// A stop for this turn, if there is one.
fn at_turn(turn: Whose, stop: Option<Stop>) -> Option<Halt>
    ensures { result ≡ at_turn turn stop }
{
    let stop = stop?;
    Some(Halt {
        stop,
        rank: turn.rank,
        hart: turn.hart,
    })
}

/// Whether the hart is there, and isn't stopped.
fn is_live(hart: Option<&Hart>) -> bool
    ensures { result ≡ is_live (option_map (λ hart. hart.now) hart.entry) }
{
    match hart {
        Some(hart) => !hart.mode().is_stopped(),
        None => false,
    }
}

/// The first breakpoint before the instruction of the hart whose turn comes next; a stopped hart meets none.
fn break_at(marks: &[Mark], turn: Whose, owner: &RankState) -> Option<Halt>
    ensures { result ≡ break_at marks.now turn (Some (rank_of owner.now)) }
{
    let hart = owner.harts.get(usize::from(turn.hart))?;
    if hart.mode().is_stopped() {
        return None;
    }
    at_turn(turn, broken(turn.rank, hart.pc(), marks))
}

/// Whether the hart waits for something.
fn is_waiting(mode: Mode) -> bool
    ensures { result ≡ is_waiting mode }
{
    match mode {
        Mode::Waiting(_) => true,
        Mode::Running | Mode::Ended(_) | Mode::Trapped(_, _) => false,
    }
}

/// Whether the hart is there, and doesn't wait.
fn goes_on(hart: Option<&Hart>) -> bool
    ensures { result ≡ goes_on (option_map (λ hart. hart.now) hart.entry) }
{
    match hart {
        Some(hart) => !is_waiting(hart.mode()),
        None => false,
    }
}

/// Whether the turn is one of the hart that is meant.
fn is_meant(mover: Mover, turn: Whose) -> bool
    ensures { result ≡ is_meant mover turn }
{
    turn.rank == mover.rank && turn.hart == mover.hart
}

/// A step of the hart that is meant: a turn that isn't idle, and behind which it doesn't wait.
fn stepped(mover: Mover, turn: Whose, live: bool, behind: &RankState) -> Option<Halt>
    ensures { result ≡ stepped mover turn live (rank_of behind.now) }
{
    if is_meant(mover, turn) && (live && goes_on(behind.harts.get(usize::from(turn.hart)))) {
        Some(Halt {
            stop: Stop::Step,
            rank: turn.rank,
            hart: turn.hart,
        })
    } else {
        None
    }
}

fn step_stop(mover: Mover, turn: Whose, live: bool, behind: &RankState) -> Option<Halt>
    ensures { result ≡ step_stop mover.motion mover turn live (rank_of behind.now) }
{
    match mover.motion {
        Motion::Step => stepped(mover, turn, live, behind),
        Motion::Run => None,
    }
}

/// Why a motion ends for a turn, of which this was seen before.
fn stop_behind(
    alloc: Global,
    mover: Mover,
    turn: Whose,
    live: bool,
    seen: &[Seen],
    behind: &RankState,
) -> Result<Option<Halt>, AllocError>
    ensures { IfOk result (λ told. told ≡ stop_behind mover turn live seen.now (rank_of behind.now)) }
{
    let stop = watched(alloc, &behind.memory, seen)?;
    match at_turn(turn, stop) {
        Some(halt) => Ok(Some(halt)),
        None => Ok(step_stop(mover, turn, live, behind)),
    }
}

/// Why a motion ends before the turn that comes next at the debugger's place.
pub(crate) fn next_stop(debugger: &Debugger, marks: &[Mark], mover: Mover) -> Option<Halt>
    ensures { TellsNext debugger.now marks.now mover result }
{
    match mover.motion {
        Motion::Step => None,
        Motion::Run => {
            let (place, _) = debugger.place();
            let turn = own_turn(mover.ranks, debugger.steps().get(place as usize))?;
            let owner = debugger.state().ranks.get(usize::from(turn.rank))?;
            break_at(marks, turn, owner)
        }
    }
}

/// Does the turn that comes next, and tells why a motion ends for it.
fn own_turn_done(
    alloc: Global,
    debugger: &mut Debugger,
    seen: &mut Vec<Seen>,
    marks: &[Mark],
    mover: Mover,
    turn: Whose,
) -> Result<Option<Halt>, DebugFault>
    requires inside { debugger.old.place < length debugger.old.steps }
    requires own { own_turn mover.ranks (slice_get debugger.old.steps debugger.old.place) ≡ Some turn }
    ensures there { OnOk result (debugger.new ≡ one_on debugger.old) }
    ensures told { IfOk result (TellsTurn debugger.old marks.now mover) }
    ensures fault { IfErr result (λ fault. fault ≡ faults.Memory) }
{
    let Some(before) = debugger.state().ranks.get(usize::from(turn.rank)) else {
        debugger.step()?;
        return Ok(None);
    };
    let live = is_live(before.harts.get(usize::from(turn.hart)));
    see_all(alloc, seen, before, turn.rank, turn.hart, marks)?;
    debugger.step()?;
    let Some(behind) = debugger.state().ranks.get(usize::from(turn.rank)) else {
        return Ok(None);
    };
    Ok(stop_behind(alloc, mover, turn, live, seen.as_slice(), behind)?)
}

/// Does the step at the debugger's place, and tells why a motion ends for it. What watchpoints show before it is kept where
/// it was for the turn before.
pub(crate) fn turn(
    alloc: Global,
    debugger: &mut Debugger,
    seen: &mut Vec<Seen>,
    marks: &[Mark],
    mover: Mover,
) -> Result<Option<Halt>, DebugFault>
    requires { debugger.old.place < length debugger.old.steps }
    ensures there { OnOk result (debugger.new ≡ one_on debugger.old) }
    ensures told { IfOk result (TellsTurn debugger.old marks.now mover) }
    ensures fault { IfErr result (λ fault. fault ≡ faults.Memory) }
{
    let (place, _) = debugger.place();
    match own_turn(mover.ranks, debugger.steps().get(place as usize)) {
        Some(turn) => own_turn_done(alloc, debugger, seen, marks, mover, turn),
        None => {
            debugger.step()?;
            Ok(None)
        }
    }
}
