//! One rank's part of a step, with the box that the step touches.

ghost use Rattle.std.specs.Prelude.{◌≡◌, ◌<◌, ◌+◌, ◌↔◌, ◌^◌, Err, IfErr, IsFalse, IsTrue, MatchResult, OnErr, OnOk, max};
ghost use Rattle.std.specs.Prelude.{vec_len, Some};
ghost use Rattle.cl_state.specs.declared.asking.Ask.TheVariants as ask;
ghost use Rattle.cl_state.specs.declared.asking.Answer.TheVariants as answer;
ghost use Rattle.cl_state.specs.Right.{growth_of};
ghost use Rattle.cl_state.specs.Room.{rank_of};
ghost use Rattle.cl_state.specs.TurnRoom.{HasRoom, IsNext};
ghost use Rattle.cl_state.specs.Told.{told};
ghost use Rattle.cl_trace.specs.Traces.{kind_of_bare};
ghost use Rattle.cl_deeds.specs.Memory.{LacksPages};
ghost use Rattle.cl_replay.specs.Turns.{AloneFault, AsksNext, IsFreed, IsLook, IsMiss, IsQuiet, IsReady, IsTake};
ghost use Rattle.cl_replay.specs.Turns.{IsTold, QuietFault, Readies, Takes, quiet_ask};

use crate::boxes::{get, number_of, set};
use crate::faults::StepFault;
use crate::words::{contents, to_words};
use cl_journal::CLOCK_MAX;
use cl_machine::{KindRef, Step};
use cl_plain::step_plain;
use cl_state::{Answer, Ask, Doing, RankState};
use cl_trace::Bare;
use mp_types::Stamp;
use part_box::Settled;

/// Whether a stamp comes next after a clock.
#[inline(always)]
fn follows(clock: Stamp, stamp: Stamp) -> bool
    ensures { IsTrue result ↔ (stamp ≡ clock + 1) }
{
    clock < stamp && stamp - clock == 1
}

/// Whether a stamp comes next after two clocks.
#[inline(always)]
pub(crate) fn follows_both(clock: Stamp, other: Stamp, stamp: Stamp) -> bool
    ensures { IsTrue result ↔ (stamp ≡ max clock other + 1) }
{
    follows(clock.max(other), stamp)
}

/// Makes the spare pages that a turn wants which puts nothing out. The rank stays as it is. The only error is want of
/// memory, where a page that the turn may write isn't there.
pub(crate) fn room(state: &mut RankState, step: &Step, doing: &Doing) -> Result<(), StepFault>
    requires next { IsNext state.old step.now.hart doing.now }
    requires nothing_out { growth_of doing.now ≡ 0 }
    ensures same { rank_of state.new ≡ rank_of state.old }
    ensures next { IsNext state.new step.now.hart doing.now }
    ensures room { OnOk result (HasRoom state.new step.now.hart) }
    ensures fault { OnErr result ((result ≡ Err StepFault.Memory) × LacksPages (rank_of state.old) step.now.hart) }
{
    match state.room_next(step.hart(), doing) {
        Ok(()) => Ok(()),
        Err(_) => Err(StepFault::Memory),
    }
}

/// Tells a rank what its hart is answered in a turn that puts nothing out, once there are the pages that it wants. Where
/// memory is refused for these the rank stays as it is.
fn tell(state: &mut RankState, step: &Step, doing: &Doing, answer: &Answer) -> Result<(), StepFault>
    requires next { IsNext state.old step.now.hart doing.now }
    requires nothing_out { growth_of doing.now ≡ 0 }
    ensures told { OnOk result (IsTold (rank_of state.old) step.now answer.now (rank_of state.new)) }
    ensures fault { OnErr result ((result ≡ Err StepFault.Memory) × LacksPages (rank_of state.old) step.now.hart) }
    ensures same { result ≡ Err StepFault.Memory → rank_of state.new ≡ rank_of state.old }
{
    room(state, step, doing)?;
    state.tell_next(step.hart(), doing, answer, step.stamp());
    Ok(())
}

/// Whether a hart asks for an instruction to be done.
fn is_plain(asked: &Ask) -> bool
    ensures { IsTrue result ↔ (asked.now ≡ ask.Plain) }
{
    match asked {
        Ask::Plain => true,
        _ => false,
    }
}

/// Does the instruction of a running hart, where it is no ECALL, and makes the page first that it stores to.
fn plain_with_room(state: &mut RankState, step: &Step) -> Result<(), StepFault>
    requires hart { step.now.hart < vec_len state.old.harts }
    requires stamp { step.now.stamp ≡ state.old.clock + 1 }
    ensures goes { OnOk result (AsksNext (rank_of state.old) step.now ask.Plain
        × IsTold (rank_of state.old) step.now answer.Alone (rank_of state.new)) }
    ensures fault { IfErr result
        (AloneFault (rank_of state.old) step.now (AsksNext (rank_of state.old) step.now ask.Plain)) }
    ensures same { result ≡ Err StepFault.Memory → rank_of state.new ≡ rank_of state.old }
{
    let hart = step.hart();
    let doing = state.next(hart);
    let Ok(ask) = state.ask_next(hart, &doing) else {
        return Err(StepFault::NotAStep);
    };
    if !is_plain(&ask) {
        return Err(StepFault::NotAStep);
    }
    tell(state, step, &doing, &Answer::Alone)
}

/// Does the instruction of a running hart, where it is no ECALL and the stamp is the next.
pub(crate) fn plain(state: &mut RankState, step: &Step) -> Result<(), StepFault>
    requires { step.now.hart < vec_len state.old.harts }
    ensures goes { OnOk result (AsksNext (rank_of state.old) step.now ask.Plain
        × IsTold (rank_of state.old) step.now answer.Alone (rank_of state.new)) }
    ensures fault { IfErr result
        (AloneFault (rank_of state.old) step.now (AsksNext (rank_of state.old) step.now ask.Plain)) }
    ensures same { result ≡ Err StepFault.Memory → rank_of state.new ≡ rank_of state.old }
{
    if !follows(state.clock, step.stamp()) {
        return Err(StepFault::NotAStep);
    }
    plain_with_room(state, step)
}

/// The same, unless the page that the instruction stores to isn't there. Else nothing is done. It costs what the hart's
/// own step costs, and one look at the word before.
#[inline(always)]
pub(crate) fn plain_at_once(state: &mut RankState, step: &Step) -> bool
    requires { step.now.hart < vec_len state.old.harts }
    ensures goes { IsTrue result → AsksNext (rank_of state.old) step.now ask.Plain
        × IsTold (rank_of state.old) step.now answer.Alone (rank_of state.new) }
    ensures low { IsTrue result → step.now.stamp < 2 ^ 62 }
    ensures clock { IsTrue result → state.new.clock ≡ step.now.stamp }
    ensures harts { vec_len state.new.harts ≡ vec_len state.old.harts }
    ensures none { IsFalse result → state.new ≡ state.old }
{
    let clock = state.clock;
    if clock >= CLOCK_MAX || clock + 1 != step.stamp() {
        return false;
    }
    step_plain(state, step.hart(), step.stamp())
}

/// Whether a hart asks this in a step of a kind that touches its rank alone.
fn is_quiet(kind: Bare, ask: &Ask) -> bool
    ensures { IsTrue result ↔ (quiet_ask (kind_of_bare kind) ≡ Some ask.now) }
{
    match (kind, ask) {
        (Bare::Local, Ask::Local) => true,
        (Bare::Held, Ask::Held) => true,
        (Bare::Idle, Ask::Idle) => true,
        _ => false,
    }
}

/// A step that touches its rank alone, and is no instruction.
pub(crate) fn quiet(state: &mut RankState, step: &Step) -> Result<(), StepFault>
    requires { step.now.hart < vec_len state.old.harts }
    ensures found { MatchResult result
        (λ _. IsQuiet (rank_of state.old) step.now
        × IsTold (rank_of state.old) step.now answer.Alone (rank_of state.new))
        (QuietFault (rank_of state.old) step.now) }
    ensures same { result ≡ Err StepFault.Memory → rank_of state.new ≡ rank_of state.old }
{
    let hart = step.hart();
    let doing = state.next(hart);
    let Ok(ask) = state.ask_next(hart, &doing) else {
        return Err(StepFault::NotAStep);
    };
    let KindRef::Bare(kind) = step.kind() else {
        return Err(StepFault::NotAStep);
    };
    if !is_quiet(kind, &ask) || !follows(state.clock, step.stamp()) {
        return Err(StepFault::NotAStep);
    }
    match state.room_next(hart, &doing) {
        Ok(()) => {}
        Err(_) => return Err(StepFault::Memory),
    }
    state.tell_next(hart, &doing, &Answer::Alone, step.stamp());
    Ok(())
}

/// Whether a hart asks whether a partition was made ready, or taken.
fn is_look(ask: &Ask) -> bool
    ensures { IsTrue result ↔ IsLook ask.now }
{
    match ask {
        Ask::Look { link: _, part: _ } | Ask::Freed { link: _, part: _ } => true,
        _ => false,
    }
}

/// A look at a box in vain.
pub(crate) fn miss(state: &mut RankState, step: &Step) -> Result<(), StepFault>
    requires { step.now.hart < vec_len state.old.harts }
    ensures goes { OnOk result (IsMiss (rank_of state.old) step.now
        × IsTold (rank_of state.old) step.now answer.Missed (rank_of state.new)) }
    ensures fault { IfErr result (AloneFault (rank_of state.old) step.now (IsMiss (rank_of state.old) step.now)) }
    ensures same { result ≡ Err StepFault.Memory → rank_of state.new ≡ rank_of state.old }
{
    let hart = step.hart();
    let doing = state.next(hart);
    let Ok(ask) = state.ask_next(hart, &doing) else {
        return Err(StepFault::NotAStep);
    };
    if !is_look(&ask) || !follows(state.clock, step.stamp()) {
        return Err(StepFault::NotAStep);
    }
    tell(state, step, &doing, &Answer::Missed)
}

/// A partition is made ready in an empty box.
pub(crate) fn ready(
    state: &mut RankState,
    boxes: &mut [[Settled; 16]],
    step: &Step,
) -> Result<(), StepFault>
    requires { step.now.hart < vec_len state.old.harts }
    ensures goes { OnOk result (Readies (rank_of state.old) boxes.old step.now (rank_of state.new) boxes.new) }
    ensures fault { IfErr result
        (AloneFault (rank_of state.old) step.now (IsReady (rank_of state.old) boxes.old step.now)) }
    ensures same_rank { result ≡ Err StepFault.Memory → rank_of state.new ≡ rank_of state.old }
    ensures same_boxes { result ≡ Err StepFault.Memory → boxes.new ≡ boxes.old }
{
    let hart = step.hart();
    let doing = state.next(hart);
    let Ok(ask) = state.ask_next(hart, &doing) else {
        return Err(StepFault::NotAStep);
    };
    let Ask::Ready { link, part, bytes } = ask else {
        return Err(StepFault::NotAStep);
    };
    let number = number_of(link, part);
    let Some(settled) = get(boxes, number) else {
        return Err(StepFault::NotAStep);
    };
    if settled.full || !follows(state.clock, step.stamp()) {
        return Err(StepFault::NotAStep);
    }
    let words = to_words(bytes.as_slice());
    let stamp = step.stamp();
    tell(state, step, &doing, &Answer::Alone)?;
    set(
        boxes,
        number,
        Settled {
            full: true,
            stamp,
            words,
        },
    );
    Ok(())
}

/// What stands in a box is taken.
pub(crate) fn take(
    state: &mut RankState,
    boxes: &mut [[Settled; 16]],
    step: &Step,
) -> Result<(), StepFault>
    requires { step.now.hart < vec_len state.old.harts }
    ensures goes { OnOk result (Takes (rank_of state.old) boxes.old step.now (rank_of state.new) boxes.new) }
    ensures fault { IfErr result
        (AloneFault (rank_of state.old) step.now (IsTake (rank_of state.old) boxes.old step.now)) }
    ensures same_rank { result ≡ Err StepFault.Memory → rank_of state.new ≡ rank_of state.old }
    ensures same_boxes { result ≡ Err StepFault.Memory → boxes.new ≡ boxes.old }
{
    let hart = step.hart();
    let doing = state.next(hart);
    let Ok(ask) = state.ask_next(hart, &doing) else {
        return Err(StepFault::NotAStep);
    };
    let Ask::Look { link, part } = ask else {
        return Err(StepFault::NotAStep);
    };
    let number = number_of(link, part);
    let Some(settled) = get(boxes, number) else {
        return Err(StepFault::NotAStep);
    };
    if !settled.full || !follows_both(state.clock, settled.stamp, step.stamp()) {
        return Err(StepFault::NotAStep);
    }
    let taken = Answer::Taken(contents(state.site.version, &settled.words));
    let (stamp, words) = (step.stamp(), [0; 16]);
    tell(state, step, &doing, &taken)?;
    set(
        boxes,
        number,
        Settled {
            full: false,
            stamp,
            words,
        },
    );
    Ok(())
}

/// A box is seen empty by its sender.
pub(crate) fn freed(
    state: &mut RankState,
    boxes: &[[Settled; 16]],
    step: &Step,
) -> Result<(), StepFault>
    requires { step.now.hart < vec_len state.old.harts }
    ensures goes { OnOk result (IsFreed (rank_of state.old) boxes.now step.now
        × IsTold (rank_of state.old) step.now answer.Freed (rank_of state.new)) }
    ensures fault { IfErr result
        (AloneFault (rank_of state.old) step.now (IsFreed (rank_of state.old) boxes.now step.now)) }
    ensures same { result ≡ Err StepFault.Memory → rank_of state.new ≡ rank_of state.old }
{
    let hart = step.hart();
    let doing = state.next(hart);
    let Ok(ask) = state.ask_next(hart, &doing) else {
        return Err(StepFault::NotAStep);
    };
    let Ask::Freed { link, part } = ask else {
        return Err(StepFault::NotAStep);
    };
    let Some(settled) = get(boxes, number_of(link, part)) else {
        return Err(StepFault::NotAStep);
    };
    if settled.full || !follows_both(state.clock, settled.stamp, step.stamp()) {
        return Err(StepFault::NotAStep);
    }
    tell(state, step, &doing, &Answer::Freed)
}
