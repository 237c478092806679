//! Turns of an order, taken one after another from the loaded cluster on.

ghost use Rattle.std.specs.Prelude.{◌≡◌, ◌<◌, IfErr, IfOk, OnOk, length, map};
ghost use Rattle.rv_image_types.specs.declared.images.ImageParts.{ImageParts};
ghost use Rattle.cl_order_laws.specs.Orders.{is_miss, turn_of};
ghost use Rattle.cl_moves.specs.Standing.{IsStart};
ghost use Rattle.cl_explore.specs.Orders.{IsChosen, IsLedBy, OrderFaultHolds, TakesTurn, named};
ghost use Rattle.cl_explore.specs.declared.orders.OrderFault.TheVariants.{Move};

use crate::course::Course;
use cl_machine::{KindRef, Step};
use cl_moves::{MoveFault, Standing, turns_of};
use cl_trace::Bare;
use cl_turns::Turn;
use rv_image_types::Image;
use std::alloc::{AllocError, Global};

/// Why the turns of an order lead nowhere.
#[derive(Clone, Copy, Drop)]
pub enum OrderFault {
    /// They weren't told, or not taken.
    Move(MoveFault),
    /// The turns before lead to where there is no turn as the one of this number, from 0.
    NoTurn(usize),
}

impl From<MoveFault> for OrderFault {
    ghost from_gives = { λ fault result. result ≡ Move fault };

    fn from(fault: MoveFault) -> OrderFault {
        OrderFault::Move(fault)
    }
}

impl From<AllocError> for OrderFault {
    ghost use Rattle.cl_moves.specs.declared.faults.MoveFault.TheVariants.{Memory};

    ghost from_gives = { λ _ result. result ≡ Move Memory };

    fn from(_e: AllocError) -> OrderFault {
        OrderFault::Move(MoveFault::Memory)
    }
}

/// Whether a turn looks at a box and doesn't see what may be in it.
fn is_miss(turn: &Step) -> bool
    ensures { result ≡ is_miss turn.now.kind }
{
    match turn.kind() {
        KindRef::Bare(kind) => match kind {
            Bare::Miss => true,
            _ => false,
        },
        KindRef::Hub(_) => false,
    }
}

/// The turn that a step is.
fn turn_of(step: &Step) -> Turn
    ensures { named result ≡ turn_of step.now }
{
    Turn {
        rank: step.rank(),
        misses: is_miss(step),
    }
}

/// The turns that steps are.
pub(crate) fn turns_in(alloc: Global, steps: &[Step]) -> Result<Vec<Turn>, AllocError>
    ensures { IfOk result (λ turns. map named turns.items ≡ map turn_of steps.now) }
{
    let mut turns = Vec::with_capacity(alloc, steps.len())?;
    for step in steps {
        turns.push(turn_of(step))?;
    }
    Ok(turns)
}

/// The one of a hart's turns that misses, or that doesn't.
pub(crate) fn chosen(mut turns: Vec<Step>, misses: bool) -> Option<Step>
    ensures { IsChosen turns.items misses result }
{
    'rest: loop {
        match turns.pop() {
            None => return None,
            Some(turn) => {
                if is_miss(&turn) == misses {
                    return Some(turn);
                }
            }
        }
    }
}

/// Takes a turn of an order, and notes it. False where there is none, and then the standing may be anything.
///
/// Refusals: Clock, Memory. Then it may be anything too.
fn take_turn(course: &Course<'_>, standing: &mut Standing, turn: Turn) -> Result<bool, MoveFault>
    requires { 0 < length course.now.order.now }
    ensures { IfOk result (TakesTurn course.now.order.now standing.old turn standing.new) }
{
    let Some(hart) = standing.next_hart(turn.rank, course.order) else {
        return Ok(false);
    };
    let turns = turns_of(course.alloc, &standing.cluster, turn.rank, hart)?;
    let Some(step) = chosen(turns, turn.misses) else {
        return Ok(false);
    };
    standing.take(step)
}

/// Turns, taken one after another from a standing on. After a refusal the standing may be anything.
///
/// Refusals: NoTurn where there is no such turn; else Clock or Memory.
fn take_turns(
    course: &Course<'_>,
    standing: &mut Standing,
    turns: &[Turn],
) -> Result<(), OrderFault>
    requires { 0 < length course.now.order.now }
    ensures led { OnOk result ((image : ImageParts) → IsStart image standing.old
        → IsLedBy image course.now.order.now turns.now standing.new) }
    ensures fault { IfErr result (λ fault. (image : ImageParts) → IsStart image standing.old
        → OrderFaultHolds image course.now.order.now turns.now fault) }
{
    for place in 0..turns.len() {
        let turn = turns[place];
        if !take_turn(course, standing, turn)? {
            return Err(OrderFault::NoTurn(place));
        }
    }
    Ok(())
}

/// Where turns lead from the loaded cluster.
///
/// Refusals: NoTurn where there is no such turn; else Clock or Memory.
pub(crate) fn follow(
    course: &Course<'_>,
    image: &Image,
    turns: &[Turn],
) -> Result<Standing, OrderFault>
    requires { 0 < length course.now.order.now }
    ensures led { IfOk result (IsLedBy image.now course.now.order.now turns.now) }
    ensures fault { IfErr result (OrderFaultHolds image.now course.now.order.now turns.now) }
{
    let mut standing = Standing::load(course.alloc, image)?;
    take_turns(course, &mut standing, turns)?;
    Ok(standing)
}
