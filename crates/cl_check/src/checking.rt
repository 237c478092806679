//! A list of steps, checked.

ghost use Rattle.std.specs.Prelude.{◌≡◌, ◌↔◌, ◌<◌, IfOk, IsTrue, None, Some, length, slice_get, take};
ghost use Rattle.std.specs.List.{last_or};
ghost use Rattle.rv_image_types.specs.declared.images.ImageParts.{ImageParts};
ghost use Rattle.cl_machine.specs.Laws.{ComesAfter};
ghost use Rattle.cl_machine.specs.Steps.{Step as StepView};
ghost use Rattle.cl_check.specs.Checks.{IsVerdict};
ghost use Rattle.cl_replay.specs.Replaying.{IsReached};

use cl_machine::Step;
use cl_replay::{ClusterState, StepFault};
use rv_image_types::Image;
use std::alloc::{AllocError, Global};

/// What was found of a list of steps.
#[derive(Clone, Copy, PartialEq, Eq, Drop)]
pub enum Verdict {
    /// The steps are a run of the machine, in order of their stamps, and where stamps are equal of their ranks.
    Good,
    /// The steps before the one of this number, from 0, are so, and with it they aren't.
    BadAt(u64),
}

/// Whether a step comes before another: by its stamp, and where stamps are equal by its rank.
#[inline(always)]
fn is_before(step: &Step, other: &Step) -> bool
    ensures { IsTrue result ↔ ComesAfter (Some step.now) other.now }
{
    step.stamp() < other.stamp() || step.stamp() == other.stamp() && step.rank() < other.rank()
}

/// Whether step n comes after the one before it, if there is one.
#[inline(always)]
fn comes_next(steps: &[Step], n: usize) -> bool
    requires { n < length steps.now }
    ensures { (step : StepView) → slice_get steps.now n ≡ Some step
        → (IsTrue result ↔ ComesAfter (last_or None (take n steps.now)) step) }
{
    n == 0 || is_before(&steps[n - 1], &steps[n])
}

/// What these steps are from a cluster on: they are done one after another, up to the first that isn't the machine's or
/// doesn't come after the step before it.
///
/// The only error is want of memory, for what a step makes. Then the state may be anything.
fn check_from(state: &mut ClusterState, steps: &[Step]) -> Result<Verdict, AllocError>
    ensures { (image : ImageParts) → IsReached image steps.now 0 state.old
        → IfOk result (IsVerdict image steps.now) }
{
    let mut n = 0;
    while n < steps.len() {
        if !comes_next(steps, n) {
            return Ok(Verdict::BadAt(n as u64));
        }
        match state.step(&steps[n]) {
            Ok(()) => {}
            Err(StepFault::NotAStep) => return Ok(Verdict::BadAt(n as u64)),
            Err(StepFault::Memory) => return Err(AllocError),
        }
        n = state.go_on(steps, n + 1, steps.len());
    }
    Ok(Verdict::Good)
}

/// Whether these steps are a run of the image, from its loaded cluster on, in order of their stamps;
/// else the first step with which they aren't: it doesn't come after the step before it, or the
/// machine has no such step there.
///
/// It decides by the written machine alone, and needs nothing besides the steps. A second step of
/// one rank and one stamp is bad; turns of stopped harts, any number of turns, and looks in vain at
/// a box that is full are good.
///
/// Refused only where memory is, for the loaded cluster or for what a step makes.
pub fn check(alloc: Global, image: &Image, steps: &[Step]) -> Result<Verdict, AllocError>
    ensures { IfOk result (IsVerdict image.now steps.now) }
{
    let mut state = ClusterState::load(alloc, image)?;
    check_from(&mut state, steps)
}
