//! A run with a thread for each rank that ends where nobody can go on.

ghost use Rattle.std.specs.Prelude.{◌≡◌, ◌↔◌, ◌≤◌, Err, IfErr, IfOk, false, length, true};
ghost use Rattle.cl_run.specs.Below.{IsArrivedRun};
ghost use Rattle.cl_ending.specs.DeadEnds.{IsFreeEnd, IsNotStuckAt, IsStuckAt};
ghost use Rattle.cl_ending.specs.declared.threads.Outcome.TheVariants.{Planned, Stuck as IsStuck, Told};
ghost use Rattle.cl_record.specs.Plans.{HasPlans};
ghost use Rattle.cl_record.specs.Records.{IsMergedRun};
ghost use Rattle.cl_threads.specs.Cuts.{IsEndedThreadRun, IsSomeTold};
ghost use Rattle.cl_threads.specs.CutRefusals.{IsEndedRefusal};
ghost use Rattle.cl_threads.specs.Runs.{IsThreadRun};

use crate::judging::{is_ended_stuck, is_stuck};
use cl_record::{Plan, Record, RunFault};
use cl_threads::{Ended, Gate, run_threads_until_told};
use rv_image_types::Image;
use std::alloc::{AllocError, Global};
use std::sync::Wait;
use std::thread::Threads;

/// How a run with a thread for each rank came to its end.
#[derive(Clone, Copy, PartialEq, Eq, Drop, Debug)]
pub enum Outcome {
    /// Each rank stopped by its plan, and not all that have a hart that isn't stopped are in a deadlock.
    Planned,
    /// Each that has a hart that isn't stopped is in a deadlock.
    Stuck,
    /// Ranks were told to stop, and the state that they left is no such deadlock.
    Told,
}

/// What such a run leaves, and how it came to its end. Of a rank that was told to stop the record says Budget, with fewer
/// turns than its plan gives.
#[derive(Drop)]
pub struct StuckThreads {
    pub left: Record,
    pub outcome: Outcome,
}

/// How it came to its end, of what it left.
fn judge(alloc: Global, image: &Image, left: &Record, told: bool) -> Result<Outcome, AllocError>
    requires merged { IsMergedRun image.now left.now }
    requires few { length left.now.traces.items ≤ 256 }
    ensures planned { IfOk result (λ outcome. outcome ≡ Planned → told ≡ false) }
    ensures free { IfOk result (λ outcome. outcome ≡ Planned → IsFreeEnd image.now left.now) }
    ensures stuck { IfOk result (λ outcome. outcome ≡ IsStuck → IsStuckAt image.now left.now) }
    ensures told { IfOk result (λ outcome. outcome ≡ Told → told ≡ true) }
    ensures goes_on { IfOk result (λ outcome. outcome ≡ Told → IsNotStuckAt image.now left.now) }
{
    if told {
        if is_stuck(alloc, image, left)? {
            Ok(Outcome::Stuck)
        } else {
            Ok(Outcome::Told)
        }
    } else if is_ended_stuck(alloc, image, left)? {
        Ok(Outcome::Stuck)
    } else {
        Ok(Outcome::Planned)
    }
}

/// Runs each rank of the image on a thread of its own, as `run_threads` does, but that the run ends once all ranks that are
/// left look in vain, by the gate's roll. Whether that is a deadlock is judged by the state that they left, also where their
/// plans ended them, unless all harts are stopped.
///
/// Where a hart is left out by its plan and still runs, or a rank stopped that has a hart that isn't, nobody is told to
/// stop.
///
/// Refusals: those of `run_threads`, and Memory where the judgement finds no room.
pub fn run_threads_until_stuck<R: Threads + Wait + Sync, G: Gate>(
    rt: &R,
    alloc: Global,
    image: &Image,
    plans: &[Plan],
    gate: &G,
) -> Result<StuckThreads, RunFault>
    ensures run { IfOk result (λ end. IsEndedThreadRun image.now plans.now end.left) }
    ensures whole { IfOk result (λ end. end.outcome ≡ Planned → IsThreadRun image.now plans.now end.left) }
    ensures free { IfOk result (λ end. end.outcome ≡ Planned → IsFreeEnd image.now end.left) }
    ensures told { IfOk result (λ end. end.outcome ≡ Told → IsSomeTold plans.now end.left) }
    ensures goes_on { IfOk result (λ end. end.outcome ≡ Told → IsNotStuckAt image.now end.left) }
    ensures stuck { IfOk result (λ end. end.outcome ≡ IsStuck → IsStuckAt image.now end.left) }
    ensures merged { IfOk result (λ end. IsMergedRun image.now end.left) }
    ensures arrived { IfOk result (λ end. IsArrivedRun image.now end.left) }
    ensures plans { (result ≡ Err RunFault.Plans) ↔ ¬ HasPlans image.now plans.now }
    ensures fault { IfErr result (IsEndedRefusal image.now plans.now) }
{
    // ghost: brings into scope that there are few ranks; no effect at run time
    let _parts = image.parts();
    let Ended { left, told } = run_threads_until_told(rt, alloc, image, plans, gate)?;
    let Ok(outcome) = judge(alloc, image, &left, told) else {
        drop(left);
        return Err(RunFault::Memory);
    };
    Ok(StuckThreads { left, outcome })
}
