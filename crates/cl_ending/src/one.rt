//! A run on one thread that ends where nobody can go on.

ghost use Rattle.std.specs.Prelude.{◌≡◌, ◌↔◌, ◌⊎◌, ◌≤◌, Err, IfErr, IfOk, OnOk, false, length, true};
ghost use Rattle.cl_run.specs.Below.{IsArrivedRun};
ghost use Rattle.cl_ending.specs.DeadEnds.{IsFreeEnd, IsStuckAt};
ghost use Rattle.cl_ending.specs.Judged.{IsJudged};
ghost use Rattle.cl_record.specs.Plans.{ArePlans};
ghost use Rattle.cl_record.specs.Records.{IsMergedRun};
ghost use Rattle.cl_run.specs.Cuts.{IsEndedRun};
ghost use Rattle.cl_run.specs.Runs.{IsOneRun};

use crate::judging::{is_ended_stuck, is_stuck};
use cl_record::{Plan, Record, RunFault};
use cl_run::{Ended, run_one, run_one_until_quiet};
use rv_image_types::Image;
use std::alloc::Global;

/// What a run leaves, and whether it was ended at a deadlock.
#[derive(Drop)]
pub struct Stuck {
    pub left: Record,
    /// Each rank that has a hart that isn't stopped is in a deadlock. Of such a rank the record says Budget, with fewer
    /// turns than its plan gives where it was told to stop.
    pub stuck: bool,
}

/// What a run leaves that went by its plans to the end, once it's judged.
fn judge_whole(
    alloc: Global,
    image: &Image,
    plans: &[Plan],
    order: &[u8],
    left: Record,
) -> Result<Stuck, RunFault>
    requires run { IsOneRun image.now plans.now order.now left }
    requires merged { IsMergedRun image.now left }
    requires arrived { IsArrivedRun image.now left }
    ensures judged { IfOk result (IsJudged image.now plans.now order.now) }
    ensures fault { IfErr result (λ fault. fault ≡ RunFault.Memory) }
{
    // ghost: brings into scope that there are few ranks; no effect at run time
    let _parts = image.parts();
    let Ok(stuck) = is_ended_stuck(alloc, image, &left) else {
        drop(left);
        return Err(RunFault::Memory);
    };
    Ok(Stuck { left, stuck })
}

/// What a run leaves that goes by its plans to the end.
fn run_whole(alloc: Global, image: &Image, plans: &[Plan], order: &[u8]) -> Result<Stuck, RunFault>
    requires { ArePlans image.now plans.now order.now }
    ensures judged { IfOk result (IsJudged image.now plans.now order.now) }
    ensures fault { IfErr result (λ fault. fault ≡ RunFault.Memory) }
{
    let left = run_one(alloc, image, plans, order)?;
    judge_whole(alloc, image, plans, order, left)
}

/// What a run leaves, once it's judged: this one, or another to the end of its plans where this was ended for nothing.
fn judge(
    alloc: Global,
    image: &Image,
    plans: &[Plan],
    order: &[u8],
    ended: Ended,
) -> Result<Stuck, RunFault>
    requires right { ArePlans image.now plans.now order.now }
    requires run { IsEndedRun image.now plans.now order.now ended.left }
    requires whole { ended.quiet ≡ false → IsOneRun image.now plans.now order.now ended.left }
    requires merged { IsMergedRun image.now ended.left }
    requires arrived { IsArrivedRun image.now ended.left }
    ensures judged { IfOk result (IsJudged image.now plans.now order.now) }
    ensures fault { IfErr result (λ fault. fault ≡ RunFault.Memory) }
{
    // ghost: brings into scope that there are few ranks; no effect at run time
    let _parts = image.parts();
    let Ended { left, quiet } = ended;
    if !quiet {
        return judge_whole(alloc, image, plans, order, left);
    }
    let Ok(stuck) = is_stuck(alloc, image, &left) else {
        drop(left);
        return Err(RunFault::Memory);
    };
    if stuck {
        return Ok(Stuck { left, stuck });
    }
    drop(left);
    run_whole(alloc, image, plans, order)
}

/// Runs all ranks of the image on one thread, as `run_one` does, but that the run ends once each rank that has a running
/// or a waiting hart is in a deadlock. Where a hart is left out by its plan and still runs, or a rank whose turns are used
/// up could have gone on, nobody is in a deadlock, and the others wait for it as long as their plans let them.
///
/// No more than a few rounds are looked at in 32. Where all that is left looks in vain the run is ended and judged, for
/// which its steps are done once more. If they are in no deadlock it is done from its start again, to the end of its plans.
/// A run that its plans ended is judged too, unless all harts are stopped: so that a deadlock is told wherever it began.
///
/// Refusals: Plans where a plan or the order is wrong (and just there), Memory where the ranks, the hub, the record or
/// the judgement find no room.
pub fn run_one_until_stuck(
    alloc: Global,
    image: &Image,
    plans: &[Plan],
    order: &[u8],
) -> Result<Stuck, RunFault>
    ensures run { IfOk result (λ end. IsEndedRun image.now plans.now order.now end.left) }
    ensures whole { IfOk result (λ end. end.stuck ≡ false → IsOneRun image.now plans.now order.now end.left) }
    ensures free { IfOk result (λ end. end.stuck ≡ false → IsFreeEnd image.now end.left) }
    ensures stuck { IfOk result (λ end. end.stuck ≡ true → IsStuckAt image.now end.left) }
    ensures merged { IfOk result (λ end. IsMergedRun image.now end.left) }
    ensures arrived { IfOk result (λ end. IsArrivedRun image.now end.left) }
    ensures right { OnOk result (ArePlans image.now plans.now order.now) }
    ensures plans { (result ≡ Err RunFault.Plans) ↔ ¬ ArePlans image.now plans.now order.now }
    ensures fault { IfErr result (λ fault. (fault ≡ RunFault.Plans) ⊎ (fault ≡ RunFault.Memory)) }
{
    let ended = run_one_until_quiet(alloc, image, plans, order)?;
    judge(alloc, image, plans, order, ended)
}
