//! All ranks on one thread.

ghost use Rattle.std.specs.Prelude.{◌≡◌, ◌↔◌, ◌⊎◌, Err, IfErr, IfOk, OnOk, false};
ghost use Rattle.cl_arrival_laws.specs.Runs.{IsArrivedRun};
ghost use Rattle.cl_record.specs.Plans.{ArePlans};
ghost use Rattle.cl_record.specs.Records.{IsMergedRun};
ghost use Rattle.cl_run.specs.Cuts.{IsEndedRun};
ghost use Rattle.cl_run.specs.Runs.{IsOneRun};

use crate::ended::Ended;
use crate::loading::Loaded;
use cl_record::{Plan, Record, RunFault};
use rv_image_types::Image;
use std::alloc::Global;

/// Runs all ranks of the image on one thread, each by its plan, until each is stopped. The order lists ranks by their
/// numbers, a turn each, round and round; a rank that is stopped is passed over.
///
/// Refusals: Plans where a plan or the order is wrong (and just there), Memory where the ranks, the hub or the record
/// find no room, before the first turn. A rank that stops for want of memory is no refusal: the record says so.
pub fn run_one(
    alloc: Global,
    image: &Image,
    plans: &[Plan],
    order: &[u8],
) -> Result<Record, RunFault>
    ensures run { IfOk result (IsOneRun image.now plans.now order.now) }
    ensures merged { IfOk result (IsMergedRun image.now) }
    ensures arrived { IfOk result (IsArrivedRun image.now) }
    ensures right { OnOk result (ArePlans image.now plans.now order.now) }
    ensures plans { (result ≡ Err RunFault.Plans) ↔ ¬ ArePlans image.now plans.now order.now }
    ensures fault { IfErr result (λ fault. (fault ≡ RunFault.Plans) ⊎ (fault ≡ RunFault.Memory)) }
{
    let loaded = Loaded::new(alloc, image, plans, order)?;
    Ok(loaded.run())
}

/// The same, but that the run ends where no hart runs and each that waits has looked in vain over and over, as
/// `Loaded::run_until_quiet` tells it.
///
/// Refusals: those of `run_one`.
pub fn run_one_until_quiet(
    alloc: Global,
    image: &Image,
    plans: &[Plan],
    order: &[u8],
) -> Result<Ended, RunFault>
    ensures run { IfOk result (λ ended. IsEndedRun image.now plans.now order.now ended.left) }
    ensures whole { IfOk result (λ ended. ended.quiet ≡ false
        → IsOneRun image.now plans.now order.now ended.left) }
    ensures merged { IfOk result (λ ended. IsMergedRun image.now ended.left) }
    ensures arrived { IfOk result (λ ended. IsArrivedRun image.now ended.left) }
    ensures right { OnOk result (ArePlans image.now plans.now order.now) }
    ensures plans { (result ≡ Err RunFault.Plans) ↔ ¬ ArePlans image.now plans.now order.now }
    ensures fault { IfErr result (λ fault. (fault ≡ RunFault.Plans) ⊎ (fault ≡ RunFault.Memory)) }
{
    let loaded = Loaded::new(alloc, image, plans, order)?;
    Ok(loaded.run_until_quiet())
}
