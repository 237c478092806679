//! Ranks that are loaded, and their run.

ghost use Rattle.std.specs.Prelude.{◌≡◌, ◌↔◌, ◌⊎◌, Err, IfErr, IfOk, false, length};
ghost use Rattle.cl_arrival_laws.specs.Runs.{IsArrivedRun};
ghost use Rattle.cl_run.specs.Driver.{IsLoaded};
ghost use Rattle.cl_record.specs.Plans.{ArePlans, HasPlans};
ghost use Rattle.cl_record.specs.Records.{IsMergedRun};
ghost use Rattle.cl_run.specs.Cuts.{IsEndedRun};
ghost use Rattle.cl_run.specs.Runs.{IsOneRun};

use crate::driver::Driver;
use crate::ended::Ended;
use crate::quiet::longest;
use cl_record::{Lists, Plan, Record, RunFault, are_plans};
use rv_image_types::Image;
use std::alloc::{AllocError, Global};
use std::marker::Model;

/// All ranks of an image as they are loaded, a hub that was never called, the channels of all links, and the room for
/// what their run leaves. So nothing but the ranks' own turns asks for memory from here on, and a run that is loaded
/// always leaves a record.
///
/// Contracts see what is run: the image, the plans and the order.
#[derive(Drop)]
pub struct Loaded<'a> {
    image: &'a Image,
    plans: &'a [Plan],
    order: &'a [u8],
    driver: Driver<'a>,
    lists: Lists,
}

impl<'a> Model for Loaded<'a> {
    ghost use Rattle.cl_run.specs.Driver.{IsLoaded};
    ghost use Rattle.cl_record.specs.Plans.{ArePlans};
    ghost use Rattle.cl_run.specs.Setups.{Setup};

    ghost Value = { Setup };

    ghost view = { λ l. record { image = l.image.now; plans = l.plans.now; order = l.order.now } };

    ghost invariant = { λ l. ArePlans l.image.now l.plans.now l.order.now
        × IsLoaded l.image.now l.plans.now l.driver l.lists };
}

/// All ranks as they are loaded, and the room for what their run leaves.
fn load_all<'a>(
    alloc: Global,
    image: &Image,
    plans: &'a [Plan],
) -> Result<(Driver<'a>, Lists), AllocError>
    requires { HasPlans image.now plans.now }
    ensures { IfOk result (λ loaded. IsLoaded image.now plans.now loaded.0 loaded.1) }
{
    let links = image.parts().links.as_slice().len();
    // the driver last, since it has the most to let go of
    let lists = Lists::with_room(alloc, plans.len(), links)?;
    let driver = Driver::load(alloc, image, plans)?;
    Ok((driver, lists))
}

impl<'a> Loaded<'a> {
    /// Loads the ranks of an image, to be run by these plans with the ranks in this order.
    ///
    /// Refusals: Plans where a plan or the order is wrong (and just there), Memory.
    pub fn new(
        alloc: Global,
        image: &'a Image,
        plans: &'a [Plan],
        order: &'a [u8],
    ) -> Result<Loaded<'a>, RunFault>
        ensures loaded { IfOk result (λ loaded.
            loaded ≡ record { image = image.now; plans = plans.now; order = order.now }) }
        ensures plans { (result ≡ Err RunFault.Plans) ↔ ¬ ArePlans image.now plans.now order.now }
        ensures fault { IfErr result (λ fault. (fault ≡ RunFault.Plans) ⊎ (fault ≡ RunFault.Memory)) }
    {
        if !are_plans(image, plans, order) {
            return Err(RunFault::Plans);
        }
        let Ok((driver, lists)) = load_all(alloc, image, plans) else {
            return Err(RunFault::Memory);
        };
        Ok(Loaded {
            image,
            plans,
            order,
            driver,
            lists,
        })
    }

    /// Runs all ranks, each by its plan, until each is stopped. A rank that is refused memory in a turn stops, and the
    /// record says so: the run itself is never refused.
    pub fn run(self) -> Record
        ensures plans { ArePlans self.entry.image self.entry.plans self.entry.order }
        ensures run { IsOneRun self.entry.image self.entry.plans self.entry.order result }
        ensures merged { IsMergedRun self.entry.image result }
        ensures arrived { IsArrivedRun self.entry.image result }
    {
        let Loaded {
            image,
            plans: _,
            order,
            mut driver,
            lists,
        } = self;
        // ghost: brings into scope that the parts are those of an image; no effect at run time
        let _parts = image.parts();
        driver.run(order);
        driver.into_record(lists)
    }

    /// Runs all ranks, each by its plan, until each is stopped, or until no hart runs and each that waits has looked in
    /// vain over and over: then each rank that hasn't stopped is told to, and the record says Budget of it, with fewer
    /// turns than its plan gives. Whether what they wait for can come at all isn't asked here.
    pub fn run_until_quiet(self) -> Ended
        ensures plans { ArePlans self.entry.image self.entry.plans self.entry.order }
        ensures run { IsEndedRun self.entry.image self.entry.plans self.entry.order result.left }
        ensures whole { result.quiet ≡ false
            → IsOneRun self.entry.image self.entry.plans self.entry.order result.left }
        ensures merged { IsMergedRun self.entry.image result.left }
        ensures arrived { IsArrivedRun self.entry.image result.left }
    {
        let Loaded {
            image,
            plans,
            order,
            mut driver,
            lists,
        } = self;
        // ghost: brings into scope that the parts are those of an image; no effect at run time
        let _parts = image.parts();
        let quiet = driver.run_until_quiet(order, longest(plans));
        let left = driver.into_record(lists);
        Ended { left, quiet }
    }
}
