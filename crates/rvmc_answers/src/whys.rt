//! What harts wait for at a place of a run.

ghost use Rattle.std.specs.Prelude.{IfErr, IfOk};
ghost use Rattle.rvmc_inspect.specs.Below.{ReplayFaultHolds};
ghost use Rattle.rvmc_answers.specs.Whys.{IsWhyAt};

use cl_machine::Step;
use rv_image_types::Image;
use rvmc_inspect::{ReplayFault, replay, why};
use std::alloc::Global;

/// What the harts wait for where the first steps lead, so many, and with `framed` the calls that led there.
pub fn told_at(
    alloc: Global,
    framed: bool,
    image: &Image,
    steps: &[Step],
    place: u64,
) -> Result<Vec<u8>, ReplayFault>
    ensures told { IfOk result (λ text. IsWhyAt framed image.now steps.now place text.items) }
    ensures fault { IfErr result (ReplayFaultHolds image.now steps.now place) }
{
    // ghost: brings into scope that the parts are those of an image; no effect at run time
    let _parts = image.parts();
    let state = replay(alloc, image, steps, place)?;
    match why(alloc, image, &state, framed) {
        Ok(text) => Ok(text),
        Err(_) => Err(ReplayFault::Memory),
    }
}
