//! What harts wait for at a place of a record.

ghost use Rattle.std.specs.Prelude.{◌≡◌, IfErr, IfOk};
ghost use Rattle.rvmc_line.specs.declared.line.RecordCommand.TheVariants as command;
ghost use Rattle.rvmc_answers.specs.Outputs.{output_bytes};
ghost use Rattle.rvmc_answers.specs.Whys.{IsWhyAt};
ghost use Rattle.rvmc_answers.specs.declared.answers.End.TheVariants.{Status};
ghost use Rattle.rvmc_views.specs.Faults.{IsStepsFault};
ghost use Rattle.rvmc_views.specs.Records.{place_asked};

use cl_machine::Step;
use rv_image_types::Image;
use rvmc_answers::faults::Fault;
use rvmc_answers::{Answer, told_at};
use std::alloc::Global;

/// The place of which `why` tells: so many steps are done, or all.
fn place_in(steps: &[Step], at: Option<u64>) -> u64
    ensures { result ≡ place_asked at steps.now }
{
    match at {
        Some(number) => number,
        None => steps.len() as u64,
    }
}

/// `why`: what the harts wait for where the first `at` steps of the record lead, or else all of them. A place that isn't
/// there, or before which a step is wrong, is a fault of the input.
pub(crate) fn explained(
    alloc: Global,
    image: &Image,
    steps: &[Step],
    at: Option<u64>,
    framed: bool,
) -> Result<Answer, Fault>
    ensures tells { IfOk result (λ answer.
        IsWhyAt framed image.now steps.now (place_asked at steps.now) (output_bytes answer.output)
        × (answer.end ≡ Status 0)) }
    ensures fault { IfErr result (IsStepsFault (command.Why at framed) image.now steps.now) }
{
    let place = place_in(steps, at);
    let text = told_at(alloc, framed, image, steps, place)?;
    Ok(Answer::done(text))
}
