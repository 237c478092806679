//! Pictures of records.

ghost use Rattle.std.specs.Prelude.{◌≡◌, IfErr, IfOk};
ghost use Rattle.rvmc_line.specs.declared.line.RecordCommand.TheVariants as command;
ghost use Rattle.rvmc_page.specs.Below.{IsDrawing, view_of};
ghost use Rattle.rvmc_views.specs.Faults.{IsStepsFault, fault_of_draw};
ghost use Rattle.rvmc_answers.specs.Outputs.{output_bytes};
ghost use Rattle.rvmc_views.specs.Records.{IsPicture};
ghost use Rattle.rvmc_answers.specs.declared.answers.End.TheVariants.{Status};

use cl_machine::Step;
use rv_image_types::Image;
use rvmc_answers::faults::{DrawRefusal, Fault, PlaceFault};
use rvmc_answers::{Answer, End, Output};
use rvmc_draw::Drawing;
use rvmc_page::{DrawFault, drawing};
use rvmc_svg::svg;
use std::alloc::Global;

/// What is told of a fault of a picture.
fn refused(fault: DrawFault) -> Fault
    ensures { result ≡ fault_of_draw fault }
{
    match fault {
        DrawFault::Replay(fault) => match PlaceFault::of(fault) {
            Some(place) => Fault::Draw(DrawRefusal::Place(place)),
            None => Fault::Memory,
        },
        DrawFault::TooMany(count) => Fault::Draw(DrawRefusal::TooMany(count)),
    }
}

/// What is drawn of the steps from one place to another, or why nothing is.
#[tactic(auto, using(crate::proofs::Lists::draw_fault))]
fn drawn(
    alloc: Global,
    image: &Image,
    steps: &[Step],
    from: u64,
    to: Option<u64>,
) -> Result<Drawing, Fault>
    ensures is { IfOk result (λ picture. IsDrawing image.now steps.now (view_of from to steps.now) picture) }
    ensures fault { IfErr result (IsStepsFault (command.Draw from to) image.now steps.now) }
{
    match drawing(alloc, image, steps, from, to) {
        Ok(picture) => Ok(picture),
        Err(fault) => Err(refused(fault)),
    }
}

/// `draw`: the steps from one place to another as a picture. A place that isn't there, a wrong step, and more marks than a
/// picture may have are faults of the input.
pub(crate) fn pictured(
    alloc: Global,
    image: &Image,
    steps: &[Step],
    from: u64,
    to: Option<u64>,
) -> Result<Answer, Fault>
    ensures tells { IfOk result (λ answer.
        IsPicture image.now steps.now from to (output_bytes answer.output) × (answer.end ≡ Status 0)) }
    ensures fault { IfErr result (IsStepsFault (command.Draw from to) image.now steps.now) }
{
    let picture = drawn(alloc, image, steps, from, to)?;
    // nothing but memory is refused where a text is put together
    let Ok(text) = svg(alloc, &picture) else {
        return Err(Fault::Memory);
    };
    Ok(Answer {
        output: Output::Text(text),
        end: End::Status(0),
    })
}
