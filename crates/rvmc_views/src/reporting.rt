//! The report of a record.

ghost use Rattle.std.specs.Prelude.{IfErr, IfOk};
ghost use Rattle.rvmc_line.specs.declared.line.RecordCommand.TheVariants as command;
ghost use Rattle.rvmc_views.specs.Faults.{IsStepsFault};
ghost use Rattle.rvmc_answers.specs.Outputs.{output_bytes};
ghost use Rattle.rvmc_views.specs.Records.{IsReported};

use cl_machine::Step;
use cl_replay::ReplayFault;
use rv_image_types::Image;
use rvmc_answers::faults::Fault;
use rvmc_answers::recorded::recorded_report;
use rvmc_answers::{Answer, End, Output};
use std::alloc::Global;

/// `report`: the report of the state to which the steps lead. A wrong step is a fault of the input.
pub(crate) fn reported(alloc: Global, image: &Image, steps: &[Step]) -> Result<Answer, Fault>
    ensures tells { IfOk result (λ answer.
        IsReported image.now steps.now (output_bytes answer.output) answer.end) }
    ensures fault { IfErr result (IsStepsFault command.Report image.now steps.now) }
{
    match recorded_report(alloc, image, steps) {
        Ok(told) => Ok(Answer {
            output: Output::Text(told.text),
            end: End::Status(told.status),
        }),
        Err(ReplayFault::Step(number)) => Err(Fault::Report(number)),
        Err(ReplayFault::Memory) => Err(Fault::Memory),
        Err(ReplayFault::PastEnd(_)) => unreachable!(),
    }
}
