//! Records that are walked through, word by word.

ghost use Rattle.std.specs.Prelude.{◌≡◌, IfErr, IfOk};
ghost use Rattle.rvmc_line.specs.declared.line.RecordCommand.TheVariants as command;
ghost use Rattle.rvmc_views.specs.Faults.{IsStepsFault};
ghost use Rattle.rvmc_answers.specs.Outputs.{output_bytes};
ghost use Rattle.rvmc_views.specs.Records.{IsDebugged, end_after};

use cl_debug::{DebugFault, Debugger};
use cl_machine::Step;
use rv_image_types::Image;
use rvmc_answers::faults::Fault;
use rvmc_answers::{Answer, End, Output, tell_all};
use rvmc_words::DebugWords;
use std::alloc::Global;

/// How words end: all of them are done, or one is refused.
fn end_of(fault: Option<DebugFault>) -> End
    ensures { result ≡ end_after fault }
{
    match fault {
        Some(fault) => End::Cut(Fault::from(fault)),
        None => End::Status(0),
    }
}

/// `debug`: the texts of the words on the record, up to the first word that is refused. The record is opened before any
/// word is done: steps that are no run of their image are a fault of the input.
pub(crate) fn debugged(
    alloc: Global,
    image: Image,
    steps: Vec<Step>,
    words: &DebugWords,
) -> Result<Answer, Fault>
    ensures tells { IfOk result (λ answer.
        IsDebugged image steps.items words.now (output_bytes answer.output) answer.end) }
    ensures fault { IfErr result (IsStepsFault (command.Debug words.now) image steps.items) }
{
    let mut debugger = Debugger::open(alloc, image, steps)?;
    let told = tell_all(alloc, &mut debugger, words.as_slice());
    Ok(Answer {
        output: Output::Text(told.text),
        end: end_of(told.fault),
    })
}
