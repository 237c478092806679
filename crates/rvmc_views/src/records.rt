//! What a command answers that takes a record: it is read here once, for all of them but `check`, which reads it as it goes.

ghost use Rattle.std.specs.Prelude.{◌≡◌, ◌≢◌, [], IfErr, IfOk, List, Ok, false};
ghost use Rattle.cl_text.specs.Reading.{reading_record};
ghost use Rattle.rvmc_line.specs.declared.line.RecordCommand.TheVariants as asked;
ghost use Rattle.rvmc_words.specs.declared.debug.DebugWord.{DebugWord};
ghost use Rattle.rvmc_answers.specs.Ends.{end_status};
ghost use Rattle.rvmc_views.specs.Faults.{HasTold, IsReadFault, IsStepsFault, IsUnread};
ghost use Rattle.rvmc_answers.specs.Outputs.{output_bytes};
ghost use Rattle.rvmc_views.specs.Records.{SaysOfRecord, TellsOfSteps, is_in_pieces, record_part};

use crate::checks::checked;
use crate::debugging::debugged;
use crate::drawing::pictured;
use crate::explaining::explained;
use crate::listing::counted_steps;
use crate::reporting::reported;
use cl_machine::Step;
use cl_text::read_record;
use rv_image_types::Image;
use rvmc_answers::Answer;
use rvmc_answers::faults::Fault;
use rvmc_line::RecordCommand;
use std::alloc::Global;

/// The image and the steps of the record that the bytes spell, or its first fault.
pub(crate) fn read(alloc: Global, bytes: &[u8]) -> Result<(Image, Vec<Step>), Fault>
    ensures read { IfOk result (λ found. reading_record bytes.now ≡ Ok (found.0, found.1.items)) }
    ensures fault { IfErr result (IsUnread bytes.now) }
{
    Ok(read_record(alloc, bytes)?)
}

/// What a command that only looks at the image and the steps of a record tells of them, or the fault for which it tells
/// nothing: one case a command. What `list` and `page` tell isn't made here: it is written as it is made. Nor is what
/// `check` tells, which needs no list of the steps.
fn told_of(
    alloc: Global,
    image: &Image,
    steps: &[Step],
    command: &RecordCommand,
) -> Result<Answer, Fault>
    requires whole { is_in_pieces command.now ≡ false }
    requires looks { (words : List DebugWord) → command.now ≢ asked.Debug words }
    requires listed { command.now ≢ asked.Check }
    ensures tells { IfOk result (λ answer.
        TellsOfSteps command.now [] image.now steps.now (output_bytes answer.output) answer.end) }
    ensures fault { IfErr result (IsStepsFault command.now image.now steps.now) }
{
    match command {
        RecordCommand::Report => reported(alloc, image, steps),
        RecordCommand::Stats { from, to, rank } => {
            counted_steps(alloc, image, steps, *from, *to, *rank)
        }
        RecordCommand::Draw { from, to } => pictured(alloc, image, steps, *from, *to),
        RecordCommand::Why { at, frames } => explained(alloc, image, steps, *at, *frames),
        RecordCommand::Check
        | RecordCommand::List { .. }
        | RecordCommand::Page { .. }
        | RecordCommand::Debug { .. } => unreachable!(),
    }
}

/// What a command tells of the image and the steps of a record. A debugger keeps both; what only looks at them borrows them.
fn told(
    alloc: Global,
    image: Image,
    steps: Vec<Step>,
    command: &RecordCommand,
) -> Result<Answer, Fault>
    requires whole { is_in_pieces command.now ≡ false }
    requires listed { command.now ≢ asked.Check }
    ensures tells { IfOk result (λ answer.
        TellsOfSteps command.now [] image steps.items (output_bytes answer.output) answer.end) }
    ensures fault { IfErr result (IsStepsFault command.now image steps.items) }
{
    match command {
        RecordCommand::Debug { words } => debugged(alloc, image, steps, words),
        _ => told_of(alloc, &image, &steps, command),
    }
}

/// What a command answers to the bytes of a record.
#[tactic(auto, using(crate::proofs::Readings::told_whole, crate::proofs::Readings::steps_whole, crate::proofs::Readings::says_whole, crate::proofs::Readings::unread_whole))]
pub fn answer_of_record(
    alloc: Global,
    bytes: &[u8],
    command: &RecordCommand,
) -> Result<Answer, Fault>
    requires { is_in_pieces command.now ≡ false }
    ensures says { IfOk result (λ answer.
        SaysOfRecord command.now bytes.now (output_bytes answer.output) (end_status answer.end)) }
    ensures ends { IfOk result (λ answer. HasTold command.now bytes.now (output_bytes answer.output) answer.end) }
    ensures fault { IfErr result (IsReadFault command.now (reading_record (record_part command.now bytes.now))) }
{
    if let RecordCommand::Check = command {
        return checked(alloc, bytes);
    }
    let (image, steps) = read(alloc, bytes)?;
    let answer = told(alloc, image, steps, command)?;
    Ok(answer)
}
