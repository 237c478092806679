//! Records that others may have written, and what is told of them.

ghost use Rattle.std.specs.Prelude.{IfErr, IfOk};
ghost use Rattle.cl_check.specs.Texts.{IsCheckOf};
ghost use Rattle.cl_text.specs.Reading.{reading_record};
ghost use Rattle.rvmc_line.specs.declared.line.RecordCommand.TheVariants as command;
ghost use Rattle.rvmc_views.specs.Faults.{HasTold, IsReadFault, IsUnread};
ghost use Rattle.rvmc_answers.specs.Ends.{end_status};
ghost use Rattle.rvmc_answers.specs.Outputs.{output_bytes};
ghost use Rattle.rvmc_views.specs.Records.{SaysOfRecord};

use crate::verdicts::{verdict_status, verdict_text};
use cl_check::{Checked, check_text};
use rvmc_answers::faults::Fault;
use rvmc_answers::{Answer, End, Output};
use std::alloc::Global;

/// The verdict on the record that the bytes spell, or its first fault.
fn verdict_of(alloc: Global, bytes: &[u8]) -> Result<Checked, Fault>
    ensures found { IfOk result (IsCheckOf (reading_record bytes.now)) }
    ensures fault { IfErr result (IsUnread bytes.now) }
{
    Ok(check_text(alloc, bytes)?)
}

/// `check`: whether the steps of the record that the bytes spell are a run of its image, in order.
#[tactic(auto, using(crate::proofs::Readings::check_says, crate::proofs::Readings::check_has_told, crate::proofs::Readings::unread))]
pub(crate) fn checked(alloc: Global, bytes: &[u8]) -> Result<Answer, Fault>
    ensures says { IfOk result (λ answer.
        SaysOfRecord command.Check bytes.now (output_bytes answer.output) (end_status answer.end)) }
    ensures ends { IfOk result (λ answer. HasTold command.Check bytes.now (output_bytes answer.output) answer.end) }
    ensures fault { IfErr result (IsReadFault command.Check (reading_record bytes.now)) }
{
    let found = verdict_of(alloc, bytes)?;
    let text = verdict_text(alloc, found.verdict, found.steps as usize)?;
    Ok(Answer {
        output: Output::Text(text.into_bytes()),
        end: End::Status(verdict_status(found.verdict)),
    })
}
