//! Runs of an image, and what is told of them.

ghost use Rattle.std.specs.Prelude.{◌≡◌, IfErr, IfOk};
ghost use Rattle.cl_record.specs.Plans.{ArePlans, HasPlans};
ghost use Rattle.rv_image_types.specs.Image.{IsImage};
ghost use Rattle.rvmc_answers.specs.Plans.{ByPlans, listed};
ghost use Rattle.rvmc_runs.specs.Runs.{IsLeftByOne, IsLeftByThreads, IsOne, IsRecordOf, IsRunBy, IsTextOf};
ghost use Rattle.rvmc_runs.specs.Making.{IsLeft};
ghost use Rattle.rvmc_answers.specs.Ends.{end_status};
ghost use Rattle.rvmc_answers.specs.Making.{IsRunFault, IsWhole};
ghost use Rattle.rvmc_answers.specs.Outputs.{ends_by_budget, hides_a_wait, output_bytes};
ghost use Rattle.rvmc_runs.specs.Waiting.{is_spent, is_told_waiting};
ghost use Rattle.rvmc_answers.specs.Below.{rank_ends, status_of};

use crate::explaining::report_with_why;
use crate::waiting::{any_waits, is_spent};
use cl_merge::merge;
use cl_record::{Plan, Record};
use cl_run::run_one;
use cl_text::RecordText;
use cl_threads::{Pace, run_threads};
use rv_image_types::Image;
use rvmc_answers::faults::Fault;
use rvmc_answers::plans::{listed, plans_of};
use rvmc_answers::report::{report, status};
use rvmc_answers::{Answer, End, Output, reported};
use rvmc_line::Written;
use rvmc_words::Numbers;
use std::alloc::{AllocError, Global};
use std::mem::forget;
use std::sync::Wait;
use std::thread::Threads;

/// The text of a record. The record is dropped as soon as its steps are copied, so that only one of the two stands in
/// memory while the text is made ready and written.
pub(crate) fn record_of(
    alloc: Global,
    image: &Image,
    left: Record,
) -> Result<RecordText, AllocError>
    requires { IsLeft image.now left }
    ensures { IfOk result (IsRecordOf image.now left) }
{
    let steps = merge(alloc, &left)?;
    drop(left);
    RecordText::new(alloc, image, steps)
}

/// What is told of a run: its report, alone or with what its harts wait for, or the text of its record. The record of a
/// report isn't taken apart: it has an entry for each call, and stays until the process ends.
fn output_of(
    alloc: Global,
    image: &Image,
    left: Record,
    written: Written,
) -> Result<Output, AllocError>
    requires { IsLeft image.now left }
    ensures text { IfOk result (λ output. IsTextOf written image.now left (output_bytes output)) }
    ensures waits { IfOk result (λ output. hides_a_wait output ≡ is_told_waiting written left) }
    ensures budget { IfOk result (λ output. ends_by_budget output ≡ is_spent left) }
{
    let spent = is_spent(&left);
    match written {
        Written::Report => {
            let waits = any_waits(&left);
            let output = reported(report(alloc, &left)?, spent, waits);
            // the process ends soon, and gives back all memory at once
            forget(left);
            Ok(output)
        }
        Written::Record => {
            let text = record_of(alloc, image, left)?;
            if spent {
                Ok(Output::SpentRecord(text))
            } else {
                Ok(Output::Record(text))
            }
        }
        Written::Why { frames } => {
            let text = report_with_why(alloc, image, left, frames)?;
            if spent {
                Ok(Output::Spent(text))
            } else {
                Ok(Output::Text(text))
            }
        }
    }
}

/// The same, with the status of the run.
pub(crate) fn told(
    alloc: Global,
    image: &Image,
    left: Record,
    written: Written,
) -> Result<Answer, AllocError>
    requires { IsLeft image.now left }
    ensures text { IfOk result (λ answer. IsTextOf written image.now left (output_bytes answer.output)) }
    ensures status { IfOk result (λ answer. end_status answer.end ≡ status_of (rank_ends left)) }
    ensures whole { IfOk result (λ answer. IsWhole answer.end) }
{
    let end = End::Status(status(&left));
    let output = output_of(alloc, image, left, written)?;
    Ok(Answer { output, end })
}

/// A run by these plans on one thread, with the ranks in this order.
fn one_by(
    alloc: Global,
    image: &Image,
    plans: &[Plan],
    order: &[u8],
    written: Written,
) -> Result<Answer, Fault>
    requires { IsImage image.now }
    ensures says { IfOk result (λ answer.
        IsRunBy (ArePlans image.now plans.now order.now) (IsLeftByOne image.now plans.now order.now)
        (IsTextOf written image.now) (output_bytes answer.output) (end_status answer.end)) }
    ensures whole { IfOk result (λ answer. IsWhole answer.end) }
    ensures fault { IfErr result (IsRunFault (¬ (ArePlans image.now plans.now order.now)) ⊥) }
{
    let left = run_one(alloc, image, plans, order)?;
    Ok(told(alloc, image, left, written)?)
}

/// `one`: a run by the same plan for each rank, all ranks on one thread, to the end of its plans.
pub fn one(
    alloc: Global,
    image: &Image,
    budget: u64,
    harts: &Option<Numbers>,
    ranks: &Option<Numbers>,
    written: Written,
) -> Result<Answer, Fault>
    ensures says { IfOk result (λ answer.
        IsOne image.now budget harts.now ranks.now written (output_bytes answer.output) (end_status answer.end)) }
    ensures whole { IfOk result (λ answer. IsWhole answer.end) }
    ensures fault { IfErr result (IsRunFault
        (ByPlans image.now budget harts.now (λ plans. ¬ (ArePlans image.now plans (listed ranks.now image.now.ranks))))
        ⊥) }
{
    let plans = plans_of(alloc, image, budget, harts)?;
    let order = listed(alloc, ranks, image.parts().ranks)?;
    one_by(alloc, image, &plans, &order, written)
}

/// A run by these plans with a thread for each rank, which is held back where it is more than `lead` turns ahead.
pub(crate) fn run_by<R: Threads + Wait + Sync>(
    rt: &R,
    alloc: Global,
    image: &Image,
    plans: &[Plan],
    lead: u64,
    written: Written,
) -> Result<Answer, Fault>
    ensures says { IfOk result (λ answer.
        IsRunBy (HasPlans image.now plans.now) (IsLeftByThreads image.now plans.now) (IsTextOf written image.now)
        (output_bytes answer.output) (end_status answer.end)) }
    ensures whole { IfOk result (λ answer. IsWhole answer.end) }
    ensures fault { IfErr result (IsRunFault (¬ (HasPlans image.now plans.now)) (HasPlans image.now plans.now)) }
{
    let pace = Pace::new(image.parts().ranks, lead);
    let left = run_threads(rt, alloc, image, plans, &pace)?;
    Ok(told(alloc, image, left, written)?)
}
