//! A run that ends where nobody can go on, and what is told of it.

ghost use Rattle.std.specs.Prelude.{◌≡◌, IfErr, IfOk};
ghost use Rattle.cl_record.specs.Plans.{ArePlans, HasPlans};
ghost use Rattle.rv_image_types.specs.Image.{IsImage};
ghost use Rattle.rvmc_answers.specs.Below.{rank_ends, status_of};
ghost use Rattle.rvmc_runs.specs.Runs.{IsOneUntilStuck, IsRunUntilStuck, IsThreadsUntilStuckBy};
ghost use Rattle.rvmc_runs.specs.Runs.{IsToldReport, IsToldTextOf, is_framed};
ghost use Rattle.rvmc_answers.specs.Ends.{end_status};
ghost use Rattle.rvmc_runs.specs.Making.{IsLeft};
ghost use Rattle.rvmc_answers.specs.Making.{IsRunFault, IsWhole};
ghost use Rattle.rvmc_answers.specs.Outputs.{output_bytes};
ghost use Rattle.rvmc_answers.specs.Plans.{ByPlans, listed};

use crate::explaining::why_of;
use crate::runs::{record_of, told};
use cl_ending::{Outcome, Stuck, StuckThreads, run_one_until_stuck, run_threads_until_stuck};
use cl_record::{Plan, Record};
use cl_threads::Pace;
use rv_image_types::Image;
use rvmc_answers::faults::Fault;
use rvmc_answers::plans::{listed, plans_of};
use rvmc_answers::report::status;
use rvmc_answers::stuck::told_report;
use rvmc_answers::{Answer, End, Output};
use rvmc_line::Written;
use rvmc_words::Numbers;
use std::alloc::{AllocError, Global};
use std::sync::Wait;
use std::thread::Threads;

/// Whether the calls are told that led to where harts are.
fn is_framed(written: Written) -> bool
    ensures { result ≡ is_framed written }
{
    match written {
        Written::Why { frames } => frames,
        Written::Report | Written::Record => false,
    }
}

/// The report of a run whose ranks were told to stop, of each of which it says this word, and behind it what its harts wait
/// for, with `framed` also the calls that led there. Each rank has so many turns by its plan.
fn report_with_word(
    alloc: Global,
    image: &Image,
    left: Record,
    word: &str,
    budget: u64,
    framed: bool,
) -> Result<Vec<u8>, AllocError>
    requires { IsLeft image.now left }
    ensures { IfOk result (λ text. IsToldReport word.now framed image.now budget left text.items) }
{
    let mut text = told_report(alloc, &left, word, budget)?;
    let why = why_of(alloc, image, left, framed)?;
    text.extend_from_slice(&why)?;
    Ok(text)
}

/// That, or the text of the record, with the status of the run.
fn told_with_word(
    alloc: Global,
    image: &Image,
    left: Record,
    word: &str,
    budget: u64,
    written: Written,
) -> Result<Answer, AllocError>
    requires { IsLeft image.now left }
    ensures text { IfOk result (λ answer. IsToldTextOf word.now written image.now budget left (output_bytes answer.output)) }
    ensures status { IfOk result (λ answer. end_status answer.end ≡ status_of (rank_ends left)) }
    ensures whole { IfOk result (λ answer. IsWhole answer.end) }
{
    let end = End::Status(status(&left));
    match written {
        Written::Record => {
            let output = Output::Record(record_of(alloc, image, left)?);
            Ok(Answer { output, end })
        }
        Written::Report | Written::Why { .. } => {
            let framed = is_framed(written);
            let text = report_with_word(alloc, image, left, word, budget, framed)?;
            let output = Output::Text(text);
            Ok(Answer { output, end })
        }
    }
}

/// A run by these plans on one thread, with the ranks in this order, until nobody can go on.
fn one_until_stuck_by(
    alloc: Global,
    image: &Image,
    plans: &[Plan],
    order: &[u8],
    budget: u64,
    written: Written,
) -> Result<Answer, Fault>
    requires { IsImage image.now }
    ensures says { IfOk result (λ answer.
        IsRunUntilStuck image.now budget plans.now order.now written (output_bytes answer.output)
        (end_status answer.end)) }
    ensures whole { IfOk result (λ answer. IsWhole answer.end) }
    ensures fault { IfErr result (IsRunFault (¬ (ArePlans image.now plans.now order.now)) ⊥) }
{
    let Stuck { left, stuck } = run_one_until_stuck(alloc, image, plans, order)?;
    if stuck {
        Ok(told_with_word(alloc, image, left, "stuck", budget, written)?)
    } else {
        Ok(told(alloc, image, left, written)?)
    }
}

/// `one --until-stuck`: a run by the same plan for each rank, all ranks on one thread, until nobody can go on.
pub fn one_until_stuck(
    alloc: Global,
    image: &Image,
    budget: u64,
    harts: &Option<Numbers>,
    ranks: &Option<Numbers>,
    written: Written,
) -> Result<Answer, Fault>
    ensures says { IfOk result (λ answer.
        IsOneUntilStuck image.now budget harts.now ranks.now written (output_bytes answer.output)
        (end_status answer.end)) }
    ensures whole { IfOk result (λ answer. IsWhole answer.end) }
    ensures fault { IfErr result (IsRunFault
        (ByPlans image.now budget harts.now (λ plans. ¬ (ArePlans image.now plans (listed ranks.now image.now.ranks))))
        ⊥) }
{
    let plans = plans_of(alloc, image, budget, harts)?;
    let order = listed(alloc, ranks, image.parts().ranks)?;
    one_until_stuck_by(alloc, image, &plans, &order, budget, written)
}

/// A run by these plans with a thread for each rank, which is held back where it is more than `lead` turns ahead, until
/// nobody can go on.
pub(crate) fn run_until_stuck_by<R: Threads + Wait + Sync>(
    rt: &R,
    alloc: Global,
    image: &Image,
    plans: &[Plan],
    lead: u64,
    budget: u64,
    written: Written,
) -> Result<Answer, Fault>
    ensures says { IfOk result (λ answer.
        IsThreadsUntilStuckBy image.now budget plans.now written (output_bytes answer.output) (end_status answer.end)) }
    ensures whole { IfOk result (λ answer. IsWhole answer.end) }
    ensures fault { IfErr result (IsRunFault (¬ (HasPlans image.now plans.now)) (HasPlans image.now plans.now)) }
{
    let pace = Pace::new(image.parts().ranks, lead);
    let StuckThreads { left, outcome } = run_threads_until_stuck(rt, alloc, image, plans, &pace)?;
    match outcome {
        Outcome::Planned => Ok(told(alloc, image, left, written)?),
        Outcome::Stuck => Ok(told_with_word(alloc, image, left, "stuck", budget, written)?),
        Outcome::Told => Ok(told_with_word(alloc, image, left, "told", budget, written)?),
    }
}
