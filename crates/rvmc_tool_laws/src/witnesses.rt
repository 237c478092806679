//! What commands leave meets what the laws of answers ask for: each witness makes the calls, and has the law's answer.

ghost use Rattle.std.specs.Prelude.{◌≡◌, ◌≢◌, ℕ, [], IfSome, List, Some, false, length, slice_get};
ghost use Rattle.cl_check.specs.declared.checking.Verdict.TheVariants.{Good};
ghost use Rattle.rvmc_tool.specs.Answers.{Says};
ghost use Rattle.rvmc_answers.specs.Ends.{IsDone, end_status};
ghost use Rattle.rvmc_tool_laws.specs.Answers.{FitsStop};
ghost use Rattle.rvmc_tool.specs.Made.{is_written_as_made};
ghost use Rattle.rvmc_tool.specs.Making.{needs_threads};
ghost use Rattle.rvmc_answers.specs.Outputs.{output_bytes};
ghost use Rattle.rvmc_answers.specs.Plans.{ArePlansOf};
ghost use Rattle.rvmc_report.specs.Report.{RankEnd, report};
ghost use Rattle.rvmc_views.specs.Verdicts.{verdict_text};

use crate::answers::{recorded_is_good, stops_fit};
use cl_run::Plan;
use cl_threads::{Pace, run_threads};
use rv_image_types::Image;
use rvmc_answers::plans::plans;
use rvmc_answers::{Answer, Output};
use rvmc_line::{CommandLine, ImageCommand, RecordCommand, Written};
use rvmc_report::report::report;
use rvmc_tool::answers::answer_to;
use rvmc_words::Numbers;
use std::alloc::Global;
use std::io::sink;
use std::sync::Wait;
use std::thread::Threads;

/// What a command answers that needs no threads, and takes all of its input at once.
fn answered(alloc: Global, line: &CommandLine, bytes: &[u8]) -> Option<Answer>
    requires plain { needs_threads line.now ≡ false }
    requires whole { is_written_as_made line.now ≡ false }
    ensures { IfSome result (λ answer. Says line.now bytes.now (output_bytes answer.output) (end_status answer.end)) }
{
    match answer_to(alloc, line, bytes, &mut sink()) {
        Ok(answer) => Some(answer),
        Err(_) => None,
    }
}

/// All bytes of an output.
fn bytes_of(alloc: Global, output: &Output) -> Option<Vec<u8>>
    ensures { IfSome result (λ bytes. bytes.items ≡ output_bytes output.now) }
{
    let mut bytes = Vec::new(alloc);
    match output {
        Output::Text(text) | Output::Waiting(text) | Output::Spent(text) => bytes
            .extend_from_slice(text.as_slice())
            .ok()?,
        Output::Record(text) | Output::SpentRecord(text) => text.put(&mut bytes).ok()?,
    }
    Some(bytes)
}

/// Of what a run leaves with `--record`, if it leaves anything, `check` says that it is good.
pub fn what_is_recorded_is_good(
    alloc: Global,
    budget: u64,
    plan: Option<Numbers>,
    order: Option<Numbers>,
    bytes: &[u8],
) -> Option<(Vec<u8>, Answer)>
    ensures { IfSome result (λ both. both.0.items ≢ []
        → (count : ℕ) × IsDone (verdict_text Good count) (output_bytes both.1.output) (end_status both.1.end)) }
{
    recorded_is_good();
    let line = CommandLine::OfImage {
        source: true,
        command: ImageCommand::One {
            budget,
            plan,
            order,
            written: Written::Record,
        },
    };
    let recorded = answered(alloc, &line, bytes)?;
    let text = bytes_of(alloc, &recorded.output)?;
    let checked = answered(alloc, &CommandLine::OfRecord(RecordCommand::Check), &text)?;
    Some((text, checked))
}

/// The same plan for each rank.
fn planned(alloc: Global, ranks: u8, harts: &[u8], budget: u64) -> Option<Vec<Plan>>
    ensures { IfSome result (λ plans. ArePlansOf ranks harts.now budget plans.items) }
{
    match plans(alloc, ranks, harts, budget) {
        Ok(plans) => Some(plans),
        Err(_) => None,
    }
}

/// A report of ranks that ran on threads tells of each why it stopped, and that fits its harts and its turns.
pub fn what_threads_stop_for_is_told<R: Threads + Wait + Sync>(
    rt: &R,
    alloc: Global,
    image: &Image,
    harts: &[u8],
    budget: u64,
    lead: u64,
) -> Option<Vec<u8>>
    ensures { IfSome result (λ text. (ends : List RankEnd) × (text.items ≡ report ends)
        × (length ends ≡ image.now.ranks)
        × ((r : ℕ) (end : RankEnd) → slice_get ends r ≡ Some end → FitsStop budget end end.stop)) }
{
    stops_fit();
    let ranks = image.parts().ranks;
    let plans = planned(alloc, ranks, harts, budget)?;
    match run_threads(rt, alloc, image, &plans, &Pace::new(ranks, lead)) {
        Ok(left) => match report(alloc, &left) {
            Ok(text) => Some(text),
            Err(_) => None,
        },
        Err(_) => None,
    }
}
