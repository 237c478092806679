//! What commands answer to their input, and the plans that a command line stands for.

ghost use Rattle.std.specs.Prelude.{◌≡◌, ◌≢◌, ◌⊎◌, ℕ, [], ◌∷◌, Err, IfErr, IfOk, false, length};
ghost use Rattle.cl_record.specs.declared.plans.Plan.{Plan as Held};
ghost use Rattle.cl_text.specs.declared.faults.RecordFault.TheVariants.{Short};
ghost use Rattle.rv_asm_tokens.specs.declared.fault.AsmFault.{AsmFault};
ghost use Rattle.rvmc_answers.specs.Ends.{end_status};
ghost use Rattle.rvmc_tool.specs.Made.{is_written_as_made};
ghost use Rattle.rvmc_tool.specs.Making.{needs_threads};
ghost use Rattle.rvmc_answers.specs.Outputs.{output_bytes};
ghost use Rattle.rvmc_report.specs.declared.faults.Fault.TheVariants as faults;

use cl_run::Plan;
use rvmc_answers::Answer;
use rvmc_answers::plans::{listed, plans};
use rvmc_line::{CommandLine, ImageCommand, RecordCommand, Written};
use rvmc_report::faults::Fault;
use rvmc_tool::answers::{answer, answer_to};
use rvmc_words::Numbers;
use std::alloc::{AllocError, Global};
use std::io::sink;
use std::sync::Wait;
use std::thread::Threads;

/// No command tells of a read that failed: the bytes are there.
pub fn nothing_is_read(alloc: Global, line: &CommandLine, bytes: &[u8]) -> Result<Answer, Fault>
    requires plain { needs_threads line.now ≡ false }
    requires whole { is_written_as_made line.now ≡ false }
    ensures { result ≢ Err faults.Read }
{
    answer_to(alloc, line, bytes, &mut sink())
}

/// Nor of a write.
pub fn nothing_is_written(alloc: Global, line: &CommandLine, bytes: &[u8]) -> Result<Answer, Fault>
    requires plain { needs_threads line.now ≡ false }
    requires whole { is_written_as_made line.now ≡ false }
    ensures { result ≢ Err faults.Write }
{
    answer_to(alloc, line, bytes, &mut sink())
}

/// A run on one thread is refused none.
pub fn one_wants_no_thread(
    alloc: Global,
    plan: Option<Numbers>,
    order: Option<Numbers>,
    bytes: &[u8],
) -> Result<Answer, Fault>
    ensures { result ≢ Err faults.Spawn }
{
    let line = CommandLine::OfImage {
        source: true,
        command: ImageCommand::One {
            budget: 1,
            plan,
            order,
            written: Written::Report,
        },
    };
    answer_to(alloc, &line, bytes, &mut sink())
}

/// A listing isn't told of as threads that left what doesn't fit, on whatever thread it is made.
pub fn dis_has_no_threads<R: Threads + Wait + Sync>(
    rt: &R,
    alloc: Global,
    bytes: &[u8],
) -> Result<Answer, Fault>
    ensures { (rank place : ℕ) → result ≢ Err (faults.Unlike rank place) }
{
    let line = CommandLine::OfImage {
        source: false,
        command: ImageCommand::Dis,
    };
    answer(rt, alloc, &line, bytes, &mut sink())
}

/// An image isn't taken for a source: no bytes are no fault of a source.
#[tactic(auto, unfolding(rv_image::specs::Reading::reading))]
pub fn images_are_no_sources(
    alloc: Global,
    plan: Option<Numbers>,
    order: Option<Numbers>,
) -> Result<Answer, Fault>
    ensures { (fault : AsmFault) → result ≢ Err (faults.Source fault) }
{
    let line = CommandLine::OfImage {
        source: false,
        command: ImageCommand::One {
            budget: 1,
            plan,
            order,
            written: Written::Report,
        },
    };
    answer_to(alloc, &line, &[], &mut sink())
}

/// Nor is a record: no bytes are one that is too short, and never a good one.
#[tactic(auto, unfolding(cl_text::specs::Reading::reading_record))]
pub fn nothing_is_no_record(alloc: Global) -> Result<Answer, Fault>
    ensures status { IfOk result (λ answer. end_status answer.end ≡ 1) }
    ensures short { IfErr result (λ fault. (fault ≡ faults.Memory) ⊎ (fault ≡ faults.Record (Short 0))) }
{
    answer_to(
        alloc,
        &CommandLine::OfRecord(RecordCommand::Check),
        &[],
        &mut sink(),
    )
}

/// A check wants no plans: none are told of.
pub fn check_has_no_plans(alloc: Global, bytes: &[u8]) -> Result<Answer, Fault>
    ensures { result ≢ Err faults.Plans }
{
    answer_to(
        alloc,
        &CommandLine::OfRecord(RecordCommand::Check),
        bytes,
        &mut sink(),
    )
}

/// Nor does `why`: bytes that are no record have no place.
#[tactic(auto, unfolding(cl_text::specs::Reading::reading_record))]
pub fn nothing_has_no_place(alloc: Global, at: Option<u64>) -> Result<Answer, Fault>
    ensures status { IfOk result (λ answer. end_status answer.end ≡ 1) }
    ensures short { IfErr result (λ fault. (fault ≡ faults.Memory) ⊎ (fault ≡ faults.Record (Short 0))) }
{
    answer_to(
        alloc,
        &CommandLine::OfRecord(RecordCommand::Why { at, frames: false }),
        &[],
        &mut sink(),
    )
}

/// A place that is there is told of with the status 0, whatever is found.
pub fn each_place_ends_with_0(alloc: Global, at: Option<u64>, bytes: &[u8]) -> Result<Answer, Fault>
    ensures { IfOk result (λ answer. output_bytes answer.output ≢ [] → end_status answer.end ≡ 0) }
{
    answer_to(
        alloc,
        &CommandLine::OfRecord(RecordCommand::Why { at, frames: false }),
        bytes,
        &mut sink(),
    )
}

/// Without a list all take turns, the last too.
pub fn all_take_turns(alloc: Global) -> Result<Vec<u8>, AllocError>
    ensures { IfOk result (λ list. list.items ≡ 0 ∷ 1 ∷ 2 ∷ []) }
{
    listed(alloc, &None, 3)
}

/// What is listed is heeded, whether it is there or not.
pub fn lists_are_heeded(alloc: Global, numbers: Numbers) -> Result<Vec<u8>, AllocError>
    ensures { IfOk result (λ list. list.items ≡ numbers) }
{
    listed(alloc, &Some(numbers), 1)
}

/// Each rank has a plan, the first too.
pub fn each_rank_has_a_plan(
    alloc: Global,
    ranks: u8,
    harts: &[u8],
    budget: u64,
) -> Result<Vec<Plan>, AllocError>
    ensures { IfOk result (λ plans. length plans.items ≡ ranks) }
{
    plans(alloc, ranks, harts, budget)
}

/// A plan has the budget that was asked for, and its harts.
pub fn plan_of_one_rank(alloc: Global, harts: &[u8], budget: u64) -> Result<Vec<Plan>, AllocError>
    ensures budget { IfOk result (λ plans. (plan : Held) → plans.items ≡ plan ∷ [] → plan.budget ≡ budget) }
    ensures harts { IfOk result (λ plans. (plan : Held) → plans.items ≡ plan ∷ [] → plan.order.items ≡ harts.now) }
{
    plans(alloc, 1, harts, budget)
}
