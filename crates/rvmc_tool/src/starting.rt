//! `explore` on many machines: the starts of a split, what is told of one of them, and what the texts of all of them tell
//! together.

ghost use Rattle.std.specs.Prelude.{◌≡◌, ◌<◌, ℕ, Option, IfErr, IfOk, Some, length};
ghost use Rattle.rv_image_types.specs.Image.{IsImage};
ghost use Rattle.rv_image_types.specs.declared.images.ImageParts.{ImageParts};
ghost use Rattle.cl_lines.specs.Telling.{TellsProgress};
ghost use Rattle.cl_record.specs.Plans.{HasPlans};
ghost use Rattle.rvmc_explore.specs.Starting.{StartFaultHolds, TellsFrom};
ghost use Rattle.rvmc_answers.specs.Plans.{ByPlans};
ghost use Rattle.rvmc_tool.specs.Answers.{IsExploredFrom, IsSplitOf};
ghost use Rattle.rvmc_answers.specs.Ends.{end_status};
ghost use Rattle.rvmc_answers.specs.Making.{IsMakingFault, IsRunFault, IsWhole};
ghost use Rattle.rvmc_answers.specs.Outputs.{output_bytes};
ghost use Rattle.rvmc_tool.specs.Starting.{IsJoinFault, IsNoStart, IsRecordBehind, IsToldOfStart, IsToldTogether};

use cl_record::has_plans;
use cl_text::RecordText;
use rv_image_types::Image;
use rvmc_answers::faults::{ExploreRefusal, Fault};
use rvmc_answers::plans::{listed, plans};
use rvmc_answers::{Answer, End, Output};
use rvmc_explore::{
    Asked, Reach, StartFault, Told, explored_from, recorded_from, split as starts_of,
};
use rvmc_starts::{JoinFault, Joined, Start, join_texts};
use rvmc_words::Numbers;
use std::alloc::Global;
use std::io::Write;

/// Of how many states a split makes the moves at most.
const SPLIT_STATES: usize = 1_000_000;

/// `explore --split`: starts from which all ends can be searched apart, so many or more, where the harts of each rank take
/// turns in the order that was listed.
#[tactic(auto, using(cl_lines::proofs::Behind::nothing_told))]
pub(crate) fn split<E: Write>(
    alloc: Global,
    image: &Image,
    harts: &Option<Numbers>,
    count: u64,
    turns: u64,
    progress: bool,
    err: &mut E,
) -> Result<Answer, Fault>
    ensures says { IfOk result (λ answer.
        IsSplitOf image.now harts.now count turns (output_bytes answer.output) (end_status answer.end)) }
    ensures whole { IfOk result (λ answer. IsWhole answer.end) }
    ensures fault { IfErr result (IsRunFault
        (ByPlans image.now turns harts.now (λ plans. ¬ (HasPlans image.now plans))) ⊥) }
    ensures progress { TellsProgress progress (E.contents err.old) (E.contents err.new) }
{
    let order = listed(alloc, harts, image.parts().harts)?;
    let plans = plans(alloc, image.parts().ranks, order.as_slice(), turns)?;
    if !has_plans(image, plans.as_slice()) {
        return Err(Fault::Plans);
    }
    let asked = Asked {
        order: order.as_slice(),
        states: SPLIT_STATES,
        turns,
        progress,
        // a split looks for no outcomes
        buffered: true,
    };
    match starts_of(alloc, image, &asked, count as usize, err) {
        Ok(text) => Ok(Answer {
            output: Output::Text(text),
            end: End::Status(0),
        }),
        // a clock has 2^62 stamps: where they are used up there is no more of them to be had, as of memory
        Err(_) => Err(Fault::Memory),
    }
}

/// Why nothing is told of a start. Its turns are numbered from 1.
fn fault_of(start: &Start, fault: StartFault) -> Fault
    ensures { (image : ImageParts) (states turns : ℕ) (number : Option ℕ) → StartFaultHolds image start.now fault
        → IsMakingFault ⊥ ⊥ (IsNoStart image start.now states turns number) result }
{
    match fault {
        StartFault::Memory => Fault::Memory,
        StartFault::OtherImage => Fault::Explore(ExploreRefusal::OtherImage),
        StartFault::NoTurn(turn) => {
            let number = turn.saturating_add(1).min(start.turns.as_slice().len());
            Fault::Explore(ExploreRefusal::NoTurn(number as u64))
        }
    }
}

/// What is told of a start, and its status.
fn told<E: Write>(
    alloc: Global,
    image: &Image,
    start: &Start,
    reach: Reach,
    err: &mut E,
) -> Result<Answer, Fault>
    requires { 0 < length start.now.harts }
    ensures says { IfOk result (λ answer. TellsFrom image.now start.now reach.states reach.turns (output_bytes answer.output)
        (end_status answer.end)) }
    ensures whole { IfOk result (λ answer. IsWhole answer.end) }
    ensures fault { IfErr result (IsMakingFault ⊥ ⊥ (IsNoStart image.now start.now reach.states reach.turns None)) }
    ensures progress { TellsProgress reach.progress (E.contents err.old) (E.contents err.new) }
{
    match explored_from(alloc, image, start, reach, err) {
        Ok(Told { text, status }) => Ok(Answer {
            output: Output::Text(text),
            end: End::Status(status),
        }),
        Err(fault) => Err(fault_of(start, fault)),
    }
}

/// The record of the end of this number, from 1 on, of those behind a start.
fn record_of_end<E: Write>(
    alloc: Global,
    image: &Image,
    start: &Start,
    reach: Reach,
    number: u64,
    err: &mut E,
) -> Result<Answer, Fault>
    requires harts { 0 < length start.now.harts }
    requires image { IsImage image.now }
    ensures says { IfOk result (λ answer. IsRecordBehind image.now start.now reach.states reach.turns number
        (output_bytes answer.output)
        × (end_status answer.end ≡ 0)) }
    ensures whole { IfOk result (λ answer. IsWhole answer.end) }
    ensures fault { IfErr result (IsMakingFault ⊥ ⊥ (IsNoStart image.now start.now reach.states reach.turns (Some number))) }
    ensures progress { TellsProgress reach.progress (E.contents err.old) (E.contents err.new) }
{
    match recorded_from(alloc, image, start, reach, number, err) {
        Ok(Some(steps)) => {
            let output = Output::Record(RecordText::new(alloc, image, steps)?);
            let end = End::Status(0);
            Ok(Answer { output, end })
        }
        Ok(None) => Err(Fault::Explore(ExploreRefusal::NoOutcome(number))),
        Err(fault) => Err(fault_of(start, fault)),
    }
}

/// What is told of a start, or the record of one of its ends.
fn answered<E: Write>(
    alloc: Global,
    image: &Image,
    start: &Start,
    reach: Reach,
    number: Option<u64>,
    err: &mut E,
) -> Result<Answer, Fault>
    requires harts { 0 < length start.now.harts }
    requires image { IsImage image.now }
    ensures says { IfOk result (λ answer. IsToldOfStart image.now start.now reach.states reach.turns number
        (output_bytes answer.output) (end_status answer.end)) }
    ensures whole { IfOk result (λ answer. IsWhole answer.end) }
    ensures fault { IfErr result (IsMakingFault ⊥ ⊥ (IsNoStart image.now start.now reach.states reach.turns number)) }
    ensures progress { TellsProgress reach.progress (E.contents err.old) (E.contents err.new) }
{
    match number {
        None => told(alloc, image, start, reach, err),
        Some(number) => record_of_end(alloc, image, start, reach, number, err),
    }
}

/// `explore --from`: all ends to which some order leads behind a start, or the record of the end of this number.
#[tactic(auto, using(cl_lines::proofs::Behind::nothing_told))]
pub(crate) fn explore_from<E: Write>(
    alloc: Global,
    image: &Image,
    start: &Start,
    states: u64,
    turns: u64,
    number: Option<u64>,
    progress: bool,
    err: &mut E,
) -> Result<Answer, Fault>
    ensures says { IfOk result (λ answer. IsExploredFrom image.now start.now states turns number
        (output_bytes answer.output) (end_status answer.end)) }
    ensures whole { IfOk result (λ answer. IsWhole answer.end) }
    ensures fault { IfErr result (IsMakingFault
        (ByPlans image.now turns (Some start.now.harts) (λ plans. ¬ (HasPlans image.now plans))) ⊥
        (λ refusal. ByPlans image.now turns (Some start.now.harts) (λ plans.
        HasPlans image.now plans × IsNoStart image.now start.now states turns number refusal))) }
    ensures progress { TellsProgress progress (E.contents err.old) (E.contents err.new) }
{
    let plans = plans(alloc, image.parts().ranks, start.harts.as_slice(), turns)?;
    if !has_plans(image, plans.as_slice()) {
        return Err(Fault::Plans);
    }
    let reach = Reach {
        states: states as usize,
        turns,
        progress,
    };
    answered(alloc, image, start, reach, number, err)
}

/// `explore --join`: what the texts of the starts of a split tell together.
pub(crate) fn join(alloc: Global, bytes: &[u8]) -> Result<Answer, Fault>
    ensures says { IfOk result (λ answer.
        IsToldTogether bytes.now (output_bytes answer.output) (end_status answer.end)) }
    ensures whole { IfOk result (λ answer. IsWhole answer.end) }
    ensures fault { IfErr result (IsJoinFault bytes.now) }
{
    match join_texts(alloc, bytes) {
        Ok(Joined { text, status }) => Ok(Answer {
            output: Output::Text(text),
            end: End::Status(status),
        }),
        Err(JoinFault::Memory) => Err(Fault::Memory),
        Err(JoinFault::NotAText(number)) => Err(Fault::Explore(ExploreRefusal::NotAText(number))),
        Err(JoinFault::OtherSplit(number)) => Err(Fault::Explore(ExploreRefusal::OtherSplit(
            number,
        ))),
    }
}
