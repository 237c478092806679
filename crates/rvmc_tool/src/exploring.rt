//! `explore`: the ends of all orders of ranks' turns, ranks that are stuck while others run on, ranks that need buffers, and the
//! record of one of these.

ghost use Rattle.std.specs.Prelude.{◌≡◌, ◌≢◌, ◌<◌, IfErr, IfOk, List, None, OnOk, Some, length, true, ℕ};
ghost use Rattle.std.specs.Io.KnownBytes.{Appends};
ghost use Rattle.cl_lines.specs.Telling.{TellsProgress};
ghost use Rattle.cl_record.specs.Plans.{HasPlans};
ghost use Rattle.rv_image_types.specs.Image.{IsImage};
ghost use Rattle.rvmc_answers.specs.Plans.{ByPlans, listed};
ghost use Rattle.rvmc_line.specs.declared.line.ImageCommand.TheVariants as command;
ghost use Rattle.rvmc_tool.specs.Answers.{IsExplored};
ghost use Rattle.rvmc_answers.specs.Ends.{end_status};
ghost use Rattle.rvmc_tool.specs.Exploring.{IsCutSearch, IsCutSearchOf, IsEndRecord};
ghost use Rattle.rvmc_tool.specs.Made.{LeavesCut, TellsAll};
ghost use Rattle.rvmc_tool.specs.Making.{IsImageFault};
ghost use Rattle.rvmc_tool.specs.Unexplored.{IsNoEnd};
ghost use Rattle.rvmc_answers.specs.Making.{IsMakingFault, IsRunFault, IsWhole};
ghost use Rattle.rvmc_answers.specs.Outputs.{output_bytes};

use cl_record::has_plans;
use cl_text::RecordText;
use rv_image_types::Image;
use rvmc_answers::faults::{ExploreRefusal, Fault};
use rvmc_answers::plans::{listed, plans_of};
use rvmc_answers::{Answer, End, Output, image_in};
use rvmc_explore::{Asked, Searched, put_explored, recorded};
use rvmc_words::Numbers;
use std::alloc::Global;
use std::io::Write;

/// What a command line asks of a search: the order in which the harts of each rank take turns, if it is listed, of how many
/// states it makes the moves at most, how many turns a rank takes by itself at once, whether standard sends always buffer, so
/// that it doesn't look for ranks that need buffers, and whether lines are wanted that say how far it came.
#[derive(Clone, Copy, Drop)]
pub(crate) struct Search<'a> {
    pub harts: &'a Option<Numbers>,
    pub states: u64,
    pub turns: u64,
    pub buffered: bool,
    pub progress: bool,
}

/// The order in which the harts of each rank take turns: as it was listed, or else all of them. Its plan is right.
fn order_of(alloc: Global, image: &Image, wanted: &Search<'_>) -> Result<Vec<u8>, Fault>
    ensures order { IfOk result (λ order. order.items ≡ listed wanted.now.harts.now image.now.harts) }
    ensures named { IfOk result (λ order. 0 < length order.items) }
    ensures plans { OnOk result (ByPlans image.now wanted.now.turns wanted.now.harts.now (HasPlans image.now)) }
    ensures fault { IfErr result (IsRunFault
        (ByPlans image.now wanted.now.turns wanted.now.harts.now (λ plans. ¬ (HasPlans image.now plans))) ⊥) }
{
    let plans = plans_of(alloc, image, wanted.turns, wanted.harts)?;
    if !has_plans(image, plans.as_slice()) {
        return Err(Fault::Plans);
    }
    let order = listed(alloc, wanted.harts, image.parts().harts)?;
    Ok(order)
}

/// The record of the end of this number, from 1 on.
fn record_of_end<E: Write>(
    alloc: Global,
    image: &Image,
    asked: &Asked<'_>,
    number: u64,
    err: &mut E,
) -> Result<Answer, Fault>
    requires order { 0 < length asked.now.order.now }
    requires image { IsImage image.now }
    ensures says { IfOk result (λ answer. IsEndRecord image.now asked.now.order.now asked.now.buffered asked.now.states
        asked.now.turns number (output_bytes answer.output)
        × (end_status answer.end ≡ 0)) }
    ensures whole { IfOk result (λ answer. IsWhole answer.end) }
    ensures fault { IfErr result (IsMakingFault ⊥ ⊥ (IsNoEnd image.now asked.now.order.now asked.now.buffered asked.now.states
        asked.now.turns (Some number))) }
    ensures progress { TellsProgress asked.now.progress (E.contents err.old) (E.contents err.new) }
{
    match recorded(alloc, image, asked, number, err) {
        Ok(Some(steps)) => {
            let output = Output::Record(RecordText::new(alloc, image, steps)?);
            let end = End::Status(0);
            Ok(Answer { output, end })
        }
        Ok(None) => Err(Fault::Explore(ExploreRefusal::NoOutcome(number))),
        Err(_) => Err(Fault::Memory),
    }
}

/// `explore --record`: the record of the end of this number of all ends of all orders of the ranks' turns.
#[tactic(auto, using(cl_lines::proofs::Behind::nothing_told, crate::proofs::Searching::recorded_by, crate::proofs::Searching::refused_by))]
fn explore_record<E: Write>(
    alloc: Global,
    image: &Image,
    wanted: &Search<'_>,
    number: u64,
    err: &mut E,
) -> Result<Answer, Fault>
    ensures says { IfOk result (λ answer.
        IsExplored image.now wanted.now.harts.now wanted.now.buffered wanted.now.states wanted.now.turns (Some number)
        (output_bytes answer.output) (end_status answer.end)) }
    ensures whole { IfOk result (λ answer. IsWhole answer.end) }
    ensures fault { IfErr result (IsMakingFault
        (ByPlans image.now wanted.now.turns wanted.now.harts.now (λ plans. ¬ (HasPlans image.now plans))) ⊥
        (λ refusal. ByPlans image.now wanted.now.turns wanted.now.harts.now (λ plans. HasPlans image.now plans
        × IsNoEnd image.now (listed wanted.now.harts.now image.now.harts) wanted.now.buffered wanted.now.states wanted.now.turns
        (Some number) refusal))) }
    ensures progress { TellsProgress wanted.now.progress (E.contents err.old) (E.contents err.new) }
{
    let order = order_of(alloc, image, wanted)?;
    // ghost: brings into scope that the parts are those of an image; no effect at run time
    let _parts = image.parts();
    let asked = Asked {
        order: order.as_slice(),
        states: wanted.states as usize,
        turns: wanted.turns,
        progress: wanted.progress,
        buffered: wanted.buffered,
    };
    record_of_end(alloc, image, &asked, number, err)
}

/// The same of the number that is asked for, if one is.
pub(crate) fn explore_numbered<E: Write>(
    alloc: Global,
    image: &Image,
    wanted: &Search<'_>,
    number: Option<u64>,
    err: &mut E,
) -> Result<Answer, Fault>
    requires { number ≢ None }
    ensures says { IfOk result (λ answer.
        IsExplored image.now wanted.now.harts.now wanted.now.buffered wanted.now.states wanted.now.turns number
        (output_bytes answer.output) (end_status answer.end)) }
    ensures whole { IfOk result (λ answer. IsWhole answer.end) }
    ensures fault { IfErr result (IsMakingFault
        (ByPlans image.now wanted.now.turns wanted.now.harts.now (λ plans. ¬ (HasPlans image.now plans))) ⊥
        (λ refusal. ByPlans image.now wanted.now.turns wanted.now.harts.now (λ plans. HasPlans image.now plans
        × IsNoEnd image.now (listed wanted.now.harts.now image.now.harts) wanted.now.buffered wanted.now.states wanted.now.turns
        number refusal))) }
    ensures progress { TellsProgress wanted.now.progress (E.contents err.old) (E.contents err.new) }
{
    match number {
        Some(number) => explore_record(alloc, image, wanted, number, err),
        None => unreachable!(),
    }
}

/// What a search of all orders of an image's turns tells, written on `out` as it is found.
#[tactic(auto, using(cl_lines::proofs::Behind::nothing_told, crate::proofs::Searching::told_by, crate::proofs::Searching::cut_by, crate::proofs::Searching::left_alone))]
fn put_ends<O: Write, E: Write>(
    alloc: Global,
    image: &Image,
    wanted: &Search<'_>,
    out: &mut O,
    err: &mut E,
) -> Result<Searched, Fault>
    ensures told { IfOk result (λ searched. searched.taken ≡ true → (text : List ℕ)
        × IsExplored image.now wanted.now.harts.now wanted.now.buffered wanted.now.states wanted.now.turns None text
        searched.status
        × Appends (O.contents out.old) (O.contents out.new) text) }
    ensures fault { IfErr result (IsRunFault
        (ByPlans image.now wanted.now.turns wanted.now.harts.now (λ plans. ¬ (HasPlans image.now plans))) ⊥) }
    ensures left { IfErr result (λ fault. LeavesCut
        (IsCutSearch (command.Explore wanted.now.harts.now wanted.now.states wanted.now.turns None wanted.now.buffered
        wanted.now.progress) image.now)
        fault (O.contents out.old) (O.contents out.new)) }
    ensures progress { TellsProgress wanted.now.progress (E.contents err.old) (E.contents err.new) }
{
    let order = order_of(alloc, image, wanted)?;
    let asked = Asked {
        order: order.as_slice(),
        states: wanted.states as usize,
        turns: wanted.turns,
        progress: wanted.progress,
        buffered: wanted.buffered,
    };
    match put_explored(alloc, image, &asked, out, err) {
        Ok(searched) => Ok(searched),
        // a clock has 2^62 stamps: where they are used up there is no more of them to be had, as of memory
        Err(_) => Err(Fault::Memory),
    }
}

/// `explore`: an image is taken from the bytes, and what a search of all orders of its ranks' turns tells is written on `out`
/// as it is found.
#[tactic(auto, using(cl_lines::proofs::Behind::nothing_told, crate::proofs::Searching::left_alone))]
pub(crate) fn put_search<O: Write, E: Write>(
    alloc: Global,
    source: bool,
    bytes: &[u8],
    wanted: &Search<'_>,
    out: &mut O,
    err: &mut E,
) -> Result<Searched, Fault>
    ensures told { IfOk result (λ searched. searched.taken ≡ true → TellsAll source
        (command.Explore wanted.now.harts.now wanted.now.states wanted.now.turns None wanted.now.buffered wanted.now.progress)
        bytes.now searched.status (O.contents out.old) (O.contents out.new)) }
    ensures fault { IfErr result (IsImageFault source
        (command.Explore wanted.now.harts.now wanted.now.states wanted.now.turns None wanted.now.buffered wanted.now.progress)
        bytes.now) }
    ensures left { IfErr result (λ fault. LeavesCut (IsCutSearchOf source
        (command.Explore wanted.now.harts.now wanted.now.states wanted.now.turns None wanted.now.buffered wanted.now.progress)
        bytes.now) fault (O.contents out.old) (O.contents out.new)) }
    ensures progress { TellsProgress wanted.now.progress (E.contents err.old) (E.contents err.new) }
{
    let image = image_in(alloc, source, bytes)?;
    put_ends(alloc, &image, wanted, out, err)
}
