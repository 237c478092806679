//! What each command answers to its input.

ghost use Rattle.std.specs.Prelude.{◌≡◌, ◌≢◌, IfErr, IfOk, false, true};
ghost use Rattle.cl_lines.specs.Telling.{TellsProgress};
ghost use Rattle.rvmc_line.specs.declared.line.ImageCommand.TheVariants as asked;
ghost use Rattle.rvmc_tool.specs.Answers.{Makes, Says, SaysOfImage};
ghost use Rattle.rvmc_answers.specs.Ends.{end_status};
ghost use Rattle.rvmc_tool.specs.Making.{EndsSo, IsFaultOf, IsImageFault, needs_threads, RefusesImage};
ghost use Rattle.rvmc_answers.specs.Making.{IsWhole};
ghost use Rattle.rvmc_tool.specs.Made.{is_written_as_made, tells_search};
ghost use Rattle.rvmc_answers.specs.Outputs.{output_bytes};
ghost use Rattle.rvmc_tool.specs.Progress.{asks_progress, wants_progress};

use crate::exploring::{Search, explore_numbered};
use crate::starting::{explore_from, join, split};
use rv_image::write_image;
use rv_image_types::Image;
use rvmc_answers::faults::Fault;
use rvmc_answers::listing::listing;
use rvmc_answers::{Answer, image_in};
use rvmc_line::{CommandLine, ImageCommand};
use rvmc_runs::{MaybeThreads, NoThreads, one, one_until_stuck};
use rvmc_views::answer_of_record;
use std::alloc::Global;
use std::io::Write;

/// `asm --from`: an image is taken from the bytes, and written in version 2.
fn rewritten(alloc: Global, bytes: &[u8], source: bool) -> Result<Answer, Fault>
    ensures says { IfOk result (λ answer.
        SaysOfImage source (asked.Asm true) bytes.now (output_bytes answer.output) (end_status answer.end)) }
    ensures whole { IfOk result (λ answer. IsWhole answer.end) }
    ensures fault { IfErr result (IsImageFault source (asked.Asm true) bytes.now) }
{
    let image = image_in(alloc, source, bytes)?.into_version_two();
    Ok(Answer::done(write_image(alloc, &image)?))
}

/// What a command makes of the image that it takes, if it takes it as it is: one case a command. What a search tells isn't
/// made here: it is written as it is found.
fn made<R: MaybeThreads, E: Write>(
    rt: &R,
    alloc: Global,
    image: &Image,
    command: &ImageCommand,
    err: &mut E,
) -> Result<Answer, Fault>
    requires threads { R.may_ask }
    requires kept { command.now ≢ asked.Asm true }
    requires whole { tells_search command.now ≡ false }
    ensures says { IfOk result (λ answer.
        Makes command.now image.now (output_bytes answer.output) (end_status answer.end)) }
    ensures whole { IfOk result (λ answer. IsWhole answer.end) }
    ensures fault { IfErr result (RefusesImage command.now image.now) }
    ensures progress { TellsProgress (asks_progress command.now) (E.contents err.old) (E.contents err.new) }
{
    match command {
        ImageCommand::Asm { .. } => Ok(Answer::done(write_image(alloc, image)?)),
        ImageCommand::Run {
            budget,
            plan,
            lead,
            written,
        } => rt.run(alloc, image, *budget, plan, *lead, *written),
        ImageCommand::RunUntilStuck {
            budget,
            plan,
            lead,
            written,
        } => rt.run_until_stuck(alloc, image, *budget, plan, *lead, *written),
        ImageCommand::One {
            budget,
            plan,
            order,
            written,
        } => one(alloc, image, *budget, plan, order, *written),
        ImageCommand::OneUntilStuck {
            budget,
            plan,
            order,
            written,
        } => one_until_stuck(alloc, image, *budget, plan, order, *written),
        ImageCommand::Explore {
            plan,
            states,
            turns,
            record,
            buffered,
            progress,
        } => {
            let wanted = Search {
                harts: plan,
                states: *states,
                turns: *turns,
                buffered: *buffered,
                progress: *progress,
            };
            explore_numbered(alloc, image, &wanted, *record, err)
        }
        ImageCommand::Split {
            plan,
            count,
            turns,
            progress,
        } => split(alloc, image, plan, *count, *turns, *progress, err),
        ImageCommand::ExploreFrom {
            start,
            states,
            turns,
            record,
            // a search from a start always takes sends to buffer
            buffered: _,
            progress,
        } => explore_from(
            alloc, image, start, *states, *turns, *record, *progress, err,
        ),
        // of the others `Dis` alone is answered as a whole
        _ => Ok(Answer::done(listing(alloc, image)?)),
    }
}

/// What a command answers to the bytes that it takes an image from.
#[tactic(auto, using(cl_lines::proofs::Behind::nothing_told))]
fn answer_of_image<R: MaybeThreads, E: Write>(
    rt: &R,
    alloc: Global,
    bytes: &[u8],
    source: bool,
    command: &ImageCommand,
    err: &mut E,
) -> Result<Answer, Fault>
    requires threads { R.may_ask }
    requires whole { tells_search command.now ≡ false }
    ensures says { IfOk result (λ answer.
        SaysOfImage source command.now bytes.now (output_bytes answer.output) (end_status answer.end)) }
    ensures whole { IfOk result (λ answer. IsWhole answer.end) }
    ensures fault { IfErr result (IsImageFault source command.now bytes.now) }
    ensures progress { TellsProgress (asks_progress command.now) (E.contents err.old) (E.contents err.new) }
{
    if let ImageCommand::Asm { from: true } = command {
        return rewritten(alloc, bytes, source);
    }
    let image = image_in(alloc, source, bytes)?;
    made(rt, alloc, &image, command, err)
}

/// What a command line answers to its input, if that is answered as a whole.
///
/// A fault of the input is an `Err`, as want of memory is: the first fault of the source, the image or the record,
/// `Plans` where a run's plan or order is wrong, or the fault for which a command tells nothing of a record's steps. A
/// word of `debug` that is refused is no such `Err`: the answer has the texts of the words before it, and is cut short
/// by the fault. A session answers as its input comes, and a list and what a search tells are written as they are made: not
/// here. A search that is asked for lines that say how far it came writes them on `err`.
///
/// `run` waits for its threads, and what is promised of it holds if it returns. It also answers `Spawn` where a thread is
/// refused, and `Unlike` where what the threads left doesn't fit together; both only where its plan is right.
pub fn answer<R: MaybeThreads, E: Write>(
    rt: &R,
    alloc: Global,
    line: &CommandLine,
    bytes: &[u8],
    err: &mut E,
) -> Result<Answer, Fault>
    requires threads { R.may_ask }
    requires whole { is_written_as_made line.now ≡ false }
    ensures says { IfOk result (λ answer.
        Says line.now bytes.now (output_bytes answer.output) (end_status answer.end)) }
    ensures ends { IfOk result (λ answer. EndsSo line.now bytes.now (output_bytes answer.output) answer.end) }
    ensures fault { IfErr result (IsFaultOf line.now bytes.now) }
    ensures progress { TellsProgress (wants_progress line.now) (E.contents err.old) (E.contents err.new) }
{
    match line {
        CommandLine::OfImage { source, command } => answer_of_image(
            rt, alloc, bytes, *source, command, err,
        ),
        CommandLine::OfRecord(command) => answer_of_record(alloc, bytes, command),
        // of the others `Join` alone is answered as a whole
        _ => join(alloc, bytes),
    }
}

/// What a command line that needs no threads answers to its input, with the same faults.
pub fn answer_to<E: Write>(
    alloc: Global,
    line: &CommandLine,
    bytes: &[u8],
    err: &mut E,
) -> Result<Answer, Fault>
    requires plain { needs_threads line.now ≡ false }
    requires whole { is_written_as_made line.now ≡ false }
    ensures says { IfOk result (λ answer.
        Says line.now bytes.now (output_bytes answer.output) (end_status answer.end)) }
    ensures ends { IfOk result (λ answer. EndsSo line.now bytes.now (output_bytes answer.output) answer.end) }
    ensures fault { IfErr result (IsFaultOf line.now bytes.now) }
    ensures progress { TellsProgress (wants_progress line.now) (E.contents err.old) (E.contents err.new) }
{
    answer(&NoThreads, alloc, line, bytes, err)
}
