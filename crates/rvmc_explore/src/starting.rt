//! What is told of one start of a split.

ghost use Rattle.std.specs.Prelude.{◌≡◌, ◌<◌, [], IfErr, IfOk, None, false, length, true};
ghost use Rattle.std.specs.Option.{option_map};
ghost use Rattle.rv_image.specs.Text.{image_text};
ghost use Rattle.cl_explore.specs.Ends.{ExploredBehind, IsBounded, findings};
ghost use Rattle.cl_explore.specs.declared.needs.Needs.TheVariants as needs;
ghost use Rattle.rvmc_starts.specs.Sums.{sum_of};
ghost use Rattle.cl_lines.specs.Telling.{TellsProgress};
ghost use Rattle.rvmc_explore.specs.InnerOutcomes.{AreHeard};
ghost use Rattle.rvmc_explore.specs.Outcomes.{any_need};
ghost use Rattle.rvmc_explore.specs.Starting.{AreEndsTold, IsEndTold, IsLine, RecordsEndBehind, StartFaultHolds, TellsFrom};
ghost use Rattle.rvmc_explore.specs.declared.starting.StartFault.TheVariants as faults;

use crate::heads::put_head;
use crate::hearing::{Buffered, Hearer};
use crate::judging::search_status;
use crate::outcomes::{Outcome, tell};
use crate::recording::record_in;
use crate::splitting::sum_of_image;
use crate::telling::Told;
use crate::unending::is_unending;
use cl_explore::{Course, Exploration, OrderFault, explore_from};
use cl_machine::Step;
use rv_image_types::Image;
use rvmc_starts::{EndText, Ends, Part, Start, Text, put_part};
use rvmc_words::Numbers;
use std::alloc::{AllocError, Global};
use std::io::Write;

/// Why nothing is told of a start.
#[derive(Clone, Copy, Drop)]
pub enum StartFault {
    /// A clock came to its end, or memory was refused.
    Memory,
    /// The start is one of another image.
    OtherImage,
    /// The turns before the one of this number, from 0, lead to where there is none as that one.
    NoTurn(usize),
}

impl From<AllocError> for StartFault {
    ghost from_gives = { λ _ fault. fault ≡ faults.Memory };

    fn from(_e: AllocError) -> StartFault {
        StartFault::Memory
    }
}

/// Of how many states a search from a start makes the moves at most, how many turns a rank takes by itself at once, and whether
/// lines are wanted that say how far it came.
#[derive(Clone, Copy, Drop)]
pub struct Reach {
    pub states: usize,
    pub turns: u64,
    pub progress: bool,
}

/// The bytes before the first newline.
fn first_line(alloc: Global, text: &[u8]) -> Result<Vec<u8>, AllocError>
    ensures { IfOk result (λ line. IsLine line.items) }
{
    let mut line = Vec::new(alloc);
    for byte in text {
        if *byte == b'\n' {
            return Ok(line);
        }
        line.push(*byte)?;
    }
    Ok(line)
}

/// What is told of the outcome of this number: its line, which says how it differs from the first one, and its text.
fn end_told(
    alloc: Global,
    image: &Image,
    outcome: &Outcome,
    first: &Outcome,
    number: usize,
) -> Result<EndText, AllocError>
    ensures { IfOk result (IsEndTold outcome.now) }
{
    let mut head = Vec::new(alloc);
    put_head(alloc, &mut head, image, outcome, first, number)?;
    let line = first_line(alloc, head.as_slice())?;
    Ok(EndText {
        head: Text::from_vec(line),
        body: Text::copy_of(alloc, outcome.body.as_slice())?,
    })
}

/// What is told of all outcomes, in their order.
fn ends_told(alloc: Global, image: &Image, told: &[Outcome]) -> Result<Vec<EndText>, AllocError>
    ensures { IfOk result (λ ends. AreEndsTold told.now ends.items) }
{
    let mut ends = Vec::new(alloc);
    for place in 0..told.len() {
        let end = end_told(alloc, image, &told[place], &told[0], place + 1)?;
        ends.push(end)?;
    }
    Ok(ends)
}

/// A search from a start, in which ends are heard of as they are found. Each standard send copies its message in it, since ranks
/// may need buffers before the start, where it doesn't look. So it names no ranks that need buffers.
///
/// Refusals: OtherImage, then NoTurn, and Memory.
#[tactic(auto, using(cl_lines::proofs::Behind::nothing_told, crate::proofs::Heard::none_heard, crate::proofs::Heard::none_needed))]
fn searched<E: Write>(
    alloc: Global,
    image: &Image,
    start: &Start,
    reach: Reach,
    hearer: &mut Hearer<Buffered>,
    err: &mut E,
) -> Result<Exploration, StartFault>
    requires harts { 0 < length start.now.harts }
    requires none { hearer.old.told.items ≡ [] }
    requires sends { hearer.old.buffered ≡ true }
    ensures heard { AreHeard start.now.harts image.now hearer.new.told.items }
    ensures no_need { any_need hearer.new.told.items ≡ false }
    ensures known { IfOk result (λ found. start.now.image ≡ sum_of (image_text image.now)) }
    ensures ends { IfOk result (λ found. ExploredBehind image.now start.now.harts start.now.turns (findings found)) }
    ensures most { IfOk result (λ found. IsBounded reach.states None reach.turns found.nodes.items found.left) }
    ensures unsought { IfOk result (λ found. found.needs ≡ needs.Unsought) }
    ensures fault { IfErr result (StartFaultHolds image.now start.now) }
    ensures progress { TellsProgress reach.progress (E.contents err.old) (E.contents err.new) }
{
    if sum_of_image(alloc, image)? != start.image {
        return Err(StartFault::OtherImage);
    }
    let course = Course {
        alloc,
        order: start.harts.as_slice(),
        most: reach.turns,
        progress: reach.progress,
        buffered: true,
    };
    let turns = start.turns.as_slice();
    match explore_from(&course, image, turns, reach.states, hearer, err) {
        Ok(found) => Ok(found),
        Err(OrderFault::NoTurn(turn)) => Err(StartFault::NoTurn(turn)),
        Err(OrderFault::Move(_)) => Err(StartFault::Memory),
    }
}

/// Searches from a start and writes what was found, under the start's name: each outcome, whether some runs go on for ever, and
/// whether any order could lead from the start to another outcome.
///
/// Refusals: OtherImage where the start is one of another image; NoTurn where its turns lead nowhere; Memory, also where a
/// clock came to its end.
pub fn explored_from<E: Write>(
    alloc: Global,
    image: &Image,
    start: &Start,
    reach: Reach,
    err: &mut E,
) -> Result<Told, StartFault>
    requires { 0 < length start.now.harts }
    ensures told { IfOk result (λ told. TellsFrom image.now start.now reach.states reach.turns told.text.items told.status) }
    ensures fault { IfErr result (StartFaultHolds image.now start.now) }
    ensures progress { TellsProgress reach.progress (E.contents err.old) (E.contents err.new) }
{
    // ghost: brings into scope that the parts are those of an image; no effect at run time
    let _parts = image.parts();
    let mut hearer: Hearer<Buffered> = Hearer::new(alloc, true);
    let found = searched(alloc, image, start, reach, &mut hearer, err)?;
    let order = start.harts.as_slice();
    let told = tell(alloc, image, order, &found, hearer.told)?;
    let ends = ends_told(alloc, image, told.as_slice())?;
    let unending = is_unending(alloc, &found)?;
    let status = search_status(&found, order, false, unending);
    let part = Part {
        number: start.number,
        count: start.count,
        split: start.split,
        image: start.image,
        harts: Numbers::from_vec(Vec::from_slice(alloc, order)?),
        ends: Ends::from_vec(ends),
        states: found.nodes.len() as u64,
        left: found.left as u64,
        status,
        unending,
    };
    let mut text = Vec::new(alloc);
    put_part(alloc, &mut text, &part)?;
    Ok(Told { text, status })
}

/// The steps that lead from the loaded cluster to the outcome of this number, from 1, in the list that `explored_from` tells, in
/// the order of a record. None where there are fewer.
///
/// Refusals: as those of `explored_from`.
pub fn recorded_from<E: Write>(
    alloc: Global,
    image: &Image,
    start: &Start,
    reach: Reach,
    number: u64,
    err: &mut E,
) -> Result<Option<Vec<Step>>, StartFault>
    requires { 0 < length start.now.harts }
    ensures steps { IfOk result (λ steps. RecordsEndBehind image.now start.now reach.states reach.turns number
        (option_map (λ s. s.items) steps)) }
    ensures fault { IfErr result (StartFaultHolds image.now start.now) }
    ensures progress { TellsProgress reach.progress (E.contents err.old) (E.contents err.new) }
{
    // ghost: brings into scope that the parts are those of an image; no effect at run time
    let _parts = image.parts();
    let mut hearer: Hearer<Buffered> = Hearer::new(alloc, true);
    let found = searched(alloc, image, start, reach, &mut hearer, err)?;
    let told = tell(alloc, image, start.harts.as_slice(), &found, hearer.told)?;
    Ok(record_in(alloc, told.as_slice(), number)?)
}
