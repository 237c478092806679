//! The text of a record, checked as it is read. No list of its steps is made.

ghost use Rattle.std.specs.Prelude.{◌≡◌, ◌<◌, ◌≤◌, ◌+◌, ◌^◌, ◌↔◌, IfErr, IfOk, IsTrue, IsFalse, List, MatchResult, length};
ghost use Rattle.std.specs.List.{last_or};
ghost use Rattle.cl_machine.specs.Laws.{ComesAfter};
ghost use Rattle.cl_machine.specs.Cluster.{loaded_cluster};
ghost use Rattle.cl_machine.specs.declared.steps.Step.{Step as StepView};
ghost use Rattle.cl_text.specs.Reading.{all_read, reading_record, steps_counted};
ghost use Rattle.cl_text.specs.ReadingAnswers.{GivesBy, IsFaultOf};
ghost use Rattle.cl_replay.specs.States.{ClusterStandsFor};
ghost use Rattle.cl_replay.specs.Walking.{hart_at};
ghost use Rattle.cl_check.specs.Texts.{EndsWith, HasFound, HasRun, HaveRun, IsBadNext, IsCheckOf, IsGoodNext, RankHasRun, ReadsOut, front_of as front_in};

use crate::checking::Verdict;
use cl_journal::CLOCK_MAX;
use cl_machine::Step;
use cl_plain::step_running;
use cl_replay::{ClusterState, StepFault};
use cl_state::RankState;
use cl_text::{Opened, RecordFault, behind_plain, open_record, read_step};
use mp_types::Stamp;
use rv_hart::Hart;
use rv_image_types::ImageParts;
use rv_memory::RankMemory;
use std::alloc::{AllocError, Global};

/// What was found of a record, and how many steps it has.
#[derive(Clone, Copy, Drop)]
pub struct Checked {
    pub verdict: Verdict,
    pub steps: u64,
}

/// Whose a step is, and its stamp.
#[derive(Clone, Copy, Drop)]
struct Front {
    rank: u8,
    hart: u8,
    stamp: Stamp,
}

fn front_of(step: &Step) -> Front
    ensures { result ≡ front_in step.now }
{
    Front {
        rank: step.rank(),
        hart: step.hart(),
        stamp: step.stamp(),
    }
}

/// Whether a step comes after the last one, if there is one.
fn comes_after(last: Option<Front>, step: &Step) -> bool
    ensures { (done : List StepView) → EndsWith done last → (IsTrue result ↔ ComesAfter (last_or None done) step.now) }
{
    match last {
        None => true,
        Some(last) => {
            last.stamp < step.stamp() || last.stamp == step.stamp() && last.rank < step.rank()
        }
    }
}

/// Does a step, if it comes after the last one and the machine has it: whether that is so. If not, the state may be
/// anything.
///
/// The only error is want of memory, for what the step makes.
fn do_next(state: &mut ClusterState, last: Option<Front>, step: &Step) -> Result<bool, AllocError>
    ensures good { IfOk result (λ good. IsTrue good → IsGoodNext last state.old step.now state.new) }
    ensures bad { IfOk result (λ good. IsFalse good → IsBadNext last state.old step.now) }
{
    if !comes_after(last, step) {
        return Ok(false);
    }
    match state.step(step) {
        Ok(()) => Ok(true),
        Err(StepFault::NotAStep) => Ok(false),
        Err(StepFault::Memory) => Err(AllocError),
    }
}

/// How far instructions went on: the last step, how many there were, and the bytes behind them.
#[derive(Clone, Copy, Drop)]
struct Gone<'a> {
    last: Front,
    count: u64,
    rest: &'a [u8],
}

/// Does the steps that the bytes begin with, at most so many, as long as each is an instruction of the hart that did the
/// last step, comes next and is done at once. Answers the clock that is reached, which tells how many were done, and what
/// follows them.
///
/// A step is two words, which are compared with what comes next, so it costs little more than the hart's own.
#[inline(always)]
fn run_hart<'a>(
    hart: &mut Hart,
    memory: &mut RankMemory,
    image: &ImageParts,
    last: Front,
    most: u64,
    bytes: &'a [u8],
) -> (Stamp, &'a [u8])
    requires rank { last.rank < image.now.ranks }
    requires hart { last.hart < image.now.harts }
    requires low { last.stamp + most < 2 ^ 62 }
    ensures forwards { last.stamp ≤ result.0 }
    ensures within { result.0 ≤ last.stamp + most }
    ensures runs { HasRun image.now last (hart_at hart.old memory.old last.stamp) bytes.now
        (hart_at hart.new memory.new result.0) result.1.now }
{
    let mut clock = last.stamp;
    let mut rest = bytes;
    for _n in 0..most {
        let Some(after) = behind_plain(image, last.rank, last.hart, clock + 1, rest) else {
            return (clock, rest);
        };
        if !step_running(hart, memory) {
            return (clock, rest);
        }
        clock += 1;
        rest = after;
    }
    (clock, rest)
}

/// The same of a rank. Where its clock isn't the last step's stamp, or could come to its end on the way, nothing is done.
#[inline(never)]
fn run_rank<'a>(
    state: &mut RankState,
    image: &ImageParts,
    last: Front,
    most: u64,
    bytes: &'a [u8],
) -> Gone<'a>
    requires rank { last.rank < image.now.ranks }
    requires hart { last.hart < image.now.harts }
    ensures within { result.count ≤ most }
    ensures runs { RankHasRun image.now last state.old bytes.now result state.new }
{
    let hart = usize::from(last.hart);
    if hart >= state.harts.len()
        || last.stamp != state.clock
        || last.stamp > CLOCK_MAX
        || most > CLOCK_MAX - last.stamp
    {
        return Gone {
            last,
            count: 0,
            rest: bytes,
        };
    }
    let (clock, rest) = run_hart(
        &mut state.harts[hart],
        &mut state.memory,
        image,
        last,
        most,
        bytes,
    );
    state.clock = clock;
    Gone {
        last: Front {
            stamp: clock,
            ..last
        },
        count: clock - last.stamp,
        rest,
    }
}

/// Goes on from a step with the instructions of the same hart that the bytes begin with, at most so many.
fn go_on<'a>(
    state: &mut ClusterState,
    image: &ImageParts,
    last: Front,
    most: u64,
    bytes: &'a [u8],
) -> Gone<'a>
    ensures within { result.count ≤ most }
    ensures runs { HaveRun image.now last state.old bytes.now result state.new }
{
    let rank = usize::from(last.rank);
    if rank >= state.ranks.len() || last.rank >= image.ranks || last.hart >= image.harts {
        return Gone {
            last,
            count: 0,
            rest: bytes,
        };
    }
    run_rank(&mut state.ranks[rank], image, last, most, bytes)
}

/// Whether nothing follows the steps of a record.
fn close(opened: &Opened, rest: &[u8]) -> Result<(), RecordFault>
    ensures { (done : List StepView) → GivesBy (λ _. (opened.now.image, done)) result
        (all_read opened.now.total opened.now.image (done, rest.now)) }
{
    if rest.is_empty() {
        return Ok(());
    }
    // it never saturates: what is left is the record's end
    Err(RecordFault::Long(opened.total.saturating_sub(rest.len())))
}

/// Reads the steps of a record from this number on, only to see that they are steps, and that nothing follows.
fn read_out(alloc: Global, opened: &Opened, from: u64, bytes: &[u8]) -> Result<(), RecordFault>
    requires { from ≤ opened.now.count }
    ensures { ReadsOut opened.now.total opened.now.image opened.now.count from bytes.now result }
{
    let (image, count) = (opened.image.parts(), opened.count);
    let mut done = from;
    let mut rest = bytes;
    while done < count {
        let (_, after) = read_step(alloc, opened.total, image, done, rest)?;
        done += 1;
        rest = after;
    }
    close(opened, rest)
}

/// Checks the steps of a record that was opened, from the loaded cluster on.
fn check_steps(
    alloc: Global,
    opened: &Opened,
    state: &mut ClusterState,
) -> Result<Verdict, RecordFault>
    requires { ClusterStandsFor opened.now.image state.old (loaded_cluster opened.now.image) }
    ensures { HasFound (steps_counted opened.now.total opened.now.image opened.now.count opened.now.steps.now)
        opened.now.count result }
{
    let (image, count) = (opened.image.parts(), opened.count);
    let mut last: Option<Front> = None;
    let mut done: u64 = 0;
    let mut rest = opened.steps;
    while done < count {
        let (step, after) = read_step(alloc, opened.total, image, done, rest)?;
        let good = do_next(state, last, &step)?;
        let front = front_of(&step);
        drop(step);
        if !good {
            read_out(alloc, opened, done + 1, after)?;
            return Ok(Verdict::BadAt(done));
        }
        let gone = go_on(state, image, front, count - (done + 1), after);
        last = Some(gone.last);
        done += 1 + gone.count;
        rest = gone.rest;
    }
    close(opened, rest)?;
    Ok(Verdict::Good)
}

/// Whether the steps of a record are a run of its image, as [`check`](crate::check) says it of a list of them, and how
/// many there are. They are checked as they are read, so a record takes no more memory than its cluster.
///
/// Refused for the first fault of the record, also where that stands behind a step that is none of the machine's, and for
/// want of memory.
pub fn check_text(alloc: Global, bytes: &[u8]) -> Result<Checked, RecordFault>
    ensures found { IfOk result (λ checked. IsCheckOf (reading_record bytes.now) checked) }
    ensures fault { IfErr result (IsFaultOf (reading_record bytes.now)) }
{
    let opened = open_record(alloc, bytes)?;
    let mut state = ClusterState::load(alloc, &opened.image)?;
    let verdict = check_steps(alloc, &opened, &mut state)?;
    Ok(Checked {
        verdict,
        steps: opened.count,
    })
}
