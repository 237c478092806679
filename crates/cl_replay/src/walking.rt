//! Steps of a cluster, done from one place of a list to another.

ghost use Rattle.std.specs.Prelude.{◌≡◌, ◌≤◌, ◌<◌, ◌+◌, ◌-◌, ◌/◌, ◌%◌, ◌^◌, length, IfErr, IsTrue, OnOk};
ghost use Rattle.cl_trace.specs.declared.events.Kind.TheVariants as kinds;
ghost use Rattle.cl_replay.specs.Walking.{GoesOn, HartGoesOn, KeepsOrder, LeadsOn, WalkFaultHolds, hart_at};

use crate::faults::{StepFault, WalkFault};
use crate::states::ClusterState;
use crate::stepping::is_plain_step;
use cl_journal::CLOCK_MAX;
use cl_machine::Step;
use cl_plain::step_running;
use cl_state::RankState;
use mp_types::Stamp;
use rv_hart::Hart;
use rv_memory::RankMemory;

/// Whose steps are done one after another: a hart of a rank.
#[derive(Clone, Copy, Drop)]
struct Whose {
    rank: u8,
    hart: u8,
}

/// A rank and a hart as one number. They stand side by side in a step, so that both are read and compared at once.
#[inline(always)]
fn pair_of(rank: u8, hart: u8) -> u16
    ensures rank { result % 256 ≡ rank }
    ensures hart { result / 256 ≡ hart }
{
    u16::from(rank) + 256 * u16::from(hart)
}

/// Whether a step is an instruction that this hart did, at the stamp behind this clock.
#[inline(always)]
fn comes_next(step: &Step, whose: Whose, clock: Stamp) -> bool
    requires { clock < 2 ^ 62 }
    ensures plain { IsTrue result → step.now.kind ≡ kinds.Plain }
    ensures rank { IsTrue result → step.now.rank ≡ whose.rank }
    ensures hart { IsTrue result → step.now.hart ≡ whose.hart }
    ensures stamp { IsTrue result → step.now.stamp ≡ clock + 1 }
{
    is_plain_step(step)
        && pair_of(step.rank(), step.hart()) == pair_of(whose.rank, whose.hart)
        && step.stamp() == clock + 1
}

/// Whether so many turns behind a clock have stamps.
#[inline(always)]
fn has_stamps(clock: Stamp, turns: usize) -> bool
    ensures { IsTrue result → clock + turns < 2 ^ 62 }
{
    let turns = turns as u64;
    turns <= CLOCK_MAX && clock <= CLOCK_MAX - turns
}

/// Does steps of a hart as long as each is an instruction of it that comes next, and is done at once. Answers the clock
/// that is reached, which tells how many were done.
///
/// The hart, the memory and the clock stay at hand from step to step. So a step costs little more than the hart's own.
#[inline(always)]
fn run_hart(
    hart: &mut Hart,
    memory: &mut RankMemory,
    clock: Stamp,
    whose: Whose,
    run: &[Step],
) -> Stamp
    requires low { clock + length run.now < 2 ^ 62 }
    ensures forwards { clock ≤ result }
    ensures within { result ≤ clock + length run.now }
    ensures goes { HartGoesOn run.now whose (hart_at hart.old memory.old clock) (result - clock)
        (hart_at hart.new memory.new result) }
{
    let mut reached = clock;
    for step in run {
        if !comes_next(step, whose, reached) {
            return reached;
        }
        if !step_running(hart, memory) {
            return reached;
        }
        reached += 1;
    }
    reached
}

/// Does plain steps of a rank from a place on, as long as each is of the hart whose step is before that place, and is
/// done at once. Answers the place that is reached, which is at most the last one that is given.
///
/// The hart is looked up once for all of them. Where the stamps could come to an end on the way nothing is done, so that
/// no step has to look at that.
#[inline(never)]
fn run_plain(state: &mut RankState, rank: u8, steps: &[Step], from: usize, to: usize) -> usize
    requires after { 0 < from }
    requires forwards { from ≤ to }
    requires within { to ≤ length steps.now }
    ensures forwards { from ≤ result }
    ensures within { result ≤ to }
    ensures goes { GoesOn steps.now rank from state.old result state.new }
{
    let before = &steps[from - 1];
    let whose = Whose {
        rank,
        hart: before.hart(),
    };
    let hart = usize::from(whose.hart);
    let clock = state.clock;
    if hart >= state.harts.len() || before.stamp() != clock {
        return from;
    }
    if !has_stamps(clock, to - from) {
        return from;
    }
    let run = &steps[from..to];
    let reached = run_hart(&mut state.harts[hart], &mut state.memory, clock, whose, run);
    state.clock = reached;
    from + (reached - clock) as usize
}

impl ClusterState {
    /// Goes on from a place behind a step with the plain steps of the same rank and hart that follow it. Answers the
    /// place that is reached, which is at most the last one that is given: none of them needs memory or is refused.
    #[inline(always)]
    pub fn go_on(&mut self, steps: &[Step], from: usize, to: usize) -> usize
        requires after { 0 < from }
        requires forwards { from ≤ to }
        requires within { to ≤ length steps.now }
        ensures forwards { from ≤ result }
        ensures within { result ≤ to }
        ensures leads { LeadsOn steps.now from self.old result self.new }
        ensures order { KeepsOrder steps.now from self.old result }
    {
        let rank = steps[from - 1].rank();
        if from >= to || steps[from].rank() != rank || usize::from(rank) >= self.ranks.len() {
            return from;
        }
        run_plain(&mut self.ranks[usize::from(rank)], rank, steps, from, to)
    }

    /// Does the steps from one place of a list to another.
    ///
    /// Refusals: Step where the machine has no such step, with its place; Memory. After a refusal the state may be
    /// anything.
    pub fn walk(&mut self, steps: &[Step], from: usize, to: usize) -> Result<(), WalkFault>
        requires forwards { from ≤ to }
        requires within { to ≤ length steps.now }
        ensures leads { OnOk result (LeadsOn steps.now from self.old to self.new) }
        ensures fault { IfErr result (WalkFaultHolds steps.now from self.old to) }
    {
        let mut n = from;
        while n < to {
            match self.step(&steps[n]) {
                Ok(()) => {}
                Err(StepFault::NotAStep) => return Err(WalkFault::Step(n as u64)),
                Err(StepFault::Memory) => return Err(WalkFault::Memory),
            }
            n = self.go_on(steps, n + 1, to);
        }
        Ok(())
    }
}
