//! One step of a cluster.

ghost use Rattle.std.specs.Prelude.{◌≡◌, IfErr, IsFalse, IsTrue, OnOk, Err};
ghost use Rattle.cl_trace.specs.declared.events.Kind.TheVariants as kinds;
ghost use Rattle.cl_replay.specs.InnerReplaying.{StepBreaks};
ghost use Rattle.cl_replay.specs.InnerStates.{AreSame};
ghost use Rattle.cl_replay.specs.Steps.{Leads, StepFaultHolds};

use crate::calls::call;
use crate::faults::StepFault;
use crate::replaying::ReplayFault;
use crate::states::ClusterState;
use crate::turns::{freed, miss, plain, plain_at_once, quiet, ready, take};
use cl_journal::CLOCK_MAX;
use cl_machine::{KindRef, Step};
use cl_trace::Bare;

/// Whether a step is an instruction that was done.
#[inline(always)]
pub(crate) fn is_plain_step(step: &Step) -> bool
    ensures { IsTrue result → step.now.kind ≡ kinds.Plain }
{
    match step.kind() {
        KindRef::Bare(kind) => match kind {
            Bare::Plain => true,
            _ => false,
        },
        KindRef::Hub(_) => false,
    }
}

impl ClusterState {
    /// Does one step, if the machine has it from here: the rank and its hart are there, the hart
    /// asks what the step's kind says, the stamp and the hub's reply are the machine's, and the box
    /// is as the kind wants it.
    ///
    /// A plain step copies nothing; it costs what the hart's own step costs, and one look at the
    /// word before. It stands where this is called, any other step by itself.
    ///
    /// Refusals: NotAStep just where the machine has no such step; Memory where a page that the turn
    /// may write isn't there, where a local step puts bytes behind the output, or where a call of the
    /// hub carries or makes something, and in no other step, and then the cluster is as it was. After
    /// NotAStep the state may be anything.
    #[inline(always)]
    pub fn step(&mut self, step: &Step) -> Result<(), StepFault>
        ensures leads { OnOk result (Leads self.old step.now self.new) }
        ensures fault { IfErr result (StepFaultHolds self.old step.now) }
        ensures same { result ≡ Err StepFault.Memory → AreSame self.old self.new }
    {
        if self.step_at_once(step) {
            return Ok(());
        }
        self.step_any(step)
    }

    /// Does the step that stands at a place of a list, and tells that place where the machine hasn't the step. After a
    /// refusal the state may be anything.
    pub fn step_at(&mut self, place: u64, step: &Step) -> Result<(), ReplayFault>
        ensures leads { OnOk result (Leads self.old step.now self.new) }
        ensures fault { IfErr result (StepBreaks self.old place step.now) }
    {
        match self.step(step) {
            Ok(()) => Ok(()),
            Err(StepFault::NotAStep) => Err(ReplayFault::Step(place)),
            Err(StepFault::Memory) => Err(ReplayFault::Memory),
        }
    }

    /// Does a plain step that the machine has from here, unless the page that it stores to isn't there. Else nothing is
    /// done.
    #[inline(always)]
    fn step_at_once(&mut self, step: &Step) -> bool
        ensures leads { IsTrue result → Leads self.old step.now self.new }
        ensures same { IsFalse result → AreSame self.old self.new }
    {
        let rank = usize::from(step.rank());
        if !is_plain_step(step) || rank >= self.ranks.len() {
            return false;
        }
        let state = &mut self.ranks[rank];
        if usize::from(step.hart()) >= state.harts.len() {
            return false;
        }
        plain_at_once(state, step)
    }

    /// Does a step of any kind, if the machine has it from here.
    #[inline(never)]
    fn step_any(&mut self, step: &Step) -> Result<(), StepFault>
        ensures leads { OnOk result (Leads self.old step.now self.new) }
        ensures fault { IfErr result (StepFaultHolds self.old step.now) }
        ensures same { result ≡ Err StepFault.Memory → AreSame self.old self.new }
    {
        let rank = usize::from(step.rank());
        if rank >= self.ranks.len() || step.stamp() > CLOCK_MAX {
            return Err(StepFault::NotAStep);
        }
        let state = &mut self.ranks[rank];
        if usize::from(step.hart()) >= state.harts.len() {
            return Err(StepFault::NotAStep);
        }
        match step.kind() {
            KindRef::Bare(kind) => match kind {
                Bare::Plain => plain(state, step),
                Bare::Local | Bare::Held | Bare::Idle => quiet(state, step),
                Bare::Ready => ready(state, self.boxes.as_mut_slice(), step),
                Bare::Take => take(state, self.boxes.as_mut_slice(), step),
                Bare::Miss => miss(state, step),
                Bare::Freed => freed(state, self.boxes.as_slice(), step),
            },
            KindRef::Hub(reply) => match call(state, &mut self.hub, self.clock, step, reply) {
                Ok(()) => {
                    self.clock = step.stamp();
                    Ok(())
                }
                Err(fault) => Err(fault),
            },
        }
    }
}
