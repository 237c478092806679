//! To another place: by its number, by one step, or by a run.

ghost use Rattle.std.specs.Prelude.{◌≡◌, ◌↔◌, ◌<◌, length, Err, IfErr, IfOk, IsOk, OnErr, OnOk};
ghost use Rattle.std.specs.Prelude.{Ok, false};
ghost use Rattle.cl_debug.specs.Debugging.{at_place};
ghost use Rattle.cl_debug.specs.Faults.{GoFaultHolds, NextTakesMemory};
ghost use Rattle.cl_debug.specs.Moves.{MovedBack, MovedOn, RanOn};

use crate::breaks::run_on;
use crate::debugging::Debugger;
use crate::faults::DebugFault;
use cl_replay::StepFault;

impl Debugger {
    /// Goes to a place: so many steps from the start. PastEnd where there are fewer, else Memory. After a refusal the
    /// debugger is as it was.
    pub fn go(&mut self, n: u64) -> Result<(), DebugFault>
        ensures there { OnOk result (self.new ≡ at_place self.old n) }
        ensures past { (result ≡ Err (DebugFault.PastEnd (length self.old.steps))) ↔ (length self.old.steps < n) }
        ensures unchanged { OnErr result (self.new ≡ self.old) }
        ensures fault { IfErr result (GoFaultHolds self.old.steps n) }
    {
        let len = self.steps.len() as u64;
        if n > len {
            return Err(DebugFault::PastEnd(len));
        }
        let near = n / self.spacing;
        let from = near * self.spacing;
        let state = self.led(&self.kept[near as usize], from, n)?;
        self.state = state;
        self.place = n;
        Ok(())
    }

    /// One step on: false at the end, and the debugger stays there, which takes no memory. No state is copied: it costs
    /// what the step itself does. The only error is want of memory for what the step makes, and then the debugger is as
    /// it was.
    pub fn step(&mut self) -> Result<bool, DebugFault>
        ensures moved { IfOk result (λ moved. MovedOn self.old moved self.new) }
        ensures end { self.old.place ≡ length self.old.steps → result ≡ Ok false }
        ensures taken { OnErr result (NextTakesMemory self.old) }
        ensures unchanged { OnErr result (self.new ≡ self.old) }
        ensures fault { IfErr result (λ fault. fault ≡ DebugFault.Memory) }
    {
        if self.place >= self.steps.len() as u64 {
            return Ok(false);
        }
        match self.state.step(&self.steps[self.place as usize]) {
            Ok(()) => {
                self.place += 1;
                Ok(true)
            }
            Err(StepFault::NotAStep) => unreachable!(),
            Err(StepFault::Memory) => Err(DebugFault::Memory),
        }
    }

    /// One step back: false at the start, and the debugger stays there, which takes no memory. The only error is want of
    /// memory, and then the debugger is as it was.
    pub fn back(&mut self) -> Result<bool, DebugFault>
        ensures moved { IfOk result (λ moved. MovedBack self.old moved self.new) }
        ensures start { self.old.place ≡ 0 → result ≡ Ok false }
        ensures unchanged { OnErr result (self.new ≡ self.old) }
        ensures fault { IfErr result (λ fault. fault ≡ DebugFault.Memory) }
    {
        if self.place == 0 {
            return Ok(false);
        }
        let before = self.place - 1;
        self.go(before)?;
        Ok(true)
    }

    /// Runs to the least later place where a break stops it, or else to the end. At the end it stays, which takes no
    /// memory. The only error is want of memory, and then the debugger is as it was.
    pub fn run(&mut self) -> Result<(), DebugFault>
        ensures stopped { OnOk result (RanOn self.old self.new) }
        ensures end { self.old.place ≡ length self.old.steps → IsOk result }
        ensures unchanged { OnErr result (self.new ≡ self.old) }
        ensures fault { IfErr result (λ fault. fault ≡ DebugFault.Memory) }
    {
        if self.place >= self.steps.len() as u64 {
            return Ok(());
        }
        let mut state = self.state.try_copy(self.alloc)?;
        let place = run_on(
            &mut state,
            self.steps.as_slice(),
            self.breaks.as_slice(),
            self.place,
        )?;
        self.state = state;
        self.place = place;
        Ok(())
    }
}
