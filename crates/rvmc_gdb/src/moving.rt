//! Threads that are meant, and their motions.

ghost use Rattle.std.specs.Prelude.{◌≡◌, IfOk};
ghost use Rattle.rvmc_protocol.specs.Replies.Stops.{stop_text};

use crate::session::{Goal, Session, Who};
use rvmc_motions::{Halt, Motion, Mover, backwards, forwards};
use rvmc_protocol::replies::{Stop, put_stop};
use rvmc_protocol::requests::{Move, Thread};
use std::alloc::{AllocError, Global};

/// The text of a stop.
fn stop_text(alloc: Global, stop: Stop, thread: u64) -> Result<Vec<u8>, AllocError>
    ensures { IfOk result (λ text. text.items ≡ stop_text stop thread) }
{
    let mut text = Vec::new(alloc);
    match put_stop(&mut text, stop, thread) {
        Ok(()) => Ok(text),
        Err(_) => Err(AllocError),
    }
}

impl Session {
    ghost use Rattle.rvmc_gdb.specs.Goals.{goal_ahead, goal_behind};
    ghost use Rattle.rvmc_gdb.specs.Moving.{Arrives, Backwards, Forwards, Moves, RunsBack, RunsOn, Selects, SelectsMoved, StepsBack};
    ghost use Rattle.rvmc_gdb.specs.Moving.{Steps, StepsThread, halt_text, moved_anywhere, mover_of, moved_who, own_who, standing_text};

    /// That the threads stand, for no cause.
    pub(crate) fn standing(&self) -> Result<Vec<u8>, AllocError>
        ensures { IfOk result (λ text. text.items ≡ standing_text self.now) }
    {
        stop_text(self.alloc, Stop::Step, self.own_thread())
    }

    /// The thread whose registers are meant from now on.
    pub(crate) fn select(&mut self, thread: Thread) -> Result<Vec<u8>, AllocError>
        ensures { IfOk result (λ text. Selects self.old thread self.new text.items) }
    {
        match thread {
            Thread::All | Thread::Any => self.done(),
            Thread::One(number) => {
                let Some(who) = self.who_of(number) else {
                    return self.refused();
                };
                self.mean(who);
                self.done()
            }
        }
    }

    /// The thread that a step moves from now on.
    pub(crate) fn select_moved(&mut self, thread: Thread) -> Result<Vec<u8>, AllocError>
        ensures { IfOk result (λ text. SelectsMoved self.old thread self.new text.items) }
    {
        match thread {
            Thread::All | Thread::Any => {
                self.moved = None;
                self.done()
            }
            Thread::One(number) => {
                let Some(who) = self.who_of(number) else {
                    return self.refused();
                };
                self.moved = Some(who);
                self.done()
            }
        }
    }

    /// The hart that is meant.
    pub(crate) fn own_who(&self) -> Who
        ensures { result ≡ own_who self.now }
    {
        Who {
            rank: self.rank,
            hart: self.hart,
        }
    }

    /// The hart that a step moves where no thread is named.
    fn moved_who(&self) -> Who
        ensures { result ≡ moved_who self.now }
    {
        match self.moved {
            Some(who) => who,
            None => self.own_who(),
        }
    }

    /// Whose motion it is, of this hart.
    fn mover_of(&self, who: Who, motion: Motion) -> Mover
        ensures { result ≡ mover_of self.now who motion }
    {
        Mover {
            ranks: self.ranks(),
            rank: who.rank,
            hart: who.hart,
            motion,
        }
    }

    /// The text of a motion's end, whose hart is meant.
    fn halt_text(&self, halt: Halt) -> Result<Vec<u8>, AllocError>
        ensures { IfOk result (λ text. text.items ≡ halt_text self.now halt) }
    {
        stop_text(self.alloc, halt.stop, self.own_thread())
    }

    /// Goes forwards, and tells where it ends and why.
    fn forwards(&mut self, mover: Mover) -> Result<Vec<u8>, AllocError>
        ensures { IfOk result (λ text. Forwards self.old mover self.new text.items) }
    {
        match forwards(self.alloc, &mut self.debugger, self.marks.as_slice(), mover) {
            Ok(halt) => {
                self.mean(Who {
                    rank: halt.rank,
                    hart: halt.hart,
                });
                self.halt_text(halt)
            }
            Err(_) => Err(AllocError),
        }
    }

    /// And backwards.
    fn backwards(&mut self, mover: Mover) -> Result<Vec<u8>, AllocError>
        ensures { IfOk result (λ text. Backwards self.old mover self.new text.items) }
    {
        match backwards(self.alloc, &mut self.debugger, self.marks.as_slice(), mover) {
            Ok(halt) => {
                self.mean(Who {
                    rank: halt.rank,
                    hart: halt.hart,
                });
                self.halt_text(halt)
            }
            Err(_) => Err(AllocError),
        }
    }

    /// A step of a thread.
    fn step(&mut self, thread: Thread) -> Result<Vec<u8>, AllocError>
        ensures { IfOk result (λ text. StepsThread self.old thread self.new text.items) }
    {
        match thread {
            Thread::All | Thread::Any => {
                let mover = self.mover_of(self.moved_who(), Motion::Step);
                self.forwards(mover)
            }
            Thread::One(number) => {
                let Some(who) = self.who_of(number) else {
                    return self.refused();
                };
                let mover = self.mover_of(who, Motion::Step);
                self.forwards(mover)
            }
        }
    }

    /// The place that was asked for, if it lies ahead.
    fn goal_ahead(&self) -> Option<Goal>
        ensures { result ≡ goal_ahead self.now }
    {
        let goal = self.goal?;
        let (here, end) = self.debugger.place();
        if here < goal.place && goal.place <= end {
            Some(goal)
        } else {
            None
        }
    }

    /// The place that was asked for, if it lies behind.
    fn goal_behind(&self) -> Option<Goal>
        ensures { result ≡ goal_behind self.now }
    {
        let goal = self.goal?;
        let (here, _) = self.debugger.place();
        if goal.place < here { Some(goal) } else { None }
    }

    /// The hart that a step moves where the rank that is served may be another.
    fn moved_anywhere(&self) -> Option<Who>
        ensures { result ≡ moved_anywhere self.now.all self.now.moved }
    {
        if self.all { self.moved } else { None }
    }

    /// Goes to the place that was asked for. In a session of one rank that hart's rank is served from then on.
    fn arrive(&mut self, goal: Goal) -> Result<Vec<u8>, AllocError>
        ensures { IfOk result (λ text. Arrives self.old goal self.new text.items) }
    {
        if self.debugger.go(goal.place).is_err() {
            return Err(AllocError);
        }
        self.moved = self.moved_anywhere();
        self.goal = None;
        self.mean(Who {
            rank: goal.rank,
            hart: goal.hart,
        });
        stop_text(self.alloc, Stop::There, self.own_thread())
    }

    /// Forwards to where a run stops.
    fn run(&mut self) -> Result<Vec<u8>, AllocError>
        ensures { IfOk result (λ text. RunsOn (goal_ahead self.old) self.old self.new text.items) }
    {
        match self.goal_ahead() {
            Some(goal) => self.arrive(goal),
            None => {
                self.goal = None;
                let mover = self.mover_of(self.own_who(), Motion::Run);
                self.forwards(mover)
            }
        }
    }

    /// Moves forwards as it is asked for.
    pub(crate) fn go(&mut self, asked: Move) -> Result<Vec<u8>, AllocError>
        ensures { IfOk result (λ text. Moves self.old asked self.new text.items) }
    {
        match asked {
            Move::Stop => self.standing(),
            Move::Go => self.run(),
            Move::Step(thread) => self.step(thread),
        }
    }

    /// A step back.
    pub(crate) fn step_back(&mut self) -> Result<Vec<u8>, AllocError>
        ensures { IfOk result (λ text. StepsBack self.old self.new text.items) }
    {
        let mover = self.mover_of(self.moved_who(), Motion::Step);
        self.backwards(mover)
    }

    /// Back to where a run stops.
    pub(crate) fn go_back(&mut self) -> Result<Vec<u8>, AllocError>
        ensures { IfOk result (λ text. RunsBack self.old self.new text.items) }
    {
        match self.goal_behind() {
            Some(goal) => self.arrive(goal),
            None => {
                self.goal = None;
                let mover = self.mover_of(self.own_who(), Motion::Run);
                self.backwards(mover)
            }
        }
    }
}
