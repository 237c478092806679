//! A gate that keeps ranks together.

ghost use Rattle.std.specs.Prelude.{◌≡◌, ◌<◌, ◌≤◌, ◌^◌, ◌⊎◌, None, min};
ghost use Rattle.rv_image_types.specs.Limits.{most_ranks};
ghost use Rattle.cl_threads.specs.Pacing.{MayTake};

use crate::gates::{Gate, Point};
use crate::roll::Roll;
use crate::sights::{Sight, Slowest};
use crossbeam_utils::CachePadded;
use once_cell::race::OnceBool;
use rv_image_types::RANKS_MAX;
use std::hint::spin_loop;
use std::sync::atomic::{AtomicU64, Ordering};
use std::thread::yield_now;

/// How often a rank that is held looks for the others, 2^24 times, before it goes on all the same.
const LOOKS: u32 = 1 << 24;

/// How many of these looks follow after a short rest. Behind each later one the thread lets others run.
const SPINS: u32 = 16;

/// The most turns between two counts of a rank that the others can see, and the longest rest between two looks.
const MOST: u64 = 64;

/// What is known of one rank.
#[derive(Drop)]
struct Runner {
    /// How many turns it came to, as it told last. Only its own thread writes it.
    turns: AtomicU64,
    /// The last turn, from 0, that it may take without a look at the others. Only its own thread uses it.
    reach: AtomicU64,
    /// The turn at which it tells its count again, or has to look: its own thread sets it.
    /// One that waits for it sets 0.
    due: AtomicU64,
    /// Whether it takes no turn any more.
    ended: OnceBool,
}

impl Runner {
    /// At its first turn.
    fn new() -> CachePadded<Runner> {
        CachePadded::new(Runner {
            turns: AtomicU64::new(0),
            reach: AtomicU64::new(0),
            due: AtomicU64::new(0),
            ended: OnceBool::new(),
        })
    }
}

/// What a rank that was held saw of the others last, and how often it had looked before.
#[derive(Drop)]
struct Held {
    sight: Sight,
    looks: u32,
}

/// Holds a rank that is more than `lead` turns ahead of the slowest rank that hasn't ended, begun or not, for at most
/// 2^24 looks at the others.
///
/// A rank tells its count now and then, and at once where one that seems too far ahead of it asks. So a rank that isn't
/// more than `lead` ahead waits for that answer at most.
///
/// Once all of them look in vain it holds nobody any more.
///
/// A rank whose number isn't below the number of ranks goes by, and holds nobody. One that never comes, nor passes
/// `End`, holds the others, if only for their looks.
#[derive(Drop)]
pub struct Pace {
    /// How many ranks it holds.
    ranks: u8,
    /// By how many turns a rank may be ahead.
    lead: u64,
    /// How many turns a rank takes between two counts that it tells.
    stride: u64,
    /// How long a rank that is held rests between two looks: far shorter than the others take for `lead` turns.
    rest: u64,
    /// Each rank's, in cache lines of its own, so that a turn of one doesn't slow down the others.
    runners: [CachePadded<Runner>; RANKS_MAX as usize],
    /// Once all of them look in vain it holds nobody any more.
    roll: Roll,
    ghost few: { ranks ≤ most_ranks },
}

impl Pace {
    /// For the ranks below this number, or for 8 where it is more. A lead of 2^64 - 1 turns holds nobody.
    pub fn new(ranks: u8, lead: u64) -> Pace
        ensures ranks { result.ranks ≡ min ranks most_ranks }
        ensures lead { result.lead ≡ lead }
    {
        Pace {
            ranks: ranks.min(RANKS_MAX),
            lead,
            stride: (lead / 2).clamp(1, MOST),
            rest: (lead / 64).clamp(1, MOST),
            runners: [
                Runner::new(),
                Runner::new(),
                Runner::new(),
                Runner::new(),
                Runner::new(),
                Runner::new(),
                Runner::new(),
                Runner::new(),
            ],
            roll: Roll::new(ranks),
        }
    }

    /// How many turns another rank came to, as it told last: None of the rank itself, of one that isn't held, and of one
    /// that takes no turn any more.
    fn seen(&self, rank: u8, other: u8) -> Option<u64>
        requires { other < most_ranks }
        ensures { (other ≡ rank) ⊎ (self.now.ranks ≤ other) → result ≡ None }
    {
        let runner = &self.runners[usize::from(other)];
        if other == rank || other >= self.ranks || runner.ended.get().is_some() {
            return None;
        }
        Some(runner.turns.load(Ordering::SeqCst))
    }

    /// What a rank sees of the others now.
    fn look(&self, rank: u8) -> Sight {
        Sight {
            counts: [
                self.seen(rank, 0),
                self.seen(rank, 1),
                self.seen(rank, 2),
                self.seen(rank, 3),
                self.seen(rank, 4),
                self.seen(rank, 5),
                self.seen(rank, 6),
                self.seen(rank, 7),
            ],
        }
    }

    /// Asks the slowest for its count where it stands as it did before: it may have taken turns since it told that.
    fn ask(&self, before: Option<Slowest>, sight: &Sight) -> Option<Slowest> {
        let slowest = sight.slowest();
        if let Some(seen) = slowest {
            if before == slowest {
                self.runners[usize::from(seen.rank)]
                    .due
                    .store(0, Ordering::SeqCst);
            }
        }
        slowest
    }

    /// Looks at the others until the rank may take the turn of this number by what it sees, for 2^24 looks at most.
    fn wait(&self, rank: u8, number: u64) -> Held
        ensures { result.looks < 2 ^ 24 → MayTake self.now.lead result.sight.counts number }
    {
        let mut before = None;
        let mut sight = self.look(rank);
        for looks in 0..LOOKS {
            if number <= sight.reach(self.lead) {
                return Held { sight, looks };
            }
            if self.roll.is_over() {
                break;
            }
            before = self.ask(before, &sight);
            self.rest_after(looks);
            sight = self.look(rank);
        }
        Held {
            sight,
            looks: LOOKS,
        }
    }

    /// A rest between two looks, which leaves the slowest the line that both need.
    fn rest_after(&self, look: u32) {
        if look < SPINS {
            for _ in 0..self.rest {
                spin_loop();
            }
        } else {
            yield_now();
        }
    }

    /// Holds a rank at the turn of this number if it is too far ahead of what it saw last: the last turn that it may take
    /// without a look at the others.
    fn hold(&self, rank: u8, runner: &Runner, number: u64) -> u64
        ensures { number ≤ result }
    {
        let reach = runner.reach.load(Ordering::SeqCst);
        if number <= reach {
            return reach;
        }
        if self.roll.is_over() {
            return u64::MAX;
        }
        let held = self.wait(rank, number);
        let reach = held.sight.reach(self.lead).max(number);
        runner.reach.store(reach, Ordering::SeqCst);
        reach
    }

    /// Tells the rank's count, and holds it if it is too far ahead.
    #[inline(never)]
    fn come(&self, rank: u8, runner: &Runner, number: u64) {
        runner
            .turns
            .store(number.saturating_add(1), Ordering::SeqCst);
        let reach = self.hold(rank, runner, number);
        let due = number
            .saturating_add(self.stride)
            .min(reach.saturating_add(1));
        runner.due.store(due, Ordering::SeqCst);
    }
}

impl Gate for Pace {
    fn pass(&self, rank: u8, point: Point) {
        if rank >= self.ranks {
            return;
        }
        let runner: &Runner = &self.runners[usize::from(rank)];
        match point {
            Point::Begin => {}
            Point::Turn => {
                let number = runner.turns.fetch_add(1, Ordering::SeqCst);
                self.hold(rank, runner, number);
            }
            Point::End => {
                let _ = runner.ended.set(true);
                self.roll.end(rank);
            }
        }
    }

    /// Most turns cost one look at the rank's own cache line.
    #[inline(always)]
    fn turn(&self, rank: u8, number: u64) {
        if rank >= self.ranks {
            return;
        }
        let runner: &Runner = &self.runners[usize::from(rank)];
        if number >= runner.due.load(Ordering::SeqCst) {
            self.come(rank, runner, number);
        }
    }

    /// As far as the turn at which it tells its count again, or has to look.
    #[inline(always)]
    fn free(&self, rank: u8, number: u64) -> u64 {
        if rank >= self.ranks {
            return u64::MAX;
        }
        let runner: &Runner = &self.runners[usize::from(rank)];
        runner
            .due
            .load(Ordering::SeqCst)
            .saturating_sub(number)
            .max(1)
    }

    /// One that waits for this rank's count set it due.
    #[inline(always)]
    fn is_awaited(&self, rank: u8) -> bool {
        if rank >= self.ranks {
            return false;
        }
        let runner: &Runner = &self.runners[usize::from(rank)];
        runner.due.load(Ordering::SeqCst) == 0
    }

    #[inline(always)]
    fn roll(&self) -> Option<&Roll> {
        Some(&self.roll)
    }
}
