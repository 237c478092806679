//! Whether a rank that takes turns by itself comes back to where it was.
//!
//! A state of it is chosen: the lowest one of a stretch of turns, by the pc of a hart and then by its registers. Where the
//! stretch has a whole cycle, each time that the rank goes round it comes to this state, wherever it came into the cycle.
//! A stretch may begin before the cycle, so a state is chosen anew after 16 turns, 32, 64, and so on.

ghost use Rattle.std.specs.Prelude.{◌≡◌, ◌↔◌, IfOk, IsTrue, None, OnOk, true};
ghost use Rattle.cl_state.specs.Room.{rank_of};
ghost use Rattle.cl_moves.specs.Cycles.{IsBack, KeepsShown, kept_in};

use crate::same::is_same_rank;
use cl_state::{KeptRank, RankState};
use rv_decode::Reg;
use rv_hart::Hart;
use std::alloc::{AllocError, Global};

/// After how many turns a state is chosen for the first time. Most ranks take fewer turns by themselves.
const FIRST_CHOICE: u64 = 16;

/// How often all that the rank holds is kept or compared in one stretch: its registers may be the same over and over while its
/// memory isn't.
const LOOKS: u8 = 32;

/// How a rank took turns that need only itself.
#[derive(Clone, Copy, Drop)]
pub enum Alone {
    /// It has no more of them.
    Done,
    /// It came back to where it was: it takes them for ever.
    Round,
    /// It took as many as it was let.
    Long,
}

impl Alone {
    /// Whether it took as many as it was let.
    pub fn is_long(self) -> bool
        ensures { IsTrue result ↔ (self ≡ Alone.Long) }
    {
        match self {
            Alone::Long => true,
            Alone::Done | Alone::Round => false,
        }
    }
}

/// How a hart is ordered beside another one.
#[derive(Clone, Copy, Drop)]
enum Order {
    Below,
    Same,
    Above,
}

/// A rank that takes turns by itself, as it is watched.
#[derive(Drop)]
pub struct Watch {
    /// How many turns it was shown.
    turns: u64,
    /// At how many a state is chosen anew.
    renewal: u64,
    /// The hart by which states are ordered.
    number: usize,
    /// That hart in the lowest state of this stretch.
    lowest: Hart,
    /// The rank in that state, once it came to it again, or to one that has the same registers.
    kept: Option<KeptRank>,
    /// How often all that it holds was kept or compared in this stretch.
    looks: u8,
}

/// The order of two harts at the same pc, by their registers.
fn order_of(a: &Hart, b: &Hart) -> Order {
    for number in 1..32u8 {
        let register = Reg::new(number);
        let (mine, other) = (a.get(register), b.get(register));
        if mine != other {
            return if mine < other {
                Order::Below
            } else {
                Order::Above
            };
        }
    }
    Order::Same
}

/// The order of two harts, by the pc and then by the registers.
fn order_of_harts(a: &Hart, b: &Hart) -> Order {
    if a.pc() == b.pc() {
        return order_of(a, b);
    }
    if a.pc() < b.pc() {
        Order::Below
    } else {
        Order::Above
    }
}

/// The number of the first hart that isn't stopped, or how many there are.
fn first_running(harts: &[Hart]) -> usize {
    for number in 0..harts.len() {
        if !harts[number].mode().is_stopped() {
            return number;
        }
    }
    harts.len()
}

impl Watch {
    /// A rank that wasn't shown yet.
    pub fn new() -> Watch
        ensures { kept_in result ≡ None }
    {
        Watch {
            turns: 0,
            renewal: FIRST_CHOICE,
            // no hart, until a state is chosen
            number: usize::MAX,
            lowest: Hart::start(0, 0, 0, 0),
            kept: None,
            looks: 0,
        }
    }

    /// Begins a stretch with this state.
    fn renew(&mut self, own: &RankState)
        ensures { kept_in self.new ≡ None }
    {
        self.renewal = self.renewal.saturating_mul(2);
        self.kept = None;
        self.looks = 0;
        self.number = first_running(own.harts.as_slice());
        if let Some(hart) = own.harts.get(self.number) {
            self.lowest = *hart;
        }
    }

    /// Whether the rank holds what was kept of it. If nothing is kept, this is. Only so often in one stretch.
    fn compare(&mut self, alloc: Global, own: &RankState) -> Result<bool, AllocError>
        ensures back { IfOk result (λ back. back ≡ true → IsBack (kept_in self.old) (rank_of own.now)) }
        ensures kept { OnOk result (KeepsShown (kept_in self.old) (rank_of own.now) (kept_in self.new)) }
    {
        if self.looks >= LOOKS {
            return Ok(false);
        }
        self.looks += 1;
        match &self.kept {
            Some(kept) => Ok(is_same_rank(kept, own)),
            None => {
                self.kept = Some(own.keep(alloc, None)?);
                Ok(false)
            }
        }
    }

    /// The same where the hart isn't above the lowest one.
    fn look(&mut self, alloc: Global, own: &RankState, hart: &Hart) -> Result<bool, AllocError>
        ensures back { IfOk result (λ back. back ≡ true → IsBack (kept_in self.old) (rank_of own.now)) }
        ensures kept { OnOk result (KeepsShown (kept_in self.old) (rank_of own.now) (kept_in self.new)) }
    {
        match order_of_harts(hart, &self.lowest) {
            Order::Above => Ok(false),
            Order::Same => self.compare(alloc, own),
            Order::Below => {
                self.lowest = *hart;
                self.kept = None;
                Ok(false)
            }
        }
    }

    /// Shows the rank as it is after a turn. Answers whether it holds what it held after an earlier one, as far as that was
    /// kept. Only want of memory is refused.
    pub(crate) fn is_back(&mut self, alloc: Global, own: &RankState) -> Result<bool, AllocError>
        ensures back { IfOk result (λ back. back ≡ true → IsBack (kept_in self.old) (rank_of own.now)) }
        ensures kept { OnOk result (KeepsShown (kept_in self.old) (rank_of own.now) (kept_in self.new)) }
    {
        self.turns = self.turns.saturating_add(1);
        if self.turns >= self.renewal {
            self.renew(own);
            return Ok(false);
        }
        match own.harts.get(self.number) {
            Some(hart) if hart.pc() <= self.lowest.pc() => self.look(alloc, own, hart),
            _ => Ok(false),
        }
    }
}
