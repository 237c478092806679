//! A run in which ranks go on ahead of their slots.

ghost use Rattle.std.specs.Prelude.{◌≡◌, ◌<◌, ◌≤◌, ◌+◌, ◌*◌, ℕ, List, All, None, Some, IsTrue, false, true};
ghost use Rattle.std.specs.Prelude.{length, slice_get, slice_index, vec_len};
ghost use Rattle.rv_image_types.specs.declared.images.ImageParts.{ImageParts};
ghost use Rattle.cl_record.specs.declared.plans.Plan.{Plan};
ghost use Rattle.cl_record.specs.declared.seats.Seat.{Seat};
ghost use Rattle.cl_run.specs.Ahead.{AreNamed, IsAheadOf, MayRunAhead, SlotGoesAhead, Spends, left_ahead};
ghost use Rattle.cl_run.specs.Driver.{AreJoined, AreSeated, IsStoppedAt, stations};
ghost use Rattle.cl_run.specs.Going.{RunsToEnd};

use crate::driver::Driver;
use crate::looks::has_running;
use rv_image_types::RANKS_MAX;

/// Of how many ranks, by their numbers, turns are counted that they took ahead of their slots: an image has no more.
const RANKS: usize = RANKS_MAX as usize;

/// Whether a rank took the turn of its slot ahead; then it is ahead by one less.
#[inline(always)]
fn spend(ahead: &mut [u64], rank: u8) -> bool
    ensures { Spends rank ahead.old ahead.new result }
{
    let place = rank as usize;
    if place >= ahead.len() || ahead[place] == 0 {
        return false;
    }
    ahead[place] -= 1;
    true
}

impl<'a> Driver<'a> {
    /// Whether a rank may have a plain turn next, by a plan of one hart. Of a hart that waits nothing is tried, since it
    /// would be again and again, and none behind a run that ended at a call.
    fn may_run_ahead(&self, rank: u8) -> bool
        requires there { rank < vec_len self.now.seats }
        ensures runs { IsTrue result → (seat : Seat) → slice_get self.now.seats.items rank ≡ Some seat
            → seat.stop ≡ None }
    {
        let seat = &self.seats[rank as usize];
        if seat.stop.is_some() || seat.rank.is_at_other() {
            return false;
        }
        seat.plan.order.len() == 1 && has_running(&seat.rank.state)
    }

    /// Plain turns of a rank that isn't ahead, as many as follow one another: so far is it ahead now.
    fn run_ahead(&mut self, ahead: &mut [u64], rank: u8)
        requires there { rank < vec_len self.old.seats }
        ensures { MayRunAhead rank self.old ahead.old self.new ahead.new }
    {
        let place = rank as usize;
        if place >= ahead.len() || ahead[place] != 0 || !self.may_run_ahead(rank) {
            return;
        }
        ahead[place] = self.seats[place].run_plain(u64::MAX);
    }

    /// One slot of the order: a turn of this rank, unless it took that ahead or is stopped. Whether anything was done.
    #[inline(always)]
    fn slot_ahead(&mut self, ahead: &mut [u64], rank: u8) -> bool
        requires there { rank < vec_len self.old.seats }
        requires joined { AreJoined self.old }
        ensures { SlotGoesAhead rank self.old ahead.old self.new ahead.new result }
    {
        if spend(ahead, rank) {
            return true;
        }
        self.run_ahead(ahead, rank);
        if spend(ahead, rank) {
            return true;
        }
        self.slot(rank)
    }

    /// One round: a slot for each rank that the order names, in that order. Whether anything was done.
    fn round_ahead(&mut self, ahead: &mut [u64], order: &[u8]) -> bool
        requires joined { AreJoined self.old }
        requires there { All (λ r. r < vec_len self.old.seats) order.now }
        ensures seated { (plans : List Plan) → AreSeated plans self.old → AreSeated plans self.new }
        ensures goes { (image : ImageParts) (plans : List Plan) (k : ℕ) → AreSeated plans self.old
            → IsAheadOf image plans order.now ahead.old self.old (k * length order.now)
            → IsAheadOf image plans order.now ahead.new self.new ((k + 1) * length order.now) }
        ensures joined { AreJoined self.new }
        ensures count { vec_len self.new.seats ≡ vec_len self.old.seats }
        ensures named { AreNamed order.now ahead.old → AreNamed order.now ahead.new }
        ensures done { result ≡ false → (place : ℕ) → place < length order.now
            → IsStoppedAt (stations self.new) (slice_index order.now place) }
        ensures at_slots { result ≡ false → (place : ℕ) → place < length order.now
            → slice_index ahead.new (slice_index order.now place) ≡ 0 }
        ensures less { result ≡ true → left_ahead self.new ahead.new < left_ahead self.old ahead.old }
    {
        let mut moved = false;
        for rank in order {
            let goes_on = self.slot_ahead(ahead, *rank);
            moved = moved || goes_on;
        }
        moved
    }

    /// Round by round, until each rank that the order names is stopped. Ranks go on ahead of their slots, so that their
    /// plain turns stand in a loop of their own.
    pub(crate) fn run_all(&mut self, order: &[u8])
        requires joined { AreJoined self.old }
        requires there { All (λ r. r < vec_len self.old.seats) order.now }
        ensures { RunsToEnd order.now self.old self.new }
    {
        let mut ahead = [0; RANKS];
        loop {
            if !self.round_ahead(&mut ahead, order) {
                return;
            }
        }
    }
}
