//! A run that is ended where all that is left looks in vain.

ghost use Rattle.std.specs.Prelude.{◌≡◌, ◌<◌, ◌*◌, ℕ, List, All, false, length, slice_index, vec_len};
ghost use Rattle.rv_image_types.specs.declared.images.ImageParts.{ImageParts};
ghost use Rattle.cl_record.specs.declared.plans.Plan.{Plan};
ghost use Rattle.cl_run.specs.Driver.{AreJoined, AreSeated, IsStoppedAt, stations};
ghost use Rattle.cl_run.specs.Going.{GoesRounds};
ghost use Rattle.cl_run.specs.UnderWay.{IsUnderWay};

use crate::driver::Driver;
use crate::looks::{Looks, has_running};
use cl_record::Plan;

/// How many rounds there are between two looks whether any hart runs.
const ROUNDS: usize = 31;

/// How many rounds are watched at most, before they are done again without being watched.
const WATCHED: usize = 1 << 24;

/// The most turns of a rank until each hart of its plan had one.
pub(crate) fn longest(plans: &[Plan]) -> usize {
    let mut most = 0;
    for plan in plans {
        most = most.max(plan.order.len());
    }
    most
}

impl<'a> Driver<'a> {
    /// Whether a hart of any rank runs.
    fn runs(&self) -> bool {
        self.seats.iter().any(|seat| has_running(&seat.rank.state))
    }

    /// So many rounds.
    fn rounds(&mut self, order: &[u8], count: usize)
        requires joined { AreJoined self.old }
        requires there { All (λ r. r < vec_len self.old.seats) order.now }
        ensures { GoesRounds order.now self.old self.new }
    {
        for _round in 0..count {
            let _moved = self.round(order, &mut ());
        }
    }

    /// Whether no hart runs, and each waits through as many turns as it takes to see that nothing changes. Rounds are done
    /// to see it: of `turns` of a rank each of its harts has one.
    ///
    /// Twice as many are watched, since what a hart asked in the first half may have been there, and in the second it asks
    /// for something else then.
    fn is_quiet(&mut self, order: &[u8], turns: usize) -> bool
        requires joined { AreJoined self.old }
        requires there { All (λ r. r < vec_len self.old.seats) order.now }
        ensures { GoesRounds order.now self.old self.new }
    {
        if self.runs() {
            return false;
        }
        let mut looks = Looks::new();
        let mut quiet: usize = 0;
        for _round in 0..WATCHED {
            let moved = self.round(order, &mut looks);
            if !moved || self.runs() {
                return false;
            }
            quiet = if looks.changed() {
                0
            } else {
                quiet.saturating_add(1)
            };
            if quiet > turns.saturating_mul(2) {
                return true;
            }
        }
        false
    }

    /// Round by round, until each rank that the order names is stopped, or until all that is left looks in vain. Whether the
    /// latter. Of so many turns of a rank each of its harts has one.
    pub(crate) fn run_until_quiet(&mut self, order: &[u8], turns: usize) -> bool
        requires joined { AreJoined self.old }
        requires there { All (λ r. r < vec_len self.old.seats) order.now }
        ensures goes { (image : ImageParts) (plans : List Plan) → AreSeated plans self.old
            → IsUnderWay image plans order.now (stations self.old) self.old.hub 0
            → (n : ℕ) × IsUnderWay image plans order.now (stations self.new) self.new.hub (n * length order.now) }
        ensures done { result ≡ false → (place : ℕ) → place < length order.now
            → IsStoppedAt (stations self.new) (slice_index order.now place) }
        ensures seated { (plans : List Plan) → AreSeated plans self.old → AreSeated plans self.new }
        ensures joined { AreJoined self.new }
    {
        loop {
            if !self.round(order, &mut ()) {
                return false;
            }
            self.rounds(order, ROUNDS);
            if self.is_quiet(order, turns) {
                return true;
            }
        }
    }
}
