//! What a rank sees of the others that are kept together with it.

ghost use Rattle.std.specs.Prelude.{◌≡◌, ◌↔◌, ◌+◌, ◌<◌, ◌≤◌, ◌^◌, ℕ, IfSome, List, Option, length, slice_get};
ghost use Rattle.rv_image_types.specs.Limits.{most_ranks};
ghost use Rattle.cl_threads.specs.Pacing.{IsSlowest, MayTake};

use rv_image_types::RANKS_MAX;

/// The slowest of the ranks that were seen.
#[derive(Clone, Copy, PartialEq, Eq, Drop)]
pub(crate) struct Slowest {
    pub rank: u8,
    /// How many turns it came to.
    pub turns: u64,
}

/// Of each other rank, by its number, how many turns it came to, as it told last: None of one that isn't looked at, or
/// takes no turn any more.
#[derive(Clone, Copy, Drop)]
pub(crate) struct Sight {
    pub counts: [Option<u64>; RANKS_MAX as usize],
    pub ghost whole: { length counts ≡ most_ranks },
}

impl Sight {
    #[tactic(auto, using(crate::proofs::Paced::slowest_low))]
    /// The slowest of the ranks that were seen, the first of them where several are; None where none was seen.
    pub(crate) fn slowest(&self) -> Option<Slowest>
        ensures slowest { IsSlowest self.now.counts most_ranks result }
        ensures low { IfSome result (λ slowest. slowest.rank < most_ranks) }
    {
        let mut slowest = None;
        for rank in 0..RANKS_MAX {
            slowest = slower(slowest, rank, self.counts[usize::from(rank)]);
        }
        slowest
    }

    /// The last turn that may be taken by what was seen, 2^64 - 1 where no count is in the way.
    pub(crate) fn reach(&self, lead: u64) -> u64
        ensures { (number : ℕ) → number < 2 ^ 64 → ((number ≤ result) ↔ MayTake lead self.now.counts number) }
    {
        match self.slowest() {
            None => u64::MAX,
            Some(slowest) => slowest.turns.saturating_add(lead),
        }
    }
}

/// The slowest so far, or a rank that was seen with fewer turns.
#[tactic(auto, using(crate::proofs::Paced::with_unseen, crate::proofs::Paced::with_first, crate::proofs::Paced::with_faster, crate::proofs::Paced::with_slower))]
fn slower(slowest: Option<Slowest>, rank: u8, count: Option<u64>) -> Option<Slowest>
    ensures { (counts : List (Option ℕ)) → IsSlowest counts rank slowest → slice_get counts rank ≡ Some count
        → IsSlowest counts (rank + 1) result }
{
    let Some(turns) = count else {
        return slowest;
    };
    match slowest {
        None => Some(Slowest { rank, turns }),
        Some(seen) if seen.turns <= turns => Some(seen),
        Some(_) => Some(Slowest { rank, turns }),
    }
}
