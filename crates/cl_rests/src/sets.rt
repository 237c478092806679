//! Sets of ranks.

use std::marker::Model;

/// A set of ranks from 0 to 7: an image has at most 8. Contracts see its bits, and say by `in_set` which ranks are in it.
#[derive(Clone, Copy, PartialEq, Eq, Drop, Debug)]
pub struct RankSet(u8);

impl Model for RankSet {
    ghost use Rattle.std.specs.Prelude.{ℕ, ◌<◌};

    ghost Value = { ℕ };

    ghost view = { λ s. s.0 };

    ghost invariant = { λ s. s.0 < 256 };

    ghost inverse = { λ n. record { 0 = n } };
}

impl RankSet {
    ghost use Rattle.std.specs.Prelude.{◌≡◌, ◌==◌, ◌&&◌, ◌||◌, ◌↔◌, ◌<◌, ℕ, false, nat_lt, not, true};
    ghost use Rattle.cl_rests.specs.Sets.{in_set};

    /// No ranks.
    pub fn none() -> RankSet
        ensures { (r : ℕ) → in_set result r ≡ false }
    {
        RankSet(0)
    }

    /// The set of this number, which has rank r where bit r is set.
    pub fn of_number(number: u8) -> RankSet
        ensures { result ≡ number }
    {
        RankSet(number)
    }

    /// The number of the set: different sets have different numbers, from 0 to 255.
    pub fn number(self) -> usize
        ensures value { result ≡ self }
        ensures bound { result < 256 }
    {
        usize::from(self.0)
    }

    /// Whether the rank is in the set.
    pub fn has(self, rank: u8) -> bool
        ensures { result ≡ in_set self rank }
    {
        rank < 8 && (self.0 >> rank) & 1 == 1
    }

    /// The same set and this rank. No rank from 8 on is added.
    pub fn with(self, rank: u8) -> RankSet
        ensures { (r : ℕ) → in_set result r ≡ in_set self r || ((r == rank) && nat_lt rank 8) }
    {
        if rank >= 8 {
            return self;
        }
        RankSet(self.0 | 1 << rank)
    }

    /// The same set without this rank.
    pub fn without(self, rank: u8) -> RankSet
        ensures { (r : ℕ) → in_set result r ≡ in_set self r && not (r == rank) }
    {
        if rank >= 8 {
            return self;
        }
        RankSet(self.0 & !(1 << rank))
    }

    /// The ranks that are in both sets.
    pub fn meet(self, other: RankSet) -> RankSet
        ensures { (r : ℕ) → in_set result r ≡ in_set self r && in_set other r }
    {
        RankSet(self.0 & other.0)
    }

    /// The ranks that are in one of the sets or in both.
    pub fn join(self, other: RankSet) -> RankSet
        ensures { (r : ℕ) → in_set result r ≡ in_set self r || in_set other r }
    {
        RankSet(self.0 | other.0)
    }

    /// Whether each rank of this set is in the other one.
    pub fn is_within(self, other: RankSet) -> bool
        ensures { (result ≡ true) ↔ ((r : ℕ) → in_set self r ≡ true → in_set other r ≡ true) }
    {
        self.0 & other.0 == self.0
    }

    /// Whether no rank is in the set.
    pub fn is_empty(self) -> bool
        ensures { (result ≡ true) ↔ ((r : ℕ) → in_set self r ≡ false) }
    {
        self.0 == 0
    }
}
