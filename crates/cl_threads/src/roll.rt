//! The roll of ranks that look in vain.

ghost use Rattle.std.specs.Prelude.{◌≡◌, ◌≤◌, min};
ghost use Rattle.rv_image_types.specs.Limits.{most_ranks};

use crossbeam_utils::CachePadded;
use once_cell::race::OnceBool;
use rv_image_types::RANKS_MAX;
use std::sync::atomic::{AtomicU64, Ordering};
use std::sync::{Mutex, MutexGuard, Wait};

/// What is known of one rank.
#[derive(Drop)]
struct Answer {
    /// The call of the roll that it answered last, 0 where it answered none.
    call: AtomicU64,
    /// Whether it takes no turn any more.
    left: OnceBool,
}

impl Answer {
    fn new() -> CachePadded<Answer> {
        CachePadded::new(Answer {
            call: AtomicU64::new(0),
            left: OnceBool::new(),
        })
    }
}

/// A roll that ranks call to learn whether nobody can go on.
///
/// A rank answers a call where all its harts looked in vain behind it, and nothing changed by the rank since a turn before
/// it. So once all have answered the same call, nothing changed behind it: the first that changes anything would have to
/// find what it looked for in vain before, and nobody was there to bring it. A rank that takes no turn any more calls the
/// roll once more and leaves it, so that what it did stands before the call that the others answer.
///
/// Where a rank left that has a hart which isn't stopped, by its budget or for want of memory, say, nobody goes on either;
/// but that is no deadlock.
///
/// Nothing that is proved of a run depends on it.
#[derive(Drop)]
pub struct Roll {
    /// How many ranks are on it.
    ranks: u8,
    /// The number of the last call, from 1.
    call: AtomicU64,
    /// Each rank's, in cache lines of its own.
    answers: [CachePadded<Answer>; RANKS_MAX as usize],
    /// Whether all ranks answered the same call.
    over: OnceBool,
    /// Whether a rank had left by then that has a hart which isn't stopped.
    cut: OnceBool,
    /// Whose turns are used up now, once it is over.
    place: Mutex<()>,
    ghost few: { ranks ≤ most_ranks },
}

impl Roll {
    /// Of the ranks below this number, or of 8 where it is more.
    pub(crate) fn new(ranks: u8) -> Roll
        ensures { result.ranks ≡ min ranks most_ranks }
    {
        Roll {
            ranks: ranks.min(RANKS_MAX),
            call: AtomicU64::new(1),
            answers: [
                Answer::new(),
                Answer::new(),
                Answer::new(),
                Answer::new(),
                Answer::new(),
                Answer::new(),
                Answer::new(),
                Answer::new(),
            ],
            over: OnceBool::new(),
            cut: OnceBool::new(),
            place: Mutex::new(()),
        }
    }

    /// The number of the last call.
    pub(crate) fn last(&self) -> u64 {
        self.call.load(Ordering::SeqCst)
    }

    /// Calls once more, where nobody has behind this call.
    pub(crate) fn call_behind(&self, call: u64) {
        let _ = self.call.compare_exchange(
            call,
            call.wrapping_add(1),
            Ordering::SeqCst,
            Ordering::SeqCst,
        );
    }

    /// Whether nobody can go on any more.
    pub(crate) fn is_over(&self) -> bool {
        self.over.get().is_some()
    }

    /// Whether a rank had left that could have gone on, once nobody can.
    pub(crate) fn is_cut(&self) -> bool {
        self.cut.get().is_some()
    }

    /// Whether all ranks answered this call, and it is the last.
    fn is_answered(&self, call: u64) -> bool {
        for rank in 0..self.ranks {
            let answer: &Answer = &self.answers[usize::from(rank)];
            if answer.left.get().is_none() && answer.call.load(Ordering::SeqCst) != call {
                return false;
            }
        }
        self.last() == call
    }

    /// A rank answers this call. Whether all have.
    pub(crate) fn answer(&self, rank: u8, call: u64) -> bool {
        if rank >= self.ranks {
            return false;
        }
        let answer: &Answer = &self.answers[usize::from(rank)];
        answer.call.store(call, Ordering::SeqCst);
        if !self.is_answered(call) {
            return false;
        }
        let _ = self.over.set(true);
        true
    }

    /// A rank leaves, whose harts are all stopped.
    pub(crate) fn leave(&self, rank: u8) {
        if rank >= self.ranks {
            return;
        }
        self.call.fetch_add(1, Ordering::SeqCst);
        let answer: &Answer = &self.answers[usize::from(rank)];
        let _ = answer.left.set(true);
    }

    /// A rank takes no turn any more, on whatever way it ended. It leaves, if it hasn't yet.
    pub(crate) fn end(&self, rank: u8) {
        if rank >= self.ranks {
            return;
        }
        let answer: &Answer = &self.answers[usize::from(rank)];
        if answer.left.get().is_some() {
            return;
        }
        if !self.is_over() {
            let _ = self.cut.set(true);
        }
        self.leave(rank);
    }

    /// Waits for the ranks that use up their turns before this one, once it is over: one after another is done with them
    /// sooner than all at once.
    pub(crate) fn queue<R: Wait>(&self, rt: &R) -> MutexGuard<'_, ()> {
        self.place.lock(rt)
    }
}
