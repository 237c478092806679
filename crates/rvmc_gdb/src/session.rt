//! The state of a session.

ghost use Rattle.std.specs.Prelude.{◌≡◌, ◌↔◌, ◌<◌, ◌≤◌, Err, IfErr, IfOk};
ghost use Rattle.std.specs.Option.{unwrap_or};
ghost use Rattle.cl_debug.specs.declared.faults.DebugFault.TheVariants.{NoRank};
ghost use Rattle.rvmc_gdb.specs.Serving.{who_among};

use cl_debug::{DebugFault, Debugger};
use rvmc_motions::{Mark, Ranks};
use std::alloc::{AllocError, Global};
use std::marker::Model;

/// A hart of a rank.
#[derive(Clone, Copy)]
pub(crate) struct Who {
    pub(crate) rank: u8,
    pub(crate) hart: u8,
}

/// A place to which the next run leads, and the hart that is meant there.
#[derive(Clone, Copy)]
pub(crate) struct Goal {
    pub(crate) place: u64,
    pub(crate) rank: u8,
    pub(crate) hart: u8,
}

/// A rank of a record, or all its ranks, as gdb sees them: their harts are threads, numbered from 1. Contracts see its
/// parts.
#[derive(Drop)]
pub struct Session {
    pub(crate) alloc: Global,
    pub(crate) debugger: Debugger,
    /// Whether all ranks are served, or one alone.
    pub(crate) all: bool,
    /// The rank whose registers are meant, which is the one that is served.
    pub(crate) rank: u8,
    /// The hart whose registers are meant.
    pub(crate) hart: u8,
    /// The hart that a step moves, if another one than that was asked for.
    pub(crate) moved: Option<Who>,
    /// Where motions stop, in the order in which it was asked for.
    pub(crate) marks: Vec<Mark>,
    /// Where the next run leads, if a place was asked for.
    pub(crate) goal: Option<Goal>,
}

impl Model for Session {
    ghost use Rattle.rvmc_gdb.specs.Serving.{Serving};

    ghost Value = { Serving };

    ghost view = { λ s. record {
      debugging = s.debugger;
      all = s.all;
      rank = s.rank;
      hart = s.hart;
      moved = s.moved;
      marks = s.marks.items;
      goal = s.goal;
    } };
}

/// A text of its own.
pub(crate) fn text_of(alloc: Global, bytes: &[u8]) -> Result<Vec<u8>, AllocError>
    ensures { IfOk result (λ text. text.items ≡ bytes.now) }
{
    Vec::from_slice(alloc, bytes)
}

/// The hart of this number among those of all ranks, from 0 on, where each rank has so many.
fn who_among(harts: u8, number: u64) -> Who
    requires { 0 < harts }
    ensures { result ≡ who_among harts number }
{
    let harts = u64::from(harts);
    Who {
        rank: (number / harts).min(255) as u8,
        hart: (number % harts).min(255) as u8,
    }
}

impl Session {
    ghost use Rattle.rvmc_gdb.specs.Serving.{done, opened, own_thread, rank_or, ranks_of, refused, thread_count};
    ghost use Rattle.rvmc_gdb.specs.Serving.{thread_of, who_at, who_of, with_who};

    /// A session with this rank at the debugger's place, or with all ranks, of which the first is meant; with no points.
    /// NoRank where the rank isn't there.
    pub fn open(alloc: Global, debugger: Debugger, rank: Option<u8>) -> Result<Session, DebugFault>
        ensures opened { IfOk result (λ session. session ≡ opened debugger rank) }
        ensures no_rank { (result ≡ Err NoRank) ↔ (debugger.image.ranks ≤ unwrap_or rank 0) }
        ensures fault { IfErr result (λ fault. fault ≡ NoRank) }
    {
        let shown = rank.unwrap_or(0);
        if shown >= debugger.image().parts().ranks {
            return Err(DebugFault::NoRank);
        }
        Ok(Session {
            alloc,
            debugger,
            all: rank.is_none(),
            rank: shown,
            hart: 0,
            moved: None,
            marks: Vec::new(alloc),
            goal: None,
        })
    }

    /// The ranks that are served.
    pub(crate) fn ranks(&self) -> Ranks
        ensures { result ≡ ranks_of self.now }
    {
        if self.all {
            Ranks::All
        } else {
            Ranks::One(self.rank)
        }
    }

    /// How many threads there are.
    #[tactic(auto, using(crate::proofs::Threads::product_fits))]
    pub(crate) fn thread_count(&self) -> u64
        ensures { result ≡ thread_count self.now }
    {
        let parts = self.debugger.image().parts();
        if self.all {
            u64::from(parts.ranks) * u64::from(parts.harts)
        } else {
            u64::from(parts.harts)
        }
    }

    /// The number of a hart's thread.
    #[tactic(auto, using(crate::proofs::Threads::product_fits))]
    pub(crate) fn thread_of(&self, rank: u8, hart: u8) -> u64
        ensures { result ≡ thread_of self.now rank hart }
    {
        if self.all {
            let harts = self.debugger.image().parts().harts;
            u64::from(rank) * u64::from(harts) + u64::from(hart) + 1
        } else {
            u64::from(hart) + 1
        }
    }

    /// The thread that is meant.
    pub(crate) fn own_thread(&self) -> u64
        ensures { result ≡ own_thread self.now }
    {
        self.thread_of(self.rank, self.hart)
    }

    /// Whose the thread of this number is, which is there, from 0 on.
    #[tactic(auto, using(crate::proofs::Threads::some_harts))]
    pub(crate) fn who_at(&self, number: u64) -> Who
        requires { number < thread_count self.now }
        ensures { result ≡ who_at self.now number }
    {
        if self.all {
            who_among(self.debugger.image().parts().harts, number)
        } else {
            Who {
                rank: self.rank,
                hart: number.min(255) as u8,
            }
        }
    }

    /// Whose a thread is, if it is there.
    pub(crate) fn who_of(&self, thread: u64) -> Option<Who>
        ensures { result ≡ who_of self.now thread }
    {
        if thread == 0 || thread > self.thread_count() {
            return None;
        }
        Some(self.who_at(thread - 1))
    }

    /// Another hart is meant from now on. A rank that isn't there never is.
    pub(crate) fn mean(&mut self, who: Who)
        ensures { self.new ≡ with_who self.old who }
    {
        if who.rank < self.debugger.image().parts().ranks {
            self.rank = who.rank;
        }
        self.hart = who.hart;
    }

    /// That something isn't there, or can't be done.
    pub(crate) fn refused(&self) -> Result<Vec<u8>, AllocError>
        ensures { IfOk result (λ text. text.items ≡ refused) }
    {
        text_of(self.alloc, b"E01")
    }

    /// That something is done.
    pub(crate) fn done(&self) -> Result<Vec<u8>, AllocError>
        ensures { IfOk result (λ text. text.items ≡ done) }
    {
        text_of(self.alloc, b"OK")
    }
}
