//! All that a picture shows of steps, one after another.

ghost use Rattle.std.specs.Prelude.{◌≡◌, ◌++◌, ◌-◌, ◌<◌, ◌^◌, ◌∷◌, [], IfOk, List, OnOk, map};
ghost use Rattle.rvmc_draw.specs.Marks.{told_by};
ghost use Rattle.rvmc_draw.specs.Walks.{Scope};
ghost use Rattle.rvmc_draw.specs.Held.{IsWalked, is_marked_in, Takes, scope_of, tips_taken};
ghost use Rattle.rvmc_draw.specs.declared.deeds.Deed.{Deed as DeedView};

use crate::board::Board;
use crate::deeds::Deed;
use crate::drawing::{Arrow, Bar};
use crate::looks::Looks;
use crate::marks::Marks;
use crate::parts::Parts;
use crate::views::View;
use std::alloc::{AllocError, Global};

/// What is known behind some steps.
#[derive(Drop)]
pub struct Walk {
    pub board: Board,
    pub parts: Parts,
    pub looks: Looks,
    pub marks: Marks,
    /// All arrows, shown or not.
    pub arrows: Vec<Arrow>,
    /// All bars that ended, shown or not.
    pub bars: Vec<Bar>,
}

/// The sizes of a cluster.
#[derive(Clone, Copy, Drop)]
pub struct Sizes {
    pub ranks: u8,
    /// Of each rank.
    pub harts: u8,
    pub links: u8,
}

impl Walk {
    /// Before the first step. The only error is want of memory.
    pub fn new(alloc: Global, sizes: Sizes, view: View) -> Result<Walk, AllocError>
        ensures { IfOk result (IsWalked (scope_of sizes view) []) }
    {
        let board = Board::new(alloc, sizes.ranks);
        let parts = Parts::new(alloc, sizes.links)?;
        let looks = Looks::new(alloc, sizes.ranks, sizes.harts)?;
        let marks = Marks::new(alloc, sizes.ranks, sizes.harts, view)?;
        let arrows = Vec::new(alloc);
        let bars = Vec::new(alloc);
        Ok(Walk {
            board,
            parts,
            looks,
            marks,
            arrows,
            bars,
        })
    }

    /// Whether the step has a mark of its own.
    pub fn is_marked(&self, deed: &Deed) -> bool
        ensures { result ≡ is_marked_in self.now deed.now }
    {
        self.marks
            .is_marked(deed, self.looks.begun(deed.spot).is_some())
    }

    /// Adds a step to each part.
    fn add(&mut self, deed: &Deed, tip: Vec<u8>, note: Vec<u8>) -> Result<(), AllocError>
        requires fits { self.old.marks.count < 2 ^ 64 - 1 }
        ensures { OnOk result (Takes self.old deed.now tip.items self.new) }
    {
        let begun = self.looks.begun(deed.spot).is_some();
        self.board.take(&mut self.arrows, deed)?;
        self.parts.take(&mut self.arrows, deed)?;
        self.marks.take(deed, begun, tip, note)?;
        self.looks.take(&mut self.bars, deed)
    }

    /// Adds a step, with what is told of it and what stands beside its mark, if it has one. The only error is want of
    /// memory.
    pub fn take(&mut self, deed: &Deed, tip: Vec<u8>, note: Vec<u8>) -> Result<(), AllocError>
        requires fits { self.old.marks.count < 2 ^ 64 - 1 }
        ensures walked { OnOk result ((scope : Scope) (deeds : List DeedView) → IsWalked scope deeds self.old
            → IsWalked scope (deeds ++ deed.now ∷ []) self.new) }
        ensures tips { OnOk result (map told_by self.new.marks.kept.items
            ≡ map told_by self.old.marks.kept.items ++ tips_taken self.old deed.now tip.items) }
    {
        self.add(deed, tip, note)?;
        Ok(())
    }
}
