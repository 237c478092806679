//! Partitions that were made ready and taken, by their boxes: each link of the image has 16 (MPI 4.1, chapter 4.2).
//! Those that no step has taken yet are kept beside them.

ghost use Rattle.std.specs.Prelude.{◌≡◌, ◌++◌, ◌*◌, [], IfOk, OnOk, replicate};
ghost use Rattle.std.specs.List.{slice_get, slice_set};
ghost use Rattle.rvmc_draw.specs.Parts.{arrow_from, arrow_if_there, arrows_taken, box_place};
ghost use Rattle.rvmc_draw.specs.Held.{cells_with, made_by, made_ready, no_cell, untaken_with, untaken_without};

use crate::deeds::Deed;
use crate::drawing::{Arrow, Carried, Spot};
use std::alloc::{AllocError, Global};

/// A box: how often it was made ready, which is the number of its phase, and the step that did so last.
#[derive(Clone, Copy, Drop)]
pub struct Cell {
    pub phase: u64,
    pub last: Option<Spot>,
}

/// A partition that was made ready, in this phase of its link, and that no step has taken.
#[derive(Clone, Copy, Drop)]
pub struct Untaken {
    /// The step that made it ready.
    pub from: Spot,
    pub link: u8,
    pub part: u8,
    pub phase: u64,
}

/// All boxes.
#[derive(Drop)]
pub struct Parts {
    pub cells: Vec<Cell>,
    /// In the order of the steps that made them ready.
    pub untaken: Vec<Untaken>,
}

/// The place of a partition of a link among all boxes.
fn box_place(link: u8, part: u8) -> usize
    ensures { result ≡ box_place (link, part) }
{
    16 * usize::from(link) + usize::from(part)
}

/// The box, made ready once more by this step.
fn made_ready(cell: Cell, spot: Spot) -> Cell
    ensures { result ≡ made_ready cell spot }
{
    Cell {
        phase: cell.phase.saturating_add(1),
        last: Some(spot),
    }
}

/// Adds the arrow to a step from the one that made the box ready last, if one did.
fn put_from(
    arrows: &mut Vec<Arrow>,
    link: u8,
    part: u8,
    to: Spot,
    cell: Cell,
) -> Result<(), AllocError>
    ensures { OnOk result (arrows.new.items ≡ arrows.old.items ++ arrow_from (link, part) to cell) }
{
    if let Some(from) = cell.last {
        arrows.push(Arrow {
            from,
            to: Some(to),
            dest: to.rank,
            carried: Carried::Partition {
                link,
                part,
                phase: cell.phase,
            },
        })?;
    }
    Ok(())
}

/// Adds the arrow to a step, if there is such a box.
fn put_if_there(
    arrows: &mut Vec<Arrow>,
    link: u8,
    part: u8,
    to: Spot,
    cell: Option<Cell>,
) -> Result<(), AllocError>
    ensures { OnOk result (arrows.new.items ≡ arrows.old.items ++ arrow_if_there (link, part) to cell) }
{
    match cell {
        None => Ok(()),
        Some(cell) => put_from(arrows, link, part, to, cell),
    }
}

impl Parts {
    /// The boxes of so many links, none of which was made ready. The only error is want of memory.
    pub fn new(alloc: Global, links: u8) -> Result<Parts, AllocError>
        ensures cells { IfOk result (λ parts. parts.cells.items ≡ replicate (16 * links) no_cell) }
        ensures untaken { IfOk result (λ parts. parts.untaken.items ≡ []) }
    {
        let empty = Cell {
            phase: 0,
            last: None,
        };
        Ok(Parts {
            cells: Vec::from_elem(alloc, empty, 16 * usize::from(links))?,
            untaken: Vec::new(alloc),
        })
    }

    /// The box at a place, if there is one.
    fn get(&self, place: usize) -> Option<Cell>
        ensures { result ≡ slice_get self.now.cells.items place }
    {
        self.cells.get(place).copied()
    }

    /// Notes that a step made a partition ready: its box, and that no step has taken it yet.
    fn ready(&mut self, deed: &Deed) -> Result<(), AllocError>
        ensures cells { OnOk result (self.new.cells.items ≡ cells_with self.old.cells.items deed.now) }
        ensures untaken { OnOk result (self.new.untaken.items
            ≡ self.old.untaken.items ++ made_by self.old.cells.items deed.now.ready deed.now.spot) }
    {
        if let Some((link, part)) = deed.ready {
            let place = box_place(link, part);
            if place < self.cells.len() {
                let cell = made_ready(self.cells[place], deed.spot);
                self.cells[place] = cell;
                self.untaken.push(Untaken {
                    from: deed.spot,
                    link,
                    part,
                    phase: cell.phase,
                })?;
            }
        }
        Ok(())
    }

    /// Notes that a step took a partition, if it did.
    fn forget(&mut self, taken: Option<(u8, u8)>)
        ensures untaken { self.new.untaken.items ≡ untaken_without self.old.untaken.items taken }
        ensures cells { self.new.cells.items ≡ self.old.cells.items }
    {
        if let Some((link, part)) = taken {
            let place = box_place(link, part);
            self.untaken
                .retain(|one| place != box_place(one.link, one.part));
        }
    }

    /// Adds a step: the arrow to it where it took a partition, and its box where it made one ready. The only error is want
    /// of memory.
    pub fn take(&mut self, arrows: &mut Vec<Arrow>, deed: &Deed) -> Result<(), AllocError>
        ensures arrows { OnOk result
            (arrows.new.items ≡ arrows.old.items ++ arrows_taken (slice_get self.old.cells.items) deed.now) }
        ensures cells { OnOk result (self.new.cells.items ≡ cells_with self.old.cells.items deed.now) }
        ensures untaken { OnOk result
            (self.new.untaken.items ≡ untaken_with self.old.cells.items self.old.untaken.items deed.now) }
    {
        if let Some((link, part)) = deed.taken {
            let cell = self.get(box_place(link, part));
            put_if_there(arrows, link, part, deed.spot, cell)?;
        }
        self.forget(deed.taken);
        self.ready(deed)
    }
}
