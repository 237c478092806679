//! Marks: the steps that are shown by a shape of their own.

ghost use Rattle.std.specs.Prelude.{◌≡◌, ◌++◌, ◌+◌, ◌-◌, ◌<◌, ◌^◌, ◌∷◌, ◌*◌, [], IfOk, None, OnOk, if◌then◌else◌};
ghost use Rattle.std.specs.Prelude.{length, map, nat_lt, replicate};
ghost use Rattle.std.specs.List.{slice_get, slice_set};
ghost use Rattle.rvmc_draw.specs.Looks.{lane_of};
ghost use Rattle.rvmc_draw.specs.Marks.{is_marked as is_marked_of, is_row as is_row_of, marks_by};
ghost use Rattle.rvmc_draw.specs.Held.{kept_by};
ghost use Rattle.rvmc_draw.specs.Marks.{shape_behind as shape_behind_of, shape_there, sign_by, told_by};
ghost use Rattle.rvmc_draw.specs.Held.{shapes_with};

use crate::board::wildcard_in;
use crate::deeds::Deed;
use crate::drawing::{Mark, Shape};
use crate::looks::lane;
use crate::views::View;
use std::alloc::{AllocError, Global};

/// The most marks that are kept.
pub const MARKS_MAX: u64 = 5000;

/// The marks of the steps that are shown.
#[derive(Drop)]
pub struct Marks {
    /// How many harts a rank has.
    pub harts: u8,
    pub view: View,
    /// How many marks there are, of which the first 5,000 are kept.
    pub count: u64,
    pub kept: Vec<Mark>,
    /// The last shape of each hart, by their numbers, rank by rank.
    pub shapes: Vec<Option<Shape>>,
    /// Where the last mark of each hart is kept.
    rows: Vec<Option<usize>>,
    /// How many steps each hart took since its last mark, or since it last looked in vain.
    quiet: Vec<u64>,
}

/// Whether a step of this shape goes on with a row whose last shape is that: output, or partitions found to be taken.
fn is_row(shape: Option<Shape>, last: Option<Shape>) -> bool
    ensures { result ≡ is_row_of shape last }
{
    match shape {
        Some(Shape::Put) => match last {
            Some(Shape::Put) => true,
            _ => false,
        },
        Some(Shape::Freed) => match last {
            Some(Shape::Freed) => true,
            _ => false,
        },
        _ => false,
    }
}

/// The last shape of a hart behind a step of its own.
fn shape_behind(view: View, last: Option<Shape>, deed: &Deed) -> Option<Shape>
    ensures { result ≡ shape_behind_of view last deed.now }
{
    if view.has(deed.spot) && deed.shape.is_some() {
        deed.shape
    } else {
        last
    }
}

/// The mark of a step, with what is told of it and what stands beside it, behind so many steps without one.
fn mark_of(deed: &Deed, shape: Shape, tip: Vec<u8>, note: Vec<u8>, quiet: u64) -> Mark
    ensures { told_by result ≡ (sign_by deed.now shape, tip.items) }
{
    Mark {
        spot: deed.spot,
        shape,
        wild: wildcard_in(deed.made).is_some(),
        note,
        tip,
        times: 1,
        quiet,
    }
}

/// Adds a mark behind so many, if it is one of the first 5,000.
fn keep(kept: &mut Vec<Mark>, count: u64, mark: Mark) -> Result<(), AllocError>
    ensures { OnOk result
        (map told_by kept.new.items
        ≡ map told_by kept.old.items ++ (if nat_lt count 5000 then told_by mark ∷ [] else [])) }
{
    if count < MARKS_MAX {
        kept.push(mark)?;
    }
    Ok(())
}

/// Adds a step to a mark that stands for several.
fn join(mark: &mut Mark, note: &[u8]) -> Result<(), AllocError>
    ensures { told_by mark.new ≡ told_by mark.old }
{
    mark.times = mark.times.saturating_add(1);
    mark.note.extend_from_slice(note)
}

/// Adds a step to the mark at a place, if there is one.
#[tactic(auto, using(crate::proofs::Walked::told_set))]
fn join_at(kept: &mut Vec<Mark>, row: Option<usize>, note: &[u8]) -> Result<(), AllocError>
    ensures { OnOk result (map told_by kept.new.items ≡ map told_by kept.old.items) }
{
    if let Some(row) = row {
        if row < kept.len() {
            join(&mut kept[row], note)?;
        }
    }
    Ok(())
}

impl Marks {
    /// No marks of so many ranks. The only error is want of memory.
    pub fn new(alloc: Global, ranks: u8, harts: u8, view: View) -> Result<Marks, AllocError>
        ensures kept { IfOk result (λ marks. marks.kept.items ≡ []) }
        ensures count { IfOk result (λ marks. marks.count ≡ 0) }
        ensures shapes { IfOk result (λ marks. marks.shapes.items ≡ replicate (ranks * harts) None) }
        ensures harts { IfOk result (λ marks. marks.harts ≡ harts) }
        ensures view { IfOk result (λ marks. marks.view ≡ view) }
    {
        let count = usize::from(ranks) * usize::from(harts);
        Ok(Marks {
            harts,
            view,
            count: 0,
            kept: Vec::new(alloc),
            shapes: Vec::from_elem(alloc, None, count)?,
            rows: Vec::from_elem(alloc, None, count)?,
            quiet: Vec::from_elem(alloc, 0, count)?,
        })
    }

    /// The last shape of the step's hart.
    fn last(&self, deed: &Deed) -> Option<Shape>
        ensures { result ≡ shape_there (slice_get self.now.shapes.items (lane_of self.now.harts deed.now.spot)) }
    {
        match self.shapes.get(lane(self.harts, deed.spot)) {
            None => None,
            Some(shape) => *shape,
        }
    }

    /// Whether a step has a mark of its own: it is shown, isn't one more look in vain of a bar that is begun, and doesn't go
    /// on with a row.
    pub fn is_marked(&self, deed: &Deed, begun: bool) -> bool
        ensures { result
            ≡ is_marked_of self.now.view begun
            (shape_there (slice_get self.now.shapes.items (lane_of self.now.harts deed.now.spot))) deed.now }
    {
        self.view.has(deed.spot)
            && deed.shape.is_some()
            && !(deed.vain && begun)
            && !is_row(deed.shape, self.last(deed))
    }

    /// How many steps the step's hart took since its last mark, or since it last looked in vain.
    fn quiet_of(&self, deed: &Deed) -> u64 {
        self.quiet
            .get(lane(self.harts, deed.spot))
            .copied()
            .unwrap_or(0)
    }

    /// Notes that the last mark of the step's hart is the next that is kept.
    fn note_row(&mut self, deed: &Deed)
        ensures kept { self.new.kept.items ≡ self.old.kept.items }
        ensures count { self.new.count ≡ self.old.count }
        ensures shapes { self.new.shapes.items ≡ self.old.shapes.items }
        ensures view { self.new.view ≡ self.old.view }
        ensures harts { self.new.harts ≡ self.old.harts }
    {
        let place = lane(self.harts, deed.spot);
        if place < self.rows.len() {
            self.rows[place] = Some(self.kept.len());
        }
    }

    /// Adds a mark, if it is one of the first 5,000.
    fn put(
        &mut self,
        deed: &Deed,
        shape: Shape,
        tip: Vec<u8>,
        note: Vec<u8>,
    ) -> Result<(), AllocError>
        requires fits { self.old.count < 2 ^ 64 - 1 }
        ensures count { OnOk result (self.new.count ≡ self.old.count + 1) }
        ensures kept { OnOk result
            (map told_by self.new.kept.items
            ≡ map told_by self.old.kept.items ++ kept_by self.old.count tip.items (sign_by deed.now shape ∷ [])) }
        ensures shapes { self.new.shapes.items ≡ self.old.shapes.items }
        ensures harts { self.new.harts ≡ self.old.harts }
        ensures view { self.new.view ≡ self.old.view }
    {
        let mark = mark_of(deed, shape, tip, note, self.quiet_of(deed));
        self.note_row(deed);
        keep(&mut self.kept, self.count, mark)?;
        self.count += 1;
        Ok(())
    }

    /// Where the last mark of the step's hart is kept.
    fn row_of(&self, deed: &Deed) -> Option<usize> {
        match self.rows.get(lane(self.harts, deed.spot)) {
            None => None,
            Some(row) => *row,
        }
    }

    /// Adds a step to the row with which it goes on, if it does.
    fn go_on(&mut self, deed: &Deed, note: &[u8]) -> Result<(), AllocError>
        ensures kept { OnOk result (map told_by self.new.kept.items ≡ map told_by self.old.kept.items) }
        ensures count { self.new.count ≡ self.old.count }
        ensures shapes { self.new.shapes.items ≡ self.old.shapes.items }
        ensures harts { self.new.harts ≡ self.old.harts }
        ensures view { self.new.view ≡ self.old.view }
    {
        if is_row(deed.shape, self.last(deed)) && self.view.has(deed.spot) {
            let row = self.row_of(deed);
            join_at(&mut self.kept, row, note)?;
        }
        Ok(())
    }

    /// Notes a step's shape as the last of its hart.
    fn note_shape(&mut self, deed: &Deed)
        ensures shapes { self.new.shapes.items
            ≡ shapes_with self.old.view self.old.harts self.old.shapes.items deed.now }
        ensures kept { self.new.kept.items ≡ self.old.kept.items }
        ensures count { self.new.count ≡ self.old.count }
        ensures harts { self.new.harts ≡ self.old.harts }
        ensures view { self.new.view ≡ self.old.view }
    {
        let place = lane(self.harts, deed.spot);
        if place < self.shapes.len() {
            self.shapes[place] = shape_behind(self.view, self.shapes[place], deed);
        }
    }

    /// Counts a step of a hart, from its last mark or its last look in vain on.
    fn count_quiet(&mut self, deed: &Deed, marked: bool)
        ensures shapes { self.new.shapes.items ≡ self.old.shapes.items }
        ensures kept { self.new.kept.items ≡ self.old.kept.items }
        ensures count { self.new.count ≡ self.old.count }
        ensures harts { self.new.harts ≡ self.old.harts }
        ensures view { self.new.view ≡ self.old.view }
    {
        let place = lane(self.harts, deed.spot);
        if place < self.quiet.len() {
            self.quiet[place] = if marked || deed.vain {
                0
            } else {
                self.quiet[place].saturating_add(1)
            };
        }
    }

    /// Adds the mark of a step, if it has one, with what is told of it and what stands beside it. `begun` tells that the
    /// hart looked in vain before it. The only error is want of memory.
    pub fn take(
        &mut self,
        deed: &Deed,
        begun: bool,
        tip: Vec<u8>,
        note: Vec<u8>,
    ) -> Result<(), AllocError>
        requires fits { self.old.count < 2 ^ 64 - 1 }
        ensures count { OnOk result (self.new.count
            ≡ self.old.count
            + length (marks_by self.old.view begun (slice_get self.old.shapes.items
            (lane_of self.old.harts deed.now.spot)) deed.now)) }
        ensures kept { OnOk result (map told_by self.new.kept.items
            ≡ map told_by self.old.kept.items
            ++ kept_by self.old.count tip.items
            (marks_by self.old.view begun (slice_get self.old.shapes.items (lane_of self.old.harts deed.now.spot))
            deed.now)) }
        ensures shapes { OnOk result (self.new.shapes.items
            ≡ shapes_with self.old.view self.old.harts self.old.shapes.items deed.now) }
        ensures harts { self.new.harts ≡ self.old.harts }
        ensures view { self.new.view ≡ self.old.view }
    {
        let marked = self.is_marked(deed, begun);
        if marked {
            if let Some(shape) = deed.shape {
                self.put(deed, shape, tip, note)?;
            }
        } else {
            self.go_on(deed, note.as_slice())?;
        }
        self.count_quiet(deed, marked);
        self.note_shape(deed);
        Ok(())
    }
}
