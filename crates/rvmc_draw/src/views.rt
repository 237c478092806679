//! What of a picture is shown: the steps from one place to another, and the arrows and bars that touch them.

ghost use Rattle.std.specs.Prelude.{◌≡◌, ◌++◌, IfOk, OnOk};
ghost use Rattle.std.specs.List.{flat_map};
ghost use Rattle.rvmc_draw.specs.Views.{arrow_in_view, bar_in_view, has_end as has_end_of, is_arrow_seen, is_bar_seen, is_in_view};

use crate::drawing::{Arrow, Bar, Carried, Spot};
use std::alloc::{AllocError, Global};

/// The steps that are shown: from this place to before that.
#[derive(Clone, Copy, Drop)]
pub struct View {
    pub from: u64,
    pub to: u64,
}

impl View {
    /// Whether a step is shown.
    pub fn has(self, spot: Spot) -> bool
        ensures { result ≡ is_in_view self spot }
    {
        self.from <= spot.place && spot.place < self.to
    }

    /// Whether the step at an arrow's end is shown, if it has one there.
    fn has_end(self, arrow: &Arrow) -> bool
        ensures { result ≡ has_end_of self arrow.now.to }
    {
        match arrow.to {
            None => false,
            Some(to) => self.has(to),
        }
    }

    /// Whether an arrow is shown: one of its steps is. A line of what could have been is where the receive is.
    fn sees(self, arrow: &Arrow) -> bool
        ensures { result ≡ is_arrow_seen self arrow.now }
    {
        match arrow.carried {
            Carried::Could { .. } => self.has_end(arrow),
            _ => self.has(arrow.from) || self.has_end(arrow),
        }
    }

    /// Whether a bar is shown: it begins before the view ends, and ends where the view begins or behind.
    fn sees_bar(self, bar: &Bar) -> bool
        ensures { result ≡ is_bar_seen self bar.now }
    {
        bar.first.place < self.to && self.from <= bar.last
    }
}

/// Adds an arrow if it is shown.
#[tactic(auto, unfolding(crate::specs::Views::arrow_in_view))]
fn put_seen(view: View, seen: &mut Vec<Arrow>, arrow: &Arrow) -> Result<(), AllocError>
    ensures { OnOk result (seen.new.items ≡ seen.old.items ++ arrow_in_view view arrow.now) }
{
    if view.sees(arrow) {
        seen.push(*arrow)?;
    }
    Ok(())
}

/// Adds a bar if it is shown.
#[tactic(auto, unfolding(crate::specs::Views::bar_in_view))]
fn put_bar_seen(view: View, seen: &mut Vec<Bar>, bar: &Bar) -> Result<(), AllocError>
    ensures { OnOk result (seen.new.items ≡ seen.old.items ++ bar_in_view view bar.now) }
{
    if view.sees_bar(bar) {
        seen.push(*bar)?;
    }
    Ok(())
}

/// The arrows that are shown, in their order. The only error is want of memory.
pub fn arrows_seen(alloc: Global, view: View, arrows: &[Arrow]) -> Result<Vec<Arrow>, AllocError>
    ensures { IfOk result (λ seen. seen.items ≡ flat_map (arrow_in_view view) arrows.now) }
{
    let mut seen = Vec::new(alloc);
    for arrow in arrows {
        put_seen(view, &mut seen, arrow)?;
    }
    Ok(seen)
}

/// The bars that are shown, in their order. The only error is want of memory.
pub fn bars_seen(alloc: Global, view: View, bars: &[Bar]) -> Result<Vec<Bar>, AllocError>
    ensures { IfOk result (λ seen. seen.items ≡ flat_map (bar_in_view view) bars.now) }
{
    let mut seen = Vec::new(alloc);
    for bar in bars {
        put_bar_seen(view, &mut seen, bar)?;
    }
    Ok(seen)
}
