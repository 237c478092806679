//! Looks in vain, which follow one another in bars.

ghost use Rattle.std.specs.Prelude.{◌≡◌, ◌++◌, ◌*◌, IfOk, None, OnOk, replicate};
ghost use Rattle.std.specs.List.{flat_map, slice_get, slice_set};
ghost use Rattle.rvmc_draw.specs.Looks.{begun_by as begun_by_of, lane_of, bar_ended as ended_of, ended_by as ended_by_of};
ghost use Rattle.rvmc_draw.specs.Held.{begun_in};
ghost use Rattle.rvmc_draw.specs.Looks.{ended_if as ended_if_of, longer as longer_of, open_to};

use crate::deeds::Deed;
use crate::drawing::{Bar, Spot};
use std::alloc::{AllocError, Global};

/// The bar of each hart that looks in vain.
#[derive(Drop)]
pub struct Looks {
    /// How many harts a rank has.
    pub harts: u8,
    /// By the harts' numbers, rank by rank.
    pub begun: Vec<Option<Bar>>,
}

/// The bar with a look more; where there is none it begins.
fn longer(begun: Option<Bar>, spot: Spot) -> Bar
    ensures { result ≡ longer_of begun spot }
{
    match begun {
        None => Bar {
            first: spot,
            last: 0,
            went_on: false,
            looks: 1,
        },
        Some(bar) => Bar {
            first: bar.first,
            last: bar.last,
            went_on: bar.went_on,
            looks: bar.looks.saturating_add(1),
        },
    }
}

/// The bar that a step ended.
fn ended(bar: Bar, spot: Spot) -> Bar
    ensures { result ≡ ended_of bar spot }
{
    Bar {
        first: bar.first,
        last: spot.place,
        went_on: true,
        looks: bar.looks,
    }
}

/// The hart's bar behind a step.
fn begun_by(begun: Option<Bar>, deed: &Deed) -> Option<Bar>
    ensures { result ≡ begun_by_of begun deed.now }
{
    if deed.shape.is_some() {
        if deed.vain {
            Some(longer(begun, deed.spot))
        } else {
            None
        }
    } else {
        begun
    }
}

/// Adds the bar, ended, if there is one.
fn put_ended(bars: &mut Vec<Bar>, begun: Option<Bar>, spot: Spot) -> Result<(), AllocError>
    ensures { OnOk result (bars.new.items ≡ bars.old.items ++ ended_if_of begun spot) }
{
    if let Some(bar) = begun {
        bars.push(ended(bar, spot))?;
    }
    Ok(())
}

/// Adds the bar that a step ends, if it ends one.
fn put_ended_by(bars: &mut Vec<Bar>, begun: Option<Bar>, deed: &Deed) -> Result<(), AllocError>
    ensures { OnOk result (bars.new.items ≡ bars.old.items ++ ended_by_of begun deed.now) }
{
    if deed.shape.is_some() {
        if !deed.vain {
            put_ended(bars, begun, deed.spot)?;
        }
    }
    Ok(())
}

/// Adds the bar as it is at the end, if there is one.
#[tactic(auto, unfolding(crate::specs::Looks::open_to))]
fn put_open_one(bars: &mut Vec<Bar>, begun: &Option<Bar>, end: u64) -> Result<(), AllocError>
    ensures { OnOk result (bars.new.items ≡ bars.old.items ++ open_to end begun.now) }
{
    if let Some(bar) = begun {
        bars.push(Bar {
            first: bar.first,
            last: end,
            went_on: false,
            looks: bar.looks,
        })?;
    }
    Ok(())
}

/// The place of a hart among all.
pub(crate) fn lane(harts: u8, spot: Spot) -> usize
    ensures { result ≡ lane_of harts spot }
{
    usize::from(spot.rank) * usize::from(harts) + usize::from(spot.hart)
}

impl Looks {
    /// No bars. The only error is want of memory.
    pub fn new(alloc: Global, ranks: u8, harts: u8) -> Result<Looks, AllocError>
        ensures begun { IfOk result (λ looks. looks.begun.items ≡ replicate (ranks * harts) None) }
        ensures harts { IfOk result (λ looks. looks.harts ≡ harts) }
    {
        let count = usize::from(ranks) * usize::from(harts);
        Ok(Looks {
            harts,
            begun: Vec::from_elem(alloc, None, count)?,
        })
    }

    /// The bar of the step's hart, if it looked in vain before.
    pub fn begun(&self, spot: Spot) -> Option<Bar>
        ensures { result ≡ begun_in self.now.begun.items (lane_of self.now.harts spot) }
    {
        match self.begun.get(lane(self.harts, spot)) {
            None => None,
            Some(begun) => *begun,
        }
    }

    /// Sets the bar of the step's hart.
    fn set(&mut self, spot: Spot, bar: Option<Bar>)
        ensures begun { self.new.begun.items
            ≡ slice_set self.old.begun.items (lane_of self.old.harts spot) bar }
        ensures harts { self.new.harts ≡ self.old.harts }
    {
        let lane = lane(self.harts, spot);
        if lane < self.begun.len() {
            self.begun[lane] = bar;
        }
    }

    /// Adds a step: a look in vain begins its hart's bar or makes it longer, and any other call ends it. The only error is
    /// want of memory.
    pub fn take(&mut self, bars: &mut Vec<Bar>, deed: &Deed) -> Result<(), AllocError>
        ensures bars { OnOk result
            (bars.new.items
            ≡ bars.old.items
            ++ ended_by_of
            (begun_in self.old.begun.items (lane_of self.old.harts deed.now.spot)) deed.now) }
        ensures begun { OnOk result
            (self.new.begun.items
            ≡ slice_set self.old.begun.items (lane_of self.old.harts deed.now.spot)
            (begun_by_of
            (begun_in self.old.begun.items (lane_of self.old.harts deed.now.spot)) deed.now)) }
        ensures harts { self.new.harts ≡ self.old.harts }
    {
        let begun = self.begun(deed.spot);
        put_ended_by(bars, begun, deed)?;
        self.set(deed.spot, begun_by(begun, deed));
        Ok(())
    }

    /// Adds the bars that nothing ended up to this place. The only error is want of memory.
    pub fn put_open(&self, bars: &mut Vec<Bar>, end: u64) -> Result<(), AllocError>
        ensures { OnOk result (bars.new.items ≡ bars.old.items ++ flat_map (open_to end) self.now.begun.items) }
    {
        for begun in self.begun.as_slice() {
            put_open_one(bars, begun, end)?;
        }
        Ok(())
    }
}
