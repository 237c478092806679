//! A record of an outcome.

ghost use Rattle.std.specs.Prelude.{◌≡◌, ◌<◌, [], IfOk, false, length, true};
ghost use Rattle.std.specs.Option.{option_map};
ghost use Rattle.cl_explore.specs.Ends.{findings};
ghost use Rattle.cl_explore.specs.Needing.{SaysNeeds};
ghost use Rattle.rvmc_explore.specs.InnerOutcomes.{AreHeard};
ghost use Rattle.rvmc_explore.specs.InnerRecorded.{RecordsIn};
ghost use Rattle.rvmc_explore.specs.Outcomes.{ListsNeed, any_need};
ghost use Rattle.rvmc_explore.specs.Recorded.{RecordsEnd};
ghost use Rattle.rvmc_explore.specs.Searched.{IsSearched};
ghost use Rattle.cl_lines.specs.Telling.{TellsProgress};

use crate::asked::Asked;
use crate::hangs::tell_hang;
use crate::hearing::{Hearer, Sends};
use crate::outcomes::{Outcome, tell};
use crate::unending::is_unending;
use cl_explore::{Course, Exploration, explore, in_order};
use cl_machine::Step;
use cl_moves::MoveFault;
use rv_image_types::Image;
use std::alloc::{AllocError, Global};
use std::io::Write;
use std::marker::Brand;

/// The steps that lead to the outcome of this number, from 1, in the order of a record. None where there are fewer.
pub(crate) fn record_in(
    alloc: Global,
    told: &[Outcome],
    number: u64,
) -> Result<Option<Vec<Step>>, AllocError>
    ensures { IfOk result (λ steps. RecordsIn told.now number (option_map (λ s. s.items) steps)) }
{
    if number == 0 {
        return Ok(None);
    }
    let before = (number - 1) as usize;
    if before >= told.len() {
        return Ok(None);
    }
    let steps = told[before].steps(alloc)?;
    Ok(Some(in_order(alloc, steps.as_slice())?))
}

/// The search, in which each end is heard of as it is found, and ranks that need buffers unless each standard send copies its
/// message.
fn search_hearing<K: Sends, E: Write>(
    alloc: Global,
    image: &Image,
    asked: &Asked<'_>,
    hearer: &mut Hearer<K>,
    err: &mut E,
) -> Result<Exploration, MoveFault>
    requires order { 0 < length asked.now.order.now }
    requires none { hearer.old.told.items ≡ [] }
    requires sends { hearer.old.buffered ≡ asked.now.buffered }
    requires buffered { K.buffered ≡ asked.now.buffered }
    ensures heard { AreHeard asked.now.order.now image.now hearer.new.told.items }
    ensures no_need { asked.now.buffered ≡ true → any_need hearer.new.told.items ≡ false }
    ensures searched { IfOk result (λ found.
        IsSearched image.now asked.now.order.now asked.now.buffered asked.now.states asked.now.turns (findings found)) }
    ensures needs { IfOk result (λ found. SaysNeeds asked.now.buffered image.now (findings found)
        (ListsNeed image.now asked.now.order.now hearer.new.told.items) found.needs) }
    ensures progress { TellsProgress asked.now.progress (E.contents err.old) (E.contents err.new) }
{
    let course = Course {
        alloc,
        order: asked.order,
        most: asked.turns,
        progress: asked.progress,
        buffered: asked.buffered,
    };
    explore(&course, image, asked.states, hearer, err)
}

/// The steps that lead from the loaded cluster to the outcome of this number, from 1, in the list that `put_explored` tells, in the
/// order of a record: a run that comes there. None where there are fewer.
///
/// Refusals: Clock, Memory.
pub fn recorded<E: Write>(
    alloc: Global,
    image: &Image,
    asked: &Asked<'_>,
    number: u64,
    err: &mut E,
) -> Result<Option<Vec<Step>>, MoveFault>
    requires { 0 < length asked.now.order.now }
    ensures steps { IfOk result (λ steps. RecordsEnd image.now asked.now.order.now asked.now.buffered asked.now.states
        asked.now.turns number (option_map (λ s. s.items) steps)) }
    ensures progress { TellsProgress asked.now.progress (E.contents err.old) (E.contents err.new) }
{
    // ghost: brings into scope that the parts are those of an image; no effect at run time
    let _parts = image.parts();
    let mut hearer: Hearer<Brand> = Hearer::new(alloc, asked.buffered);
    let found = search_hearing::<Brand, E>(alloc, image, asked, &mut hearer, err)?;
    let mut told = tell(alloc, image, asked.order, &found, hearer.told)?;
    let unending = is_unending(alloc, &found)?;
    let _hanging = tell_hang(alloc, image, &found, &mut told, unending)?;
    Ok(record_in(alloc, told.as_slice(), number)?)
}
