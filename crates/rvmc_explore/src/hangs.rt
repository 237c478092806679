//! States from which no run ends if standard sends wait for their receives, as outcomes.

ghost use Rattle.std.specs.Prelude.{◌≡◌, ℕ, IfOk, Some, slice_get};
ghost use Rattle.cl_explore.specs.Ends.{findings};
ghost use Rattle.rvmc_explore.specs.Hanging.{TellsHang, TellsHangingIn};
ghost use Rattle.rvmc_explore.specs.InnerPatient.{LeadInside};

use crate::hang_texts::hang_body;
use crate::outcomes::{Outcome, add_stuck};
use crate::patient::hanging;
use cl_explore::{Exploration, Needs};
use cl_rests::RankSet;
use rv_image_types::Image;
use std::alloc::{AllocError, Global};

/// The ranks that rest at the node of this number, as was noted where its moves were made.
fn resting_at(found: &Exploration, node: usize) -> RankSet
    ensures { (noted : ℕ) → slice_get found.now.resting.items node ≡ Some noted → result ≡ noted }
{
    match found.resting.get(node) {
        None => RankSet::none(),
        Some(ranks) => *ranks,
    }
}

/// A node at which runs hang if sends wait, if there is one. It is looked for only where it is known that no ranks need buffers,
/// and no runs go on for ever anyway.
fn hanging_in(
    alloc: Global,
    found: &Exploration,
    unending: bool,
) -> Result<Option<usize>, AllocError>
    requires { LeadInside (findings found.now) }
    ensures { IfOk result (TellsHangingIn (findings found.now) found.now.needs unending) }
{
    match found.needs {
        Needs::Nobody if !unending => hanging(alloc, found),
        _ => Ok(None),
    }
}

/// Adds what is told of a state from which no run ends if sends wait, if there is one, unless its text is told already. Answers
/// whether there is one. The only error is want of memory.
pub(crate) fn tell_hang(
    alloc: Global,
    image: &Image,
    found: &Exploration,
    told: &mut Vec<Outcome>,
    unending: bool,
) -> Result<bool, AllocError>
    requires { LeadInside (findings found.now) }
    ensures { IfOk result (λ hangs. TellsHang image.now (findings found.now) told.old.items told.new.items found.now.needs unending hangs) }
{
    let Some(node) = hanging_in(alloc, found, unending)? else {
        return Ok(false);
    };
    let nodes = found.nodes.as_slice();
    let resting = resting_at(found, node);
    let body = hang_body(alloc, image, nodes, node, resting)?;
    add_stuck(alloc, told, nodes, node, body)?;
    Ok(true)
}
