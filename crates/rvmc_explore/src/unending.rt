//! Whether some runs go on for ever.

ghost use Rattle.std.specs.Prelude.{◌≡◌, IfNone, IfOk, false, string_bytes};
ghost use Rattle.cl_explore.specs.Ends.{findings};
ghost use Rattle.rvmc_explore.specs.Endless.{SaysUnendingOf};
ghost use Rattle.rvmc_explore.specs.Hanging.{EachGoes};
ghost use Rattle.rvmc_explore.specs.InnerGoing.{TellsEndless};
ghost use Rattle.rvmc_explore.specs.Telling.{unending_line};

use crate::alone::one_alone;
use crate::marks::{all_marked, leading_to};
use cl_explore::Exploration;
use std::alloc::{AllocError, Global};

/// A node that leads to no end, if there is one: from there a run goes on for ever, however it goes. It is the last one of a walk
/// from the first such node by moves to nodes that weren't passed, so that ranks that end have ended there as far as may be. None
/// where not all moves were made, since then it isn't known. The only error is want of memory.
pub(crate) fn endless_in(alloc: Global, found: &Exploration) -> Result<Option<usize>, AllocError>
    ensures says { IfOk result (TellsEndless (findings found.now)) }
    ensures each { IfOk result (λ node. IfNone node (found.now.left ≡ 0 → EachGoes (findings found.now))) }
{
    if found.left > 0 {
        return Ok(None);
    }
    let count = found.nodes.len();
    let leads = found.leads.as_slice();
    let ends = found.ends.as_slice();
    let marks = leading_to(alloc, count, leads, ends)?;
    let all = all_marked(alloc, count)?;
    let marked = marks.as_slice();
    let every = all.as_slice();
    let node = one_alone(alloc, leads, every, marked)?;
    Ok(node)
}

/// Whether some node leads to no end. False where not all moves were made, since then it isn't known. The only error is want of
/// memory.
pub(crate) fn is_unending(alloc: Global, found: &Exploration) -> Result<bool, AllocError>
    ensures says { IfOk result (SaysUnendingOf (findings found.now)) }
    ensures each { IfOk result (λ unending. unending ≡ false → found.now.left ≡ 0 → EachGoes (findings found.now)) }
{
    let node = endless_in(alloc, found)?;
    Ok(node.is_some())
}

/// The line that says so.
pub(crate) fn unending_line(alloc: Global, unending: bool) -> Result<String, AllocError>
    ensures { IfOk result (λ text. string_bytes text ≡ unending_line unending) }
{
    if unending {
        format!(in alloc; "some runs go on for ever\n")
    } else {
        Ok(String::new(alloc))
    }
}
