//! The turns that lead to a node.

ghost use Rattle.std.specs.Prelude.{◌≡◌, ℕ, List, IfOk, Some, reverse, slice_get};
ghost use Rattle.rv_image_types.specs.declared.images.ImageParts.{ImageParts};
ghost use Rattle.cl_order_laws.specs.Closed.{Node};
ghost use Rattle.cl_moves.specs.Standing.{IsWay, by_order, first_node};
ghost use Rattle.cl_explore.specs.Covering.{AreNodes};

use crate::kept::KeptNode;
use cl_machine::Step;
use std::alloc::{AllocError, Global};

/// The same steps, the last one first.
fn turned(alloc: Global, mut back: Vec<Step>) -> Result<Vec<Step>, AllocError>
    ensures { IfOk result (λ steps. steps.items ≡ reverse back.items) }
{
    let mut steps = Vec::with_capacity(alloc, back.len())?;
    'rest: loop {
        match back.pop() {
            None => return Ok(steps),
            Some(step) => steps.push(step)?,
        }
    }
}

/// The turns that lead from the loaded cluster to the node of this number, of nodes that a search found: a record of a run that
/// comes there. None where there is no such node. The only error is want of memory.
pub fn steps_to(alloc: Global, nodes: &[KeptNode], node: usize) -> Result<Vec<Step>, AllocError>
    ensures { (image : ImageParts) (order : List ℕ) (found : List Node) (here : Node)
        → AreNodes image order nodes.now found → slice_get found node ≡ Some here
        → IfOk result (λ steps. IsWay (by_order order) (first_node image) steps.items here) }
{
    let mut back = Vec::new(alloc);
    let mut at = node;
    'rest: loop {
        if at >= nodes.len() {
            return Ok(Vec::new(alloc));
        }
        let kept = &nodes[at];
        kept.turns.go_back(alloc, &mut back)?;
        if at == 0 {
            return turned(alloc, back);
        }
        if kept.parent >= at {
            return Ok(Vec::new(alloc));
        }
        at = kept.parent;
    }
}
