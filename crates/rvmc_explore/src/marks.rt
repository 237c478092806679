//! Marks of nodes, and which of them lead to others.

ghost use Rattle.std.specs.Prelude.{◌≡◌, ◌⊎◌, ◌<◌, ℕ, List, IfOk, IsFalse, IsTrue, Some, length, replicate, slice_get, true};
ghost use Rattle.rvmc_explore.specs.Endless.{AreComplete};
ghost use Rattle.rvmc_explore.specs.Marks.{AreMarkedFrom, HaveStayed, IsMarkedBefore, IsMarkedIfThere, unmarked};
ghost use Rattle.rvmc_explore.specs.Searched.{AreSound};

use cl_explore::Lead;
use std::alloc::{AllocError, Global};

/// Marks the node of this number, if there is a mark for it.
pub(crate) fn mark(marks: &mut [bool], node: usize)
    ensures only { (i : ℕ) → slice_get marks.new i ≡ Some true → (slice_get marks.old i ≡ Some true) ⊎ (node ≡ i) }
    ensures now { IsMarkedIfThere marks.new node }
    ensures stay { HaveStayed marks.old marks.new }
{
    if node < marks.len() {
        marks[node] = true;
    }
}

/// A mark for each of so many nodes, set at these.
fn marked_at(alloc: Global, count: usize, nodes: &[usize]) -> Result<Vec<bool>, AllocError>
    ensures many { IfOk result (λ marks. length marks.items ≡ count) }
    ensures only { IfOk result (λ marks. (i : ℕ) → slice_get marks.items i ≡ Some true
        → (k : ℕ) × (slice_get nodes.now k ≡ Some i)) }
    ensures all { IfOk result (λ marks. (k i : ℕ) → slice_get nodes.now k ≡ Some i → IsMarkedIfThere marks.items i) }
{
    let mut marks = vec![in alloc; false; count]?;
    for place in 0..nodes.len() {
        mark(marks.as_mut_slice(), nodes[place]);
    }
    Ok(marks)
}

/// A mark for each of so many nodes, and each is set.
pub(crate) fn all_marked(alloc: Global, count: usize) -> Result<Vec<bool>, AllocError>
    ensures { IfOk result (λ marks. marks.items ≡ replicate count true) }
{
    let marks = vec![in alloc; true; count]?;
    Ok(marks)
}

/// Whether the node of this number is marked.
pub(crate) fn is_marked(marks: &[bool], node: usize) -> bool
    ensures yes { IsTrue result → slice_get marks.now node ≡ Some true }
    ensures no { IsFalse result → slice_get marks.now node ≡ Some true → ⊥ }
{
    if node >= marks.len() {
        return false;
    }
    marks[node]
}

/// Marks the node from which the move at this place led, if the one is marked to which it led. Answers whether it wasn't marked before.
fn mark_before(marks: &mut [bool], leads: &[Lead], place: usize) -> bool
    requires { place < length leads.now }
    ensures sound { (targets : List ℕ) → AreSound leads.now targets marks.old → AreSound leads.now targets marks.new }
    ensures stay { HaveStayed marks.old marks.new }
    ensures more { IsTrue result → unmarked marks.new < unmarked marks.old }
    ensures done { IsFalse result → (marks.new ≡ marks.old) × IsMarkedBefore leads.now place marks.new }
{
    let lead = &leads[place];
    if lead.from >= marks.len() || !is_marked(marks, lead.to) || is_marked(marks, lead.from) {
        return false;
    }
    marks[lead.from] = true;
    true
}

/// The same of each move, the last one first: most moves lead to later nodes. Answers whether one was marked.
fn mark_all(marks: &mut [bool], leads: &[Lead]) -> bool
    ensures sound { (targets : List ℕ) → AreSound leads.now targets marks.old → AreSound leads.now targets marks.new }
    ensures stay { HaveStayed marks.old marks.new }
    ensures more { IsTrue result → unmarked marks.new < unmarked marks.old }
    ensures done { IsFalse result → AreMarkedFrom leads.now 0 marks.new }
{
    let mut more = false;
    for place in 0..leads.len() {
        if mark_before(marks, leads, leads.len() - 1 - place) {
            more = true;
        }
    }
    more
}

/// Of so many nodes, a mark for each that leads by these moves to one of the targets, and for no other.
pub(crate) fn leading_to(
    alloc: Global,
    count: usize,
    leads: &[Lead],
    targets: &[usize],
) -> Result<Vec<bool>, AllocError>
    ensures many { IfOk result (λ marks. length marks.items ≡ count) }
    ensures sound { IfOk result (λ marks. AreSound leads.now targets.now marks.items) }
    ensures complete { IfOk result (λ marks. AreComplete leads.now targets.now marks.items) }
{
    let mut marks = marked_at(alloc, count, targets)?;
    'rest: loop {
        if !mark_all(marks.as_mut_slice(), leads) {
            return Ok(marks);
        }
    }
}
