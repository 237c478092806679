//! A node that is marked in one way and not in another.

ghost use Rattle.std.specs.Prelude.{◌≡◌, ◌<◌, ℕ, IfNone, IfOk, IfSome, IsFalse, IsTrue, Some, length, slice_get, true};
ghost use Rattle.rvmc_explore.specs.Marks.{IsMarkedAlone, TellsMarkedAlone};

use crate::marks::{is_marked, mark};
use cl_explore::Lead;
use std::alloc::{AllocError, Global};

/// For each node the place of the first move from it, and for each move the place of the next one from the same node. Where there
/// is none it is the number of all moves.
#[derive(Drop)]
struct Places {
    first: Vec<usize>,
    next: Vec<usize>,
}

/// Puts the move at this place before the others from its node.
fn put_before(first: &mut [usize], next: &mut [usize], node: usize, place: usize) {
    if node < first.len() && place < next.len() {
        next[place] = first[node];
        first[node] = place;
    }
}

/// The places of these moves, from so many nodes.
fn places_of(alloc: Global, count: usize, leads: &[Lead]) -> Result<Places, AllocError> {
    let mut first = vec![in alloc; leads.len(); count]?;
    let mut next = vec![in alloc; leads.len(); leads.len()]?;
    for number in 0..leads.len() {
        let place = leads.len() - 1 - number;
        put_before(
            first.as_mut_slice(),
            next.as_mut_slice(),
            leads[place].from,
            place,
        );
    }
    Ok(Places { first, next })
}

/// The number at this place, or else another one.
fn number_at(numbers: &[usize], place: usize, other: usize) -> usize {
    if place < numbers.len() {
        numbers[place]
    } else {
        other
    }
}

/// Whether the node of this number is marked in all these marks, and not in those.
fn is_marked_alone(all: &[bool], others: &[bool], node: usize) -> bool
    ensures yes { IsTrue result → IsMarkedAlone all.now others.now node }
    ensures no { IsFalse result → slice_get all.now node ≡ Some true → slice_get others.now node ≡ Some true }
{
    if !is_marked(all, node) {
        return false;
    }
    !is_marked(others, node)
}

/// The first such node.
fn first_alone(all: &[bool], others: &[bool]) -> Option<usize>
    ensures some { IfSome result (IsMarkedAlone all.now others.now) }
    ensures none { IfNone result
        ((i : ℕ) → i < length all.now → slice_get all.now i ≡ Some true → slice_get others.now i ≡ Some true) }
{
    for node in 0..all.len() {
        if is_marked_alone(all, others, node) {
            return Some(node);
        }
    }
    None
}

/// The first such node to which one of these moves led from the node of this number, and that wasn't passed yet.
fn next_alone(
    places: &Places,
    leads: &[Lead],
    all: &[bool],
    others: &[bool],
    passed: &[bool],
    node: usize,
) -> Option<usize>
    ensures { IfSome result (IsMarkedAlone all.now others.now) }
{
    let mut place = number_at(places.first.as_slice(), node, leads.len());
    for _number in 0..leads.len() {
        if place >= leads.len() {
            return None;
        }
        let to = leads[place].to;
        if is_marked_alone(all, others, to) && !is_marked(passed, to) {
            return Some(to);
        }
        place = number_at(places.next.as_slice(), place, leads.len());
    }
    None
}

/// The node to which one comes from this one by these moves through such nodes, as long as there is one that wasn't passed yet.
fn last_alone(
    alloc: Global,
    leads: &[Lead],
    all: &[bool],
    others: &[bool],
    first: usize,
) -> Result<usize, AllocError>
    requires { IsMarkedAlone all.now others.now first }
    ensures { IfOk result (IsMarkedAlone all.now others.now) }
{
    let places = places_of(alloc, all.len(), leads)?;
    let mut passed = vec![in alloc; false; all.len()]?;
    let mut node = first;
    for _step in 0..all.len() {
        mark(passed.as_mut_slice(), node);
        match next_alone(&places, leads, all, others, passed.as_slice(), node) {
            None => return Ok(node),
            Some(next) => node = next,
        }
    }
    Ok(node)
}

/// Such a node, if there is one: the first of them, or the last one to which one comes from there by these moves.
pub(crate) fn one_alone(
    alloc: Global,
    leads: &[Lead],
    all: &[bool],
    others: &[bool],
) -> Result<Option<usize>, AllocError>
    ensures { IfOk result (TellsMarkedAlone all.now others.now) }
{
    match first_alone(all, others) {
        None => Ok(None),
        Some(first) => {
            let last = last_alone(alloc, leads, all, others, first)?;
            Ok(Some(last))
        }
    }
}
