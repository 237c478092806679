//! Which of several parts count: one a start.

ghost use Rattle.std.specs.Prelude.{◌≡◌, ◌==◌, ◌&&◌, [], IfOk, map, not};
ghost use Rattle.std.specs.List.{list_any};
ghost use Rattle.rvmc_starts.specs.Using.{is_of, is_used, is_whole, lacking, used};

use crate::parts::Part;
use std::alloc::{AllocError, Global};

/// Whether all ends of the part's start were told.
fn is_whole(part: &Part) -> bool
    ensures { result ≡ is_whole part.now }
{
    part.left == 0
}

/// Whether one of the parts is of this start.
fn any_of(parts: &[Part], number: u64) -> bool
    ensures { result ≡ list_any (λ part. is_of number part) parts.now }
{
    parts.iter().any(|part| part.number == number)
}

/// Whether one of the parts is of this start and tells all its ends.
pub(crate) fn any_whole(parts: &[Part], number: u64) -> bool
    ensures { result ≡ list_any (λ part. is_of number part && is_whole part) parts.now }
{
    parts
        .iter()
        .any(|part| part.number == number && is_whole(part))
}

/// Whether a part counts: the first of its start that is whole, or else the first.
fn is_used(before: &[Part], part: &Part, after: &[Part]) -> bool
    ensures { result ≡ is_used before.now part.now after.now }
{
    if is_whole(part) {
        !any_whole(before, part.number)
    } else {
        !any_of(before, part.number) && !any_whole(after, part.number)
    }
}

/// The parts that count, in their order.
pub(crate) fn used(alloc: Global, parts: &[Part]) -> Result<Vec<&Part>, AllocError>
    ensures { IfOk result (λ found. map (λ part. part.now) found.items ≡ used [] parts.now) }
{
    let mut found = Vec::new(alloc);
    for place in 0..parts.len() {
        let part = &parts[place];
        if is_used(&parts[..place], part, &parts[place + 1..]) {
            found.push(part)?;
        }
    }
    Ok(found)
}

/// The first start, from 1 to the count, that isn't told whole.
pub(crate) fn lacking(parts: &[Part], count: u64) -> Option<u64>
    ensures { result ≡ lacking parts.now 1 count }
{
    for done in 0..count {
        let number = done + 1;
        if !any_whole(parts, number) {
            return Some(number);
        }
    }
    None
}
