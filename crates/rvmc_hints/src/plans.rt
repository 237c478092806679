//! A plan or an order that names what isn't there, or that misses a rank.

ghost use Rattle.std.specs.Prelude.{◌≡◌, option_map};
ghost use Rattle.rvmc_hints.specs.Plans.{names, names_beyond, names_each, plans_in};

use crate::hint::Hint;

/// Whether a list names a number that isn't below the count.
fn names_beyond(count: u8, list: &[u8]) -> bool
    ensures { result ≡ names_beyond count list.now }
{
    let mut rest = list;
    while let Some((number, after)) = rest.split_first() {
        if *number >= count {
            return true;
        }
        rest = after;
    }
    false
}

/// Whether a list names a number.
fn names(number: u8, list: &[u8]) -> bool
    ensures { result ≡ names number list.now }
{
    let mut rest = list;
    while let Some((other, after)) = rest.split_first() {
        if *other == number {
            return true;
        }
        rest = after;
    }
    false
}

/// Whether a list names each number below the count.
fn names_each(count: u8, list: &[u8]) -> bool
    ensures { result ≡ names_each count list.now }
{
    let mut left = count;
    while left > 0 {
        left -= 1;
        if !names(left, list) {
            return false;
        }
    }
    true
}

/// What is wrong with a plan or an order for an image of so many ranks with so many harts each: that the plan names a
/// hart that isn't there, or else that the order names such a rank or misses one. What isn't given is right.
pub fn plans_hint<'a>(
    ranks: u8,
    harts: u8,
    plan: Option<&[u8]>,
    order: Option<&[u8]>,
) -> Option<Hint<'a>>
    ensures { result ≡ plans_in ranks harts (option_map (λ p. p.now) plan.entry) (option_map (λ p. p.now) order.entry) }
{
    if let Some(plan) = plan {
        if names_beyond(harts, plan) {
            return Some(Hint::Harts(harts));
        }
    }
    if let Some(order) = order {
        if names_beyond(ranks, order) || !names_each(ranks, order) {
            return Some(Hint::Ranks(ranks));
        }
    }
    None
}
