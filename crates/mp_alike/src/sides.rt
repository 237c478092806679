//! The initialisations of two hubs, compared.

ghost use Rattle.std.specs.Prelude.{◌≡◌, ◌∷◌, ◌↔◌, All, IsTrue, filter, length, ◌≤◌};
ghost use Rattle.mp_transfers.specs.Inits.{is_reserved, is_same_side, same_transfer, sender_over};
ghost use Rattle.mp_alike.specs.InnerAlike.{AreAlikeSides, IsAlikeSide, IsAtSame};

use mp_transfers::{Setup, Side, find_sender};

fn is_same_setup(a: &Setup, b: &Setup) -> bool
    ensures { IsTrue result ↔ (a.now ≡ b.now) }
{
    a.sending == b.sending
        && a.comm == b.comm
        && a.from == b.from
        && a.to == b.to
        && a.tag == b.tag
        && a.parts == b.parts
        && a.size == b.size
}

fn is_equal(a: &Side, b: &Side) -> bool
    ensures { IsTrue result ↔ (a.now ≡ b.now) }
{
    a.link == b.link && is_same_setup(&a.setup, &b.setup)
}

// Whether it is on the same side of the same transfer.
fn is_same_side(setup: &Setup, side: &Side) -> bool
    ensures { result ≡ is_same_side setup.now side.now }
{
    let other = side.setup;
    other.comm == setup.comm
        && other.from == setup.from
        && other.to == setup.to
        && other.tag == setup.tag
        && other.sending == setup.sending
}

// The rest of the sides from the first one that is on the same side of the same transfer.
fn from_same<'a>(setup: &Setup, sides: &'a [Side]) -> &'a [Side]
    ensures same { filter (is_same_side setup.now) result.now ≡ filter (is_same_side setup.now) sides.now }
    ensures first { IsAtSame setup.now result.now }
    ensures fewer { length result.now ≤ length sides.now }
{
    let mut rest = sides;
    while let Some((side, after)) = rest.split_first() {
        if is_same_side(setup, side) {
            return rest;
        }
        rest = after;
    }
    rest
}

// Whether those on the same side of the same transfer are the same, in the same order.
fn has_same(setup: &Setup, mine: &[Side], theirs: &[Side]) -> bool
    ensures { IsTrue result ↔ (filter (is_same_side setup.now) theirs.now ≡ filter (is_same_side setup.now) mine.now) }
{
    let mut left = from_same(setup, mine);
    let mut right = from_same(setup, theirs);
    while let Some((side, after)) = left.split_first() {
        let Some((peer, beyond)) = right.split_first() else {
            return false;
        };
        if !is_equal(peer, side) {
            return false;
        }
        left = from_same(setup, after);
        right = from_same(setup, beyond);
    }
    right.is_empty()
}

fn is_taken(link: u8, sides: &[Side]) -> bool
    ensures { result ≡ is_reserved sides.now link }
{
    sides.iter().any(|side| side.link == link)
}

fn has_same_sender(link: u8, mine: &[Side], theirs: &[Side]) -> bool
    ensures { IsTrue result ↔ (sender_over theirs.now link ≡ sender_over mine.now link) }
{
    match (find_sender(theirs, link), find_sender(mine, link)) {
        (Some(side), Some(other)) => is_equal(&side, &other),
        (None, None) => true,
        _ => false,
    }
}

fn is_alike(side: &Side, mine: &[Side], theirs: &[Side]) -> bool
    ensures { IsTrue result ↔ IsAlikeSide mine.now theirs.now side.now }
{
    has_same(&side.setup, mine, theirs)
        && is_taken(side.link, theirs) == is_taken(side.link, mine)
        && has_same_sender(side.link, mine, theirs)
}

fn are_all_alike(sides: &[Side], mine: &[Side], theirs: &[Side]) -> bool
    ensures { IsTrue result ↔ All (IsAlikeSide mine.now theirs.now) sides.now }
{
    sides.iter().all(|side| is_alike(side, mine, theirs))
}

/// Whether each side of each transfer was initialised as often in both hubs, in the same order, with the same links.
#[tactic(auto, using(crate::proofs::Initialised::each_alike))]
pub fn are_alike_sides(mine: &[Side], theirs: &[Side]) -> bool
    ensures { IsTrue result ↔ AreAlikeSides mine.now theirs.now }
{
    are_all_alike(mine, mine, theirs) && are_all_alike(theirs, mine, theirs)
}
