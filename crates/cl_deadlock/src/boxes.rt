//! What stands in the boxes of a state.

ghost use Rattle.std.specs.Prelude.{◌≡◌, ◌↔◌, Some, false, true};
ghost use Rattle.part_box.specs.declared.settled.Settled.{Settled as SettledBox};
ghost use Rattle.cl_replay.specs.Below.{box_number};
ghost use Rattle.cl_replay.specs.Boxes.{settled_at};

use part_box::Settled;

/// What stands in the box of a link's partition, if there is one: each link has 16.
fn settled(boxes: &[[Settled; 16]], link: u8, part: u8) -> Option<Settled>
    ensures { result ≡ settled_at boxes.now (box_number link part) }
{
    let number = 16 * usize::from(link) + usize::from(part);
    let link = boxes.get(number / 16)?;
    Some(link[number % 16])
}

/// Whether nothing stands in the box, if there is one.
pub(crate) fn is_empty(boxes: &[[Settled; 16]], link: u8, part: u8) -> bool
    ensures { (result ≡ true)
        ↔ ((s : SettledBox) → settled_at boxes.now (box_number link part) ≡ Some s → s.full ≡ false) }
{
    match settled(boxes, link, part) {
        None => true,
        Some(settled) => !settled.full,
    }
}

/// Whether something stands in the box, if there is one.
pub(crate) fn is_full(boxes: &[[Settled; 16]], link: u8, part: u8) -> bool
    ensures { (result ≡ true)
        ↔ ((s : SettledBox) → settled_at boxes.now (box_number link part) ≡ Some s → s.full ≡ true) }
{
    match settled(boxes, link, part) {
        None => true,
        Some(settled) => settled.full,
    }
}
