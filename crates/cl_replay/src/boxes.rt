//! All boxes, by their numbers.

ghost use Rattle.std.specs.Prelude.{◌≡◌, Some, length};
ghost use Rattle.part_box.specs.declared.settled.Settled.{Settled as SettledBox};
ghost use Rattle.cl_machine.specs.Boxes.{box_number};
ghost use Rattle.cl_replay.specs.Boxes.{ChangesBox, settled_at};

use part_box::Settled;

/// The number of a box among all boxes: each link has 16.
pub(crate) fn number_of(link: u8, part: u8) -> usize
    ensures { result ≡ box_number link part }
{
    16 * usize::from(link) + usize::from(part)
}

/// What stands in the box of this number, if there is one.
pub(crate) fn get(boxes: &[[Settled; 16]], number: usize) -> Option<Settled>
    ensures { result ≡ settled_at boxes.now number }
{
    let link = boxes.get(number / 16)?;
    Some(link[number % 16])
}

/// Puts another thing into the box of this number.
pub(crate) fn set(boxes: &mut [[Settled; 16]], number: usize, settled: Settled)
    requires { (before : SettledBox) × (settled_at boxes.old number ≡ Some before) }
    ensures { ChangesBox boxes.old number settled boxes.new }
{
    boxes[number / 16][number % 16] = settled;
}
