//! Breakpoints and watchpoints.

ghost use Rattle.std.specs.Prelude.{◌≡◌};
ghost use Rattle.rvmc_protocol.specs.Requests.Points.{point_of, spot_in};

use crate::requests::pieces::{cut, number_in, numbers_in};

/// Where a run is to stop.
#[derive(Clone, Copy)]
pub enum Point {
    /// Before an instruction.
    Before,
    /// Before an instruction, told by hardware.
    HardwareBefore,
    /// Behind a step that changes bytes.
    Written,
    /// Behind a step that reads bytes.
    Read,
    /// Behind a step that reads or changes bytes.
    Touched,
}

/// The point of a number from 0 to 4.
fn point_of(number: u64) -> Option<Point>
    ensures { result ≡ point_of number }
{
    match number {
        0 => Some(Point::Before),
        1 => Some(Point::HardwareBefore),
        2 => Some(Point::Written),
        3 => Some(Point::Read),
        4 => Some(Point::Touched),
        _ => None,
    }
}

/// A point, an address and a size, with commas between them.
#[tactic(auto, unfolding(crate::specs::Requests::Points::spot_in))]
pub(crate) fn spot_in(text: &[u8]) -> Option<(Point, u64, u64)>
    ensures { result ≡ spot_in text.now }
{
    let (number, rest) = cut(text, b',')?;
    let number = number_in(number)?;
    let point = point_of(number)?;
    let (address, size) = numbers_in(rest)?;
    Some((point, address, size))
}
