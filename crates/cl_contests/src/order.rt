//! Orders of harts in which the first one alone takes turns.

ghost use Rattle.std.specs.Prelude.{IsTrue};
ghost use Rattle.cl_contests.specs.Going.{IsFirstHart};

/// Whether the order names the first hart alone.
pub fn is_first_hart(order: &[u8]) -> bool
    ensures { IsTrue result → IsFirstHart order.now }
{
    for place in 0..order.len() {
        if order[place] != 0 {
            return false;
        }
    }
    true
}
