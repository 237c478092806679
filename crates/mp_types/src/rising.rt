//! Numbers in their order.

ghost use Rattle.std.specs.Prelude.{◌↔◌, IsTrue};
ghost use Rattle.mp_types.specs.Rising.{AreRising};

/// Whether each of the numbers is greater than the one before it. One look at each tells then that none stands twice,
/// which else takes a look at each pair.
pub fn are_rising(numbers: &[u64]) -> bool
    ensures { IsTrue result ↔ AreRising numbers.now }
{
    let Some((first, after)) = numbers.split_first() else {
        return true;
    };
    let mut last = *first;
    let mut rest = after;
    while let Some((number, after)) = rest.split_first() {
        if *number <= last {
            return false;
        }
        last = *number;
        rest = after;
    }
    true
}
