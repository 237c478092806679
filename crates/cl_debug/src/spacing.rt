//! How far apart the kept states are.

ghost use Rattle.cl_debug.specs.Spacing.{IsSpacing};

/// The spacing for so many steps: 1,024 times the least power of two that leaves at most 64 multiples up to their
/// number, 0 among them.
pub(crate) fn spacing_for(len: u64) -> u64
    ensures { IsSpacing len result }
{
    let mut spacing = 1024;
    while len / spacing >= 64 {
        spacing *= 2;
    }
    spacing
}
