//! What a search goes by.

ghost use Rattle.std.specs.Prelude.{◌≡◌, IsTrue};
ghost use Rattle.cl_explore.specs.How.{OnlyWaitIn, how_in, waits_in};

use cl_contests::Patterns;
use rv_image_types::Image;
use std::alloc::Global;

/// The order of the harts of each rank, how many turns a rank takes by itself at once, whether lines are wanted that say how
/// far the search came, and whether standard sends always buffer, so that ranks that need buffers aren't looked for.
#[derive(Clone, Copy, Drop)]
pub struct Course<'a> {
    pub alloc: Global,
    pub order: &'a [u8],
    pub most: u64,
    pub progress: bool,
    pub buffered: bool,
}

/// Which turns are taken at once, beside those that need only their rank.
#[derive(Clone, Copy, Drop)]
pub(crate) enum Way {
    /// No others.
    Plainly,
    /// Calls for what is there.
    AtOnce,
    /// Turns that nobody contests.
    First,
}

/// The same as a course, of which image, and which turns are taken at once, by the patterns of all ranks where that matters.
#[derive(Clone, Copy, Drop)]
pub(crate) struct Manner<'a> {
    pub alloc: Global,
    pub image: &'a Image,
    pub order: &'a [u8],
    pub most: u64,
    pub progress: bool,
    pub way: Way,
    pub patterns: &'a Patterns,
}

/// Whether standard sends may wait for their receives: only where turns go first that nobody contests.
pub(crate) fn may_wait(course: &Manner<'_>) -> bool
    ensures { result ≡ waits_in (how_in course.now) }
{
    match course.way {
        Way::Plainly | Way::AtOnce => false,
        Way::First => course.patterns.may_wait,
    }
}

/// Whether ranks only wait for named ranks: known only where turns go first that nobody contests, since then it is noted what
/// each rank asks.
pub(crate) fn only_waits(course: &Manner<'_>) -> bool
    ensures { IsTrue result → OnlyWaitIn (how_in course.now) }
{
    match course.way {
        Way::Plainly | Way::AtOnce => false,
        Way::First => course.patterns.only_wait(),
    }
}
