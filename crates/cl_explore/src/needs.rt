//! What a search knows of ranks that need buffers.

ghost use Rattle.std.specs.Prelude.{◌≡◌, ◌<◌, IfErr, IfSome, IsTrue, length, true};
ghost use Rattle.cl_contests.specs.Kept.{search_of};
ghost use Rattle.cl_explore.specs.How.{by_contest};
ghost use Rattle.cl_explore.specs.Listening.{IsImageFor};
ghost use Rattle.cl_explore.specs.Knowing.{IsBegunWith, needs_of};
ghost use Rattle.cl_explore.specs.Orders.{OrderFaultHolds};

use crate::course::{Course, Manner, Way};
use crate::exploring::Exploration;
use crate::halt::Halt;
use crate::listening::Listener;
use crate::orders::{OrderFault, follow};
use crate::seeking::seek_needs;
use cl_contests::Patterns;
use cl_turns::Turn;
use rv_image_types::Image;

/// What a search knows of ranks that need buffers.
#[derive(Clone, Copy, Drop)]
pub enum Needs {
    /// They weren't looked for: standard sends buffer, or ranks have several harts.
    Unsought,
    /// No run comes to any.
    Nobody,
    /// A run comes to some, of which the listener was told.
    Somebody,
    /// They were looked for and not found, but not everywhere.
    Unknown,
}

/// What is known before the first search.
pub(crate) fn known_before(course: &Course<'_>, image: &Image) -> Needs
    ensures { IsBegunWith course.now.buffered image.now result }
{
    if course.buffered || image.parts().harts != 1 {
        Needs::Unsought
    } else {
        Needs::Unknown
    }
}

/// What is known behind a search that is answered: no run comes to ranks that need buffers if standard sends might wait in it;
/// else what was known from those before it.
pub(crate) fn needs_of(may_wait: bool, known: Needs) -> Needs
    ensures { result ≡ needs_of may_wait known }
{
    if may_wait { Needs::Nobody } else { known }
}

/// Whether what a search found is what is wanted: it found something, and it wasn't cut where standard sends might wait for
/// their receives.
pub(crate) fn is_wanted(found: &Option<Exploration>, may_wait: bool) -> bool
    ensures { IsTrue result → may_wait ≡ true → IfSome found.now (λ e. e.left ≡ 0) }
{
    match found {
        None => false,
        Some(exploration) => !may_wait || exploration.left == 0,
    }
}

/// Whether a search with sends that may wait was halted although all patterns were known: where ranks need buffers, or where not
/// all may be let go though nobody goes first.
pub(crate) fn is_halted(found: &Option<Exploration>, missing: &Patterns, may_wait: bool) -> bool {
    may_wait && found.is_none() && missing.is_empty()
}

/// If a search with sends that may wait was halted, the listener is told on each way of the first ranks that need buffers, by
/// these patterns of all ranks. What ranks asked beside them is left in `missing`. Nothing else depends on it.
///
/// Refusals: NoTurn where the machine has no such turn there, Clock, Memory.
pub(crate) fn tell_first_needs<L: Listener>(
    course: &Course<'_>,
    image: &Image,
    turns: &[Turn],
    patterns: &Patterns,
    halted: bool,
    states: usize,
    missing: &mut Patterns,
    listener: &mut L,
) -> Result<(), OrderFault>
    requires order { 0 < length course.now.order.now }
    requires image { IsImageFor (by_contest (search_of patterns.now.may_wait patterns.now.kept.items)) image.now }
    requires holds { L.holds listener.old image.now course.now.order.now }
    ensures fault { IfErr result (OrderFaultHolds image.now course.now.order.now turns.now) }
    ensures holds { L.holds listener.new image.now course.now.order.now }
    ensures still { L.told_need listener.old image.now course.now.order.now
        → L.told_need listener.new image.now course.now.order.now }
{
    if !halted {
        return Ok(());
    }
    let mut standing = follow(course, image, turns)?;
    let manner = Manner {
        alloc: course.alloc,
        image,
        order: course.order,
        most: course.most,
        progress: course.progress,
        way: Way::First,
        patterns,
    };
    match seek_needs(&manner, &mut standing, states, missing, listener) {
        Err(Halt::Fault(fault)) => Err(fault.into()),
        Ok(()) | Err(Halt::Outside) | Err(Halt::Needed) => Ok(()),
    }
}
