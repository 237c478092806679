//! Ranks that need buffers, told on each way where they first do.

ghost use Rattle.std.specs.Prelude.{◌≡◌, ◌<◌, [], IfErr, OnOk, length};
ghost use Rattle.cl_explore.specs.How.{IsHaltOf, how_in};
ghost use Rattle.cl_explore.specs.Listening.{CameByOrder, IsImageFor, IsSearchOf};

use crate::course::Manner;
use crate::exploring::begin;
use crate::halt::Halt;
use crate::listening::Listener;
use crate::moving::needing_in;
use crate::search::Search;
use cl_contests::Patterns;
use cl_moves::Standing;

/// The listener is told of the ranks that need buffers at the node of this number, or else all its moves are made.
fn seek_at<L: Listener>(
    course: &Manner<'_>,
    search: &mut Search,
    node: usize,
    listener: &mut L,
) -> Result<(), Halt>
    requires order { 0 < length course.now.order.now }
    requires inside { node < length search.old.nodes.items }
    requires of { IsSearchOf (how_in course.now) course.now.image.now course.now.order.now search.old }
    requires image { IsImageFor (how_in course.now) course.now.image.now }
    requires holds { L.holds listener.old course.now.image.now course.now.order.now }
    ensures of { OnOk result (IsSearchOf (how_in course.now) course.now.image.now course.now.order.now search.new) }
    ensures halt { IfErr result (IsHaltOf course.now.way) }
    ensures holds { L.holds listener.new course.now.image.now course.now.order.now }
    ensures still { L.told_need listener.old course.now.image.now course.now.order.now
        → L.told_need listener.new course.now.image.now course.now.order.now }
{
    let live = search.nodes[node].live(course.alloc)?;
    match needing_in(course, &live)? {
        None => {
            let _visit = search.visit(course, node)?;
            Ok(())
        }
        Some(ranks) => {
            let nodes = search.nodes.as_slice();
            let them = ranks.as_slice();
            listener.need(course.alloc, course.image, course.order, nodes, node, them)?;
            Ok(())
        }
    }
}

/// The same of one node after another from a standing on, at most of so many.
fn seek_each<L: Listener>(
    course: &Manner<'_>,
    search: &mut Search,
    standing: &mut Standing,
    states: usize,
    listener: &mut L,
) -> Result<(), Halt>
    requires order { 0 < length course.now.order.now }
    requires none { search.old.nodes.items ≡ [] }
    requires still { search.old.leads.items ≡ [] }
    requires came { CameByOrder course.now.image.now course.now.order.now standing.old }
    requires image { IsImageFor (how_in course.now) course.now.image.now }
    requires holds { L.holds listener.old course.now.image.now course.now.order.now }
    ensures halt { IfErr result (IsHaltOf course.now.way) }
    ensures holds { L.holds listener.new course.now.image.now course.now.order.now }
    ensures still { L.told_need listener.old course.now.image.now course.now.order.now
        → L.told_need listener.new course.now.image.now course.now.order.now }
{
    begin(course, search, standing)?;
    let mut done = 0;
    'rest: while done < states && done < search.nodes.len() {
        seek_at(course, search, done, listener)?;
        done += 1;
    }
    Ok(())
}

/// The listener is told of the ranks that need buffers at nodes to which turns lead from a standing, breadth first: on each way
/// of the first such node alone, since no moves of it are made. At most so many nodes are looked at. The standing may be
/// anything then. What ranks asked beside the patterns is left in `missing`.
pub(crate) fn seek_needs<L: Listener>(
    course: &Manner<'_>,
    standing: &mut Standing,
    states: usize,
    missing: &mut Patterns,
    listener: &mut L,
) -> Result<(), Halt>
    requires order { 0 < length course.now.order.now }
    requires came { CameByOrder course.now.image.now course.now.order.now standing.old }
    requires image { IsImageFor (how_in course.now) course.now.image.now }
    requires holds { L.holds listener.old course.now.image.now course.now.order.now }
    ensures halt { IfErr result (IsHaltOf course.now.way) }
    ensures holds { L.holds listener.new course.now.image.now course.now.order.now }
    ensures still { L.told_need listener.old course.now.image.now course.now.order.now
        → L.told_need listener.new course.now.image.now course.now.order.now }
{
    let mut search = Search::new(course.alloc)?;
    let sought = seek_each(course, &mut search, standing, states, listener);
    *missing = search.missing;
    sought
}
