//! The search from the loaded cluster on.

ghost use Rattle.std.specs.Prelude.{◌≡◌, ◌<◌, ℕ, Bool, List, [], None, Some, IfErr, IfOk, IfSome, IsTrue, OnOk, false, is_some, length, slice_get, true};
ghost use Rattle.rv_image_types.specs.declared.images.ImageParts.{ImageParts};
ghost use Rattle.cl_order_laws.specs.Closed.{Node};
ghost use Rattle.cl_moves.specs.Standing.{IsWay, by_order, first_node};
ghost use Rattle.cl_moves.specs.declared.standing.Standing.{Standing as StandingView};
ghost use Rattle.cl_explore.specs.Covering.{AreNodes, HasRoomAt};
ghost use Rattle.cl_contests.specs.declared.patterns.AskedBy.{AskedBy};
ghost use Rattle.cl_explore.specs.How.{HasRoom, IsHaltOf, at_once, how_in, how_of, plainly, waits_in};
ghost use Rattle.cl_explore.specs.declared.course.Way.TheVariants as ways;
ghost use Rattle.cl_explore.specs.Ends.{AreTurnsTo, BeginsAt, Explored, ExploredBehind, ExploredPlainly, ExploresFrom, IsBounded, Notes, StillExplores, findings};
ghost use Rattle.cl_explore.specs.Listening.{CameByOrder, IsEndNode, IsImageFor, IsNeedNode, IsSearchOf};
ghost use Rattle.cl_explore.specs.Visiting.{NotesVisit, findings_of};
ghost use Rattle.cl_explore.specs.Needing.{AreSought, SaysNeeds};
ghost use Rattle.cl_explore.specs.Knowing.{IsSearchHalt, NotesNeed};
ghost use Rattle.cl_explore.specs.Orders.{OrderFaultHolds};
ghost use Rattle.cl_lines.specs.Telling.{TellsProgress};

use crate::bounds::{Bounds, goes_on, is_deep};
use crate::companies::{Company, note_stuck};
use crate::course::{Course, Manner, Way, may_wait, only_waits};
use crate::halt::Halt;
use crate::kept::KeptNode;
use crate::leads::Lead;
use crate::listening::{Deaf, Listener};
use crate::moving::{Visit, settle};
use crate::needs::{Needs, is_halted, is_wanted, known_before, needs_of, tell_first_needs};
use crate::orders::{OrderFault, follow, turns_in};
use crate::search::Search;
use crate::stepping::steps_to;
use cl_contests::{Patterns, add_waits, is_first_hart, may_start};
use cl_lines::{Progress, put_progress};
use cl_machine::Step;
use cl_moves::{MoveFault, Standing};
use cl_rests::RankSet;
use cl_turns::Turn;
use mp_alike::WholeHub;
use rv_image_types::Image;
use std::alloc::{AllocError, Global};
use std::io::Write;

/// How many posts are too many beside calls that are made at once: a hub holds one message more.
const MOST_POSTS: u64 = 65535;

/// How often a search begins again with more patterns: more often than there are patterns of all ranks.
const MOST_PASSES: usize = 2048;

/// Where a search came.
#[derive(Drop)]
pub struct Exploration {
    /// The nodes in the order in which they were found, breadth first.
    pub nodes: Vec<KeptNode>,
    /// The numbers of those from which nobody goes on, of the nodes whose moves were made.
    pub ends: Vec<usize>,
    /// The ranks that are stuck in those in which some are, of the nodes whose moves were made.
    pub companies: Vec<Company>,
    /// How many nodes are left whose moves weren't made. With none the nodes are closed.
    pub left: usize,
    /// The first rank that takes more turns by itself than it was let at once, if there is one.
    pub long: Option<u8>,
    /// From which node to which each move led.
    pub leads: Vec<Lead>,
    /// Whether standard sends might wait for their receives in this search: then no ranks need buffers in the nodes whose
    /// moves were made.
    pub may_wait: bool,
    /// Whether ranks only wait for named ranks, so that it doesn't matter how long messages take.
    pub only_waits: bool,
    /// Of each node whose moves were made, by its number: the ranks that rest there, if standard sends might wait for their
    /// receives. Otherwise they weren't looked for.
    pub resting: Vec<RankSet>,
    /// What is known of ranks that need buffers.
    pub needs: Needs,
}

/// Where a search begins, in a cluster of this image, and where it comes to an end.
#[derive(Drop)]
struct Start<'a> {
    image: &'a Image,
    standing: Standing,
    bounds: Bounds,
}

/// What is noted of the nodes whose moves were made.
#[derive(Drop)]
struct Noted {
    ends: Vec<usize>,
    companies: Vec<Company>,
    long: Option<u8>,
    /// Of how many nodes a move led to a new node by more turns of a rank's own than it was let take at once.
    deep: usize,
    /// Of each of them, the ranks that rest there, where standard sends may wait for their receives.
    resting: Vec<RankSet>,
}

/// What a search that came to an end tells of its nodes.
#[derive(Drop)]
struct Told {
    noted: Noted,
    left: usize,
}

/// A standing is the first node of a search, once each rank took its turns that are taken at once. Answers the first rank
/// that would take more by itself, if there is one.
pub(crate) fn begin(
    course: &Manner<'_>,
    search: &mut Search,
    standing: &mut Standing,
) -> Result<Option<u8>, Halt>
    requires order { 0 < length course.now.order.now }
    requires none { search.old.nodes.items ≡ [] }
    requires still { search.old.leads.items ≡ [] }
    ensures begins { OnOk result (BeginsAt (how_in course.now) course.now.order.now standing.old search.new) }
    ensures halt { IfErr result (IsHaltOf course.now.way) }
{
    let long = settle(course, standing, &mut search.missing)?;
    let _first = search.arrive(course, standing, 0, 0)?;
    Ok(long)
}

/// The moves of all nodes from a standing on, within bounds.
#[tactic(auto, using(cl_lines::proofs::Behind::nothing_told, crate::proofs::Needing::halt_of))]
fn search_nodes<L: Listener, E: Write>(
    course: &Manner<'_>,
    search: &mut Search,
    standing: &mut Standing,
    bounds: Bounds,
    listener: &mut L,
    err: &mut E,
) -> Result<Option<Told>, Halt>
    requires order { 0 < length course.now.order.now }
    requires none { search.old.nodes.items ≡ [] }
    requires still { search.old.leads.items ≡ [] }
    requires room { HasRoom (how_in course.now) standing.old.whole }
    requires came { CameByOrder course.now.image.now course.now.order.now standing.old }
    requires image { IsImageFor (how_in course.now) course.now.image.now }
    requires holds { L.holds listener.old course.now.image.now course.now.order.now }
    ensures ends { IfOk result (λ o. IfSome o (λ told.
        ExploresFrom (how_in course.now) course.now.order.now standing.old (findings_of (how_in course.now) search.new told))) }
    ensures most { IfOk result (λ o. IfSome o (λ told.
        IsBounded bounds.states bounds.enough course.now.most search.new.nodes.items told.left)) }
    ensures plain { course.now.way ≡ ways.Plainly → IfOk result (λ o. is_some o ≡ true) }
    ensures halt { IfErr result (IsSearchHalt course.now.way (how_in course.now)
        (L.told_need listener.new course.now.image.now course.now.order.now)) }
    ensures progress { TellsProgress course.now.progress (E.contents err.old) (E.contents err.new) }
    ensures holds { L.holds listener.new course.now.image.now course.now.order.now }
    ensures still { L.told_need listener.old course.now.image.now course.now.order.now
        → L.told_need listener.new course.now.image.now course.now.order.now }
{
    let long = begin(course, search, standing)?;
    match visit_each(course, search, long, bounds, listener, err)? {
        None => Ok(None),
        Some(told) => Ok(Some(follow_if_cut(course, search, told, bounds, listener)?)),
    }
}

/// Tells the listener of the node of this number if it is an end.
fn tell_end<L: Listener>(
    course: &Manner<'_>,
    nodes: &[KeptNode],
    end: bool,
    node: usize,
    listener: &mut L,
) -> Result<(), AllocError>
    requires end { IsTrue end → IsEndNode course.now.image.now course.now.order.now nodes.now node }
    requires holds { L.holds listener.old course.now.image.now course.now.order.now }
    ensures holds { L.holds listener.new course.now.image.now course.now.order.now }
    ensures still { L.told_need listener.old course.now.image.now course.now.order.now
        → L.told_need listener.new course.now.image.now course.now.order.now }
{
    if end {
        listener.end(course.alloc, course.image, course.order, nodes, node)?;
    }
    Ok(())
}

/// Tells the listener of the ranks that need buffers at the node of this number, if there are any: then the search isn't gone
/// on with.
fn tell_need<L: Listener>(
    course: &Manner<'_>,
    nodes: &[KeptNode],
    visit: &Visit,
    node: usize,
    listener: &mut L,
) -> Result<(), Halt>
    requires need { IfSome visit.now.need (λ ranks.
        IsNeedNode course.now.image.now course.now.order.now nodes.now node ranks.items) }
    requires way { is_some visit.now.need ≡ true → course.now.way ≡ ways.First }
    requires waits { is_some visit.now.need ≡ true → waits_in (how_in course.now) ≡ true }
    requires holds { L.holds listener.old course.now.image.now course.now.order.now }
    ensures none { IfOk result (λ _. is_some visit.now.need ≡ false) }
    ensures halt { IfErr result (IsSearchHalt course.now.way (how_in course.now)
        (L.told_need listener.new course.now.image.now course.now.order.now)) }
    ensures holds { L.holds listener.new course.now.image.now course.now.order.now }
    ensures still { L.told_need listener.old course.now.image.now course.now.order.now
        → L.told_need listener.new course.now.image.now course.now.order.now }
{
    match &visit.need {
        None => Ok(()),
        Some(ranks) => {
            let them = ranks.as_slice();
            listener.need(course.alloc, course.image, course.order, nodes, node, them)?;
            Err(Halt::Needed)
        }
    }
}

/// Where a search was cut before it found an end, one schedule is followed from the first node that is left. Its end is told,
/// and is one more node that is left.
fn follow_if_cut<L: Listener>(
    course: &Manner<'_>,
    search: &mut Search,
    mut told: Told,
    bounds: Bounds,
    listener: &mut L,
) -> Result<Told, MoveFault>
    requires order { 0 < length course.now.order.now }
    requires of { IsSearchOf (how_in course.now) course.now.image.now course.now.order.now search.old }
    requires holds { L.holds listener.old course.now.image.now course.now.order.now }
    ensures ends { IfOk result (λ after. StillExplores (how_in course.now) course.now.order.now
        (findings_of (how_in course.now) search.old told) (findings_of (how_in course.now) search.new after)) }
    ensures most { IfOk result (λ after. IsBounded bounds.states bounds.enough course.now.most search.old.nodes.items told.left
        → IsBounded bounds.states bounds.enough course.now.most search.new.nodes.items after.left) }
    ensures holds { L.holds listener.new course.now.image.now course.now.order.now }
    ensures still { L.told_need listener.old course.now.image.now course.now.order.now
        → L.told_need listener.new course.now.image.now course.now.order.now }
{
    if bounds.enough.is_some() || told.left == 0 || !told.noted.ends.is_empty() {
        return Ok(told);
    }
    let Some(from) = search.nodes.len().checked_sub(told.left) else {
        return Ok(told);
    };
    let Some(end) = search.dive(course, from)? else {
        return Ok(told);
    };
    tell_end(course, search.nodes.as_slice(), true, end, listener)?;
    told.noted.ends.push(end)?;
    told.left = search.nodes.len().saturating_sub(from);
    Ok(told)
}

/// Notes a node if it is an end.
fn note(ends: &mut Vec<usize>, end: bool, node: usize) -> Result<(), AllocError>
    ensures { OnOk result (Notes ends.old.items end node ends.new.items) }
{
    if end {
        ends.push(node)?;
    }
    Ok(())
}

/// Whether calls for what is there may be made at once beside as many posts, if they are to be.
fn has_room(way: Way, whole: &WholeHub) -> bool
    ensures room { IsTrue result → (may_wait : Bool) (kept : List AskedBy) → HasRoom (how_of way may_wait kept) whole.now }
    ensures plain { way ≡ ways.Plainly → result ≡ true }
{
    match way {
        Way::Plainly | Way::First => true,
        Way::AtOnce => whole.board().next_number() <= MOST_POSTS,
    }
}

/// The same of the node of this number.
fn has_room_at(way: Way, nodes: &[KeptNode], node: usize) -> bool
    ensures room { IsTrue result → (may_wait : Bool) (kept : List AskedBy)
        → HasRoomAt (how_of way may_wait kept) nodes.now node }
    ensures plain { way ≡ ways.Plainly → result ≡ true }
{
    match nodes.get(node) {
        None => true,
        Some(kept) => has_room(way, &kept.whole),
    }
}

/// Notes what is known of the node of this number.
fn note_visit(noted: &mut Noted, visit: Visit, node: usize) -> Result<(), AllocError>
    ensures { OnOk result (NotesVisit noted.old visit node noted.new) }
{
    note(&mut noted.ends, visit.end, node)?;
    if visit.long.is_some() {
        noted.deep = noted.deep.saturating_add(1);
    }
    if noted.long.is_none() {
        noted.long = visit.long;
    }
    noted.resting.push(visit.resting)?;
    note_stuck(&mut noted.companies, visit.stuck, node)
}

/// Writes how far a search came that made the moves of so many nodes, where that is wanted.
#[tactic(auto, using(cl_lines::proofs::Behind::nothing_told))]
fn tell_progress<E: Write>(
    course: &Manner<'_>,
    search: &Search,
    noted: &Noted,
    pass: u64,
    done: usize,
    err: &mut E,
)
    ensures { TellsProgress course.now.progress (E.contents err.old) (E.contents err.new) }
{
    if course.progress {
        let progress = Progress {
            pass,
            states: done,
            ends: noted.ends.len(),
            left: search.nodes.len().saturating_sub(done),
        };
        put_progress(course.alloc, err, &progress);
    }
}

/// The moves of one node after another are made, within bounds. None where calls for what is there are made at once, and a
/// hub came to have too many posts for that. Where standard sends may wait for their receives, the search is halted at the first
/// node at which ranks need buffers: one is enough to know that the program isn't safe without them.
#[tactic(auto, using(cl_lines::proofs::Behind::nothing_told, crate::proofs::Needing::halt_of))]
fn visit_each<L: Listener, E: Write>(
    course: &Manner<'_>,
    search: &mut Search,
    long: Option<u8>,
    bounds: Bounds,
    listener: &mut L,
    err: &mut E,
) -> Result<Option<Told>, Halt>
    requires order { 0 < length course.now.order.now }
    requires of { IsSearchOf (how_in course.now) course.now.image.now course.now.order.now search.old }
    requires image { IsImageFor (how_in course.now) course.now.image.now }
    requires holds { L.holds listener.old course.now.image.now course.now.order.now }
    ensures ends { IfOk result (λ o. IfSome o (λ told. (standing : StandingView) → HasRoom (how_in course.now) standing.whole
        → BeginsAt (how_in course.now) course.now.order.now standing search.old
        → ExploresFrom (how_in course.now) course.now.order.now standing (findings_of (how_in course.now) search.new told))) }
    ensures most { IfOk result (λ o. IfSome o (λ told.
        IsBounded bounds.states bounds.enough course.now.most search.new.nodes.items told.left)) }
    ensures plain { course.now.way ≡ ways.Plainly → IfOk result (λ o. is_some o ≡ true) }
    ensures halt { IfErr result (IsSearchHalt course.now.way (how_in course.now)
        (L.told_need listener.new course.now.image.now course.now.order.now)) }
    ensures of { IfOk result (λ o. IfSome o (λ told.
        IsSearchOf (how_in course.now) course.now.image.now course.now.order.now search.new)) }
    ensures progress { TellsProgress course.now.progress (E.contents err.old) (E.contents err.new) }
    ensures holds { L.holds listener.new course.now.image.now course.now.order.now }
    ensures still { L.told_need listener.old course.now.image.now course.now.order.now
        → L.told_need listener.new course.now.image.now course.now.order.now }
{
    let mut noted = Noted {
        ends: Vec::new(course.alloc),
        companies: Vec::new(course.alloc),
        long,
        deep: 0,
        resting: Vec::new(course.alloc),
    };
    let mut done = 0;
    'rest: while done < bounds.states
        && goes_on(bounds.enough, done, search.nodes.len())
        && !is_deep(noted.deep, search.nodes.as_slice(), course.most)
    {
        if !has_room_at(course.way, search.nodes.as_slice(), done) {
            return Ok(None);
        }
        let visit = search.visit(course, done)?;
        tell_end(course, search.nodes.as_slice(), visit.end, done, listener)?;
        tell_need(course, search.nodes.as_slice(), &visit, done, listener)?;
        note_visit(&mut noted, visit, done)?;
        done += 1;
        tell_progress(course, search, &noted, bounds.pass, done, err);
    }
    let left = search.nodes.len().saturating_sub(done);
    Ok(Some(Told { noted, left }))
}

/// All clusters to which any order of turns leads from a standing, but for those that are alike one of them, and which of
/// them are ends: breadth first, ranks in order. None where calls for what is there are made at once, and a hub came to
/// have too many posts for that. The standing may be anything then. What ranks asked beside the patterns is left in
/// `missing` where the search was halted for that.
#[tactic(auto, using(cl_lines::proofs::Behind::nothing_told))]
fn search_on<L: Listener, E: Write>(
    course: &Manner<'_>,
    standing: &mut Standing,
    bounds: Bounds,
    missing: &mut Patterns,
    listener: &mut L,
    err: &mut E,
) -> Result<Option<Exploration>, Halt>
    requires order { 0 < length course.now.order.now }
    requires came { CameByOrder course.now.image.now course.now.order.now standing.old }
    requires image { IsImageFor (how_in course.now) course.now.image.now }
    requires holds { L.holds listener.old course.now.image.now course.now.order.now }
    ensures ends { IfOk result (λ o. IfSome o (λ found.
        ExploresFrom (how_in course.now) course.now.order.now standing.old (findings found))) }
    ensures most { IfOk result (λ o. IfSome o (λ found.
        IsBounded bounds.states bounds.enough course.now.most found.nodes.items found.left)) }
    ensures waits { IfOk result (λ o. IfSome o (λ found. found.may_wait ≡ waits_in (how_in course.now))) }
    ensures plain { course.now.way ≡ ways.Plainly → IfOk result (λ o. is_some o ≡ true) }
    ensures halt { IfErr result (IsSearchHalt course.now.way (how_in course.now)
        (L.told_need listener.new course.now.image.now course.now.order.now)) }
    ensures progress { TellsProgress course.now.progress (E.contents err.old) (E.contents err.new) }
    ensures holds { L.holds listener.new course.now.image.now course.now.order.now }
    ensures still { L.told_need listener.old course.now.image.now course.now.order.now
        → L.told_need listener.new course.now.image.now course.now.order.now }
{
    if !has_room(course.way, &standing.whole) {
        return Ok(None);
    }
    let mut search = Search::new(course.alloc)?;
    let told = search_nodes(course, &mut search, standing, bounds, listener, err);
    let told = match told {
        Ok(Some(told)) => told,
        Ok(None) => return Ok(None),
        Err(halt) => {
            *missing = search.missing;
            return Err(halt);
        }
    };
    Ok(Some(Exploration {
        nodes: search.nodes,
        ends: told.noted.ends,
        companies: told.noted.companies,
        left: told.left,
        long: told.noted.long,
        leads: search.leads,
        may_wait: may_wait(course),
        only_waits: only_waits(course),
        resting: told.noted.resting,
        needs: Needs::Unsought,
    }))
}

/// The same in this way, by these patterns of all ranks. None too where a rank asked beside the patterns, which is left in
/// `missing`, where not all ranks may be let go at a cluster in which nobody goes first, or where ranks need buffers, of which
/// the listener was told: then that is known.
fn search<L: Listener, E: Write>(
    course: &Course<'_>,
    start: Start<'_>,
    way: Way,
    patterns: &Patterns,
    missing: &mut Patterns,
    known: &mut Needs,
    listener: &mut L,
    err: &mut E,
) -> Result<Option<Exploration>, MoveFault>
    requires order { 0 < length course.now.order.now }
    requires came { CameByOrder start.image.now course.now.order.now start.standing }
    requires image { IsImageFor (how_of way patterns.now.may_wait patterns.now.kept.items) start.image.now }
    requires holds { L.holds listener.old start.image.now course.now.order.now }
    ensures ends { IfOk result (λ o. IfSome o (λ found.
        ExploresFrom (how_of way patterns.now.may_wait patterns.now.kept.items) course.now.order.now start.entry.standing
        (findings found))) }
    ensures most { IfOk result (λ o. IfSome o (λ found.
        IsBounded start.entry.bounds.states start.entry.bounds.enough course.now.most found.nodes.items found.left)) }
    ensures waits { IfOk result (λ o. IfSome o (λ found.
        found.may_wait ≡ waits_in (how_of way patterns.now.may_wait patterns.now.kept.items))) }
    ensures plain { way ≡ ways.Plainly → IfOk result (λ o. is_some o ≡ true) }
    ensures progress { TellsProgress course.now.progress (E.contents err.old) (E.contents err.new) }
    ensures holds { L.holds listener.new start.entry.image.now course.now.order.now }
    ensures still { L.told_need listener.old start.entry.image.now course.now.order.now
        → L.told_need listener.new start.entry.image.now course.now.order.now }
    ensures known { NotesNeed ((waits_in (how_of way patterns.now.may_wait patterns.now.kept.items) ≡ true)
        × L.told_need listener.new start.entry.image.now course.now.order.now) known.old known.new }
{
    let Start {
        image,
        mut standing,
        bounds,
    } = start;
    let manner = Manner {
        alloc: course.alloc,
        image,
        order: course.order,
        most: course.most,
        progress: course.progress,
        way,
        patterns,
    };
    match search_on(&manner, &mut standing, bounds, missing, listener, err) {
        Ok(found) => Ok(found),
        Err(Halt::Fault(fault)) => Err(fault),
        Err(Halt::Outside) => Ok(None),
        Err(Halt::Needed) => {
            *known = Needs::Somebody;
            Ok(None)
        }
    }
}

/// The same with calls for what is there made at once.
fn search_at_once<L: Listener, E: Write>(
    course: &Course<'_>,
    start: Start<'_>,
    listener: &mut L,
    err: &mut E,
) -> Result<Option<Exploration>, MoveFault>
    requires order { 0 < length course.now.order.now }
    requires came { CameByOrder start.image.now course.now.order.now start.standing }
    requires holds { L.holds listener.old start.image.now course.now.order.now }
    ensures ends { IfOk result (λ o. IfSome o (λ found.
        ExploresFrom at_once course.now.order.now start.entry.standing (findings found))) }
    ensures most { IfOk result (λ o. IfSome o (λ found.
        IsBounded start.entry.bounds.states start.entry.bounds.enough course.now.most found.nodes.items found.left)) }
    ensures waits { IfOk result (λ o. IfSome o (λ found. found.may_wait ≡ false)) }
    ensures progress { TellsProgress course.now.progress (E.contents err.old) (E.contents err.new) }
    ensures holds { L.holds listener.new start.entry.image.now course.now.order.now }
    ensures still { L.told_need listener.old start.entry.image.now course.now.order.now
        → L.told_need listener.new start.entry.image.now course.now.order.now }
{
    let none = Patterns::new(course.alloc);
    let mut missing = Patterns::new(course.alloc);
    let mut known = Needs::Unsought;
    search(
        course,
        start,
        Way::AtOnce,
        &none,
        &mut missing,
        &mut known,
        listener,
        err,
    )
}

/// The same without them.
fn search_plainly<L: Listener, E: Write>(
    course: &Course<'_>,
    start: Start<'_>,
    listener: &mut L,
    err: &mut E,
) -> Result<Exploration, MoveFault>
    requires order { 0 < length course.now.order.now }
    requires came { CameByOrder start.image.now course.now.order.now start.standing }
    requires holds { L.holds listener.old start.image.now course.now.order.now }
    ensures ends { IfOk result (λ found. ExploresFrom plainly course.now.order.now start.entry.standing (findings found)) }
    ensures most { IfOk result (λ found.
        IsBounded start.entry.bounds.states start.entry.bounds.enough course.now.most found.nodes.items found.left) }
    ensures waits { IfOk result (λ found. found.may_wait ≡ false) }
    ensures progress { TellsProgress course.now.progress (E.contents err.old) (E.contents err.new) }
    ensures holds { L.holds listener.new start.entry.image.now course.now.order.now }
    ensures still { L.told_need listener.old start.entry.image.now course.now.order.now
        → L.told_need listener.new start.entry.image.now course.now.order.now }
{
    let none = Patterns::new(course.alloc);
    let mut missing = Patterns::new(course.alloc);
    let mut known = Needs::Unsought;
    match search(
        course,
        start,
        Way::Plainly,
        &none,
        &mut missing,
        &mut known,
        listener,
        err,
    )? {
        Some(found) => Ok(found),
        None => unreachable!(),
    }
}

/// The same from where turns lead, by the patterns that all ranks turn out to have: while one asks beside those that are
/// known, the search begins again with these. First standard sends may wait for their receives, unless the course says that they
/// buffer: if such a search comes to its end, no ranks need buffers. Otherwise it begins again with sends that buffer. None where
/// ranks have several harts, where some ask what has no pattern, or where not all may be let go though nobody goes first. `pass`
/// is the next pass of the search. In `known` it is noted if the listener was told of ranks that need buffers.
///
/// Refusals: NoTurn where the machine has no such turn there, Clock, Memory.
#[tactic(auto, using(cl_lines::proofs::Behind::nothing_told))]
fn search_by_patterns<L: Listener, E: Write>(
    course: &Course<'_>,
    image: &Image,
    turns: &[Turn],
    states: usize,
    pass: &mut u64,
    known: &mut Needs,
    listener: &mut L,
    err: &mut E,
) -> Result<Option<Exploration>, OrderFault>
    requires order { 0 < length course.now.order.now }
    requires holds { L.holds listener.old image.now course.now.order.now }
    ensures ends { IfOk result (λ o. IfSome o (λ found.
        ExploredBehind image.now course.now.order.now turns.now (findings found))) }
    ensures most { IfOk result (λ o. IfSome o (λ found.
        IsBounded states None course.now.most found.nodes.items found.left)) }
    ensures buffers { IfOk result (λ o. IfSome o (λ found. course.now.buffered ≡ true → found.may_wait ≡ false)) }
    ensures whole { IfOk result (λ o. IfSome o (λ found.
        found.may_wait ≡ true → AreSought course.now.buffered image.now × (found.left ≡ 0))) }
    ensures known { IfOk result (λ _. NotesNeed (AreSought course.now.buffered image.now
        × L.told_need listener.new image.now course.now.order.now) known.old known.new) }
    ensures fault { IfErr result (OrderFaultHolds image.now course.now.order.now turns.now) }
    ensures progress { TellsProgress course.now.progress (E.contents err.old) (E.contents err.new) }
    ensures holds { L.holds listener.new image.now course.now.order.now }
{
    if image.parts().harts != 1 || !is_first_hart(course.order) {
        return Ok(None);
    }
    let mut patterns = Patterns::with_waiting(course.alloc, !course.buffered);
    for _try in 0..MOST_PASSES {
        let mut missing = Patterns::new(course.alloc);
        let standing = follow(course, image, turns)?;
        add_waits(&mut patterns, &standing.whole)?;
        if !may_start(&standing) {
            return Ok(None);
        }
        let bounds = Bounds {
            states,
            enough: None,
            pass: *pass,
        };
        let start = Start {
            image,
            standing,
            bounds,
        };
        let found = search(
            course,
            start,
            Way::First,
            &patterns,
            &mut missing,
            known,
            listener,
            err,
        )?;
        if is_wanted(&found, patterns.may_wait) {
            return Ok(found);
        }
        *pass = pass.saturating_add(1);
        let halted = is_halted(&found, &missing, patterns.may_wait);
        tell_first_needs(
            course,
            image,
            turns,
            &patterns,
            halted,
            states,
            &mut missing,
            listener,
        )?;
        if missing.is_empty() {
            if !patterns.may_wait {
                return Ok(None);
            }
            // ranks need buffers, or such a search can't come to its end: it may where sends buffer
            patterns.may_wait = false;
        }
        patterns.add_all(&missing)?;
    }
    Ok(None)
}

/// All clusters to which any order of turns leads, but for those that are alike one of them, and which of them are ends:
/// breadth first, ranks in order. Where none is left, each run that follows the order of harts and ends where nobody goes
/// on ends in a cluster that is alike an end that is told, and no run by that order comes to a cluster in which other ranks are
/// stuck than in one of the nodes. Some are left only where the moves of as many as were allowed have been made, or where a
/// rank took more turns by itself than it was let at once. Where that is wanted, lines on `err` say how far it came.
///
/// Unless the course says that standard sends buffer, or ranks have several harts, a first search lets standard sends wait for
/// their receives. If it comes to its end it is what is answered, and no run comes to a cluster in which ranks need buffers. If it
/// comes to such ranks, the listener is told of them. If neither, nothing is known of them. In the last two cases what is
/// answered is a search with sends that buffer.
///
/// The listener is told of each end as soon as it is found, and on each way of the first node at which ranks need buffers, also of
/// those that are found before the search begins again, whose nodes aren't in what is answered.
///
/// Refusals: Clock, Memory.
pub fn explore<L: Listener, E: Write>(
    course: &Course<'_>,
    image: &Image,
    states: usize,
    listener: &mut L,
    err: &mut E,
) -> Result<Exploration, MoveFault>
    requires order { 0 < length course.now.order.now }
    requires holds { L.holds listener.old image.now course.now.order.now }
    ensures ends { IfOk result (λ found. Explored image.now course.now.order.now (findings found)) }
    ensures most { IfOk result (λ found. IsBounded states None course.now.most found.nodes.items found.left) }
    ensures buffers { IfOk result (λ found. course.now.buffered ≡ true → found.may_wait ≡ false) }
    ensures needs { IfOk result (λ found. SaysNeeds course.now.buffered image.now (findings found)
        (L.told_need listener.new image.now course.now.order.now) found.needs) }
    ensures progress { TellsProgress course.now.progress (E.contents err.old) (E.contents err.new) }
    ensures holds { L.holds listener.new image.now course.now.order.now }
{
    match explore_from(course, image, &[], states, listener, err) {
        Ok(found) => Ok(found),
        Err(OrderFault::Move(fault)) => Err(fault),
        Err(OrderFault::NoTurn(_)) => unreachable!(),
    }
}

/// The same as `explore`, from where the turns of an order lead: of the runs that begin with those turns.
///
/// Refusals: NoTurn where the machine has no such turn there, Clock, Memory.
#[tactic(auto, using(cl_lines::proofs::Behind::nothing_told))]
pub fn explore_from<L: Listener, E: Write>(
    course: &Course<'_>,
    image: &Image,
    turns: &[Turn],
    states: usize,
    listener: &mut L,
    err: &mut E,
) -> Result<Exploration, OrderFault>
    requires order { 0 < length course.now.order.now }
    requires holds { L.holds listener.old image.now course.now.order.now }
    ensures ends { IfOk result (λ found. ExploredBehind image.now course.now.order.now turns.now (findings found)) }
    ensures most { IfOk result (λ found. IsBounded states None course.now.most found.nodes.items found.left) }
    ensures buffers { IfOk result (λ found. course.now.buffered ≡ true → found.may_wait ≡ false) }
    ensures needs { IfOk result (λ found. SaysNeeds course.now.buffered image.now (findings found)
        (L.told_need listener.new image.now course.now.order.now) found.needs) }
    ensures fault { IfErr result (OrderFaultHolds image.now course.now.order.now turns.now) }
    ensures progress { TellsProgress course.now.progress (E.contents err.old) (E.contents err.new) }
    ensures holds { L.holds listener.new image.now course.now.order.now }
{
    let mut known = known_before(course, image);
    let mut pass = 1;
    if let Some(mut found) = search_by_patterns(
        course, image, turns, states, &mut pass, &mut known, listener, err,
    )? {
        found.needs = needs_of(found.may_wait, known);
        return Ok(found);
    }
    let bounds = Bounds {
        states,
        enough: None,
        pass,
    };
    let standing = follow(course, image, turns)?;
    let start = Start {
        image,
        standing,
        bounds,
    };
    if let Some(mut found) = search_at_once(course, start, listener, err)? {
        found.needs = known;
        return Ok(found);
    }
    let again = follow(course, image, turns)?;
    let start = Start {
        image,
        standing: again,
        bounds: bounds.next(),
    };
    let mut found = search_plainly(course, start, listener, err)?;
    found.needs = known;
    Ok(found)
}

/// The same until so many nodes are left or more, from each of which one may go on by itself, and without calls that are
/// made at once. Fewer are left only where the moves of as many as were allowed have been made, none is left, or a rank took
/// more turns by itself than it was let at once.
///
/// Refusals: Clock, Memory.
#[tactic(auto, using(cl_lines::proofs::Behind::nothing_told))]
pub fn split<E: Write>(
    course: &Course<'_>,
    image: &Image,
    states: usize,
    least: usize,
    err: &mut E,
) -> Result<Exploration, MoveFault>
    requires { 0 < length course.now.order.now }
    ensures ends { IfOk result (λ found. ExploredPlainly image.now course.now.order.now (findings found)) }
    ensures most { IfOk result (λ found.
        IsBounded states (Some least) course.now.most found.nodes.items found.left) }
    ensures progress { TellsProgress course.now.progress (E.contents err.old) (E.contents err.new) }
{
    let standing = Standing::load(course.alloc, image)?;
    let bounds = Bounds {
        states,
        enough: Some(least),
        pass: 1,
    };
    let start = Start {
        image,
        standing,
        bounds,
    };
    search_plainly(course, start, &mut Deaf, err)
}

impl Exploration {
    /// The turns that lead from the loaded cluster to the node of this number: a record of a run that comes there. None
    /// where there is no such node. The only error is want of memory.
    pub fn steps_to(&self, alloc: Global, node: usize) -> Result<Vec<Step>, AllocError>
        ensures { (image : ImageParts) (order : List ℕ) (nodes : List Node) (here : Node)
            → AreNodes image order self.now.nodes.items nodes → slice_get nodes node ≡ Some here
            → IfOk result (λ steps. IsWay (by_order order) (first_node image) steps.items here) }
    {
        steps_to(alloc, self.nodes.as_slice(), node)
    }

    /// The same as an order: whose turn each is, and whether it looks at a box and doesn't see what may be in it. The only
    /// error is want of memory.
    pub fn turns_to(&self, alloc: Global, node: usize) -> Result<Vec<Turn>, AllocError>
        ensures { IfOk result (λ turns. AreTurnsTo self.now.nodes.items node turns.items) }
    {
        let steps = self.steps_to(alloc, node)?;
        turns_in(alloc, steps.as_slice())
    }
}
