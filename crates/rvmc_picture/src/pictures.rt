//! The drawing of a record.

ghost use Rattle.std.specs.Prelude.{◌≡◌, ◌≤◌, ◌++◌, [], IfErr, IfOk, OnOk, length};
ghost use Rattle.cl_machine.specs.Cluster.{loaded_cluster};
ghost use Rattle.cl_replay.specs.InnerReplaying.{ReplayFaultHolds};
ghost use Rattle.cl_replay.specs.States.{ClusterStandsFor};
ghost use Rattle.cl_replay.specs.declared.replaying.ReplayFault.TheVariants as replay;
ghost use Rattle.rvmc_picture.specs.Pictures.{AreArrows, DrawFaultHolds, IsDrawing};
ghost use Rattle.rvmc_picture.specs.declared.pictures.DrawFault.TheVariants as faults;
ghost use Rattle.rvmc_picture.specs.Pictures.{arrow_untaken as arrow_untaken_of, arrows_with, one_untaken, receiver_of, scope_in};
ghost use Rattle.rvmc_picture.specs.Pictures.{view_of as view_in};
ghost use Rattle.rvmc_picture.specs.Walking.{IsDrawn, shown_arrows};
ghost use Rattle.rvmc_picture.specs.Walking.{IsWalkedTo};
ghost use Rattle.rvmc_draw.specs.Held.{IsWalked};

use crate::ends::{End, end_of};
use crate::walking::put_steps;
use cl_machine::Step;
use cl_replay::{ClusterState, ReplayFault};
use rv_image_types::{Image, Link};
use rvmc_draw::{
    Arrow, Board, Carried, Drawing, MARKS_MAX, Sizes, Untaken, View, Walk, arrows_seen, bars_seen,
};
use std::alloc::{AllocError, Global};

/// Why a record isn't drawn.
#[derive(Clone, Copy, Drop)]
pub enum DrawFault {
    /// 1: the steps aren't replayed, all of them and up to the places that are drawn.
    Replay(ReplayFault),
    /// 2: more than 5,000 steps have a mark. Carries how many have.
    TooMany(u64),
}

impl From<AllocError> for DrawFault {
    ghost from_gives = { λ _ e. e ≡ faults.Replay replay.Memory };

    fn from(_e: AllocError) -> DrawFault {
        DrawFault::Replay(ReplayFault::Memory)
    }
}

impl From<ReplayFault> for DrawFault {
    ghost from_gives = { λ fault e. e ≡ faults.Replay fault };

    fn from(fault: ReplayFault) -> DrawFault {
        DrawFault::Replay(fault)
    }
}

/// The steps that are shown: to the end where no other place is given.
fn view_of(from: u64, to: Option<u64>, steps: &[Step]) -> View
    ensures { result ≡ view_in from to steps.now }
{
    View {
        from,
        to: to.unwrap_or(steps.len() as u64),
    }
}

/// The sizes of an image's cluster.
fn sizes_of(image: &Image) -> Sizes
    ensures ranks { result.ranks ≡ image.now.ranks }
    ensures harts { result.harts ≡ image.now.harts }
    ensures links { result.links ≡ length image.now.links }
{
    let parts = image.parts();
    Sizes {
        ranks: parts.ranks,
        harts: parts.harts,
        links: parts.links.as_slice().len() as u8,
    }
}

/// Before the first step.
fn first_walk(alloc: Global, image: &Image, view: View) -> Result<Walk, AllocError>
    ensures walked { IfOk result (IsWalked (scope_in image.now view) []) }
{
    let sizes = sizes_of(image);
    let walk = Walk::new(alloc, sizes, view)?;
    Ok(walk)
}

/// Walks through all steps, from the loaded cluster on, and tells of where the picture ends.
#[tactic(auto, using(crate::proofs::Told::put_none))]
fn walk_from(
    alloc: Global,
    image: &Image,
    steps: &[Step],
    view: View,
    state: &mut ClusterState,
    walk: &mut Walk,
) -> Result<End, ReplayFault>
    requires loaded { ClusterStandsFor image.now state.old (loaded_cluster image.now) }
    requires none { IsWalked (scope_in image.now view) [] walk.old }
    requires within { view.to ≤ length steps.now }
    ensures put { IfOk result (λ end. IsWalkedTo image.now steps.now view walk.new end.rows.items end.told.items) }
    ensures fault { IfErr result (ReplayFaultHolds image.now steps.now (length steps.now)) }
{
    let to = view.to as usize;
    put_steps(alloc, state, walk, image, steps, view, 0, to)?;
    let end = end_of(alloc, image, state)?;
    put_steps(alloc, state, walk, image, steps, view, to, steps.len())?;
    Ok(end)
}

/// The same, of a cluster that is loaded for it.
fn walk_loaded(
    alloc: Global,
    walk: &mut Walk,
    image: &Image,
    steps: &[Step],
    view: View,
) -> Result<End, ReplayFault>
    requires none { IsWalked (scope_in image.now view) [] walk.old }
    requires within { view.to ≤ length steps.now }
    ensures put { IfOk result (λ end. IsWalkedTo image.now steps.now view walk.new end.rows.items end.told.items) }
    ensures fault { IfErr result (ReplayFaultHolds image.now steps.now (length steps.now)) }
{
    let mut state = ClusterState::load(alloc, image)?;
    walk_from(alloc, image, steps, view, &mut state, walk)
}

/// Walks through all steps, and tells of where the picture ends.
fn walk_all(
    alloc: Global,
    image: &Image,
    steps: &[Step],
    view: View,
) -> Result<(Walk, End), ReplayFault>
    requires { view.to ≤ length steps.now }
    ensures put { IfOk result (λ all. IsWalkedTo image.now steps.now view all.0 all.1.rows.items all.1.told.items) }
    ensures fault { IfErr result (ReplayFaultHolds image.now steps.now (length steps.now)) }
{
    let mut walk = first_walk(alloc, image, view)?;
    let end = walk_loaded(alloc, &mut walk, image, steps, view)?;
    Ok((walk, end))
}

/// The receiver's rank of a link.
fn receiver_of(links: &[Link], number: u8) -> u8
    ensures { result ≡ receiver_of links.now number }
{
    match links.get(usize::from(number)) {
        None => 0,
        Some(link) => link.to,
    }
}

/// The arrow of a partition that no step took.
fn arrow_untaken(links: &[Link], one: &Untaken) -> Arrow
    ensures { result ≡ arrow_untaken_of links.now one.now }
{
    Arrow {
        from: one.from,
        to: None,
        dest: receiver_of(links, one.link),
        carried: Carried::Partition {
            link: one.link,
            part: one.part,
            phase: one.phase,
        },
    }
}

/// Adds it.
#[tactic(auto, unfolding(crate::specs::Pictures::one_untaken))]
fn put_untaken(arrows: &mut Vec<Arrow>, links: &[Link], one: &Untaken) -> Result<(), AllocError>
    ensures { OnOk result (arrows.new.items ≡ arrows.old.items ++ one_untaken links.now one.now) }
{
    arrows.push(arrow_untaken(links, one))?;
    Ok(())
}

/// Adds those of all partitions that no step took.
fn put_all_untaken(
    arrows: &mut Vec<Arrow>,
    links: &[Link],
    untaken: &[Untaken],
) -> Result<(), AllocError>
    ensures { OnOk result (arrows.new.items ≡ arrows_with links.now arrows.old.items untaken.now) }
{
    for one in untaken {
        put_untaken(arrows, links, one)?;
    }
    Ok(())
}

/// The arrows that are shown: of all arrows to steps, of partitions that no step took, and of messages that nobody got.
fn shown_arrows(
    alloc: Global,
    image: &Image,
    view: View,
    board: &Board,
    untaken: &[Untaken],
    arrows: Vec<Arrow>,
) -> Result<Vec<Arrow>, AllocError>
    ensures { IfOk result (λ shown. shown.items ≡ shown_arrows image.now.links view board.now untaken.now arrows.items) }
{
    let mut arrows = arrows;
    put_all_untaken(&mut arrows, image.parts().links.as_slice(), untaken)?;
    let mut shown = arrows_seen(alloc, view, arrows.as_slice())?;
    board.put_lost(&mut shown, view)?;
    Ok(shown)
}

/// What is shown of the steps that were walked through.
fn drawn(
    alloc: Global,
    image: &Image,
    view: View,
    steps: u64,
    walk: Walk,
    end: End,
) -> Result<Drawing, AllocError>
    ensures { IfOk result (IsDrawn image.now view steps walk end.rows.items end.told.items) }
{
    let parts = image.parts();
    let Walk {
        board,
        parts: boxes,
        looks,
        marks,
        arrows,
        bars,
    } = walk;
    let mut bars = bars;
    looks.put_open(&mut bars, steps)?;
    let arrows = shown_arrows(alloc, image, view, &board, boxes.untaken.as_slice(), arrows)?;
    let bars = bars_seen(alloc, view, bars.as_slice())?;
    let End { rows, told } = end;
    Ok(Drawing {
        ranks: parts.ranks,
        harts: parts.harts,
        from: view.from,
        to: view.to,
        marks: marks.kept,
        arrows,
        bars,
        rows,
        told,
    })
}

/// A record as a drawing: the steps from one place to another, or else to the end, of which at most 5,000 have a mark.
///
/// Refusals, in this order: PastEnd where a place is behind the last step; Step where a step is none of the machine,
/// TooMany where more have a mark; Memory.
#[tactic(auto, using(crate::proofs::Told::walked_drawing, crate::proofs::Told::too_many, crate::proofs::Told::draw_fault))]
pub fn drawing(
    alloc: Global,
    image: &Image,
    steps: &[Step],
    from: u64,
    to: Option<u64>,
) -> Result<Drawing, DrawFault>
    ensures drawing { IfOk result (IsDrawing image.now steps.now (view_in from to steps.now)) }
    ensures fault { IfErr result (DrawFaultHolds image.now steps.now (view_in from to steps.now)) }
{
    let view = view_of(from, to, steps);
    let len = steps.len() as u64;
    if view.from.max(view.to) > len {
        return Err(DrawFault::Replay(ReplayFault::PastEnd(len)));
    }
    let (walk, end) = walk_all(alloc, image, steps, view)?;
    let count = walk.marks.count;
    if count > MARKS_MAX {
        return Err(DrawFault::TooMany(count));
    }
    let drawing = drawn(alloc, image, view, len, walk, end)?;
    Ok(drawing)
}

/// The arrows of a record: from the step that sent a message, or made a partition ready, to each that got, claimed or took
/// it, or could have; and from each whose message or partition nobody got. The fault is Step where a step is none of the
/// machine, or Memory.
#[tactic(auto, using(crate::proofs::Told::walked_arrows))]
pub fn arrows(alloc: Global, image: &Image, steps: &[Step]) -> Result<Vec<Arrow>, ReplayFault>
    ensures arrows { IfOk result (λ arrows. AreArrows image.now steps.now arrows.items) }
    ensures fault { IfErr result (ReplayFaultHolds image.now steps.now (length steps.now)) }
{
    let view = view_of(0, None, steps);
    let (walk, _) = walk_all(alloc, image, steps, view)?;
    let Walk {
        board,
        parts,
        arrows,
        ..
    } = walk;
    let shown = shown_arrows(alloc, image, view, &board, parts.untaken.as_slice(), arrows)?;
    Ok(shown)
}
