//! The outcomes that `explore` lists: ends, ranks that are stuck while others run on, and ranks that need buffers.

ghost use Rattle.std.specs.Prelude.{◌≡◌, ◌<◌, ◌↔◌, ℕ, IfNone, IfOk, IfSome, List, OnOk, false, length, true};
ghost use Rattle.cl_explore.specs.Ends.{findings};
ghost use Rattle.cl_explore.specs.Listening.{IsEndNode, IsNeedNode};
ghost use Rattle.rvmc_explore.specs.InnerOutcomes.{AddsEnd, AddsStuck, AreHeard, AreToldBeside, AreToldEnds, BeginsWith, CountsOne, HaveRoom, IsBodyAt, IsNeedAmong, IsNew, IsOutcomeOf};
ghost use Rattle.rvmc_explore.specs.Outcomes.{AreTold, HasBody, IsEndBody, IsNeedBody, IsStuckBody, any_need};
ghost use Rattle.rvmc_explore.specs.Searched.{IsExplored, IsWithin};

use crate::ends::put_end;
use crate::marks::{is_marked, leading_to};
use crate::needs::put_need;
use crate::telling::state_at;
use cl_explore::{Company, Exploration, KeptNode, Runs, steps_to};
use cl_machine::Step;
use rv_image_types::Image;
use rvmc_picture::put_company;
use std::alloc::{AllocError, Global};

/// What is told of a state that was found: an end, ranks that are stuck there while others run on, ranks that need buffers, or
/// that runs hang from there if sends wait. Others run on where a rank that isn't stuck can go on, and no end was found from
/// there. If no state is left there is none.
#[derive(Drop)]
pub struct Outcome {
    /// The turns that lead there from the loaded cluster.
    pub way: Runs,
    /// All that is told below its line.
    pub body: Vec<u8>,
    /// How many of the ends that were found have this text: 0 if it is that of ranks that are stuck.
    pub ends: usize,
    /// Whether it is of ranks that need buffers.
    pub need: bool,
}

impl Outcome {
    /// The turns that lead there, in memory of their own. The only error is want of memory.
    pub(crate) fn steps(&self, alloc: Global) -> Result<Vec<Step>, AllocError>
        ensures { IfOk result (λ steps. steps.items ≡ self.now.way) }
    {
        let mut steps = Vec::new(alloc);
        self.way.go_back(alloc, &mut steps)?;
        steps.as_mut_slice().reverse();
        Ok(steps)
    }
}

/// All that is told of the end at the node of this number.
fn end_body(
    alloc: Global,
    image: &Image,
    order: &[u8],
    nodes: &[KeptNode],
    node: usize,
) -> Result<Vec<u8>, AllocError>
    requires { node < length nodes.now }
    ensures { IfOk result (λ body. IsEndBody order.now image.now nodes.now node body.items) }
{
    let state = state_at(alloc, nodes, node)?;
    let mut body = Vec::new(alloc);
    put_end(alloc, &mut body, image, order, &state)?;
    Ok(body)
}

/// All that is told of ranks that are stuck.
fn stuck_body(
    alloc: Global,
    image: &Image,
    nodes: &[KeptNode],
    company: &Company,
) -> Result<Vec<u8>, AllocError>
    requires { company.now.node < length nodes.now }
    ensures { IfOk result (λ body. IsStuckBody image.now nodes.now company.now body.items) }
{
    let state = state_at(alloc, nodes, company.node)?;
    let mut body = Vec::new(alloc);
    put_company(alloc, &mut body, image, &state, company.ranks.as_slice())?;
    Ok(body)
}

/// All that is told of these ranks, which need buffers at the node of this number.
fn need_body(
    alloc: Global,
    image: &Image,
    nodes: &[KeptNode],
    node: usize,
    ranks: &[u8],
) -> Result<Vec<u8>, AllocError>
    requires { node < length nodes.now }
    ensures { IfOk result (λ body. IsNeedBody image.now nodes.now node ranks.now body.items) }
{
    let state = state_at(alloc, nodes, node)?;
    let mut body = Vec::new(alloc);
    put_need(alloc, &mut body, image, &state, ranks)?;
    Ok(body)
}

/// Whether this is the text of the outcome.
fn is_body(outcome: &Outcome, body: &[u8]) -> bool
    ensures { (result ≡ true) ↔ (outcome.now.body.items ≡ body.now) }
{
    outcome.body.as_slice() == body
}

/// The place of the outcome with this text.
fn place_of(told: &[Outcome], body: &[u8]) -> Option<usize>
    ensures there { IfSome result (IsBodyAt told.now body.now) }
    ensures new { IfNone result (HasBody told.now body.now → ⊥) }
{
    for place in 0..told.len() {
        if is_body(&told[place], body) {
            return Some(place);
        }
    }
    None
}

/// The outcome at the node of this number, with this text, which so many ends have, and whether it is of ranks that need
/// buffers.
fn outcome_of(
    alloc: Global,
    nodes: &[KeptNode],
    node: usize,
    body: Vec<u8>,
    ends: usize,
    need: bool,
) -> Result<Outcome, AllocError>
    ensures { IfOk result (IsOutcomeOf nodes.now node body.items ends need) }
{
    let steps = steps_to(alloc, nodes, node)?;
    let way = Runs::of(alloc, steps.as_slice())?;
    Ok(Outcome {
        way,
        body,
        ends,
        need,
    })
}

/// The outcome of the end at the node of this number, before its ends are counted. None where its text is told already.
pub(crate) fn new_end(
    alloc: Global,
    image: &Image,
    order: &[u8],
    told: &[Outcome],
    nodes: &[KeptNode],
    node: usize,
) -> Result<Option<Outcome>, AllocError>
    requires { IsEndNode image.now order.now nodes.now node }
    ensures new { IfOk result (λ o. IfSome o (IsNew order.now image.now told.now)) }
    ensures no_need { IfOk result (λ o. IfSome o (λ outcome. outcome.need ≡ false)) }
{
    let body = end_body(alloc, image, order, nodes, node)?;
    if place_of(told, body.as_slice()).is_some() {
        return Ok(None);
    }
    Ok(Some(outcome_of(alloc, nodes, node, body, 0, false)?))
}

/// The outcome of these ranks, which need buffers at the node of this number. None where its text is told already.
pub(crate) fn new_need(
    alloc: Global,
    image: &Image,
    told: &[Outcome],
    nodes: &[KeptNode],
    node: usize,
    ranks: &[u8],
) -> Result<Option<Outcome>, AllocError>
    requires { node < length nodes.now }
    ensures { (order : List ℕ) → IsNeedNode image.now order nodes.now node ranks.now
        → IfOk result (IsNeedAmong order image.now told.now) }
{
    let body = need_body(alloc, image, nodes, node, ranks)?;
    if place_of(told, body.as_slice()).is_some() {
        return Ok(None);
    }
    Ok(Some(outcome_of(alloc, nodes, node, body, 0, true)?))
}

/// Counts one end more of the outcome at this place.
fn count_one(told: &mut [Outcome], place: usize)
    requires inside { place < length told.old }
    requires room { HaveRoom told.old }
    ensures { CountsOne told.old place told.new }
{
    told[place].ends += 1;
}

/// Adds what is told of the end at the node of this number: if its text is told already, one end more has it.
fn add_end(
    alloc: Global,
    told: &mut Vec<Outcome>,
    nodes: &[KeptNode],
    node: usize,
    body: Vec<u8>,
) -> Result<(), AllocError>
    requires { HaveRoom told.old.items }
    ensures { OnOk result (AddsEnd nodes.now told.old.items node body.items told.new.items) }
{
    match place_of(told.as_slice(), body.as_slice()) {
        Some(place) => count_one(told.as_mut_slice(), place),
        None => {
            let outcome = outcome_of(alloc, nodes, node, body, 1, false)?;
            told.push(outcome)?;
        }
    }
    Ok(())
}

/// Adds what is told of ranks that are stuck in the node of this number, unless the same text is told already.
pub(crate) fn add_stuck(
    alloc: Global,
    told: &mut Vec<Outcome>,
    nodes: &[KeptNode],
    node: usize,
    body: Vec<u8>,
) -> Result<(), AllocError>
    ensures { OnOk result (AddsStuck nodes.now told.old.items node body.items told.new.items) }
{
    if place_of(told.as_slice(), body.as_slice()).is_some() {
        return Ok(());
    }
    let outcome = outcome_of(alloc, nodes, node, body, 0, false)?;
    told.push(outcome)?;
    Ok(())
}

/// What is told of each end that was found, behind what was heard of while it was searched. It names ranks that need buffers
/// only if what was heard of does.
fn tell_ends(
    alloc: Global,
    image: &Image,
    order: &[u8],
    found: &Exploration,
    heard: Vec<Outcome>,
) -> Result<Vec<Outcome>, AllocError>
    requires explored { IsExplored image.now order.now (findings found.now) }
    requires heard { AreHeard order.now image.now heard.items }
    requires within { IsWithin (findings found.now) }
    ensures told { IfOk result (λ told. AreToldEnds order.now image.now (findings found.now) told.items) }
    ensures begins { IfOk result (λ told. BeginsWith heard.items told.items) }
    ensures needs { IfOk result (λ told. any_need told.items ≡ any_need heard.items) }
{
    let nodes = found.nodes.as_slice();
    let mut told = heard;
    for place in 0..found.ends.len() {
        let node = found.ends[place];
        let body = end_body(alloc, image, order, nodes, node)?;
        add_end(alloc, &mut told, nodes, node, body)?;
    }
    Ok(told)
}

/// Adds what is told of the ranks that are stuck in a node, unless it leads to an end that was found, of which they are told. At
/// any other node others run on.
fn tell_company(
    alloc: Global,
    image: &Image,
    nodes: &[KeptNode],
    told: &mut Vec<Outcome>,
    marks: &[bool],
    company: &Company,
) -> Result<(), AllocError>
    requires { company.now.node < length nodes.now }
    ensures { OnOk result (AreToldBeside image.now nodes.now marks.now company.now told.old.items told.new.items) }
{
    if is_marked(marks, company.node) {
        return Ok(());
    }
    let body = stuck_body(alloc, image, nodes, company)?;
    add_stuck(alloc, told, nodes, company.node, body)
}

/// All that is told: what was heard of while it was searched, each end that was found, and the ranks that are stuck in each
/// node that leads to no end. No two have the same text: the first with a text stands for all, and says how many ends
/// that were found have it. Ranks that need buffers are named only if they are in what was heard of.
pub(crate) fn tell(
    alloc: Global,
    image: &Image,
    order: &[u8],
    found: &Exploration,
    heard: Vec<Outcome>,
) -> Result<Vec<Outcome>, AllocError>
    requires explored { IsExplored image.now order.now (findings found.now) }
    requires heard { AreHeard order.now image.now heard.items }
    requires within { IsWithin (findings found.now) }
    ensures told { IfOk result (λ told. AreTold order.now image.now (findings found.now) told.items) }
    ensures begins { IfOk result (λ told. BeginsWith heard.items told.items) }
    ensures needs { IfOk result (λ told. any_need told.items ≡ any_need heard.items) }
{
    // ghost: brings into scope that the parts are those of an image; no effect at run time
    let _parts = image.parts();
    let mut told = tell_ends(alloc, image, order, found, heard)?;
    let nodes = found.nodes.as_slice();
    let leads = found.leads.as_slice();
    let ends = found.ends.as_slice();
    let marks = leading_to(alloc, found.nodes.len(), leads, ends)?;
    for place in 0..found.companies.len() {
        let company = &found.companies[place];
        tell_company(alloc, image, nodes, &mut told, marks.as_slice(), company)?;
    }
    Ok(told)
}
