//! What is told of outcomes, as text.

ghost use Rattle.std.specs.Prelude.{◌≡◌, ◌<◌, ◌+◌, IfOk, OnOk, drop, length};
ghost use Rattle.rvmc_explore.specs.Telling.{AddsOutcome, AddsOutcomes};
ghost use Rattle.rvmc_explore.specs.There.{IsKeptState};

use crate::heads::put_head;
use crate::outcomes::Outcome;
use cl_explore::KeptNode;
use cl_replay::ClusterState;
use rv_image_types::Image;
use std::alloc::{AllocError, Global};

/// What is told of a search, and its status.
#[derive(Drop)]
pub struct Told {
    pub text: Vec<u8>,
    pub status: u8,
}

/// The cluster of the node of this number, in memory of its own.
pub(crate) fn state_at(
    alloc: Global,
    nodes: &[KeptNode],
    node: usize,
) -> Result<ClusterState, AllocError>
    requires { node < length nodes.now }
    ensures { IfOk result (IsKeptState nodes.now node) }
{
    let state = nodes[node].state(alloc)?;
    Ok(state)
}

/// Adds all that is told of the outcome of this number: its line, which says how it differs from the first one, and its text.
pub(crate) fn put_outcome(
    alloc: Global,
    text: &mut Vec<u8>,
    image: &Image,
    outcome: &Outcome,
    first: &Outcome,
    number: usize,
) -> Result<(), AllocError>
    ensures { OnOk result (AddsOutcome number outcome.now text.old.items text.new.items) }
{
    put_head(alloc, text, image, outcome, first, number)?;
    text.extend_from_slice(outcome.body.as_slice())?;
    Ok(())
}

/// Adds all that is told of the outcomes from this place on, in their order.
pub(crate) fn put_told(
    alloc: Global,
    text: &mut Vec<u8>,
    image: &Image,
    told: &[Outcome],
    from: usize,
) -> Result<(), AllocError>
    ensures { OnOk result (AddsOutcomes (from + 1) (drop from told.now) text.old.items text.new.items) }
{
    for place in from..told.len() {
        put_outcome(alloc, text, image, &told[place], &told[0], place + 1)?;
    }
    Ok(())
}
