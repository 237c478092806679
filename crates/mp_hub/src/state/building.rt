//! A hub built anew, from lists of all that is known of it.

ghost use Rattle.std.specs.Prelude.{◌≡◌, ◌≤◌, length, IfOk};
ghost use Rattle.rv_image_types.specs.Limits.{most_links};
ghost use Rattle.mp_hub.specs.Building.{board_in, hub_in};
ghost use Rattle.mp_hub.specs.Held.{AreHeld};

use super::HubState;
use mp_match::{Line, Queues};
use mp_probe::{Claims, Waiting};
use mp_transfers::Side;
use mp_types::Bytes;
use rv_image_types::Link;
use std::alloc::{AllocError, Global};

/// What a hub is made of, as lists: the image's links, the posts, the claimed messages that weren't received and the
/// initialisations that weren't refused.
#[derive(Clone, Copy, Drop)]
pub struct HubParts<'a> {
    pub links: &'a [Link],
    /// The posts in their order, each with the place of its partner.
    pub lines: &'a [Line],
    /// Of each post its message's bytes, while they are held.
    pub bodies: &'a [Option<Bytes>],
    /// How many waiting receives the last send compared.
    pub compared: u64,
    pub claims: &'a [Waiting],
    pub sides: &'a [Side],
}

impl HubState {
    /// The hub of these parts, in memory of its own; its messages share their bytes with the parts. Its posts are made
    /// again in their order. The only error is want of memory.
    pub fn of(alloc: Global, parts: &HubParts<'_>) -> Result<HubState, AllocError>
        requires few { length parts.now.links.now ≤ most_links }
        requires held { AreHeld (board_in parts.now) parts.now.claims.now }
        ensures { IfOk result (λ hub. hub ≡ hub_in parts.now) }
    {
        let links = Vec::from_slice(alloc, parts.links)?;
        let sides = Vec::from_slice(alloc, parts.sides)?;
        let claims = Claims::of(alloc, parts.claims)?;
        let queues = Queues::of(alloc, parts.lines, parts.bodies, parts.compared)?;
        Ok(HubState {
            alloc,
            queues,
            claims,
            links,
            sides,
        })
    }
}
