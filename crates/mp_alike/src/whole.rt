//! A hub that forgets nothing, whose messages are held as those of every hub are.

ghost use Rattle.std.specs.Prelude.{◌≡◌, ◌++◌, ◌∷◌, [], List, IfOk, OnErr, OnOk};
ghost use Rattle.mp_hub.specs.Hub.{Call, hub_at_start, outcome, reply_of};
ghost use Rattle.mp_hub.specs.InnerOutcomes.{IsOutcome};
ghost use Rattle.mp_hub.specs.Outcomes.{StandsFor};
ghost use Rattle.rv_image_types.specs.declared.images.Link.{Link};

use crate::board::WholeBoard;
use crate::hub::Answering;
use crate::key::{board_key, live_board_key};
use mp_hub::{HubParts, HubState};
use mp_probe::Waiting;
use mp_transfers::Side;
use mp_types::{Reply, Request};
use rv_image_types::{Image, Link};
use std::alloc::{AllocError, Global};
use std::marker::Model;

/// A hub that keeps each post ever made. Contracts see the image's links, the posts, the claimed messages that weren't
/// received, and the initialisations.
///
/// Its posts are paired as they were made, and each message that somebody may still be given is held.
#[derive(Drop)]
pub struct WholeHub {
    inner: Answering,
}

impl Model for WholeHub {
    ghost use Rattle.mp_hub.specs.Hub.{HubView};

    ghost Value = { HubView };

    ghost view = { λ hub. hub.inner };

    ghost use Rattle.mp_hub.specs.Held.{AreHeld};

    ghost invariant = { λ hub. AreHeld hub.inner.board hub.inner.claims };
}

impl WholeHub {
    /// A hub of the image's links that was never called.
    #[tactic(auto, using(mp_hub::proofs::Held::held_none))]
    pub fn new(alloc: Global, image: &Image) -> Result<WholeHub, AllocError>
        ensures { IfOk result (λ hub. hub ≡ hub_at_start image.now.links) }
    {
        let inner = Answering::new(alloc, image)?;
        Ok(WholeHub { inner })
    }

    /// The same hub in memory of its own; the two share the bytes of messages. The only error is want of memory.
    pub fn try_copy(&self, alloc: Global) -> Result<WholeHub, AllocError>
        ensures { IfOk result (λ copy. copy ≡ self.now) }
    {
        let inner = self.inner.try_copy(alloc)?;
        Ok(WholeHub { inner })
    }

    /// The image's links.
    pub fn links(&self) -> &[Link]
        ensures { result.now ≡ self.now.links }
    {
        self.inner.links()
    }

    /// All posts, and the messages that are held.
    pub fn board(&self) -> &WholeBoard
        ensures { result.now ≡ self.now.board }
    {
        self.inner.board()
    }

    /// The claimed messages that weren't received.
    pub fn claims(&self) -> &[Waiting]
        ensures { result.now ≡ self.now.claims }
    {
        self.inner.claims()
    }

    /// A number by which a search finds hubs that may be alike: those that are have the same one, and others mostly have
    /// another. No clause says so, so nothing may rest on it.
    pub fn key(&self) -> u64 {
        board_key(self.inner.board())
    }

    /// The same for hubs whose posts that are over may be any that are: these are left out. No clause says so.
    pub fn live_key(&self) -> u64 {
        live_board_key(self.inner.board())
    }

    /// The initialisations that weren't refused.
    pub fn sides(&self) -> &[Side]
        ensures { result.now ≡ self.now.sides }
    {
        self.inner.sides()
    }

    /// The same hub as one that forgets what is over, in memory of its own; the two share the bytes of messages. The only
    /// error is want of memory.
    pub fn hub(&self, alloc: Global) -> Result<HubState, AllocError>
        ensures { IfOk result (λ hub. hub ≡ self.now) }
    {
        let board = self.inner.board();
        let parts = HubParts {
            links: self.inner.links(),
            lines: board.lines(),
            bodies: board.bodies(),
            compared: board.compared(),
            claims: self.inner.claims(),
            sides: self.inner.sides(),
        };
        HubState::of(alloc, &parts)
    }

    /// Answers one call of a rank, as the hub's meaning does: for whatever links and calls the hub stands for, the reply
    /// is the meaning's, and the hub then stands for the same links and these calls with this one behind. The only error
    /// is want of memory, and then all is as it was.
    pub fn answer(&mut self, rank: u8, request: &Request) -> Result<Reply, AllocError>
        ensures ok { IfOk result (λ r. IsOutcome (outcome self.old rank request.now) r self.new) }
        ensures reply { (links : List Link) (calls : List Call) → StandsFor self.old links calls
            → IfOk result (λ r. r ≡ reply_of links calls rank request.now) }
        ensures stands { (links : List Link) (calls : List Call) → StandsFor self.old links calls
            → OnOk result (StandsFor self.new links (calls ++ (rank, request.now) ∷ [])) }
        ensures err { OnErr result (self.new ≡ self.old) }
    {
        self.inner.reply(rank, request)
    }
}
