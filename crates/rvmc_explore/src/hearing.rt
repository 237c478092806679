//! Ends, and ranks that need buffers, that are heard of while a search goes on.

ghost use Rattle.std.specs.Prelude.{◌≡◌, [], Bool, IfOk, false, true};
ghost use Rattle.cl_explore.specs.Listening.{IsEndNode, IsNeedNode};
ghost use Rattle.rvmc_explore.specs.InnerOutcomes.{AreHeard};
ghost use Rattle.rvmc_explore.specs.Outcomes.{ListsNeed, any_need};

use crate::outcomes::{Outcome, new_end, new_need};
use cl_explore::{KeptNode, Listener};
use rv_image_types::Image;
use std::alloc::{AllocError, Global};
use std::marker::{Brand, PhantomData};

/// What proofs know of a search: whether each standard send copies its message. It is a member of the listener's type, so it is the
/// same before a search and after it.
pub(crate) trait Sends {
    ghost buffered: { Bool };
}

impl Sends for Brand {
    ghost buffered = { false };
}

/// Of a search in which each standard send copies its message.
pub(crate) struct Buffered;

impl Sends for Buffered {
    ghost buffered = { true };
}

/// Keeps what is to be told of each end, and of ranks that need buffers, in the order in which their texts were found first.
#[derive(Drop)]
pub(crate) struct Hearer<K> {
    pub told: Vec<Outcome>,
    /// Whether each standard send copies its message. Then no ranks that need buffers are kept.
    pub buffered: bool,
    /// What is known of standard sends.
    pub of: PhantomData<K>,
}

impl<K> Hearer<K> {
    /// Nothing was heard yet.
    pub(crate) fn new(alloc: Global, buffered: bool) -> Hearer<K>
        ensures none { result.told.items ≡ [] }
        ensures sends { result.buffered ≡ buffered }
    {
        Hearer {
            told: Vec::new(alloc),
            buffered,
            of: PhantomData,
        }
    }
}

impl<K: Sends> Listener for Hearer<K> {
    ghost holds = { λ hearer image order. (hearer.buffered ≡ K.buffered) × AreHeard order image hearer.told.items
        × (K.buffered ≡ true → any_need hearer.told.items ≡ false) };

    ghost told_need = { λ hearer image order. K.buffered ≡ false → ListsNeed image order hearer.told.items };

    fn end(
        &mut self,
        alloc: Global,
        image: &Image,
        order: &[u8],
        nodes: &[KeptNode],
        node: usize,
    ) -> Result<(), AllocError> {
        let Some(outcome) = new_end(alloc, image, order, self.told.as_slice(), nodes, node)? else {
            return Ok(());
        };
        self.told.push(outcome)?;
        Ok(())
    }

    fn need(
        &mut self,
        alloc: Global,
        image: &Image,
        _order: &[u8],
        nodes: &[KeptNode],
        node: usize,
        ranks: &[u8],
    ) -> Result<(), AllocError> {
        // nobody is held up by a send that copies its message
        if self.buffered {
            return Ok(());
        }
        let Some(outcome) = new_need(alloc, image, self.told.as_slice(), nodes, node, ranks)? else {
            return Ok(());
        };
        self.told.push(outcome)?;
        Ok(())
    }
}
