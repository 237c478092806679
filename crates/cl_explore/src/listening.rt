//! Who is told of ends, and of ranks that need buffers, as a search finds them.

ghost use Rattle.std.specs.Prelude.{ℕ, IfOk, List, ⊤};
ghost use Rattle.rv_image_types.specs.declared.images.ImageParts.{ImageParts};
ghost use Rattle.cl_explore.specs.Listening.{IsEndNode, IsNeedNode};

use crate::kept::KeptNode;
use rv_image_types::Image;
use std::alloc::{AllocError, Global};

/// Is told of ends, and of ranks that need buffers, as a search finds them.
pub trait Listener {
    // what holds of it, in a search of this image by this order
    ghost holds: { Self → ImageParts → List ℕ → Type 0 };

    // what holds of it once it was told of ranks that need buffers
    ghost told_need: { Self → ImageParts → List ℕ → Type 0 };

    /// Nobody goes on at the node of this number, of those that were found so far. The only error is want of memory.
    fn end(
        &mut self,
        alloc: Global,
        image: &Image,
        order: &[u8],
        nodes: &[KeptNode],
        node: usize,
    ) -> Result<(), AllocError>
        requires end { IsEndNode image.now order.now nodes.now node }
        requires holds { holds self.old image.now order.now }
        ensures holds { holds self.new image.now order.now }
        ensures still { told_need self.old image.now order.now → told_need self.new image.now order.now };

    /// These ranks need buffers at the node of this number, the most that are held up together there. The only error is want
    /// of memory.
    fn need(
        &mut self,
        alloc: Global,
        image: &Image,
        order: &[u8],
        nodes: &[KeptNode],
        node: usize,
        ranks: &[u8],
    ) -> Result<(), AllocError>
        requires need { IsNeedNode image.now order.now nodes.now node ranks.now }
        requires holds { holds self.old image.now order.now }
        ensures holds { holds self.new image.now order.now }
        ensures told { IfOk result (λ _. told_need self.new image.now order.now) }
        ensures still { told_need self.old image.now order.now → told_need self.new image.now order.now };
}

/// Hears nothing: for searches of which nobody wants to hear ends.
#[derive(Clone, Copy, Drop)]
pub struct Deaf;

impl Listener for Deaf {
    ghost holds = { λ _ _ _. ⊤ };

    ghost told_need = { λ _ _ _. ⊤ };

    fn end(
        &mut self,
        _alloc: Global,
        _image: &Image,
        _order: &[u8],
        _nodes: &[KeptNode],
        _node: usize,
    ) -> Result<(), AllocError> {
        Ok(())
    }

    fn need(
        &mut self,
        _alloc: Global,
        _image: &Image,
        _order: &[u8],
        _nodes: &[KeptNode],
        _node: usize,
        _ranks: &[u8],
    ) -> Result<(), AllocError> {
        Ok(())
    }
}
