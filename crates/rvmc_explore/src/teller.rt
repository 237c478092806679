//! Ends, and ranks that need buffers, that are told while a search goes on.

ghost use Rattle.std.specs.Prelude.{◌≡◌, ◌+◌, [], ℕ, IfOk, List, None, Option, false, length, true};
ghost use Rattle.std.specs.Io.KnownBytes.{Appends};
ghost use Rattle.cl_explore.specs.Listening.{IsEndNode, IsNeedNode};
ghost use Rattle.rvmc_explore.specs.InnerOutcomes.{AreHeard};
ghost use Rattle.rvmc_explore.specs.InnerTelling.{WereTold};
ghost use Rattle.rvmc_explore.specs.Outcomes.{ListsNeed, any_need};
ghost use Rattle.rvmc_explore.specs.Telling.{AddsOutcome};

use crate::hearing::Sends;
use crate::outcomes::{Outcome, new_end, new_need};
use crate::telling::put_outcome;
use cl_explore::{KeptNode, Listener};
use rv_image_types::Image;
use std::alloc::{AllocError, Global};
use std::io::Write;
use std::marker::{Brand, PhantomData};

/// What proofs know of a writer since before anything was told: by which reference it is written, and what it held. A search
/// goes on with a teller of the same outset, so that what it wrote stands behind that.
pub(crate) trait Outset {
    ghost name: { ℕ };

    ghost before: { Option (List ℕ) };
}

impl Outset for Brand {
    ghost name = { 0 };

    ghost before = { None };
}

/// Writes what is told of each end, and of ranks that need buffers, as soon as its text is found.
#[derive(Drop)]
pub(crate) struct Teller<'a, O, K> {
    /// What was told, in its order.
    pub told: Vec<Outcome>,
    /// Whether the writer took all of it. After a write that failed nothing more is written.
    pub taken: bool,
    /// Whether each standard send copies its message. Then nothing is told of ranks that need buffers.
    pub buffered: bool,
    pub out: &'a mut O,
    /// What is known of the writer since before, and of standard sends.
    pub of: PhantomData<K>,
}

/// Writes a text, and tells whether the writer took all of it.
pub(crate) fn put<W: Write>(out: &mut W, text: &[u8]) -> bool
    ensures { result ≡ true → Appends (W.contents out.old) (W.contents out.new) text.now }
{
    out.write_all(text).is_ok() && out.flush().is_ok()
}

/// The same, unless the writer didn't take all that came before.
fn put_behind<W: Write>(taken: bool, out: &mut W, text: &[u8]) -> bool
    ensures { result ≡ true → (taken ≡ true) × Appends (W.contents out.old) (W.contents out.new) text.now }
{
    taken && put(out, text)
}

/// All that is told of an outcome behind these.
fn text_of(
    alloc: Global,
    image: &Image,
    told: &[Outcome],
    outcome: &Outcome,
) -> Result<Vec<u8>, AllocError>
    ensures { IfOk result (λ text. AddsOutcome (length told.now + 1) outcome.now [] text.items) }
{
    let first = told.first().unwrap_or(outcome);
    let mut text = Vec::new(alloc);
    put_outcome(alloc, &mut text, image, outcome, first, told.len() + 1)?;
    Ok(text)
}

impl<'a, O, K> Teller<'a, O, K> {
    /// Nothing is told yet.
    pub(crate) fn new(alloc: Global, buffered: bool, out: &'a mut O) -> Teller<'a, O, K>
        ensures same_reference { result.out.ghost_name ≡ out.entry.ghost_name }
        ensures now { result.out.now ≡ out.entry.now }
        ensures none { result.told.items ≡ [] }
        ensures taken { result.taken ≡ true }
        ensures sends { result.buffered ≡ buffered }
    {
        Teller {
            told: Vec::new(alloc),
            taken: true,
            buffered,
            out,
            of: PhantomData,
        }
    }
}

impl<'a, O: Write, K: Outset + Sends> Listener for Teller<'a, O, K> {
    ghost holds = { λ teller image order. (teller.out.ghost_name ≡ K.name) × (teller.buffered ≡ K.buffered)
        × AreHeard order image teller.told.items × (K.buffered ≡ true → any_need teller.told.items ≡ false)
        × WereTold teller.told.items teller.taken K.before (O.contents teller.out.now) };

    ghost told_need = { λ teller image order. K.buffered ≡ false → ListsNeed image order teller.told.items };

    fn end(
        &mut self,
        alloc: Global,
        image: &Image,
        order: &[u8],
        nodes: &[KeptNode],
        node: usize,
    ) -> Result<(), AllocError> {
        let Some(outcome) = new_end(alloc, image, order, self.told.as_slice(), nodes, node)? else {
            return Ok(());
        };
        let text = text_of(alloc, image, self.told.as_slice(), &outcome)?;
        self.told.push(outcome)?;
        self.taken = put_behind(self.taken, self.out, text.as_slice());
        Ok(())
    }

    fn need(
        &mut self,
        alloc: Global,
        image: &Image,
        _order: &[u8],
        nodes: &[KeptNode],
        node: usize,
        ranks: &[u8],
    ) -> Result<(), AllocError> {
        // nobody is held up by a send that copies its message
        if self.buffered {
            return Ok(());
        }
        let Some(outcome) = new_need(alloc, image, self.told.as_slice(), nodes, node, ranks)? else {
            return Ok(());
        };
        let text = text_of(alloc, image, self.told.as_slice(), &outcome)?;
        self.told.push(outcome)?;
        self.taken = put_behind(self.taken, self.out, text.as_slice());
        Ok(())
    }
}
