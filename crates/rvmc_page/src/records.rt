//! The page of a record.

ghost use Rattle.std.specs.Prelude.{◌≡◌, ◌≤◌, IfErr, IfOk, OnOk, length, map, true};
ghost use Rattle.std.specs.List.{All};
ghost use Rattle.rvmc_changes.specs.Below.{IsRunUpTo, ReplayFaultHolds};
ghost use Rattle.rvmc_page.specs.Records.{IsShownOf};
ghost use Rattle.rvmc_page.specs.Texts.{source_of};
ghost use Rattle.rvmc_page.specs.Written.{IsPageWritten, LeavesPage};
ghost use Rattle.rvmc_picture.specs.Pictures.{furthest, view_of as view_in};
ghost use Rattle.rvmc_svg.specs.Safe.{IsAllowed};
ghost use Rattle.rvmc_svg.specs.Shown.{IsShown};

use crate::pages::{Page, Shown};
use crate::texts::SourceText;
use crate::writing::put_page;
use cl_machine::Step;
use rv_image_types::Image;
use rvmc_changes::{ReplayFault, Walk, begin};
use rvmc_draw::Drawing;
use rvmc_picture::{DrawFault, drawing};
use rvmc_svg::svg;
use std::alloc::Global;
use std::io::Write;

/// A drawing with its picture. The only fault is Memory.
fn pictured(alloc: Global, drawing: Drawing) -> Result<Shown, ReplayFault>
    ensures drawing { IfOk result (λ shown. shown.drawing ≡ drawing) }
    ensures allowed { IfOk result (λ shown. All IsAllowed shown.picture.items) }
    ensures shown { IfOk result (λ shown. IsShown drawing shown.picture.items) }
    ensures fault { IfErr result (λ fault. fault ≡ ReplayFault.Memory) }
{
    let picture = svg(alloc, &drawing)?;
    Ok(Shown { drawing, picture })
}

/// The picture of the steps, unless they have too many marks. All steps of the record are then a run.
fn shown_of(
    alloc: Global,
    image: &Image,
    steps: &[Step],
    from: u64,
    to: Option<u64>,
) -> Result<Option<Shown>, ReplayFault>
    requires there { furthest (view_in from to steps.now) steps.now ≤ length steps.now }
    ensures is { IfOk result (IsShownOf image.now steps.now (view_in from to steps.now)) }
    ensures run { OnOk result (IsRunUpTo image.now steps.now (length steps.now)) }
    ensures fault { IfErr result (ReplayFaultHolds image.now steps.now (furthest (view_in from to steps.now) steps.now)) }
{
    match drawing(alloc, image, steps, from, to) {
        Ok(drawing) => {
            let shown = pictured(alloc, drawing)?;
            Ok(Some(shown))
        }
        Err(DrawFault::TooMany(_)) => Ok(None),
        Err(DrawFault::Replay(fault)) => Err(fault),
    }
}

/// Writes a record as a page: the steps from one place to another, or else to the end, and these sources. Says whether the
/// writer took all of it.
///
/// The changes of the steps are written in pieces of 65,536 bytes or some more, so of a long record they never stand in
/// memory as a whole. The drawing has done all steps before, so nothing is written where they are no run.
///
/// Refusals, in this order: PastEnd where a place is behind the last step; Step where a step of the record is none of the
/// machine; Memory, and then a beginning of the text may stand at the writer.
#[tactic(auto, using(crate::proofs::Written::page_fault, crate::proofs::Written::nothing_left))]
pub fn page<'a, W: Write>(
    alloc: Global,
    image: &Image,
    steps: &[Step],
    from: u64,
    to: Option<u64>,
    texts: &'a [SourceText<'a>],
    out: &mut W,
) -> Result<bool, ReplayFault>
    ensures page { IfOk result (λ taken. taken ≡ true → IsPageWritten image.now steps.now (view_in from to steps.now)
        (map source_of texts.now) (W.contents out.old) (W.contents out.new)) }
    ensures fault { IfErr result (ReplayFaultHolds image.now steps.now (furthest (view_in from to steps.now) steps.now)) }
    ensures left { IfErr result (λ fault. LeavesPage image.now steps.now (view_in from to steps.now)
        (map source_of texts.now) fault (W.contents out.old) (W.contents out.new)) }
{
    let len = steps.len() as u64;
    let last = to.unwrap_or(len);
    if from.max(last) > len {
        return Err(ReplayFault::PastEnd(len));
    }
    let shown = shown_of(alloc, image, steps, from, to)?;
    let Walk { start, mut state } = begin(alloc, image, steps, from)?;
    let page = Page {
        from,
        start,
        texts,
        shown,
    };
    put_page(alloc, image, steps, &page, last, &mut state, out)
}
