//! A page, written piece by piece.

ghost use Rattle.std.specs.Prelude.{◌≡◌, ◌≤◌, ◌++◌, [], IfErr, IfOk, OnErr, OnOk, length, map, max, true};
ghost use Rattle.rvmc_changes.specs.Below.{IsReached, IsRunUpTo};
ghost use Rattle.rvmc_changes.specs.Below.replay as faults;
ghost use Rattle.rvmc_changes.specs.Given.{differences};
ghost use Rattle.rvmc_changes.specs.Walking.{GoesOn};
ghost use Rattle.rvmc_page.specs.Pages.{before_steps};
ghost use Rattle.rvmc_page.specs.Texts.{source_of};
ghost use Rattle.rvmc_page.specs.Written.{AreWritten, IsPageBegun, IsPageTo, IsPageWritten, LeavesPage, view_to};

use crate::pages::{Page, put_before, put_behind};
use crate::steps::put_changes;
use cl_machine::Step;
use rv_image_types::Image;
use rvmc_changes::{Change, ClusterState, ReplayFault, go_on};
use rvmc_picture::put_piece;
use std::alloc::Global;
use std::io::Write;

/// How many steps are done before their changes are put.
const STRETCH: u64 = 1024;

/// The changes of the steps from one place to another, which are done, of steps that are a run. So the only fault is Memory.
fn changes_of(
    alloc: Global,
    image: &Image,
    steps: &[Step],
    state: &mut ClusterState,
    from: u64,
    to: u64,
) -> Result<Vec<Change>, ReplayFault>
    requires order { from ≤ to }
    requires within { to ≤ length steps.now }
    requires run { IsRunUpTo image.now steps.now (length steps.now) }
    requires reached { IsReached image.now steps.now from state.old }
    ensures on { IfOk result (λ changes. GoesOn steps.now from state.old to state.new (differences changes.items)) }
    ensures fault { IfErr result (λ fault. fault ≡ faults.Memory) }
{
    go_on(alloc, state, steps, from, to)
}

/// Does the steps up to a place, and writes what each changed, but for what is still held then. Says whether the writer took
/// all of it. After a refusal the state may be anything.
fn put_steps<W: Write>(
    alloc: Global,
    image: &Image,
    steps: &[Step],
    page: &Page<'_>,
    to: u64,
    state: &mut ClusterState,
    text: &mut Vec<u8>,
    out: &mut W,
) -> Result<bool, ReplayFault>
    requires shown { IsPageTo image.now steps.now (view_to page.now.from to) page.now page.now.from [] state.old }
    requires held { text.old.items ≡ before_steps image.now page.now }
    requires within { max page.now.from to ≤ length steps.now }
    ensures written { IfOk result (λ taken. taken ≡ true
        → AreWritten image.now steps.now (view_to page.now.from to) page.now (max page.now.from to) state.new
        text.new.items (W.contents out.old) (W.contents out.new)) }
    ensures fault { IfErr result (λ fault. fault ≡ faults.Memory) }
    ensures begun { OnErr result (IsPageBegun image.now steps.now (view_to page.now.from to)
        (map source_of page.now.texts.now) (W.contents out.old) (W.contents out.new)) }
{
    let mut place = page.from;
    while place < to {
        let next = to.min(place + STRETCH);
        let changes = changes_of(alloc, image, steps, state, place, next)?;
        put_changes(text, changes.as_slice())?;
        place = next;
        if !put_piece(text, out) {
            return Ok(false);
        }
    }
    Ok(true)
}

/// Writes a page, and says whether the writer took all of it. After a refusal the state may be anything.
pub(crate) fn put_page<W: Write>(
    alloc: Global,
    image: &Image,
    steps: &[Step],
    page: &Page<'_>,
    to: u64,
    state: &mut ClusterState,
    out: &mut W,
) -> Result<bool, ReplayFault>
    requires shown { IsPageTo image.now steps.now (view_to page.now.from to) page.now page.now.from [] state.old }
    requires within { max page.now.from to ≤ length steps.now }
    ensures page { IfOk result (λ taken. taken ≡ true → IsPageWritten image.now steps.now (view_to page.now.from to)
        (map source_of page.now.texts.now) (W.contents out.old) (W.contents out.new)) }
    ensures fault { IfErr result (λ fault. fault ≡ faults.Memory) }
    ensures left { IfErr result (λ fault. LeavesPage image.now steps.now (view_to page.now.from to)
        (map source_of page.now.texts.now) fault (W.contents out.old) (W.contents out.new)) }
{
    let mut text = Vec::new(alloc);
    put_before(alloc, &mut text, image, page)?;
    if !put_steps(alloc, image, steps, page, to, state, &mut text, out)? {
        return Ok(false);
    }
    put_behind(alloc, &mut text, image, page)?;
    Ok(out.write_all(text.as_slice()).is_ok())
}
