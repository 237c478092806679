//! The change of a step that was done.

ghost use Rattle.std.specs.Prelude.{◌≡◌, ◌≤◌, ◌<◌, ◌+◌, ◌^◌, ◌++◌, IfOk, IsTrue, OnOk, drop, length};
ghost use Rattle.cl_state.specs.Room.{rank_of};
ghost use Rattle.rvmc_changes.specs.Changes.{stand_of as stand_in};
ghost use Rattle.rvmc_changes.specs.Edits.{edits_from};
ghost use Rattle.rvmc_changes.specs.Seen.{registers_of as registers_in};
ghost use Rattle.rvmc_changes.specs.Walking.{Fits, IsChangeBehind, IsChangeIn, edit_at};

use crate::before::{Before, bytes_in, hart_of};
use crate::edits::Edit;
use crate::steps::{Change, Stand};
use cl_machine::Step;
use cl_replay::ClusterState;
use cl_state::RankState;
use rv_decode::Reg;
use rv_hart::Hart;
use std::alloc::{AllocError, Global};

/// Adds an edit, where what stood at a place is another thing now.
fn put_edit(edits: &mut Vec<Edit>, place: u64, old: u64, new: u64) -> Result<(), AllocError>
    ensures { OnOk result (edits.new.items ≡ edits.old.items ++ edit_at place old new) }
{
    if old != new {
        edits.push(Edit { place, old, new })?;
    }
    Ok(())
}

/// The registers in which two states of a hart differ.
fn register_edits(alloc: Global, old: &Hart, new: &Hart) -> Result<Vec<Edit>, AllocError>
    ensures { IfOk result (λ edits. edits.items ≡ edits_from 0 (registers_in old.now) (registers_in new.now)) }
{
    let mut edits = Vec::new(alloc);
    for number in 0..32 {
        let register = Reg::new(number);
        put_edit(
            &mut edits,
            u64::from(number),
            old.get(register),
            new.get(register),
        )?;
    }
    Ok(edits)
}

/// Adds the places in which bytes differ that stand from an address on.
fn put_edits(
    edits: &mut Vec<Edit>,
    address: u64,
    olds: &[u8],
    news: &[u8],
) -> Result<(), AllocError>
    requires same { length olds.now ≡ length news.now }
    requires fits { address + length olds.now < 2 ^ 64 }
    ensures { OnOk result (edits.new.items ≡ edits.old.items ++ edits_from address olds.now news.now) }
{
    for n in 0..olds.len() {
        let (old, new) = (olds[n], news[n]);
        put_edit(edits, address + n as u64, u64::from(old), u64::from(new))?;
    }
    Ok(())
}

/// Whether bytes are the same.
fn are_same(olds: &[u8], news: &[u8]) -> bool
    ensures { IsTrue result → olds.now ≡ news.now }
{
    olds == news
}

/// The same, where mostly they don't differ: then all of them are compared at once.
fn put_piece(
    edits: &mut Vec<Edit>,
    address: u64,
    olds: &[u8],
    news: &[u8],
) -> Result<(), AllocError>
    requires fits { address + length olds.now < 2 ^ 64 }
    requires same { length olds.now ≡ length news.now }
    ensures { OnOk result (edits.new.items ≡ edits.old.items ++ edits_from address olds.now news.now) }
{
    if are_same(olds, news) {
        return Ok(());
    }
    put_edits(edits, address, olds, news)
}

/// The places in which bytes differ that stand from an address on, compared in pieces of 4,096.
fn byte_edits(
    alloc: Global,
    address: u64,
    olds: &[u8],
    news: &[u8],
) -> Result<Vec<Edit>, AllocError>
    requires fits { address + length olds.now < 2 ^ 63 }
    ensures { IfOk result (λ edits. edits.items ≡ edits_from address olds.now news.now) }
{
    let len = olds.len().min(news.len());
    let mut edits = Vec::new(alloc);
    let mut done = 0;
    while done < len {
        let end = len.min(done + 4096);
        put_piece(
            &mut edits,
            address + done as u64,
            &olds[done..end],
            &news[done..end],
        )?;
        done = end;
    }
    Ok(edits)
}

/// Where a hart stands.
fn stand_of(hart: &Hart) -> Stand
    ensures { result ≡ stand_in hart.now }
{
    Stand {
        pc: hart.pc(),
        mode: hart.mode(),
    }
}

/// What came behind so many bytes of an output.
fn put_behind(alloc: Global, out: &[u8], written: usize) -> Result<Vec<u8>, AllocError>
    ensures { IfOk result (λ put. put.items ≡ drop written out.now) }
{
    Vec::from_slice(alloc, &out[written.min(out.len())..])
}

/// The change of a step of a rank, whose hart is this after it.
fn change_in(
    alloc: Global,
    rank: &RankState,
    step: &Step,
    before: &Before,
    hart: &Hart,
) -> Result<Change, AllocError>
    requires fits { Fits before.now }
    ensures { IfOk result (IsChangeIn step.now before.now (rank_of rank.now) hart.now) }
{
    let bytes = bytes_in(alloc, &rank.memory, before.window)?;
    Ok(Change {
        rank: step.rank(),
        hart: step.hart(),
        old: stand_of(&before.hart),
        new: stand_of(hart),
        registers: register_edits(alloc, &before.hart, hart)?,
        bytes: byte_edits(
            alloc,
            before.window.address,
            before.bytes.as_slice(),
            bytes.as_slice(),
        )?,
        put: put_behind(alloc, rank.out.as_slice(), before.written)?,
    })
}

/// The change of a step that was done. None where there is no such hart.
pub(crate) fn change_of(
    alloc: Global,
    state: &ClusterState,
    step: &Step,
    before: &Before,
) -> Result<Option<Change>, AllocError>
    requires fits { Fits before.now }
    ensures { IfOk result (IsChangeBehind state.now step.now before.now) }
{
    let Some(rank) = state.ranks.get(usize::from(step.rank())) else {
        return Ok(None);
    };
    let Some(hart) = hart_of(rank, step) else {
        return Ok(None);
    };
    Ok(Some(change_in(alloc, rank, step, before, &hart)?))
}
