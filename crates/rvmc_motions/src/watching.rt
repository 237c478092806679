//! Watched bytes, before a turn and behind it.

ghost use Rattle.std.specs.Prelude.{◌≡◌, ◌≤◌, [], IfOk, OnOk, map};
ghost use Rattle.std.specs.List.{filter};
ghost use Rattle.rv_memory.specs.Memory.{bytes_at};
ghost use Rattle.rvmc_motions.specs.Marks.{is_watch_of};
ghost use Rattle.cl_state.specs.Room.{rank_of};
ghost use Rattle.rvmc_motions.specs.Watching.{bytes_for, has_changed, reads_for, seen_all, seen_of, watch_of, watched};

use crate::marks::{Mark, is_watch_of, watch_stop};
use crate::reads::{meets, read_by};
use cl_state::RankState;
use rv_memory::RankMemory;
use rvmc_protocol::replies::Stop;
use rvmc_protocol::requests::Point;
use std::alloc::{AllocError, Global};
use std::marker::Model;

/// Bytes of a memory, as a turn finds or leaves them. Contracts see the list of them.
#[derive(Drop)]
struct Bytes {
    held: Held,
}

/// Where they stand. Most watchpoints have eight bytes or fewer: these take no memory, of which a motion would ask at each
/// of its steps.
#[derive(Drop)]
enum Held {
    Few { bytes: [u8; 8], count: usize },
    Many(Vec<u8>),
}

impl Model for Bytes {
    ghost use Rattle.std.specs.Prelude.{List, ℕ};
    ghost use Rattle.rvmc_motions.specs.Held.{IsHeld, held_bytes};

    ghost Value = { List ℕ };

    ghost view = { λ bytes. held_bytes bytes.held };

    ghost invariant = { λ bytes. IsHeld bytes.held };
}

impl Bytes {
    /// All of them.
    fn as_slice(&self) -> &[u8]
        ensures { result.now ≡ self.now }
    {
        match &self.held {
            Held::Few { bytes, count } => &bytes[..*count],
            Held::Many(bytes) => bytes.as_slice(),
        }
    }
}

/// What a watchpoint shows before a turn. Contracts see the bytes.
#[derive(Drop)]
pub(crate) struct Seen {
    mark: Mark,
    read: bool,
    bytes: Bytes,
}

impl Model for Seen {
    ghost use Rattle.rvmc_motions.specs.Watching.{Watched};

    ghost Value = { Watched };

    ghost view = { λ seen. record { mark = seen.mark; read = seen.read; bytes = seen.bytes } };
}

/// Up to eight bytes from an address on, as far as the memory reaches.
fn few_at(memory: &RankMemory, address: u64, size: usize) -> Bytes
    requires { size ≤ 8 }
    ensures { result ≡ bytes_at memory.now address size }
{
    let mut bytes = [0; 8];
    let count = memory.read_into(address, &mut bytes[..size]);
    Bytes {
        held: Held::Few { bytes, count },
    }
}

/// Any number of bytes from an address on, as far as the memory reaches.
fn many_at(alloc: Global, memory: &RankMemory, address: u64, size: u64) -> Result<Bytes, AllocError>
    ensures { IfOk result (λ bytes. bytes ≡ bytes_at memory.now address size) }
{
    let most = size.min(memory.size()) as usize;
    let mut bytes = vec![in alloc; 0; most]?;
    let count = memory.read_into(address, bytes.as_mut_slice());
    bytes.truncate(count);
    Ok(Bytes {
        held: Held::Many(bytes),
    })
}

/// The bytes from an address on, so many, as far as the memory reaches.
fn bytes_at(
    alloc: Global,
    memory: &RankMemory,
    address: u64,
    size: u64,
) -> Result<Bytes, AllocError>
    ensures { IfOk result (λ bytes. bytes ≡ bytes_at memory.now address size) }
{
    if size <= 8 {
        return Ok(few_at(memory, address, size as usize));
    }
    many_at(alloc, memory, address, size)
}

/// No bytes.
fn no_bytes() -> Bytes
    ensures { result ≡ [] }
{
    Bytes {
        held: Held::Few {
            bytes: [0; 8],
            count: 0,
        },
    }
}

/// The bytes of a watchpoint; one that stops for reads alone needs none.
fn bytes_for(alloc: Global, memory: &RankMemory, mark: &Mark) -> Result<Bytes, AllocError>
    ensures { IfOk result
        (λ bytes. bytes ≡ bytes_for mark.now.point memory.now mark.now.address mark.now.size) }
{
    match mark.point {
        Point::Read => Ok(no_bytes()),
        Point::Before | Point::HardwareBefore | Point::Written | Point::Touched => {
            bytes_at(alloc, memory, mark.address, mark.size)
        }
    }
}

/// Whether the next turn of a hart reads a byte of the watchpoint, where that matters.
fn reads_for(owner: &RankState, hart: u8, mark: &Mark) -> bool
    ensures { result ≡ reads_for mark.now.point (rank_of owner.now) hart mark.now.address mark.now.size }
{
    match mark.point {
        Point::Before | Point::HardwareBefore | Point::Written => false,
        Point::Read | Point::Touched => meets(mark.address, mark.size, read_by(owner, hart)),
    }
}

/// What a watchpoint shows before the turn of a hart.
fn seen_of(alloc: Global, owner: &RankState, hart: u8, mark: &Mark) -> Result<Seen, AllocError>
    ensures { IfOk result (λ seen. seen ≡ seen_of (rank_of owner.now) hart mark.now) }
{
    let bytes = bytes_for(alloc, &owner.memory, mark)?;
    Ok(Seen {
        mark: *mark,
        read: reads_for(owner, hart, mark),
        bytes,
    })
}

/// Sees what the watchpoints of a rank show before the turn of its hart, in place of what was seen before another turn.
pub(crate) fn see_all(
    alloc: Global,
    seen: &mut Vec<Seen>,
    owner: &RankState,
    rank: u8,
    hart: u8,
    marks: &[Mark],
) -> Result<(), AllocError>
    ensures { OnOk result (seen.new.items ≡ seen_all (rank_of owner.now) rank hart marks.now) }
{
    seen.clear();
    for mark in marks {
        if is_watch_of(rank, mark) {
            let shown = seen_of(alloc, owner, hart, mark)?;
            seen.push(shown)?;
        }
    }
    Ok(())
}

/// Whether the bytes of a watchpoint are others now.
fn has_changed(alloc: Global, memory: &RankMemory, seen: &Seen) -> Result<bool, AllocError>
    ensures { IfOk result (λ changed. changed ≡ has_changed memory.now seen.now) }
{
    let bytes = bytes_at(alloc, memory, seen.mark.address, seen.mark.size)?;
    Ok(bytes.as_slice() != seen.bytes.as_slice())
}

/// What a watchpoint tells behind the turn.
fn watch_of(alloc: Global, memory: &RankMemory, seen: &Seen) -> Result<Option<Stop>, AllocError>
    ensures { IfOk result (λ stop. stop ≡ watch_of memory.now seen.now) }
{
    match seen.mark.point {
        Point::Read => Ok(watch_stop(&seen.mark, false, seen.read)),
        Point::Before | Point::HardwareBefore | Point::Written | Point::Touched => {
            let changed = has_changed(alloc, memory, seen)?;
            Ok(watch_stop(&seen.mark, changed, seen.read))
        }
    }
}

/// What the first watchpoint tells of which something is told.
pub(crate) fn watched(
    alloc: Global,
    memory: &RankMemory,
    all: &[Seen],
) -> Result<Option<Stop>, AllocError>
    ensures { IfOk result (λ stop. stop ≡ watched memory.now all.now) }
{
    for seen in all {
        if let Some(stop) = watch_of(alloc, memory, seen)? {
            return Ok(Some(stop));
        }
    }
    Ok(None)
}
