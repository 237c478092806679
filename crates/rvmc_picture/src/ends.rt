//! The place where a picture ends: whom each hart that waits there waits for, and what is told of it.

ghost use Rattle.std.specs.Prelude.{◌≡◌, ◌==◌, ◌++◌, IfOk, OnOk, map, slice_get};
ghost use Rattle.std.specs.List.{list_any};
ghost use Rattle.std.specs.Option.{option_map};
ghost use Rattle.rvmc_picture.specs.Ends.{AreRows, AreRowsOf, IsToldEnd, IsToldOf, awaited_if, awaited_of as awaited_in, awaits_of};
ghost use Rattle.rvmc_picture.specs.Ends.{could_bring as could_bring_of, hart_row, is_awaited as is_awaited_of};
ghost use Rattle.rvmc_picture.specs.Ends.{is_stuck as is_stuck_in, rank_rows, row_if, waits_at, waits_if};

use crate::deeds::is_waiting;
use cl_replay::ClusterState;
use cl_state::RankState;
use rv_image_types::{Image, ImageParts};
use rvmc_draw::Row;
use rvmc_sights::{Wait, deadlock, waits, why};
use std::alloc::{AllocError, Global};

/// Whether what is waited for could come from a rank.
fn could_bring(rank: u8, wait: &Wait) -> bool
    ensures { result ≡ could_bring_of rank wait.now }
{
    match *wait {
        Wait::Message { source: None, .. } => true,
        Wait::Message {
            source: Some(source),
            ..
        } => source == rank,
        Wait::Receiver { rank: to } => to == rank,
        Wait::Partition { from, .. } => from == rank,
        Wait::Taken { to, .. } => to == rank,
        Wait::Shape { from, .. } => from == rank,
        Wait::OwnPartition { .. } => false,
    }
}

/// Whether one of these things could come from a rank.
fn brings_any(rank: u8, waits: &[Wait]) -> bool
    ensures { result ≡ list_any (could_bring_of rank) waits.now }
{
    waits.iter().any(|wait| could_bring(rank, wait))
}

/// Whether a hart that waits for these things waits for a rank, which isn't its own.
fn is_awaited(own: u8, waits: &[Wait], rank: u8) -> bool
    ensures { result ≡ is_awaited_of own waits.now rank }
{
    rank != own && brings_any(rank, waits)
}

/// Adds a rank, if it is waited for.
#[tactic(auto, unfolding(crate::specs::Ends::awaited_if))]
fn put_awaited(awaited: &mut Vec<u8>, own: u8, waits: &[Wait], rank: u8) -> Result<(), AllocError>
    ensures { OnOk result (awaited.new.items ≡ awaited.old.items ++ awaited_if own waits.now rank) }
{
    if is_awaited(own, waits, rank) {
        awaited.push(rank)?;
    }
    Ok(())
}

/// The ranks that are waited for, in order.
fn awaited_of(alloc: Global, ranks: u8, own: u8, waits: &[Wait]) -> Result<Vec<u8>, AllocError>
    ensures { IfOk result (λ awaited. awaited.items ≡ awaited_in ranks own waits.now) }
{
    let mut awaited = Vec::new(alloc);
    for rank in 0..ranks {
        put_awaited(&mut awaited, own, waits, rank)?;
    }
    Ok(awaited)
}

/// Whether a rank is among these.
fn is_among(ranks: &[u8], rank: u8) -> bool
    ensures { result ≡ list_any (λ other. other == rank) ranks.now }
{
    ranks.iter().any(|other| *other == rank)
}

/// Whether a rank is among those of a deadlock.
fn is_stuck(found: &Option<Vec<u8>>, rank: u8) -> bool
    ensures { result ≡ is_stuck_in (option_map (λ ranks. ranks.items) found.now) rank }
{
    match found {
        None => false,
        Some(ranks) => is_among(ranks.as_slice(), rank),
    }
}

/// A hart of a cluster of so many ranks.
#[derive(Clone, Copy, Drop)]
struct Seat {
    ranks: u8,
    rank: u8,
    hart: u8,
}

/// Adds the row of a hart that waits for these things, if there are any.
fn put_waits(
    alloc: Global,
    rows: &mut Vec<Row>,
    found: &Option<Vec<u8>>,
    seat: Seat,
    waits: &[Wait],
) -> Result<(), AllocError>
    ensures { OnOk result (map awaits_of rows.new.items
        ≡ map awaits_of rows.old.items
        ++ row_if seat.ranks (option_map (λ ranks. ranks.items) found.now) seat.rank seat.hart waits.now) }
{
    if waits.is_empty() {
        return Ok(());
    }
    let awaited = awaited_of(alloc, seat.ranks, seat.rank, waits)?;
    rows.push(Row {
        rank: seat.rank,
        hart: seat.hart,
        awaited,
        stuck: is_stuck(found, seat.rank),
    })?;
    Ok(())
}

/// What a rank's hart waits for, if it waits.
fn waits_of(
    alloc: Global,
    state: &ClusterState,
    own: &RankState,
    hart: u8,
) -> Result<Vec<Wait>, AllocError>
    ensures { IfOk result (λ found.
        found.items ≡ waits_if state.now own.now hart (slice_get own.now.harts.items hart)) }
{
    let number = usize::from(hart);
    match own.harts.get(number) {
        None => Ok(Vec::new(alloc)),
        Some(is) => {
            if is_waiting(is.mode()) {
                waits(alloc, &state.hub, state.boxes.as_slice(), own, number)
            } else {
                Ok(Vec::new(alloc))
            }
        }
    }
}

/// What a hart waits for, if it waits.
fn waits_in(
    alloc: Global,
    state: &ClusterState,
    rank: u8,
    hart: u8,
) -> Result<Vec<Wait>, AllocError>
    ensures { IfOk result (λ found.
        found.items ≡ waits_at state.now hart (slice_get state.now.ranks.items rank)) }
{
    match state.ranks.get(usize::from(rank)) {
        None => Ok(Vec::new(alloc)),
        Some(own) => waits_of(alloc, state, own, hart),
    }
}

/// Adds the row of a hart, if it waits.
#[tactic(auto, unfolding(crate::specs::Ends::hart_row))]
fn put_row(
    alloc: Global,
    rows: &mut Vec<Row>,
    state: &ClusterState,
    found: &Option<Vec<u8>>,
    seat: Seat,
) -> Result<(), AllocError>
    ensures { OnOk result (map awaits_of rows.new.items
        ≡ map awaits_of rows.old.items
        ++ hart_row seat.ranks state.now (option_map (λ ranks. ranks.items) found.now) seat.rank seat.hart) }
{
    let waits = waits_in(alloc, state, seat.rank, seat.hart)?;
    put_waits(alloc, rows, found, seat, waits.as_slice())
}

/// Adds the rows of a rank's harts.
#[tactic(auto, unfolding(crate::specs::Ends::rank_rows))]
fn put_rank_rows(
    alloc: Global,
    rows: &mut Vec<Row>,
    state: &ClusterState,
    found: &Option<Vec<u8>>,
    parts: &ImageParts,
    rank: u8,
) -> Result<(), AllocError>
    ensures { OnOk result (map awaits_of rows.new.items
        ≡ map awaits_of rows.old.items
        ++ rank_rows parts.now state.now (option_map (λ ranks. ranks.items) found.now) rank) }
{
    let ranks = parts.ranks;
    for hart in 0..parts.harts {
        put_row(alloc, rows, state, found, Seat { ranks, rank, hart })?;
    }
    Ok(())
}

/// The rows of all harts that wait, in order.
fn all_rows(
    alloc: Global,
    state: &ClusterState,
    found: &Option<Vec<u8>>,
    parts: &ImageParts,
) -> Result<Vec<Row>, AllocError>
    ensures { IfOk result (λ rows.
        AreRowsOf parts.now state.now (option_map (λ ranks. ranks.items) found.now) rows.items) }
{
    let mut rows = Vec::new(alloc);
    for rank in 0..parts.ranks {
        put_rank_rows(alloc, &mut rows, state, found, parts, rank)?;
    }
    Ok(rows)
}

/// The rows of all harts that wait, with the deadlock that there is.
fn rows_of(alloc: Global, state: &ClusterState, parts: &ImageParts) -> Result<Vec<Row>, AllocError>
    ensures { IfOk result (λ rows. AreRows parts.now state.now rows.items) }
{
    let found = deadlock(alloc, state)?;
    let rows = all_rows(alloc, state, &found, parts)?;
    Ok(rows)
}

/// What `why` tells of a state where there is a row; else nothing.
fn told_of(
    alloc: Global,
    image: &Image,
    state: &ClusterState,
    rows: &[Row],
) -> Result<Vec<u8>, AllocError>
    ensures { IfOk result (λ told. IsToldOf image.now state.now rows.now told.items) }
{
    if rows.is_empty() {
        return Ok(Vec::new(alloc));
    }
    why(alloc, image, state, false)
}

/// What is told of a place.
#[derive(Drop)]
pub(crate) struct End {
    pub(crate) rows: Vec<Row>,
    pub(crate) told: Vec<u8>,
}

/// What is told of a state. The only error is want of memory.
pub(crate) fn end_of(alloc: Global, image: &Image, state: &ClusterState) -> Result<End, AllocError>
    ensures { IfOk result (λ end. IsToldEnd image.now state.now end.rows.items end.told.items) }
{
    let parts = image.parts();
    let rows = rows_of(alloc, state, parts)?;
    let told = told_of(alloc, image, state, rows.as_slice())?;
    Ok(End { rows, told })
}
