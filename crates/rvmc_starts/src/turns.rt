//! How the turns of a start are written: runs of equal ones are joined.

ghost use Rattle.std.specs.Prelude.{◌≡◌, ◌++◌, ◌∷◌, ◌<◌, [], IfOk, OnOk, map, replicate};
ghost use Rattle.std.specs.List.{join_by};
ghost use Rattle.rvmc_starts.specs.Turns.{each_item, item_in, joins, missed_in, rank_in, run_in, run_text, runs_of, turns_in, turns_text};

use crate::words::{parts, put_number};
use cl_turns::Turn;
use rvmc_words::number_in;
use std::alloc::{AllocError, Global};
use std::marker::Model;

/// Turns of an order, the first one first. Contracts see a list of turns.
#[derive(Drop)]
pub struct Turns {
    items: Vec<Turn>,
}

impl Model for Turns {
    ghost use Rattle.std.specs.Prelude.{List};
    ghost use Rattle.cl_turns.specs.declared.Turn.{Turn};

    ghost Value = { List Turn };

    ghost view = { λ turns. turns.items.items };
}

impl Turns {
    /// The vector's turns. Takes no memory.
    pub fn from_vec(items: Vec<Turn>) -> Turns
        ensures { result ≡ items.items }
    {
        Turns { items }
    }

    /// The turns, in order.
    pub fn as_slice(&self) -> &[Turn]
        ensures { result.now ≡ self.now }
    {
        self.items.as_slice()
    }
}

/// The most turns that one item of a text writes.
const MOST_TURNS: u64 = 16_777_216;

/// So many turns that are equal.
#[derive(Clone, Copy, Drop)]
struct Run {
    turn: Turn,
    count: u64,
}

/// Whether a turn is written in the item of the run before it.
fn joins(run: Run, turn: Turn) -> bool
    ensures { result ≡ joins run turn }
{
    run.turn == turn && !turn.misses && run.count < MOST_TURNS
}

/// The runs in which turns are written.
fn runs_of(alloc: Global, turns: &[Turn]) -> Result<Vec<Run>, AllocError>
    ensures { IfOk result (λ runs. runs.items ≡ runs_of turns.now) }
{
    let mut runs = Vec::new(alloc);
    let Some((first, others)) = turns.split_first() else {
        return Ok(runs);
    };
    let mut run = Run {
        turn: *first,
        count: 1,
    };
    for turn in others {
        if joins(run, *turn) {
            run.count += 1;
        } else {
            runs.push(run)?;
            run = Run {
                turn: *turn,
                count: 1,
            };
        }
    }
    runs.push(run)?;
    Ok(runs)
}

/// Adds one item: `3`, `0x18` or `2-`.
fn put_run(alloc: Global, text: &mut Vec<u8>, run: Run) -> Result<(), AllocError>
    ensures { OnOk result (text.new.items ≡ text.old.items ++ run_text run) }
{
    put_number(alloc, text, u64::from(run.turn.rank))?;
    if run.turn.misses {
        text.push(b'-')?;
        return Ok(());
    }
    if run.count == 1 {
        return Ok(());
    }
    text.push(b'x')?;
    put_number(alloc, text, run.count)
}

/// Adds items, with one comma between each two.
fn put_runs(alloc: Global, text: &mut Vec<u8>, runs: &[Run]) -> Result<(), AllocError>
    ensures { OnOk result (text.new.items ≡ text.old.items ++ join_by run_text (44 ∷ []) runs.now) }
{
    let Some((first, others)) = runs.split_first() else {
        return Ok(());
    };
    put_run(alloc, text, *first)?;
    for run in others {
        text.push(b',')?;
        put_run(alloc, text, *run)?;
    }
    Ok(())
}

/// Adds turns.
#[tactic(auto, unfolding(crate::specs::Turns::turns_text))]
pub(crate) fn put_turns(alloc: Global, text: &mut Vec<u8>, turns: &[Turn]) -> Result<(), AllocError>
    ensures { OnOk result (text.new.items ≡ text.old.items ++ turns_text turns.now) }
{
    let runs = runs_of(alloc, turns)?;
    put_runs(alloc, text, &runs)
}

fn rank_in(text: &str) -> Option<u8>
    ensures { result ≡ rank_in text.now }
{
    let rank = number_in(0, 255, text)?;
    Some(rank as u8)
}

/// A turn that misses, where nothing stands behind the sign.
fn missed_in(rank: &str, end: &str) -> Option<Run>
    ensures { result ≡ missed_in rank.now end.now }
{
    if !end.is_empty() {
        return None;
    }
    let rank = rank_in(rank)?;
    Some(Run {
        turn: Turn { rank, misses: true },
        count: 1,
    })
}

/// One turn, or a run of them.
fn run_in(parts: &[&str]) -> Option<Run>
    ensures { result ≡ run_in (map (λ part. part.now) parts.now) }
{
    match parts {
        [rank] => {
            let rank = rank_in(rank)?;
            Some(Run {
                turn: Turn {
                    rank,
                    misses: false,
                },
                count: 1,
            })
        }
        [rank, count] => {
            let rank = rank_in(rank)?;
            let count = number_in(2, MOST_TURNS, count)?;
            Some(Run {
                turn: Turn {
                    rank,
                    misses: false,
                },
                count,
            })
        }
        _ => None,
    }
}

/// The run that an item writes.
#[tactic(auto, unfolding(crate::specs::Turns::item_in))]
fn item_in(alloc: Global, text: &str) -> Result<Option<Run>, AllocError>
    ensures { IfOk result (λ found. found ≡ item_in text.now) }
{
    let sides = parts(alloc, '-', text)?;
    match sides.as_slice() {
        [plain] => {
            let parts = parts(alloc, 'x', plain)?;
            Ok(run_in(&parts))
        }
        [rank, end] => Ok(missed_in(rank, end)),
        _ => Ok(None),
    }
}

/// Adds the turns of a run.
fn push_run(turns: &mut Vec<Turn>, run: Run) -> Result<(), AllocError>
    ensures { OnOk result (turns.new.items ≡ turns.old.items ++ replicate run.count run.turn) }
{
    for _place in 0..run.count {
        turns.push(run.turn)?;
    }
    Ok(())
}

/// The turns of all items, or None where one of the texts is no item.
fn each_item(alloc: Global, texts: &[&str]) -> Result<Option<Turns>, AllocError>
    ensures { IfOk result (λ found. found ≡ each_item (map (λ text. text.now) texts.now)) }
{
    let mut items = Vec::new(alloc);
    for text in texts {
        let Some(run) = item_in(alloc, text)? else {
            return Ok(None);
        };
        push_run(&mut items, run)?;
    }
    Ok(Some(Turns { items }))
}

/// The turns that a text writes.
#[tactic(auto, unfolding(crate::specs::Turns::turns_in))]
pub(crate) fn turns_in(alloc: Global, text: &str) -> Result<Option<Turns>, AllocError>
    ensures { IfOk result (λ found. found ≡ turns_in text.now) }
{
    if text.is_empty() {
        return Ok(Some(Turns {
            items: Vec::new(alloc),
        }));
    }
    let items = parts(alloc, ',', text)?;
    each_item(alloc, &items)
}
