//! A record in tables.

ghost use Rattle.std.specs.Prelude.{◌≡◌, ◌≤◌, ◌/◌, ◌++◌, ◌<◌, ◌^◌, [], IfErr, IfOk, OnOk, length};
ghost use Rattle.cl_replay.specs.InnerReplaying.{ReplayFaultHolds, StepBreaks};
ghost use Rattle.cl_replay.specs.Replaying.{IsReached};
ghost use Rattle.cl_replay.specs.Steps.{Leads};
ghost use Rattle.rvmc_list.specs.List.{ListFaultHolds};
ghost use Rattle.rvmc_list.specs.Putting.{IsStart};
ghost use Rattle.rvmc_list.specs.Stats.{IsStats, IsTablesText, text_words};
ghost use Rattle.rvmc_list.specs.Counting.{AreAllCounted, CountsStep};
ghost use Rattle.rvmc_stats.specs.Tables.{AreOf};

use crate::folding::{Wanted, is_of_rank};
use crate::places::put_places;
use crate::walk::{ListFault, do_step, start};
use cl_machine::Step;
use cl_replay::{ClusterState, ReplayFault};
use rv_image_types::{Image, Symbol};
use rvmc_stats::{Tables, put_calls, put_messages, put_turns};
use std::alloc::{AllocError, Global};
use std::io;

/// Does a step that stands at this place, and counts it if its rank is wanted.
#[tactic(auto, using(crate::proofs::Counts::not_counted, crate::proofs::Counts::not_done))]
fn count_step(
    state: &mut ClusterState,
    tables: &mut Tables,
    rank: Option<u64>,
    place: u64,
    step: &Step,
) -> Result<(), ReplayFault>
    ensures leads { OnOk result (Leads state.old step.now state.new) }
    ensures counts { OnOk result (CountsStep rank state.old place step.now state.new tables.old tables.new) }
    ensures fault { IfErr result (StepBreaks state.old place step.now) }
{
    if !is_of_rank(rank, step.rank()) {
        return state.step_at(place, step);
    }
    let Some(done) = do_step(state, place, step)? else {
        return Ok(());
    };
    tables.add(step, &done.before.hart, &done.after.hart);
    Ok(())
}

/// Does the steps from one place to another, and counts them. After a refusal state and tables may be anything.
fn count_steps(
    state: &mut ClusterState,
    tables: &mut Tables,
    image: &Image,
    steps: &[Step],
    wanted: &Wanted,
    to: u64,
) -> Result<(), ReplayFault>
    requires reached { IsReached image.now steps.now wanted.now.from state.old }
    requires within { to ≤ length steps.now }
    ensures counted { OnOk result (AreAllCounted image.now steps.now wanted.now to tables.old tables.new) }
    ensures fault { IfErr result (ReplayFaultHolds image.now steps.now to) }
{
    for n in wanted.from..to {
        count_step(state, tables, wanted.rank, n, &steps[n as usize])?;
    }
    Ok(())
}

/// No steps, in tables for an image.
fn no_steps(alloc: Global, image: &Image) -> Result<Tables, AllocError>
    ensures none { IfOk result (AreOf image.now.ranks (text_words image.now) []) }
    ensures small { OnOk result (text_words image.now < 2 ^ 62) }
{
    let parts = image.parts();
    Tables::new(alloc, parts.ranks, parts.text.as_slice().len() / 4)
}

/// Adds the text of tables.
fn put_tables(text: &mut Vec<u8>, symbols: &[Symbol], tables: &Tables) -> io::Result<()>
    requires empty { text.old.items ≡ [] }
    requires small { length tables.now.places < 2 ^ 62 }
    ensures { OnOk result (IsTablesText symbols.now tables.now text.new.items) }
{
    put_turns(text, tables)?;
    put_calls(text, tables)?;
    put_messages(text, tables)?;
    put_places(text, symbols, tables.places())
}

/// The text of tables of an image's steps.
fn tables_text(alloc: Global, image: &Image, tables: &Tables) -> io::Result<Vec<u8>>
    requires small { length tables.now.places < 2 ^ 62 }
    ensures { IfOk result (λ text. IsTablesText image.now.symbols tables.now text.items) }
{
    let mut text = Vec::new(alloc);
    put_tables(&mut text, image.parts().symbols.as_slice(), tables)?;
    Ok(text)
}

/// Does the wanted steps, counts them in tables of none, and gives the text of these.
#[tactic(auto, using(crate::proofs::Counts::is_stats, crate::proofs::Counts::words_are, crate::proofs::Told::list_fault))]
fn counted_text(
    alloc: Global,
    image: &Image,
    steps: &[Step],
    wanted: &Wanted,
    to: u64,
    state: &mut ClusterState,
    tables: &mut Tables,
) -> Result<Vec<u8>, ListFault>
    requires none { AreOf image.now.ranks (text_words image.now) [] tables.old }
    requires small { text_words image.now < 2 ^ 62 }
    requires start { IsStart image.now steps.now wanted.now wanted.now.from state.old to }
    ensures stats { IfOk result (λ text. IsStats image.now steps.now wanted.now text.items) }
    ensures fault { IfErr result (ListFaultHolds image.now steps.now wanted.now) }
{
    count_steps(state, tables, image, steps, wanted, to)?;
    Ok(tables_text(alloc, image, tables)?)
}

/// A record in tables, from the cluster on where they begin.
#[tactic(auto, using(crate::proofs::Told::list_fault))]
fn stats_of(
    alloc: Global,
    state: &mut ClusterState,
    image: &Image,
    steps: &[Step],
    wanted: &Wanted,
    to: u64,
) -> Result<Vec<u8>, ListFault>
    requires start { IsStart image.now steps.now wanted.now wanted.now.from state.old to }
    ensures stats { IfOk result (λ text. IsStats image.now steps.now wanted.now text.items) }
    ensures fault { IfErr result (ListFaultHolds image.now steps.now wanted.now) }
{
    let mut tables = no_steps(alloc, image)?;
    counted_text(alloc, image, steps, wanted, to, state, &mut tables)
}

/// A record in tables: its wanted steps, counted by rank and kind, by call and how it ended, by the sender and the receiver
/// of the messages that they brought, and by where their harts were. `calls` of what is wanted tells nothing here.
///
/// It is refused as `list` is.
pub fn stats(
    alloc: Global,
    image: &Image,
    steps: &[Step],
    wanted: &Wanted,
) -> Result<Vec<u8>, ListFault>
    ensures stats { IfOk result (λ text. IsStats image.now steps.now wanted.now text.items) }
    ensures fault { IfErr result (ListFaultHolds image.now steps.now wanted.now) }
{
    let (mut state, to) = start(alloc, image, steps, wanted, wanted.from)?;
    stats_of(alloc, &mut state, image, steps, wanted, to)
}
