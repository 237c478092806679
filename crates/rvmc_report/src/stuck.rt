//! The report of a run whose ranks were told to stop.

ghost use Rattle.std.specs.Prelude.{◌≡◌, ◌++◌, IfOk, OnOk, Some, string_bytes};
ghost use Rattle.rvmc_report.specs.Report.{rank_end, rank_ends};
ghost use Rattle.rvmc_report.specs.Stuck.{end_line, told_rank, is_told, told_report};
ghost use Rattle.rvmc_report.specs.WholeRecord.{HasEachRank};

use crate::report::{put_harts, put_output, stop_text};
use cl_rank::{RankState, Stop};
use cl_record::Record;
use std::alloc::{AllocError, Global};

/// Whether a rank was told to stop before its turns were used up, of which it has so many.
fn is_told(budget: u64, stop: Stop, turns: u64) -> bool
    ensures { result ≡ is_told budget (Some stop) turns }
{
    matches!(stop, Stop::Budget) && turns < budget
}

/// The line of a rank's stop: this word where it was told to stop.
fn end_line(
    alloc: Global,
    word: &str,
    budget: u64,
    rank: usize,
    stop: Stop,
    turns: u64,
) -> Result<String, AllocError>
    ensures { IfOk result (λ text. string_bytes text ≡ end_line word.now budget rank (Some stop) turns) }
{
    if is_told(budget, stop, turns) {
        format!(in alloc; "rank {rank} stop {word} turns {turns}\n")
    } else {
        stop_text(alloc, rank, Some(stop), turns)
    }
}

/// Adds what is told of a rank.
#[tactic(auto, unfolding(crate::specs::Stuck::told_rank))]
fn put_told(
    alloc: Global,
    report: &mut Vec<u8>,
    word: &str,
    budget: u64,
    rank: usize,
    state: &RankState,
    turns: u64,
    stop: Stop,
) -> Result<(), AllocError>
    ensures { OnOk result (report.new.items
        ≡ report.old.items ++ told_rank word.now budget rank (rank_end state.now turns (Some stop))) }
{
    put_output(alloc, report, rank, state.out.as_slice())?;
    put_harts(alloc, report, rank, state.harts.as_slice())?;
    let line = end_line(alloc, word, budget, rank, stop, turns)?;
    report.extend_from_slice(line.as_bytes())
}

/// The report of a run whose ranks were told to stop: that of any run, but that of a rank it says this word which was told
/// to before its turns were used up. Each rank has so many turns by its plan.
pub fn told_report(
    alloc: Global,
    left: &Record,
    word: &str,
    budget: u64,
) -> Result<Vec<u8>, AllocError>
    requires { HasEachRank left.now }
    ensures { IfOk result (λ text. text.items ≡ told_report word.now budget (rank_ends left.now)) }
{
    let mut text = Vec::new(alloc);
    for rank in 0..left.ranks.len() {
        let turns = left.traces[rank].len();
        put_told(
            alloc,
            &mut text,
            word,
            budget,
            rank,
            &left.ranks[rank],
            turns,
            left.stops[rank],
        )?;
    }
    Ok(text)
}
