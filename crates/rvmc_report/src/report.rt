//! The report of a run, and its status.

ghost use Rattle.std.specs.Prelude.{◌≡◌, ◌++◌, IfOk, OnOk, string_bytes};
ghost use Rattle.std.specs.List.{list_any};
ghost use Rattle.rvmc_report.specs.Report.{hart_text, harts_text, has_trapped, is_cut_short, is_trapped};
ghost use Rattle.rvmc_report.specs.WholeRecord.{HasEachRank};
ghost use Rattle.rvmc_report.specs.Report.{mode_text, output_head, output_text, rank_end, rank_ends, rank_text, report};
ghost use Rattle.rvmc_report.specs.Report.{status_of, stop_line, stop_text, wants_memory};

use cl_rank::{RankState, Stop};
use cl_record::Record;
use rv_hart::{Hart, Mode};
use std::alloc::{AllocError, Global};

/// How a hart stands, as `ended 0` or `trapped 1 at 0x4`.
fn mode_text(alloc: Global, hart: &Hart) -> Result<String, AllocError>
    ensures { IfOk result (λ text. string_bytes text ≡ mode_text hart.now.mode hart.now.pc) }
{
    let pc = hart.pc();
    match hart.mode() {
        Mode::Running => format!(in alloc; "running at 0x{pc:x}"),
        Mode::Waiting(_) => format!(in alloc; "waiting at 0x{pc:x}"),
        Mode::Ended(code) => format!(in alloc; "ended {code}"),
        Mode::Trapped(cause, at) => {
            let number = cause.number();
            format!(in alloc; "trapped {number} at 0x{at:x}")
        }
    }
}

/// The line of a hart, as `rank 0 hart 0 running at 0x8`, with a newline behind it.
pub fn hart_line(
    alloc: Global,
    rank: usize,
    number: usize,
    hart: &Hart,
) -> Result<String, AllocError>
    ensures { IfOk result (λ text. string_bytes text ≡ hart_text rank number hart.now) }
{
    let mode = mode_text(alloc, hart)?;
    format!(in alloc; "rank {rank} hart {number} {mode}\n")
}

/// The line before a rank's output.
fn output_line(alloc: Global, rank: usize, count: usize) -> Result<String, AllocError>
    ensures { IfOk result (λ text. string_bytes text ≡ output_head rank count) }
{
    format!(in alloc; "rank {rank} output {count}\n")
}

/// Why a rank stopped, in a word.
fn stop_name(stop: Option<Stop>) -> &'static str
    ensures { result.now ≡ stop_text stop }
{
    match stop {
        Some(Stop::AllEnded) => "all-ended",
        Some(Stop::Budget) => "budget",
        Some(Stop::Memory) => "memory",
        Some(Stop::ClockFull(_)) => "clock",
        Some(Stop::Calls(_)) => "calls",
        None => "unknown",
    }
}

/// The line of a rank's stop.
pub(crate) fn stop_text(
    alloc: Global,
    rank: usize,
    stop: Option<Stop>,
    turns: u64,
) -> Result<String, AllocError>
    ensures { IfOk result (λ text. string_bytes text ≡ stop_line rank stop turns) }
{
    let name = stop_name(stop);
    format!(in alloc; "rank {rank} stop {name} turns {turns}\n")
}

/// Adds a rank's output, with the line before it.
pub fn put_output(
    alloc: Global,
    report: &mut Vec<u8>,
    rank: usize,
    output: &[u8],
) -> Result<(), AllocError>
    ensures { OnOk result (report.new.items ≡ report.old.items ++ output_text rank output.now) }
{
    let head = output_line(alloc, rank, output.len())?;
    report.extend_from_slice(head.as_bytes())?;
    report.extend_from_slice(output)?;
    report.push(b'\n')?;
    Ok(())
}

/// Adds the lines of a rank's harts.
pub fn put_harts(
    alloc: Global,
    report: &mut Vec<u8>,
    rank: usize,
    harts: &[Hart],
) -> Result<(), AllocError>
    ensures { OnOk result (report.new.items ≡ report.old.items ++ harts_text rank 0 harts.now) }
{
    for number in 0..harts.len() {
        let line = hart_line(alloc, rank, number, &harts[number])?;
        report.extend_from_slice(line.as_bytes())?;
    }
    Ok(())
}

/// Adds what is told of a rank.
pub(crate) fn put_rank(
    alloc: Global,
    report: &mut Vec<u8>,
    rank: usize,
    state: &RankState,
    turns: u64,
    stop: Option<Stop>,
) -> Result<(), AllocError>
    ensures { OnOk result (report.new.items ≡ report.old.items ++ rank_text rank (rank_end state.now turns stop)) }
{
    put_output(alloc, report, rank, state.out.as_slice())?;
    put_harts(alloc, report, rank, state.harts.as_slice())?;
    let stop = stop_text(alloc, rank, stop, turns)?;
    report.extend_from_slice(stop.as_bytes())
}

/// The report of a run: of each rank in order its output, its harts, and why and after how many turns it stopped.
pub fn report(alloc: Global, left: &Record) -> Result<Vec<u8>, AllocError>
    requires { HasEachRank left.now }
    ensures { IfOk result (λ text. text.items ≡ report (rank_ends left.now)) }
{
    let mut text = Vec::new(alloc);
    for rank in 0..left.ranks.len() {
        let turns = left.traces[rank].len();
        put_rank(
            alloc,
            &mut text,
            rank,
            &left.ranks[rank],
            turns,
            Some(left.stops[rank]),
        )?;
    }
    Ok(text)
}

fn wants_memory(stop: Stop) -> bool
    ensures { result ≡ wants_memory (Some stop) }
{
    matches!(stop, Stop::Memory)
}

fn is_cut_short(stop: Stop) -> bool
    ensures { result ≡ is_cut_short (Some stop) }
{
    match stop {
        Stop::AllEnded | Stop::Memory => false,
        Stop::Budget | Stop::ClockFull(_) | Stop::Calls(_) => true,
    }
}

fn is_trapped(hart: &Hart) -> bool
    ensures { result ≡ is_trapped hart.now.mode }
{
    matches!(hart.mode(), Mode::Trapped(_, _))
}

fn has_trapped(state: &RankState) -> bool
    ensures { result ≡ has_trapped state.now.harts.items }
{
    state.harts.iter().any(|hart| is_trapped(hart))
}

fn any_wants_memory(stops: &[Stop]) -> bool
    ensures { result ≡ list_any (λ stop. wants_memory (Some stop)) stops.now }
{
    stops.iter().any(|stop| wants_memory(*stop))
}

pub(crate) fn any_has_trapped(states: &[RankState]) -> bool
    ensures { result ≡ list_any (λ state. has_trapped state.harts.items) states.now }
{
    states.iter().any(|state| has_trapped(state))
}

fn any_is_cut_short(stops: &[Stop]) -> bool
    ensures { result ≡ list_any (λ stop. is_cut_short (Some stop)) stops.now }
{
    stops.iter().any(|stop| is_cut_short(*stop))
}

/// The status of a run: 5 where memory was wanting for a rank, else 3 where a hart trapped, else 4 where a rank was
/// stopped by its budget, a full clock or too many calls, else 0.
#[tactic(auto, using(crate::proofs::Ends::status_by_lists))]
pub fn status(left: &Record) -> u8
    requires { HasEachRank left.now }
    ensures { result ≡ status_of (rank_ends left.now) }
{
    if any_wants_memory(left.stops.as_slice()) {
        return 5;
    }
    if any_has_trapped(left.ranks.as_slice()) {
        return 3;
    }
    if any_is_cut_short(left.stops.as_slice()) {
        return 4;
    }
    0
}
