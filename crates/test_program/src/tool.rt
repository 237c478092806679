//! The program on slices and vectors.

ghost use Rattle.std.specs.Prelude.{◌≡◌, ◌≢◌, ◌++◌, ℕ, List, codes, false, map, take, true};
ghost use Rattle.std.specs.Io.{StartsWith};
ghost use Rattle.rvmc_tool.specs.Plain.{plain_meaning_of};
ghost use Rattle.rvmc_tool.specs.Progress.{want_progress};
ghost use Rattle.rvmc_tool.specs.Tool.{is_quiet};

use rvmc_hints::laws::hint_law;
use rvmc_tool::{tool, tool_plain};
use std::alloc::Global;
use std::sync::Wait;
use std::thread::Threads;

/// Words that are no command line leave the input and the output as they were.
#[tactic(auto, unfolding(rvmc_cli::specs::Meaning::faults_in, rvmc_cli::specs::Meaning::command_in, rvmc_cli::specs::Commands::line_in, clap::proofs::OnLiterals::clap_on_literals))]
pub fn refused_words_read_nothing(
    alloc: Global,
    input: &mut &[u8],
    out: &mut Vec<u8>,
    err: &mut Vec<u8>,
) -> u8
    ensures input { input.new.now ≡ input.old.now }
    ensures output { result ≢ 6 → out.new.items ≡ out.old.items }
{
    tool_plain(alloc, &["fly"], input, out, err)
}

/// Where there are no threads, `run` leaves the input as it was.
#[tactic(auto, unfolding(rvmc_cli::specs::Meaning::faults_in, rvmc_cli::specs::Meaning::command_in, rvmc_cli::specs::Commands::line_in, clap::proofs::OnLiterals::clap_on_literals))]
pub fn run_needs_threads(
    alloc: Global,
    input: &mut &[u8],
    out: &mut Vec<u8>,
    err: &mut Vec<u8>,
) -> u8
    ensures output { result ≢ 6 → out.new.items ≡ out.old.items }
    ensures input { input.new.now ≡ input.old.now }
{
    tool_plain(alloc, &["run"], input, out, err)
}

/// Where there are, refused words still read nothing.
#[tactic(auto, unfolding(rvmc_cli::specs::Meaning::faults_in, rvmc_cli::specs::Meaning::command_in, rvmc_cli::specs::Commands::line_in, clap::proofs::OnLiterals::clap_on_literals))]
pub fn threads_read_nothing_of_refused_words<R: Threads + Wait + Sync>(
    rt: &R,
    alloc: Global,
    input: &mut &[u8],
    out: &mut Vec<u8>,
    err: &mut Vec<u8>,
) -> u8
    ensures { input.new.now ≡ input.old.now }
{
    tool(rt, alloc, &["fly"], input, out, err)
}

/// With the statuses 0, 3, 4 and 7 no fault's line stands on standard error: what comes there begins as a hint does, unless
/// the words ask for lines that say how far a search came.
pub fn quiet_statuses_tell_hints_alone<'a>(
    alloc: Global,
    words: &'a [&'a str],
    input: &mut &[u8],
    out: &mut Vec<u8>,
    err: &mut Vec<u8>,
) -> u8
    ensures { want_progress (plain_meaning_of (map (λ w. w.now) words.entry.now)) ≡ false → is_quiet result ≡ true
        → (said : List ℕ) × (err.new.items ≡ err.old.items ++ said) × StartsWith (codes "hint: ") (take 6 said) }
{
    let status = tool_plain(alloc, words, input, out, err);
    hint_law();
    status
}
