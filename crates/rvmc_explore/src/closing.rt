//! The last lines: whether the outcomes are all.

ghost use Rattle.std.specs.Prelude.{◌≡◌, IfOk, length, string_bytes};
ghost use Rattle.rvmc_explore.specs.Telling.{count_text, counts_text, last_line, needs_line, none_other, on_the_way, verdict, want};

use cl_explore::{Exploration, Needs};
use std::alloc::{AllocError, Global};

/// How many there are of what a word names.
fn counted(alloc: Global, count: usize, word: &str) -> Result<String, AllocError>
    ensures { IfOk result (λ text. string_bytes text ≡ count_text count word.now) }
{
    if count == 1 {
        format!(in alloc; "1 {word}")
    } else {
        format!(in alloc; "{count} {word}s")
    }
}

/// Why not all outcomes were told.
fn want(alloc: Global, left: usize, long: Option<u8>, turns: u64) -> Result<String, AllocError>
    ensures { IfOk result (λ text. string_bytes text ≡ want left long turns) }
{
    match long {
        Some(rank) => format!(in alloc; "not all: rank {rank} takes more than {turns} turns alone"),
        None => format!(in alloc; "not all: {left} states are left"),
    }
}

/// That all outcomes were told: with buffered sends, where standard sends mightn't wait for their receives in the search.
fn none_other(alloc: Global, may_wait: bool) -> Result<String, AllocError>
    ensures { IfOk result (λ text. string_bytes text ≡ none_other may_wait) }
{
    if may_wait {
        format!(in alloc; "no other outcome")
    } else {
        format!(in alloc; "no other outcome with buffered sends")
    }
}

/// And that it doesn't matter how long messages take, where ranks only wait for named ranks.
fn on_the_way(only_waits: bool) -> &'static str
    ensures { result.now ≡ on_the_way only_waits }
{
    if only_waits {
        ", also with messages on their way"
    } else {
        ""
    }
}

/// Whether all outcomes were told, or why not.
fn verdict(
    alloc: Global,
    left: usize,
    may_wait: bool,
    only_waits: bool,
    long: Option<u8>,
    turns: u64,
) -> Result<String, AllocError>
    ensures { IfOk result (λ text. string_bytes text ≡ verdict left may_wait only_waits long turns) }
{
    if left == 0 {
        let none = none_other(alloc, may_wait)?;
        let way = on_the_way(only_waits);
        format!(in alloc; "{none}{way}")
    } else {
        want(alloc, left, long, turns)
    }
}

/// The line that says why it isn't known whether ranks need buffers, unless standard sends are to buffer.
pub(crate) fn needs_line(alloc: Global, needs: Needs, buffered: bool) -> Result<String, AllocError>
    ensures { IfOk result (λ text. string_bytes text ≡ needs_line buffered needs) }
{
    match needs {
        Needs::Unsought if !buffered => {
            format!(in alloc;
                "whether ranks need buffers wasn't checked: they have several harts\n"
            )
        }
        Needs::Unknown => format!(in alloc;
            "not all: whether ranks need buffers is unknown; raise --states, or use --buffered\n"
        ),
        _ => Ok(String::new(alloc)),
    }
}

/// How many outcomes are told, of how many states.
fn counts(alloc: Global, outcomes: usize, states: usize) -> Result<String, AllocError>
    ensures { IfOk result (λ text. string_bytes text ≡ counts_text outcomes states) }
{
    let told = counted(alloc, outcomes, "outcome")?;
    let kept = counted(alloc, states, "state")?;
    format!(in alloc; "{told} of {kept}")
}

/// The last line.
pub(crate) fn last_line(
    alloc: Global,
    found: &Exploration,
    outcomes: usize,
    turns: u64,
) -> Result<String, AllocError>
    ensures { IfOk result (λ text. string_bytes text
        ≡ last_line outcomes (length found.now.nodes.items) found.now.left found.now.may_wait found.now.only_waits
        found.now.long turns) }
{
    let counts = counts(alloc, outcomes, found.nodes.len())?;
    let verdict = verdict(
        alloc,
        found.left,
        found.may_wait,
        found.only_waits,
        found.long,
        turns,
    )?;
    format!(in alloc; "{counts}: {verdict}\n")
}
