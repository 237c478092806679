//! What the text of a start and the text of all of them have in common.

ghost use Rattle.std.specs.Prelude.{◌≡◌, ◌++◌, IfOk, OnOk, codes, string_bytes};
ghost use Rattle.rvmc_starts.specs.Telling.{count_text, summary, unending_line};

use std::alloc::{AllocError, Global};

/// How many there are of what a word names: `1 end`, `2 ends`.
pub(crate) fn counted(alloc: Global, count: u128, word: &str) -> Result<String, AllocError>
    ensures { IfOk result (λ text. string_bytes text ≡ count_text count word.now) }
{
    if count == 1 {
        format!(in alloc; "1 {word}")
    } else {
        format!(in alloc; "{count} {word}s")
    }
}

/// `2 outcomes of 20 states`.
pub(crate) fn summary(alloc: Global, ends: u64, states: u128) -> Result<String, AllocError>
    ensures { IfOk result (λ text. string_bytes text ≡ summary ends states) }
{
    let ends = counted(alloc, u128::from(ends), "outcome")?;
    let states = counted(alloc, states, "state")?;
    format!(in alloc; "{ends} of {states}")
}

/// Adds the line that says that some runs go on for ever, where they do.
pub(crate) fn put_unending(text: &mut Vec<u8>, unending: bool) -> Result<(), AllocError>
    ensures { OnOk result (text.new.items ≡ text.old.items ++ unending_line unending) }
{
    if unending {
        text.extend_from_slice(b"some runs go on for ever\n")?;
    }
    Ok(())
}
