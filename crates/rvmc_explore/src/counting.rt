//! How many ends look like an outcome.

ghost use Rattle.std.specs.Prelude.{◌≡◌, ◌++◌, IfOk, OnOk, string_bytes};
ghost use Rattle.rvmc_explore.specs.Telling.{ends_line, ends_lines};

use crate::outcomes::Outcome;
use std::alloc::{AllocError, Global};

/// The line that says how many ends have the text of this outcome, if two or more do.
fn ends_line(alloc: Global, number: usize, ends: usize) -> Result<String, AllocError>
    ensures { IfOk result (λ text. string_bytes text ≡ ends_line number ends) }
{
    if ends < 2 {
        Ok(String::new(alloc))
    } else {
        format!(in alloc; "{ends} ends look like outcome {number}\n")
    }
}

/// Adds the lines of all outcomes, in their order.
pub(crate) fn put_counts(
    alloc: Global,
    text: &mut Vec<u8>,
    told: &[Outcome],
) -> Result<(), AllocError>
    ensures { OnOk result (text.new.items ≡ text.old.items ++ ends_lines 1 told.now) }
{
    for place in 0..told.len() {
        let line = ends_line(alloc, place + 1, told[place].ends)?;
        text.extend_from_slice(line.as_bytes())?;
    }
    Ok(())
}
