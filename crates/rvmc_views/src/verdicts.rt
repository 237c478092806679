//! The line that tells what was found of a record's steps, and its status.

ghost use Rattle.std.specs.Prelude.{◌≡◌, IfOk, string_bytes};
ghost use Rattle.rvmc_views.specs.Verdicts.{verdict_status, verdict_text};

use cl_check::Verdict;
use std::alloc::{AllocError, Global};

/// `good LEN`, where LEN is the number of steps, or `bad N`, where N is the number of the wrong one, with a newline
/// behind it.
pub fn verdict_text(alloc: Global, verdict: Verdict, count: usize) -> Result<String, AllocError>
    ensures { IfOk result (λ text. string_bytes text ≡ verdict_text verdict count) }
{
    match verdict {
        Verdict::Good => format!(in alloc; "good {count}\n"),
        Verdict::BadAt(n) => format!(in alloc; "bad {n}\n"),
    }
}

/// 0 where the steps are good, and 1 where one is wrong.
pub fn verdict_status(verdict: Verdict) -> u8
    ensures { result ≡ verdict_status verdict }
{
    match verdict {
        Verdict::Good => 0,
        Verdict::BadAt(_) => 1,
    }
}
