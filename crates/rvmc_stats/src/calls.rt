//! Calls and how they ended, as rows and columns.

ghost use Rattle.std.specs.Prelude.{◌≡◌};
ghost use Rattle.rvmc_stats.specs.Counted.{call_row as call_row_of, code_place as code_place_of};
ghost use Rattle.rvmc_stats.specs.Counted.{outcome_place as outcome_place_of};

use cl_calls::{NUMBERS_END, is_call_number};
use rv_decode::Reg;
use rv_hart::{Hart, Mode};

/// The row of numbers that are no call's, behind those of all calls.
const NO_CALL: usize = NUMBERS_END as usize;

/// How many rows there are.
pub(crate) const CALL_ROWS: usize = NO_CALL + 1;

/// The row of the call of a number.
pub(crate) fn call_row(number: u64) -> usize
    ensures { result ≡ call_row_of number }
{
    if is_call_number(number) {
        number as usize
    } else {
        NO_CALL
    }
}

/// The column of the number that a call left in a0.
fn code_place(code: u64) -> usize
    ensures { result ≡ code_place_of code }
{
    if code < 17 { code as usize } else { 17 }
}

/// The column of how a call ended, of its hart after it.
pub(crate) fn outcome_place(after: &Hart) -> usize
    ensures { result ≡ outcome_place_of after.now after.now.mode }
{
    match after.mode() {
        Mode::Running => code_place(after.get(Reg::new(10))),
        Mode::Waiting(_) => 18,
        Mode::Ended(_) => 19,
        Mode::Trapped(_, _) => 20,
    }
}
