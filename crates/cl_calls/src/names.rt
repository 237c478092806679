//! The numbers and the names of calls, as docs/CALLS.md lists them.

ghost use Rattle.std.specs.Prelude.{◌≡◌, ◌<◌, IsTrue, MatchOption, None, Some, map};
ghost use Rattle.cl_calls.specs.Calls.{argument};
ghost use Rattle.cl_calls.specs.Names.{CallNumbersLaw, call_name as call_name_of, call_names, call_number as call_number_of};
ghost use Rattle.cl_calls.specs.Names.{is_call_number as is_call_number_of, name_in as name_in_of, number_in as number_in_of};
ghost use Rattle.cl_calls.specs.Names.{numbers_end, row_view};

use crate::rows::{IRECV, PARRIVED, PREADY, RECV, SEND, WAIT, calls};
use rv_decode::Reg;
use rv_hart::Hart;

/// A call's number, and its name.
struct CallName {
    number: u64,
    name: &'static str,
}

/// The numbers and the names of the rows. What their calls are is left out, so the word for the hart names nothing.
macro_rules! numbers_and_names {
    ($hart:ident $($number:tt $name:literal $call:expr;)*) => {
        [$(CallName { number: $number, name: $name }),*]
    };
}

static CALLS: &[CallName] = &calls!(numbers_and_names, hart);

/// All calls. No other function names the table, since each that does takes long to prove.
fn all_calls() -> &'static [CallName]
    ensures { map row_view result.now ≡ call_names }
{
    CALLS
}

/// The name in the row of a number.
fn name_in(table: &'static [CallName], number: u64) -> Option<&'static str>
    ensures { MatchOption result (name_in_of number (map row_view table.now) ≡ None)
        (λ name. name_in_of number (map row_view table.now) ≡ Some name.now) }
{
    for row in table {
        if row.number == number {
            return Some(row.name);
        }
    }
    None
}

/// The number in the row of a name.
fn number_in(table: &[CallName], name: &[u8]) -> Option<u64>
    ensures { result ≡ number_in_of name.now (map row_view table.now) }
{
    for row in table {
        if row.name.as_bytes() == name {
            return Some(row.number);
        }
    }
    None
}

/// The name of the call of a number, as `SEND_INIT`; `no call` where the number is no call's.
#[tactic(auto, unfolding(crate::specs::Names::call_name))]
pub fn call_name(number: u64) -> &'static str
    ensures { result.now ≡ call_name_of number }
{
    match name_in(all_calls(), number) {
        Some(name) => name,
        None => "no call",
    }
}

/// Whether a number is a call's.
#[tactic(auto, unfolding(crate::specs::Names::is_call_number))]
pub fn is_call_number(number: u64) -> bool
    ensures is { result ≡ is_call_number_of number }
    ensures below { IsTrue result → number < numbers_end }
{
    match name_in(all_calls(), number) {
        Some(_) => true,
        None => false,
    }
}

/// The number of the call of a name.
#[tactic(auto, unfolding(crate::specs::Names::call_number))]
pub fn call_number(name: &[u8]) -> Option<u64>
    ensures { result ≡ call_number_of name.now }
{
    number_in(all_calls(), name)
}

/// The number that a hart's registers spell for a call, whether it is a call's or not.
pub fn called_number(hart: &Hart) -> u64
    ensures { result ≡ argument hart.now 7 }
{
    hart.get(Reg::new(17))
}

/// A law: no number and no name stands twice in the table, and the greatest of the numbers is the one just below
/// NUMBERS_END. The function does nothing.
#[tactic(auto, using(crate::proofs::Once::names_once, crate::proofs::Once::numbers_once), unfolding(crate::specs::Names::is_call_number))]
pub fn call_numbers_law()
    ensures { CallNumbersLaw }
{}
