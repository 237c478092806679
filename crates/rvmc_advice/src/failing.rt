//! The line of a fault, and the hint behind it.

ghost use Rattle.std.specs.Prelude.{◌≡◌, ◌≢◌, false};
ghost use Rattle.rvmc_advice.specs.Quiet.{is_quiet};
ghost use Rattle.rvmc_answers.specs.Below.{fault_status};

use crate::hints::{put_hint, tell_hint};
use rvmc_answers::faults::Fault;
use rvmc_hints::Hint;
use rvmc_line::CommandLine;
use std::alloc::Global;
use std::io::Write;

/// Writes a fault's line on standard error, and tells whether it stands there.
fn put_fault<E: Write>(err: &mut E, fault: Fault) -> bool {
    writeln!(err, "rvmc: {fault}").is_ok() && err.flush().is_ok()
}

/// Tells a fault on standard error, and gives its status: 6 where the line can't be written.
pub fn fail<E: Write>(err: &mut E, fault: Fault) -> u8
    ensures status { result ≢ 6 → result ≡ fault_status fault }
    ensures loud { is_quiet result ≡ false }
{
    if put_fault(err, fault) {
        fault.status()
    } else {
        Fault::Write.status()
    }
}

/// The same, with a hint behind the line where there is one. A hint changes no status.
pub fn fail_with_hint<E: Write>(
    alloc: Global,
    line: &CommandLine,
    bytes: &[u8],
    fault: Fault,
    err: &mut E,
) -> u8
    ensures status { result ≢ 6 → result ≡ fault_status fault }
    ensures loud { is_quiet result ≡ false }
{
    if !put_fault(err, fault) {
        return Fault::Write.status();
    }
    tell_hint(alloc, line, bytes, &fault, err);
    fault.status()
}

/// Tells that the input can't be read, or is too long, and which can.
pub fn fail_to_read<E: Write>(err: &mut E) -> u8
    ensures status { result ≡ 6 }
{
    if put_fault(err, Fault::Read) {
        put_hint(err, Hint::Input);
    }
    Fault::Read.status()
}
