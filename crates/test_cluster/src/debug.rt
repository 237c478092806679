//! A record that is walked through.
ghost use Rattle.std.specs.Prelude.{IfOk};
ghost use Rattle.cl_debug.specs.Debugging.{at_place};
ghost use Rattle.cl_debug.specs.Shown.{ShowsBytes, ShowsHart};

use cl_debug::{DebugFault, Debugger};
use rv_hart::Hart;

/// After `go` a hart is shown as it is at that place, and not at the next.
pub fn a_hart_is_that_of_its_place(
    debugger: &mut Debugger,
    n: u64,
    rank: u8,
    hart: u8,
) -> Result<Hart, DebugFault>
    ensures { IfOk result (ShowsHart (at_place debugger.old n) rank hart) }
{
    debugger.go(n)?;
    let shown = debugger.regs(rank, hart)?;
    Ok(*shown)
}

/// So are the bytes of a rank.
pub fn bytes_are_those_of_their_place(
    debugger: &mut Debugger,
    n: u64,
    rank: u8,
    address: u64,
    count: u64,
) -> Result<Vec<u8>, DebugFault>
    ensures { IfOk result
        (λ bytes. ShowsBytes (at_place debugger.old n) rank address count bytes.items) }
{
    debugger.go(n)?;
    debugger.bytes(rank, address, count)
}
