//! Why a rank stops.

ghost use Rattle.std.specs.Prelude.{◌≡◌};
ghost use Rattle.cl_rank.specs.Turning.{stop_of as stop_of_fault};

use cl_journal::HubFault;

/// Why a turn was not taken. The rank is then as it was.
#[derive(Clone, Copy, Drop, Debug)]
pub enum Stop {
    /// 1: there are as many events as the budget allows.
    Budget,
    /// 2: all harts are stopped.
    AllEnded,
    /// 3: memory for the turn was refused.
    Memory,
    /// 4: the stamp would be 2^62 or more. Carries the greater of the clocks of the rank and, in a call, of the hub.
    ClockFull(u64),
    /// 5: the rank has made this many calls, 1,048,576.
    Calls(u64),
}

/// The stop that tells of the hub's refusal.
pub(crate) fn stop_of(fault: HubFault) -> Stop
    ensures { result ≡ stop_of_fault fault }
{
    match fault {
        HubFault::Memory => Stop::Memory,
        HubFault::ClockFull(clock) => Stop::ClockFull(clock),
        HubFault::Calls(calls) => Stop::Calls(calls),
    }
}
