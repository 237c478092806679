//! Worked rows: what the laws of phases ask for.

ghost use Rattle.cl_arrival_laws.specs.AloneRows.{ReadyRow, TakeRow, WaitRow};

/// A rank that is loaded comes to a PREADY, and makes its partition ready.
pub fn comes_to_a_ready()
    ensures { ReadyRow }
{}

/// Another comes to a PARRIVED, takes it, and reports it in its first phase.
pub fn comes_to_a_take()
    ensures { TakeRow }
{}

/// A third waits for the receive, and its WAIT completes it in its first phase.
pub fn comes_to_a_wait()
    ensures { WaitRow }
{}
