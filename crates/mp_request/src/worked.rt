//! Worked values, as theorems that compute.

ghost use Rattle.mp_request.specs.Worked.{CompletionRows, DoneRows, LowestFreeRows, NamedRows, RefusalRows, TestableRows};

/// The lowest free handle of a new table, of fuller ones, and after handle 7 is completed.
pub fn lowest_free_rows()
    ensures { LowestFreeRows }
{}

/// Handles 1 and 255 name requests; 0, 256 and 2^64 - 1 never do.
pub fn named_rows()
    ensures { NamedRows }
{}

/// What a started and a completed request are.
pub fn completion_rows()
    ensures { CompletionRows }
{}

/// Which handles may be tested together.
pub fn testable_rows()
    ensures { TestableRows }
{}

/// Which handles are done.
pub fn done_rows()
    ensures { DoneRows }
{}

/// The numbers of the refusals' codes.
pub fn refusal_rows()
    ensures { RefusalRows }
{}
