//! Laws of schedules, with no code: each function's contract is the law.

ghost use Rattle.cl_schedule_laws.specs.Laws.{ScheduleLaw};

/// Where a list of states is closed under turns of which some go first, every run stays within its patterns and can be
/// continued to one of its states. What lasts while those take turns that go first holds of that state if it holds behind the
/// run.
pub fn schedule_law()
    ensures { ScheduleLaw }
{}
