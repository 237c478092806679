//! Laws of alike clusters, over the definitions alone: functions with empty bodies, whose contracts are the laws.

ghost use Rattle.cl_verdict_laws.specs.Asking.{AskingLaw};
ghost use Rattle.cl_verdict_laws.specs.Live.{LiveLaw, NamesLaw};
ghost use Rattle.cl_verdict_laws.specs.Verdicts.{VerdictLaw};

/// If one hub doesn't have what a rank asks for, no alike hub has it, and the same ranks could bring it.
pub fn asking_law()
    ensures { AskingLaw }
{}

/// Wherever a run leads, no rank keeps the number of a standard send.
pub fn names_law()
    ensures { NamesLaw }
{}

/// Wherever a run leads, no rank asks about a send whose message was collected.
pub fn live_law()
    ensures { LiveLaw }
{}

/// In alike clusters to which runs lead, the same ranks are stuck, and the verdict is the same.
pub fn verdict_law()
    ensures { VerdictLaw }
{}
