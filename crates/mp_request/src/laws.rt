//! Laws of tables, over the definitions alone: functions with empty bodies, whose contracts are the laws.

ghost use Rattle.mp_request.specs.Laws.{CompletionLaw, MapLaw};

/// A table is a map from the handles: a change at one handle is seen at that handle alone.
pub fn map_law()
    ensures { MapLaw }
{}

/// A completed ordinary request's handle is free, and a completed persistent request is inactive.
pub fn completion_law()
    ensures { CompletionLaw }
{}
