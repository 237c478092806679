//! Laws of the cluster, over the definitions alone: functions with empty bodies, whose contracts are the laws.

ghost use Rattle.cl_deadlock_laws.specs.Laws.{DeadlockLaw, NarrowLaw, UnionLaw};

/// Ranks that are stuck are in a deadlock: whatever steps any rank takes, nothing of theirs changes but their clocks.
pub fn deadlock_law()
    ensures { DeadlockLaw }
{}

/// Of ranks that are stuck there are the most: those that are stuck in any company are so all together.
pub fn union_law()
    ensures { UnionLaw }
{}

/// Who isn't stuck beside a company is stuck in no part of it.
pub fn narrow_law()
    ensures { NarrowLaw }
{}
