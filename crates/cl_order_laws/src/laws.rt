//! Laws of the cluster, over the definitions alone: functions with empty bodies, whose contracts are the laws.

ghost use Rattle.cl_order_laws.specs.Laws.{BelowLaw, CommuteLaw, CoveredLaw, EndStaysLaw, EndsLaw, EveryEndLaw, GoAlikeLaw, LikenessLaw, NoDeadlockLaw, VainLaw};
ghost use Rattle.cl_order_laws.specs.Orders.{OneOrderLaw};
ghost use Rattle.cl_order_laws.specs.Splits.{LikewiseLaw, SplitLaw};
ghost use Rattle.cl_order_laws.specs.Sure.{AtOnceLaw, SureLaw};
ghost use Rattle.cl_order_laws.specs.SureTurns.{SureAloneLaw, SureHubLaw};
ghost use Rattle.cl_order_laws.specs.Turns.{TurnsLaw};

/// A cluster that was reached is alike itself, and likeness goes both ways and on.
pub fn likeness_law()
    ensures { LikenessLaw }
{}

/// A turn that needs only its rank, and any turn of another rank, may be exchanged: the same steps lead to the same
/// cluster, stamps and all.
pub fn commute_law()
    ensures { CommuteLaw }
{}

/// A turn in vain leads to an alike cluster.
pub fn vain_law()
    ensures { VainLaw }
{}

/// Alike clusters go alike: where one goes by a turn the other goes by the same turn, with the same reply, to an alike
/// cluster.
pub fn go_alike_law()
    ensures { GoAlikeLaw }
{}

/// Where a turn leads is a step of the machine, if its stamp is below the greatest.
pub fn below_law()
    ensures { BelowLaw }
{}

/// Wherever a run leads that follows the plans, a closed set has a cluster that is alike, once each rank took some turns
/// that need only itself.
pub fn covered_law()
    ensures { CoveredLaw }
{}

/// A closed set has each end, of every run that follows the plans, of any length and with any order of the ranks.
pub fn every_end_law()
    ensures { EveryEndLaw }
{}

/// Alike clusters are ends alike, and tell the same output, memory, registers and codes.
pub fn ends_law()
    ensures { EndsLaw }
{}

/// Where no cluster of a closed set is an end in which a hart waits, no run ends in a deadlock.
pub fn no_deadlock_law()
    ensures { NoDeadlockLaw }
{}

/// An end stays one: no turn of a hart that its plan names changes anything but clocks.
pub fn end_stays_law()
    ensures { EndStaysLaw }
{}

/// Where a turn leads hangs on what its hart asks: there is one cluster behind, or two where a look may see; but for the
/// stamp.
pub fn turns_law()
    ensures { TurnsLaw }
{}

/// A search that was cut has each end: where the nodes that were visited lead to one another or to those left, and each
/// of those left is covered by a closed list.
pub fn split_law()
    ensures { SplitLaw }
{}

/// What covers a cluster covers each that is alike it, where as many turns were had.
pub fn likewise_law()
    ensures { LikewiseLaw }
{}

/// The turns of an order lead to one cluster: runs that follow the plans, and whose turns are of the same ranks and miss
/// alike, are the same.
pub fn one_order_law()
    ensures { OneOrderLaw }
{}

/// Where a rank is sure at a node only that rank has to be followed: the list has each end with no more posts than so
/// many, of every run that follows the plans.
pub fn sure_law()
    ensures { SureLaw }
{}

/// A rank is sure that asks the hub for what is there and stays: its own posts at their end, what a probe finds, a cut
/// that is known.
pub fn sure_hub_law()
    ensures { SureHubLaw }
{}

/// Where turns of sure ranks are made at once, and few posts were made at each node, no run makes many, and the list
/// has each end.
pub fn at_once_law()
    ensures { AtOnceLaw }
{}

/// A rank is sure whose turn needs only itself, and isn't in vain.
pub fn sure_alone_law()
    ensures { SureAloneLaw }
{}
