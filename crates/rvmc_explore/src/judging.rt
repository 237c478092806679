//! The status of a search.

ghost use Rattle.std.specs.Prelude.{◌≡◌, slice_get};
ghost use Rattle.std.specs.List.{list_any};
ghost use Rattle.rvmc_report.specs.Report.{has_trapped, is_trapped};
ghost use Rattle.rvmc_explore.specs.Ends.{one_waits};
ghost use Rattle.cl_explore.specs.Ends.{findings};
ghost use Rattle.rvmc_explore.specs.Telling.{any_end, holds_of, findings_status, is_all, is_somebody, is_unknown, trapped_in, waits_in};

use crate::ends::waits;
use cl_explore::{Exploration, KeptNode, Needs};
use cl_replay::SharedRank;
use cl_state::KeptRank;
use rv_hart::{Hart, Mode};

fn is_trapped(hart: &Hart) -> bool
    ensures { result ≡ is_trapped hart.now.mode }
{
    matches!(hart.mode(), Mode::Trapped(_, _))
}

fn has_trapped(rank: &KeptRank) -> bool
    ensures { result ≡ has_trapped rank.now.harts }
{
    rank.harts().iter().any(|hart| is_trapped(hart))
}

/// Whether a hart trapped in one of these ranks.
fn any_rank_trapped(ranks: &[SharedRank]) -> bool
    ensures { result ≡ list_any (λ rank. has_trapped rank.harts) ranks.now }
{
    ranks.iter().any(|rank| has_trapped(rank.rank()))
}

/// Whether a hart that takes turns waits in one of them.
fn any_rank_waits(ranks: &[SharedRank], order: &[u8]) -> bool
    ensures { result ≡ list_any (λ rank. one_waits order.now rank.harts) ranks.now }
{
    ranks.iter().any(|rank| waits(rank.rank().harts(), order))
}

/// Whether a hart trapped in the node of this number.
fn trapped_in(nodes: &[KeptNode], node: usize) -> bool
    ensures { result ≡ holds_of trapped_in (slice_get nodes.now node) }
{
    match nodes.get(node) {
        None => false,
        Some(kept) => any_rank_trapped(kept.cluster.ranks()),
    }
}

/// Whether a hart that takes turns waits there.
fn waits_in(nodes: &[KeptNode], order: &[u8], node: usize) -> bool
    ensures { result ≡ holds_of (waits_in order.now) (slice_get nodes.now node) }
{
    match nodes.get(node) {
        None => false,
        Some(kept) => any_rank_waits(kept.cluster.ranks(), order),
    }
}

fn any_trapped(nodes: &[KeptNode], ends: &[usize]) -> bool
    ensures { result ≡ any_end trapped_in nodes.now ends.now }
{
    ends.iter().any(|node| trapped_in(nodes, *node))
}

fn any_waits(nodes: &[KeptNode], order: &[u8], ends: &[usize]) -> bool
    ensures { result ≡ any_end (waits_in order.now) nodes.now ends.now }
{
    ends.iter().any(|node| waits_in(nodes, order, *node))
}

/// Whether ranks that need buffers were looked for, and it isn't known whether there are any.
fn is_unknown(needs: Needs) -> bool
    ensures { result ≡ is_unknown needs }
{
    matches!(needs, Needs::Unknown)
}

/// Whether some ranks need buffers.
fn is_somebody(needs: Needs) -> bool
    ensures { result ≡ is_somebody needs }
{
    matches!(needs, Needs::Somebody)
}

/// Whether all is told of a search that left so many states, and that knows this of ranks that need buffers.
fn is_all(left: usize, needs: Needs) -> bool
    ensures { result ≡ is_all left needs }
{
    left == 0 && !is_unknown(needs)
}

/// The status of a search that found this: 4 where not all is told, else 3 where a hart trapped at an end, else 7 where a hart
/// that takes turns waits at one, some ranks are stuck or need buffers, or runs hang if sends wait, else 8 where some runs go on for ever, else 0.
pub(crate) fn search_status(found: &Exploration, order: &[u8], hanging: bool, unending: bool) -> u8
    ensures { result ≡ findings_status order.now (findings found.now) found.now.needs hanging unending }
{
    if !is_all(found.left, found.needs) {
        return 4;
    }
    let nodes = found.nodes.as_slice();
    let ends = found.ends.as_slice();
    if any_trapped(nodes, ends) {
        return 3;
    }
    let stuck = any_waits(nodes, order, ends) || found.companies.len() > 0;
    if stuck || is_somebody(found.needs) || hanging {
        return 7;
    }
    if unending { 8 } else { 0 }
}
