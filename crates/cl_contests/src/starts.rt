//! Where a search may begin: at the loaded cluster, and wherever turns lead.

ghost use Rattle.std.specs.Prelude.{◌≡◌, ℕ, IsTrue, None, OnOk, Some, slice_get};
ghost use Rattle.mp_match.specs.declared.posts.Post.TheVariants.{Receive};
ghost use Rattle.mp_match.specs.declared.posts.Selection.{Selection as Selected};
ghost use Rattle.mp_source_laws.specs.Laws.{AsksFrom};
ghost use Rattle.mp_clash_laws.specs.Exchanges.{WaitsWithin};
ghost use Rattle.cl_state.specs.Room.{rank_of};
ghost use Rattle.cl_state.specs.declared.state.RankState.{RankState as Own};
ghost use Rattle.cl_state_laws.specs.Awake.{StandsAtCall};
ghost use Rattle.cl_contests.specs.Going.{TellsStart};
ghost use Rattle.cl_contests.specs.Kept.{wild_of};
ghost use Rattle.cl_contests.specs.Passing.{Keeps};

use crate::fit::stands_at_call;
use crate::patterns::Patterns;
use cl_moves::Standing;
use cl_state::RankState;
use mp_alike::WholeHub;
use mp_match::{Line, Post};
use std::alloc::AllocError;

/// Whether the post isn't a receive of any source that waits, or its rank may ask for any.
fn may_wait(line: &Line, patterns: &Patterns) -> bool
    ensures { IsTrue result → (a : Selected) → line.now ≡ record { post = Receive a; partner = None }
        → AsksFrom (wild_of patterns.now.kept.items) a.rank a.comm a.source }
{
    match (line.post, line.partner) {
        (Post::Receive(asked), None) => patterns.allow_source(asked.rank, asked.comm, asked.source),
        _ => true,
    }
}

/// Whether each receive of any source that waits in the hub is of a rank that may ask for any.
pub(crate) fn waits_within(whole: &WholeHub, patterns: &Patterns) -> bool
    ensures { IsTrue result → WaitsWithin (wild_of patterns.now.kept.items) whole.now }
{
    for line in whole.board().lines() {
        if !may_wait(line, patterns) {
            return false;
        }
    }
    true
}

/// Whether the first hart of each of these ranks stands at the call that it is to make anew, if it is to make one anew.
fn all_stand(ranks: &[RankState]) -> bool
    ensures { IsTrue result → (r : ℕ) (own : Own) → slice_get ranks.now r ≡ Some own → StandsAtCall (rank_of own) 0 }
{
    for own in ranks {
        if own.harts.is_empty() || !stands_at_call(own) {
            return false;
        }
    }
    true
}

/// Whether a search may begin here, once `add_waits` has added the receives that wait. The first hart of each rank has to
/// stand at the call that it will repeat, if it will repeat one.
pub fn may_start(standing: &Standing) -> bool
    ensures { TellsStart standing.now result }
{
    all_stand(standing.cluster.ranks.as_slice())
}

/// Adds that the rank of a post may ask for any source, where it is a receive of any source that waits.
fn add_wait(patterns: &mut Patterns, line: &Line) -> Result<(), AllocError>
    ensures waits { OnOk result ((a : Selected) → line.now ≡ record { post = Receive a; partner = None }
        → AsksFrom (wild_of patterns.new.kept.items) a.rank a.comm a.source) }
    ensures keeps { OnOk result (Keeps patterns.old.kept.items patterns.new.kept.items) }
    ensures still { OnOk result (patterns.new.may_wait ≡ patterns.old.may_wait) }
{
    match (line.post, line.partner) {
        (Post::Receive(asked), None) => patterns.add_source(asked.rank, asked.comm, asked.source),
        _ => Ok(()),
    }
}

/// Adds that each rank whose receive of any source waits in the hub may ask for any. The only error is want of memory.
pub fn add_waits(patterns: &mut Patterns, whole: &WholeHub) -> Result<(), AllocError>
    ensures waits { OnOk result (WaitsWithin (wild_of patterns.new.kept.items) whole.now) }
    ensures keeps { OnOk result (Keeps patterns.old.kept.items patterns.new.kept.items) }
    ensures still { OnOk result (patterns.new.may_wait ≡ patterns.old.may_wait) }
{
    for line in whole.board().lines() {
        add_wait(patterns, line)?;
    }
    Ok(())
}
