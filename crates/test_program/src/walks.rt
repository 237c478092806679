//! Where the changes of steps lead.

ghost use Rattle.std.specs.Prelude.{◌≡◌, ◌≤◌, ◌-◌, IfOk, length};
ghost use Rattle.cl_debug.specs.Debugging.{Debugging};
ghost use Rattle.rvmc_changes.specs.Laws.{WalksThere};
ghost use Rattle.rvmc_changes.specs.Given.{differences};
ghost use Rattle.rvmc_changes.specs.Walks.{seen_at_start};

use cl_machine::Step;
use rv_image_types::Image;
use rvmc_changes::laws::walk_law;
use rvmc_changes::{Change, RankStart, ReplayFault, begin, go_on};
use std::alloc::Global;

/// What is seen where a walk starts, and what each of its steps changed.
#[derive(Drop)]
pub struct Walked {
    pub start: Vec<RankStart>,
    pub changes: Vec<Change>,
}

/// The new values of a walk's changes are those that a debugger shows behind them, and the old ones those before.
pub fn changes_lead_to_what_is_shown(
    alloc: Global,
    image: &Image,
    from: u64,
    to: u64,
    steps: &[Step],
) -> Result<Walked, ReplayFault>
    requires order { from ≤ to }
    requires within { to ≤ length steps.now }
    ensures { IfOk result (λ walked. (debugging : Debugging) → debugging.image ≡ image.now → debugging.steps ≡ steps.now
        → from ≤ debugging.place → debugging.place ≤ to
        → WalksThere debugging (seen_at_start walked.start.items) (differences walked.changes.items)
        (debugging.place - from)) }
{
    walk_law();
    let mut walk = begin(alloc, image, steps, from)?;
    let changes = go_on(alloc, &mut walk.state, steps, from, to)?;
    Ok(Walked {
        start: walk.start,
        changes,
    })
}
