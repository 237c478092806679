//! What is answered of plans and runs.

ghost use Rattle.std.specs.Prelude.{◌≡◌, ◌<◌, ◌⊎◌, ◌∷◌, ℕ, [], length, Contains, Err, IfOk, Some, slice_get};
ghost use Rattle.std.specs.Prelude.{true, false};
ghost use Rattle.cl_record.specs.Plans.{ArePlans};
ghost use Rattle.cl_record.specs.declared.plans.Plan.{Plan};
ghost use Rattle.test_cluster.specs.Runs.{AllBudgetsAreUsed, IsLedOffBy, OfEachRank, RoundAndRound};

use cl_run::{Loaded, Plan, Record, RunFault, are_plans, run_one};
use rv_image_types::Image;
use std::alloc::Global;

/// Plans of fewer ranks than the image has, or of more, are refused.
pub fn each_rank_has_a_plan(image: &Image, plans: &[Plan], order: &[u8]) -> bool
    requires { ¬ (length plans.now ≡ image.now.ranks) }
    ensures { result ≡ false }
{
    are_plans(image, plans, order)
}

/// A plan of no turns is refused, wherever it stands.
pub fn no_turns_are_refused(image: &Image, plans: &[Plan], order: &[u8]) -> bool
    requires { (rank : ℕ) × (plan : Plan) × (slice_get plans.now rank ≡ Some plan) × (plan.budget ≡ 0) }
    ensures { result ≡ false }
{
    are_plans(image, plans, order)
}

/// A plan of 16,777,217 turns is refused, wherever it stands.
pub fn too_many_turns_are_refused(image: &Image, plans: &[Plan], order: &[u8]) -> bool
    requires { (rank : ℕ) × (plan : Plan) × (slice_get plans.now rank ≡ Some plan) × (plan.budget ≡ 16777217) }
    ensures { result ≡ false }
{
    are_plans(image, plans, order)
}

/// A plan that names no hart is refused, wherever it stands.
pub fn a_plan_of_no_hart_is_refused(image: &Image, plans: &[Plan], order: &[u8]) -> bool
    requires { (rank : ℕ) × (plan : Plan) × (slice_get plans.now rank ≡ Some plan) × (plan.order.items ≡ []) }
    ensures { result ≡ false }
{
    are_plans(image, plans, order)
}

/// A plan that names a hart with the number of harts is refused: they are numbered from 0.
pub fn an_absent_hart_is_refused(image: &Image, plans: &[Plan], order: &[u8]) -> bool
    requires { (rank : ℕ) × (plan : Plan) × (slice_get plans.now rank ≡ Some plan)
        × Contains plan.order.items image.now.harts }
    ensures { result ≡ false }
{
    are_plans(image, plans, order)
}

/// An order that names a rank with the number of ranks is refused.
pub fn an_absent_rank_is_refused(image: &Image, plans: &[Plan], order: &[u8]) -> bool
    requires { Contains order.now image.now.ranks }
    ensures { result ≡ false }
{
    are_plans(image, plans, order)
}

/// An order that misses a rank is refused, whichever it is.
pub fn a_missed_rank_is_refused(image: &Image, plans: &[Plan], order: &[u8]) -> bool
    requires { (rank : ℕ) × (rank < image.now.ranks) × (¬ (Contains order.now rank)) }
    ensures { result ≡ false }
{
    are_plans(image, plans, order)
}

/// One rank may be given 16,777,216 turns of its hart 0, and just one turn too.
pub fn the_limits_are_taken(image: &Image, plans: &[Plan]) -> bool
    requires one { image.now.ranks ≡ 1 }
    requires hart { 0 < image.now.harts }
    requires plans { (plan : Plan) × (plans.now ≡ plan ∷ []) × (plan.order.items ≡ 0 ∷ [])
        × ((plan.budget ≡ 1) ⊎ (plan.budget ≡ 16777216)) }
    ensures { result ≡ true }
{
    are_plans(image, plans, &[0])
}

/// Wrong plans are told as Plans, also where memory is short.
pub fn wrong_plans_are_told(
    alloc: Global,
    image: &Image,
    plans: &[Plan],
    order: &[u8],
) -> Result<Record, RunFault>
    requires { ¬ ArePlans image.now plans.now order.now }
    ensures { result ≡ Err RunFault.Plans }
{
    run_one(alloc, image, plans, order)
}

/// A run leaves a trace, a state and a stop of each rank, and the plans of such a run were right.
pub fn a_run_leaves_each_rank(
    alloc: Global,
    image: &Image,
    plans: &[Plan],
    order: &[u8],
) -> Result<Record, RunFault>
    ensures { IfOk result (OfEachRank image.now plans.now order.now) }
{
    run_one(alloc, image, plans, order)
}

/// By the order 1, 0 the first turn is rank 1's, where it takes any.
pub fn the_first_of_the_order_leads_off(
    alloc: Global,
    image: &Image,
    plans: &[Plan],
    order: &[u8],
) -> Result<Record, RunFault>
    requires { order.now ≡ 1 ∷ 0 ∷ [] }
    ensures { IfOk result (IsLedOffBy 1 image.now) }
{
    run_one(alloc, image, plans, order)
}

/// Each rank that stops for its budget took all its turns.
pub fn budgets_are_used(
    alloc: Global,
    image: &Image,
    plans: &[Plan],
    order: &[u8],
) -> Result<Record, RunFault>
    ensures { IfOk result (AllBudgetsAreUsed plans.now) }
{
    run_one(alloc, image, plans, order)
}

/// What is loaded runs to its end: there is a record, whatever memory the ranks' turns find.
pub fn what_is_loaded_runs(loaded: Loaded<'_>) -> Record
    ensures { OfEachRank loaded.entry.image loaded.entry.plans loaded.entry.order result }
{
    loaded.run()
}

/// A rank's turns go to the harts of its plan from the first on, and from the first again behind the last.
pub fn plans_go_round()
    ensures { RoundAndRound }
{}
