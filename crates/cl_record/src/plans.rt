//! Plans: which harts take a rank's turns, and how many it has.

ghost use Rattle.std.specs.Prelude.{◌≡◌, ◌<◌, ◌↔◌, IsTrue, All, Contains};
ghost use Rattle.cl_deeds.specs.Orders.{IsOrder};
ghost use Rattle.cl_record.specs.Plans.{ArePlans, HasPlans, IsPlan, MissesNone};

use rv_image_types::Image;

/// The most turns that a plan gives a rank.
pub const BUDGET_MAX: u64 = 16_777_216;

/// What is laid down of one rank's turns.
#[derive(Drop)]
pub struct Plan {
    /// The harts that take the turns, by their numbers, used round and round.
    pub order: Vec<u8>,
    /// The most turns that the rank has, 1 to 16,777,216.
    pub budget: u64,
}

// Whether these are some numbers below the count.
fn is_order(count: u8, order: &[u8]) -> bool
    ensures { IsTrue result ↔ IsOrder count order.now }
{
    !order.is_empty() && all_below(count, order)
}

fn all_below(count: u8, order: &[u8]) -> bool
    ensures { IsTrue result ↔ All (λ number. number < count) order.now }
{
    order.iter().all(|number| *number < count)
}

fn names(order: &[u8], rank: u8) -> bool
    ensures { IsTrue result ↔ Contains order.now rank }
{
    order.iter().any(|number| *number == rank)
}

fn misses_none(ranks: u8, order: &[u8]) -> bool
    ensures { IsTrue result ↔ MissesNone ranks order.now }
{
    for rank in 0..ranks {
        if !names(order, rank) {
            return false;
        }
    }
    true
}

fn is_plan(harts: u8, plan: &Plan) -> bool
    ensures { IsTrue result ↔ IsPlan harts plan.now }
{
    is_order(harts, plan.order.as_slice()) && 1 <= plan.budget && plan.budget <= BUDGET_MAX
}

fn all_plans(harts: u8, plans: &[Plan]) -> bool
    ensures { IsTrue result ↔ All (IsPlan harts) plans.now }
{
    plans.iter().all(|plan| is_plan(harts, plan))
}

/// Whether the image may be run by these plans: there is one for each rank, none has an empty order, each hart that
/// stands in one is there, and each budget is 1 to 16,777,216.
pub fn has_plans(image: &Image, plans: &[Plan]) -> bool
    ensures { IsTrue result ↔ HasPlans image.now plans.now }
{
    let parts = image.parts();
    plans.len() == usize::from(parts.ranks) && all_plans(parts.harts, plans)
}

/// Whether the image may be run by these plans with the ranks in this order: the order isn't empty, each rank that
/// stands in it is there, and it misses none.
pub fn are_plans(image: &Image, plans: &[Plan], order: &[u8]) -> bool
    ensures { IsTrue result ↔ ArePlans image.now plans.now order.now }
{
    let ranks = image.parts().ranks;
    has_plans(image, plans) && is_order(ranks, order) && misses_none(ranks, order)
}
