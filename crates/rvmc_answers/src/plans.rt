//! The plans and the order that a command line asks for.

ghost use Rattle.std.specs.Prelude.{◌≡◌, IfOk};
ghost use Rattle.cl_state.specs.Rank.{below};
ghost use Rattle.rvmc_answers.specs.Plans.{ArePlansOf, IsPlanOf, listed};

use cl_record::Plan;
use rv_image_types::Image;
use rvmc_words::Numbers;
use std::alloc::{AllocError, Global};

/// The numbers below the count, in order.
fn all_below(alloc: Global, count: u8) -> Result<Vec<u8>, AllocError>
    ensures { IfOk result (λ numbers. numbers.items ≡ below count) }
{
    let mut numbers = Vec::new(alloc);
    for number in 0..count {
        numbers.push(number)?;
    }
    Ok(numbers)
}

/// The numbers that were listed, whether they are there or not; without a list all of so many, in order.
pub fn listed(alloc: Global, numbers: &Option<Numbers>, count: u8) -> Result<Vec<u8>, AllocError>
    ensures { IfOk result (λ list. list.items ≡ listed numbers.now count) }
{
    match numbers {
        Some(numbers) => Vec::from_slice(alloc, numbers.as_slice()),
        None => all_below(alloc, count),
    }
}

/// A plan of these harts for so many turns at most.
fn plan(alloc: Global, harts: &[u8], budget: u64) -> Result<Plan, AllocError>
    ensures { IfOk result (IsPlanOf harts.now budget) }
{
    let order = Vec::from_slice(alloc, harts)?;
    Ok(Plan { order, budget })
}

/// One plan for each rank, all the same: these harts, round and round, for so many turns at most.
pub fn plans(alloc: Global, ranks: u8, harts: &[u8], budget: u64) -> Result<Vec<Plan>, AllocError>
    ensures { IfOk result (λ plans. ArePlansOf ranks harts.now budget plans.items) }
{
    let mut plans = Vec::new(alloc);
    for _rank in 0..ranks {
        plans.push(plan(alloc, harts, budget)?)?;
    }
    Ok(plans)
}

/// One plan for each rank of the image: the harts that were listed, or without a list all of them, for so many turns at
/// most.
pub fn plans_of(
    alloc: Global,
    image: &Image,
    budget: u64,
    harts: &Option<Numbers>,
) -> Result<Vec<Plan>, AllocError>
    ensures { IfOk result (λ plans.
        ArePlansOf image.now.ranks (listed harts.now image.now.harts) budget plans.items) }
{
    let parts = image.parts();
    let harts = listed(alloc, harts, parts.harts)?;
    plans(alloc, parts.ranks, &harts, budget)
}
