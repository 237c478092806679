//! Runtimes with threads, which answer `run`, and the one that has none and refuses it.

ghost use Rattle.std.specs.Prelude.{IfErr, IfOk, ⊤};
ghost use Rattle.cl_record.specs.Plans.{HasPlans};
ghost use Rattle.rvmc_answers.specs.Ends.{end_status};
ghost use Rattle.rvmc_answers.specs.Making.{IsRunFault, IsWhole};
ghost use Rattle.rvmc_answers.specs.Outputs.{output_bytes};
ghost use Rattle.rvmc_answers.specs.Plans.{ByPlans};
ghost use Rattle.rvmc_runs.specs.Runs.{IsRunAnswer, IsThreadsUntilStuck};

use crate::runs::run_by;
use crate::stuck::run_until_stuck_by;
use cl_record::has_plans;
use rv_image_types::Image;
use rvmc_answers::Answer;
use rvmc_answers::faults::Fault;
use rvmc_answers::plans::plans_of;
use rvmc_line::Written;
use rvmc_words::Numbers;
use std::alloc::{AllocError, Global};
use std::sync::Wait;
use std::thread::Threads;

/// A runtime that has threads, by which it answers `run`, or none, and then refuses it.
pub trait MaybeThreads {
    // what it takes to ask it for a run
    ghost may_ask: { Type 0 };

    /// `run`: a run by the same plan for each rank, each rank on a thread of its own, to the end of its plans. A rank that is
    /// more than `lead` turns ahead is held back.
    fn run(
        &self,
        alloc: Global,
        image: &Image,
        budget: u64,
        harts: &Option<Numbers>,
        lead: u64,
        written: Written,
    ) -> Result<Answer, Fault>
        requires { may_ask }
        ensures says { IfOk result (λ answer.
            IsRunAnswer image.now budget harts.now written (output_bytes answer.output) (end_status answer.end)) }
        ensures whole { IfOk result (λ answer. IsWhole answer.end) }
        ensures fault { IfErr result (IsRunFault
            (ByPlans image.now budget harts.now (λ plans. ¬ (HasPlans image.now plans)))
            (ByPlans image.now budget harts.now (HasPlans image.now))) };

    /// `run --until-stuck`: the same, until nobody can go on.
    fn run_until_stuck(
        &self,
        alloc: Global,
        image: &Image,
        budget: u64,
        harts: &Option<Numbers>,
        lead: u64,
        written: Written,
    ) -> Result<Answer, Fault>
        requires { may_ask }
        ensures says { IfOk result (λ answer.
            IsThreadsUntilStuck image.now budget harts.now written (output_bytes answer.output) (end_status answer.end)) }
        ensures whole { IfOk result (λ answer. IsWhole answer.end) }
        ensures fault { IfErr result (IsRunFault
            (ByPlans image.now budget harts.now (λ plans. ¬ (HasPlans image.now plans)))
            (ByPlans image.now budget harts.now (HasPlans image.now))) };
}

impl<R: Threads + Wait + Sync> MaybeThreads for R {
    ghost use Rattle.std.specs.Thread.{IsSync};

    // its threads share it
    ghost may_ask = { IsSync R.row };

    fn run(
        &self,
        alloc: Global,
        image: &Image,
        budget: u64,
        harts: &Option<Numbers>,
        lead: u64,
        written: Written,
    ) -> Result<Answer, Fault> {
        let plans = plans_of(alloc, image, budget, harts)?;
        run_by(self, alloc, image, &plans, lead, written)
    }

    fn run_until_stuck(
        &self,
        alloc: Global,
        image: &Image,
        budget: u64,
        harts: &Option<Numbers>,
        lead: u64,
        written: Written,
    ) -> Result<Answer, Fault> {
        let plans = plans_of(alloc, image, budget, harts)?;
        run_until_stuck_by(self, alloc, image, &plans, lead, budget, written)
    }
}

/// Why there is no run without threads: a plan is wrong, or else a thread is refused.
fn refused(
    alloc: Global,
    image: &Image,
    budget: u64,
    harts: &Option<Numbers>,
) -> Result<Fault, AllocError>
    ensures { IfOk result (IsRunFault
        (ByPlans image.now budget harts.now (λ plans. ¬ (HasPlans image.now plans)))
        (ByPlans image.now budget harts.now (HasPlans image.now))) }
{
    let plans = plans_of(alloc, image, budget, harts)?;
    if has_plans(image, plans.as_slice()) {
        Ok(Fault::Spawn)
    } else {
        Ok(Fault::Plans)
    }
}

/// A runtime without threads: each run is refused its first one.
#[derive(Clone, Copy)]
pub struct NoThreads;

impl MaybeThreads for NoThreads {
    ghost may_ask = { ⊤ };

    fn run(
        &self,
        alloc: Global,
        image: &Image,
        budget: u64,
        harts: &Option<Numbers>,
        _lead: u64,
        _written: Written,
    ) -> Result<Answer, Fault> {
        Err(refused(alloc, image, budget, harts)?)
    }

    fn run_until_stuck(
        &self,
        alloc: Global,
        image: &Image,
        budget: u64,
        harts: &Option<Numbers>,
        _lead: u64,
        _written: Written,
    ) -> Result<Answer, Fault> {
        Err(refused(alloc, image, budget, harts)?)
    }
}
