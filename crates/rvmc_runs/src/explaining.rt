//! What harts wait for where a run ended.

ghost use Rattle.std.specs.Prelude.{IfOk};
ghost use Rattle.rvmc_runs.specs.Making.{IsLeft};
ghost use Rattle.rvmc_runs.specs.Runs.{IsReportWithWhy, IsWhyOf};

use cl_merge::merge;
use cl_record::Record;
use cl_replay::ReplayFault;
use rv_image_types::Image;
use rvmc_answers::report::report;
use rvmc_answers::told_at;
use std::alloc::{AllocError, Global};

/// What the harts wait for where a record ends, and with `framed` the calls that led there. The record is dropped as soon
/// as its steps are copied, so that only one of the two stands in memory while they are done again.
pub(crate) fn why_of(
    alloc: Global,
    image: &Image,
    left: Record,
    framed: bool,
) -> Result<Vec<u8>, AllocError>
    requires { IsLeft image.now left }
    ensures { IfOk result (λ text. IsWhyOf framed image.now left text.items) }
{
    let steps = merge(alloc, &left)?;
    drop(left);
    match told_at(alloc, framed, image, &steps, steps.len() as u64) {
        Ok(text) => Ok(text),
        Err(ReplayFault::Memory) => Err(AllocError),
        Err(ReplayFault::PastEnd(_)) => unreachable!(),
        Err(ReplayFault::Step(_)) => unreachable!(),
    }
}

/// The report of a record, and behind it what its harts wait for at the end.
pub(crate) fn report_with_why(
    alloc: Global,
    image: &Image,
    left: Record,
    framed: bool,
) -> Result<Vec<u8>, AllocError>
    requires { IsLeft image.now left }
    ensures { IfOk result (λ text. IsReportWithWhy framed image.now left text.items) }
{
    let mut text = report(alloc, &left)?;
    let told = why_of(alloc, image, left, framed)?;
    text.extend_from_slice(&told)?;
    Ok(text)
}
