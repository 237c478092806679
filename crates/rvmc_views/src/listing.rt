//! Records in words, and in tables.

ghost use Rattle.std.specs.Prelude.{◌≡◌, IfErr, IfOk, true};
ghost use Rattle.cl_text.specs.Reading.{reading_record};
ghost use Rattle.rvmc_line.specs.declared.line.RecordCommand.TheVariants as command;
ghost use Rattle.rvmc_list.specs.Stats.{IsStats};
ghost use Rattle.rvmc_views.specs.Pieces.{IsMade, LeavesPieces, list_of};
ghost use Rattle.rvmc_views.specs.Faults.{IsReadFault, IsStepsFault, fault_of_list};
ghost use Rattle.rvmc_answers.specs.Outputs.{output_bytes};
ghost use Rattle.rvmc_views.specs.Records.{counted_of};
ghost use Rattle.rvmc_answers.specs.declared.answers.End.TheVariants.{Status};

use crate::records::read;
use cl_machine::Step;
use rv_image_types::Image;
use rvmc_answers::Answer;
use rvmc_answers::faults::{Fault, ListRefusal, PlaceFault};
use rvmc_list::{ListFault, Wanted, list, stats};
use std::alloc::Global;
use std::io::Write;

/// What is told of a fault of a list, or of its tables.
fn refused(fault: ListFault) -> Fault
    ensures { result ≡ fault_of_list fault }
{
    match fault {
        ListFault::NoRank => Fault::List(ListRefusal::NoRank),
        ListFault::Replay(fault) => match PlaceFault::of(fault) {
            Some(place) => Fault::List(ListRefusal::Place(place)),
            None => Fault::Memory,
        },
    }
}

/// Writes the steps that are wanted of the record that the bytes spell, in words, and says whether the writer took all of it.
/// A rank or a place that isn't there, and a wrong step before the list's end, are faults of the input.
#[tactic(auto, using(crate::proofs::Lists::left, crate::proofs::Lists::list_fault, crate::proofs::Lists::listed, crate::proofs::Left::unread_left, crate::proofs::Readings::of_steps, crate::proofs::Readings::unread))]
pub fn put_list<O: Write>(
    alloc: Global,
    bytes: &[u8],
    wanted: &Wanted,
    out: &mut O,
) -> Result<bool, Fault>
    ensures listed { IfOk result (λ taken. taken ≡ true
        → IsMade (list_of wanted.now) bytes.now (O.contents out.old) (O.contents out.new)) }
    ensures fault { IfErr result (IsReadFault (list_of wanted.now) (reading_record bytes.now)) }
    ensures left { IfErr result (λ fault.
        LeavesPieces (list_of wanted.now) bytes.now fault (O.contents out.old) (O.contents out.new)) }
{
    let (image, steps) = read(alloc, bytes)?;
    list(alloc, &image, &steps, wanted, out).map_err(|fault| refused(fault))
}

/// `list --stats`: the same steps, counted, with the same faults.
#[tactic(auto, using(crate::proofs::Lists::stats_fault))]
pub(crate) fn counted_steps(
    alloc: Global,
    image: &Image,
    steps: &[Step],
    from: u64,
    to: Option<u64>,
    rank: Option<u64>,
) -> Result<Answer, Fault>
    ensures tells { IfOk result (λ answer.
        IsStats image.now steps.now (counted_of from to rank) (output_bytes answer.output) × (answer.end ≡ Status 0)) }
    ensures fault { IfErr result (IsStepsFault (command.Stats from to rank) image.now steps.now) }
{
    let wanted = Wanted {
        from,
        to,
        rank,
        calls: false,
    };
    match stats(alloc, image, steps, &wanted) {
        Ok(text) => Ok(Answer::done(text)),
        Err(fault) => Err(refused(fault)),
    }
}
