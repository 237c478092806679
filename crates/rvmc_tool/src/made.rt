//! Texts that are written on standard output as they are made.

ghost use Rattle.std.specs.Prelude.{◌≡◌, ◌≢◌, Bool, IfErr, IfOk, List, None, Option, Some, true, ℕ};
ghost use Rattle.cl_text.specs.Reading.{reading_record};
ghost use Rattle.rvmc_hints.specs.HintLines.{AppendsHint};
ghost use Rattle.rvmc_line.specs.declared.line.CommandLine.TheVariants.{OfImage, OfRecord};
ghost use Rattle.rvmc_line.specs.declared.line.ImageCommand.{ImageCommand};
ghost use Rattle.rvmc_line.specs.declared.line.ImageCommand.TheVariants.{Explore};
ghost use Rattle.rvmc_line.specs.declared.line.RecordCommand.{RecordCommand};
ghost use Rattle.rvmc_line.specs.declared.line.RecordCommand.TheVariants as command;
ghost use Rattle.rvmc_answers.specs.Below.{TakesAtMost};
ghost use Rattle.rvmc_views.specs.Pieces.{IsMade, LeavesPieces, list_of};
ghost use Rattle.rvmc_tool.specs.Exploring.{IsCutSearchOf};
ghost use Rattle.rvmc_tool.specs.Made.{LeavesCut, TellsAll, TellsPieces, TellsSearch};
ghost use Rattle.rvmc_tool.specs.Making.{IsImageFault};
ghost use Rattle.rvmc_tool.specs.Progress.{TellsQuietly};
ghost use Rattle.rvmc_tool.specs.Tool.{Answers};
ghost use Rattle.rvmc_views.specs.Faults.{IsReadFault};
ghost use Rattle.rvmc_views.specs.Records.{record_part};
ghost use Rattle.rvmc_advice.specs.Quiet.{is_quiet};

use crate::exploring::{Search, put_search};
use crate::program::take;
use rvmc_advice::{fail, fail_with_hint, tell_search_hint};
use rvmc_answers::faults::Fault;
use rvmc_explore::Searched;
use rvmc_line::{CommandLine, SourceSizes};
use rvmc_views::{Wanted, put_list, put_page};
use std::alloc::Global;
use std::io::{Read, Write};

/// The status of a text that was written as it was made, and whether the writer took all of it; or of the fault that is in
/// its place, or that cuts it short, which is told on standard error.
pub(crate) fn tell_made<O: Write, E: Write>(
    alloc: Global,
    line: &CommandLine,
    bytes: &[u8],
    made: Result<bool, Fault>,
    out: &mut O,
    err: &mut E,
) -> u8
    ensures told { (command : RecordCommand) (before : Option (List ℕ))
        → IfOk made (λ taken. taken ≡ true → IsMade command bytes.now before (O.contents out.old))
        → IfErr made (IsReadFault command (reading_record (record_part command bytes.now)))
        → IfErr made (λ fault. LeavesPieces command bytes.now fault before (O.contents out.old)) → result ≢ 6
        → TellsPieces command bytes.now result before (O.contents out.new) }
    ensures quiet { is_quiet result ≡ true → AppendsHint (E.contents err.old) (E.contents err.new) }
{
    if out.flush().is_err() {
        return fail(err, Fault::Write);
    }
    match made {
        Ok(true) => 0,
        Ok(false) => fail(err, Fault::Write),
        Err(fault) => fail_with_hint(alloc, line, bytes, fault, err),
    }
}

/// `list`: a record is read, and the steps that are wanted are written in words, piece by piece.
#[tactic(auto, using(rvmc_advice::proofs::Quiet::hinted_behind))]
pub(crate) fn listed<I: Read, O: Write, E: Write>(
    alloc: Global,
    line: &CommandLine,
    wanted: &Wanted,
    input: &mut I,
    out: &mut O,
    err: &mut E,
) -> u8
    ensures answers { (bytes : List ℕ) → I.remaining input.old ≡ Some bytes → result ≢ 6
        → Answers (OfRecord (list_of wanted.now)) bytes result (O.contents out.old) (O.contents out.new) }
    ensures front { TakesAtMost 67112960 (I.remaining input.old) (I.remaining input.new) }
    ensures quiet { is_quiet result ≡ true → AppendsHint (E.contents err.old) (E.contents err.new) }
{
    match take(alloc, input, err) {
        Ok(bytes) => {
            let whole = bytes.as_slice();
            let listed = put_list(alloc, whole, wanted, out);
            tell_made(alloc, line, whole, listed, out, err)
        }
        Err(status) => status,
    }
}

/// `page`: a record is read, and sources behind it, and a page of both is written, piece by piece.
#[tactic(auto, using(rvmc_advice::proofs::Quiet::hinted_behind))]
pub(crate) fn paged<I: Read, O: Write, E: Write>(
    alloc: Global,
    line: &CommandLine,
    from: u64,
    to: Option<u64>,
    texts: &SourceSizes,
    input: &mut I,
    out: &mut O,
    err: &mut E,
) -> u8
    ensures answers { (bytes : List ℕ) → I.remaining input.old ≡ Some bytes → result ≢ 6
        → Answers (OfRecord (command.Page from to texts.now)) bytes result (O.contents out.old) (O.contents out.new) }
    ensures front { TakesAtMost 67112960 (I.remaining input.old) (I.remaining input.new) }
    ensures quiet { is_quiet result ≡ true → AppendsHint (E.contents err.old) (E.contents err.new) }
{
    match take(alloc, input, err) {
        Ok(bytes) => {
            let whole = bytes.as_slice();
            let paged = put_page(alloc, whole, from, to, texts, out);
            tell_made(alloc, line, whole, paged, out, err)
        }
        Err(status) => status,
    }
}

/// The status of a search that was told as it was found, with a hint beside it where there is one; or of the fault that is in
/// its place, or that cuts it short, which is told on standard error.
fn tell_search<O: Write, E: Write>(
    alloc: Global,
    line: &CommandLine,
    bytes: &[u8],
    found: Result<Searched, Fault>,
    out: &mut O,
    err: &mut E,
) -> u8
    ensures told { (source : Bool) (command : ImageCommand) (before : Option (List ℕ))
        → IfOk found (λ searched. searched.taken ≡ true
        → TellsAll source command bytes.now searched.status before (O.contents out.old))
        → IfErr found (IsImageFault source command bytes.now)
        → IfErr found (λ fault. LeavesCut (IsCutSearchOf source command bytes.now) fault before (O.contents out.old))
        → result ≢ 6 → TellsSearch source command bytes.now result before (O.contents out.new) }
    ensures quiet { is_quiet result ≡ true → AppendsHint (E.contents err.old) (E.contents err.new) }
{
    if out.flush().is_err() {
        return fail(err, Fault::Write);
    }
    match found {
        Ok(searched) => {
            if !searched.taken {
                return fail(err, Fault::Write);
            }
            tell_search_hint(alloc, line, searched.long, searched.status, err);
            searched.status
        }
        Err(fault) => fail_with_hint(alloc, line, bytes, fault, err),
    }
}

/// `explore`: an image is taken from the input, and each outcome is written when a search of all orders first finds it.
#[tactic(auto, using(crate::proofs::Aloud::hint_alone, crate::proofs::Aloud::hint_behind))]
pub(crate) fn explored<I: Read, O: Write, E: Write>(
    alloc: Global,
    line: &CommandLine,
    source: bool,
    wanted: &Search<'_>,
    input: &mut I,
    out: &mut O,
    err: &mut E,
) -> u8
    ensures answers { (bytes : List ℕ) → I.remaining input.old ≡ Some bytes → result ≢ 6
        → Answers (OfImage source
        (Explore wanted.now.harts.now wanted.now.states wanted.now.turns None wanted.now.buffered wanted.now.progress))
        bytes result (O.contents out.old) (O.contents out.new) }
    ensures front { TakesAtMost 67112960 (I.remaining input.old) (I.remaining input.new) }
    ensures quiet { is_quiet result ≡ true
        → TellsQuietly wanted.now.progress (E.contents err.old) (E.contents err.new) }
{
    match take(alloc, input, err) {
        Ok(bytes) => {
            let whole = bytes.as_slice();
            let found = put_search(alloc, source, whole, wanted, out, err);
            tell_search(alloc, line, whole, found, out, err)
        }
        Err(status) => status,
    }
}
