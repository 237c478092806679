//! Pages of records.

ghost use Rattle.std.specs.Prelude.{◌≡◌, ◌≤◌, ◌-◌, IfErr, IfOk, drop, length, map, take, true};
ghost use Rattle.cl_text.specs.Reading.{reading_record};
ghost use Rattle.rvmc_line.specs.declared.line.RecordCommand.TheVariants as command;
ghost use Rattle.rvmc_page.specs.Texts.{source_of};
ghost use Rattle.rvmc_views.specs.Pieces.{IsMade, LeavesPieces};
ghost use Rattle.rvmc_views.specs.Faults.{IsReadFault, fault_of_page};
ghost use Rattle.rvmc_views.specs.Records.{record_part, size_of_all, sources_in};

use crate::records::read;
use cl_replay::ReplayFault;
use rvmc_answers::faults::{Fault, PlaceFault};
use rvmc_line::{SourceSize, SourceSizes};
use rvmc_page::{SourceText, page};
use std::alloc::{AllocError, Global};
use std::io::Write;

/// How many of so many bytes stand before those of the sources.
fn left(count: u64, texts: &[SourceSize]) -> u64
    ensures is { result ≡ count - size_of_all texts.now }
    ensures few { result ≤ count }
{
    let mut left = count;
    for text in texts {
        left = left.saturating_sub(text.size);
    }
    left
}

/// The bytes before those of the sources, and theirs.
fn split<'a>(bytes: &'a [u8], texts: &[SourceSize]) -> (&'a [u8], &'a [u8])
    ensures before { result.0.now ≡ take (length bytes.now - size_of_all texts.now) bytes.now }
    ensures behind { result.1.now ≡ drop (length bytes.now - size_of_all texts.now) bytes.now }
{
    bytes.split_at(left(bytes.len() as u64, texts) as usize)
}

/// The bytes of a source, and those behind it. Where there are fewer, they are all its own.
fn cut(bytes: &[u8], size: u64) -> (&[u8], &[u8])
    ensures first { result.0.now ≡ take size bytes.now }
    ensures rest { result.1.now ≡ drop size bytes.now }
{
    bytes.split_at(size.min(bytes.len() as u64) as usize)
}

/// The sources, whose bytes stand one behind the other.
fn sources<'a>(
    alloc: Global,
    bytes: &'a [u8],
    texts: &'a [SourceSize],
) -> Result<Vec<SourceText<'a>>, AllocError>
    ensures { IfOk result (λ sources. map source_of sources.items ≡ sources_in texts.now bytes.now) }
{
    let mut sources = Vec::with_capacity(alloc, texts.len())?;
    let mut rest = bytes;
    for text in texts {
        let (bytes, others) = cut(rest, text.size);
        sources.push(SourceText {
            name: text.name.as_slice(),
            bytes,
        })?;
        rest = others;
    }
    Ok(sources)
}

/// What is told of a fault of a page.
fn refused(fault: ReplayFault) -> Fault
    ensures { result ≡ fault_of_page fault }
{
    match PlaceFault::of(fault) {
        Some(place) => Fault::Page(place),
        None => Fault::Memory,
    }
}

/// Writes the steps from one place to another of the record that the bytes spell as a page, with the sources that stand behind
/// it, and says whether the writer took all of it. A place that isn't there, and a wrong step, are faults of the input.
#[tactic(auto, using(crate::proofs::Pages::left, crate::proofs::Pages::page_fault, crate::proofs::Pages::paged, crate::proofs::Left::unread_left, crate::proofs::Pages::of_page, crate::proofs::Pages::unread_page))]
pub fn put_page<O: Write>(
    alloc: Global,
    bytes: &[u8],
    from: u64,
    to: Option<u64>,
    texts: &SourceSizes,
    out: &mut O,
) -> Result<bool, Fault>
    ensures paged { IfOk result (λ taken. taken ≡ true
        → IsMade (command.Page from to texts.now) bytes.now (O.contents out.old) (O.contents out.new)) }
    ensures fault { IfErr result
        (IsReadFault (command.Page from to texts.now) (reading_record (record_part (command.Page from to texts.now) bytes.now))) }
    ensures left { IfErr result (λ fault.
        LeavesPieces (command.Page from to texts.now) bytes.now fault (O.contents out.old) (O.contents out.new)) }
{
    let (record, behind) = split(bytes, texts.as_slice());
    let (image, steps) = read(alloc, record)?;
    let sources = sources(alloc, behind, texts.as_slice())?;
    page(alloc, &image, &steps, from, to, &sources, out).map_err(|fault| refused(fault))
}
