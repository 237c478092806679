//! The image that a command takes from its input.

ghost use Rattle.std.specs.Prelude.{◌≡◌, ◌+◌, ◌==◌, Err, count_by};
ghost use Rattle.std.specs.Str.{IsUtf8};
ghost use Rattle.rvmc_answers.specs.Images.{image_in, source_image, spelled_image, wrong_bytes};
ghost use Rattle.rvmc_answers.specs.Taking.{Reads};

use rv_asm::{AsmFault, AsmFaultKind, assemble};
use rv_image::read_image;
use rv_image_types::Image;
use rvmc_inspect::faults::Fault;
use std::alloc::Global;

/// The number, from 1, of the line that follows these bytes.
fn line_at(before: &[u8]) -> u64
    ensures { result ≡ count_by (λ byte. byte == 10) before.now + 1 }
{
    before.iter().filter(|byte| **byte == b'\n').count() as u64 + 1
}

/// The image of a source. Bytes that aren't UTF-8 are a Token at the line of the first wrong byte.
#[tactic(auto, unfolding(crate::specs::Images::source_image))]
fn source_image(alloc: Global, bytes: &[u8]) -> Result<Image, Fault>
    ensures image { Reads (source_image bytes.now) result }
    ensures token { ¬ (IsUtf8 bytes.now) → result ≡ Err (wrong_bytes bytes.now) }
{
    match str::from_utf8(bytes) {
        Ok(source) => Ok(assemble(alloc, source)?),
        Err(error) => Err(Fault::Source(AsmFault {
            line: line_at(&bytes[..error.valid_up_to()]),
            kind: AsmFaultKind::Token,
        })),
    }
}

/// The image that the bytes spell.
fn spelled_image(alloc: Global, bytes: &[u8]) -> Result<Image, Fault>
    ensures { Reads (spelled_image bytes.now) result }
{
    Ok(read_image(alloc, bytes)?)
}

/// The image that a command takes from the bytes: with `source` of a source.
pub fn image_in(alloc: Global, source: bool, bytes: &[u8]) -> Result<Image, Fault>
    ensures { Reads (image_in source bytes.now) result }
{
    if source {
        source_image(alloc, bytes)
    } else {
        spelled_image(alloc, bytes)
    }
}
