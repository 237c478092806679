//! The sources that a page is to show: `--text NAME=LEN`, any number of times.

ghost use Rattle.std.specs.Prelude.{◌≡◌, ◌==◌, ◌∷◌, [], IfOk, map};
ghost use Rattle.std.specs.List.{slice_split};
ghost use Rattle.clap.specs.Walk.{rows_of};
ghost use Rattle.clap.specs.Words.{found_of};
ghost use Rattle.rvmc_cli.specs.Parsing.{Finds};
ghost use Rattle.rvmc_cli.specs.Sources.{each_size, size_in, size_of_parts, sizes_in};

use crate::values;
use crate::wrong::Wrong;
use clap::ArgMatches;
use rvmc_line::{SourceSize, SourceSizes};
use rvmc_starts::Text;
use rvmc_words::number_in;
use std::alloc::{AllocError, Global};

/// The most bytes of a source: as many as the input may have.
const MOST: u64 = 67_108_864;

/// The parts of a text that its equals signs separate.
fn parts<'a>(alloc: Global, text: &'a str) -> Result<Vec<&'a str>, AllocError>
    ensures { IfOk result (λ parts. map (λ part. part.now) parts.items ≡ slice_split (λ byte. byte == 61) text.now) }
{
    text.split('=').collect(alloc)
}

/// The source that a name and a number of bytes give.
fn size_of(alloc: Global, name: &str, size: &str) -> Result<Option<SourceSize>, AllocError>
    ensures { IfOk result (λ found. found ≡ size_of_parts (name.now ∷ size.now ∷ [])) }
{
    let Some(size) = number_in(0, MOST, size) else {
        return Ok(None);
    };
    let name = Text::copy_of(alloc, name.as_bytes())?;
    Ok(Some(SourceSize { name, size }))
}

fn size_of_parts(alloc: Global, parts: &[&str]) -> Result<Option<SourceSize>, AllocError>
    ensures { IfOk result (λ found. found ≡ size_of_parts (map (λ part. part.now) parts.now)) }
{
    match parts {
        [name, size] => size_of(alloc, name, size),
        _ => Ok(None),
    }
}

/// The source that a text names, as `farm.c=120`.
#[tactic(auto, unfolding(crate::specs::Sources::size_in))]
fn size_in(alloc: Global, text: &str) -> Result<Option<SourceSize>, AllocError>
    ensures { IfOk result (λ found. found ≡ size_in text.now) }
{
    let parts = parts(alloc, text)?;
    size_of_parts(alloc, &parts)
}

/// The source of each text, up to the first that names none.
fn each_size<'a>(alloc: Global, texts: &[&'a str]) -> Result<SourceSizes, Wrong<'a>>
    ensures { Finds (each_size (map (λ text. text.now) texts.now)) result }
{
    let mut sizes = SourceSizes::new(alloc);
    for text in texts {
        let Some(size) = size_in(alloc, text)? else {
            return Err(Wrong::Source(text));
        };
        sizes.push(size)?;
    }
    Ok(sizes)
}

/// The sources that were named.
pub fn sizes<'a>(alloc: Global, matches: &ArgMatches<'a>) -> Result<SourceSizes, Wrong<'a>>
    ensures { Finds (sizes_in (rows_of (found_of matches.now))) result }
{
    let Some(texts) = values::texts(matches, "text") else {
        return Ok(SourceSizes::new(alloc));
    };
    each_size(alloc, texts)
}
