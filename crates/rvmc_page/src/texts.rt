//! The sources.

ghost use Rattle.std.specs.Prelude.{◌≡◌, ◌++◌, OnOk};
ghost use Rattle.rvmc_page.specs.Texts.{last_end, source_text, texts_text};

use crate::safe::{put_escaped, put_lines};
use std::io;

/// A source: its name, and its bytes.
#[derive(Clone, Copy, Drop)]
pub struct SourceText<'a> {
    pub name: &'a [u8],
    pub bytes: &'a [u8],
}

/// Adds the end of the last line, unless it has one.
fn put_last_end(text: &mut Vec<u8>, bytes: &[u8]) -> io::Result<()>
    ensures { OnOk result (text.new.items ≡ text.old.items ++ last_end bytes.now) }
{
    if !bytes.ends_with(b"\n") {
        text.extend_from_slice(b"\n")?;
    }
    Ok(())
}

/// Adds a source: a line with its name, and its lines.
#[tactic(auto, unfolding(crate::specs::Texts::source_text))]
fn put_source(text: &mut Vec<u8>, source: &SourceText<'_>) -> io::Result<()>
    ensures { OnOk result (text.new.items ≡ text.old.items ++ source_text source.now) }
{
    text.extend_from_slice(b"\\file ")?;
    put_escaped(text, source.name)?;
    text.extend_from_slice(b"\n")?;
    put_lines(text, source.bytes)?;
    put_last_end(text, source.bytes)
}

/// Adds all sources.
pub(crate) fn put_texts(text: &mut Vec<u8>, sources: &[SourceText<'_>]) -> io::Result<()>
    ensures { OnOk result (text.new.items ≡ text.old.items ++ texts_text sources.now) }
{
    for source in sources {
        put_source(text, source)?;
    }
    Ok(())
}
