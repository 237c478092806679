//! What stands beside a mark: output, a code, why a call was refused or an instruction trapped, and a receive of any source.

ghost use Rattle.std.specs.Prelude.{◌≡◌, ◌++◌, OnOk};
ghost use Rattle.rvmc_picture.specs.Notes.{cause_note};

use cl_calls::{call_name, called_number};
use rv_decode::Reg;
use rv_hart::{Hart, Mode};
use rvmc_draw::{Deed, Shape, wildcard_in};
use rvmc_places::put_trapped;
use rvmc_sights::After;
use rvmc_stats::code_name;
use std::alloc::Global;
use std::io;
use std::io::Write;

/// The most bytes of an output that are kept beside its mark.
const SHOWN: usize = 64;

/// Adds the code with which a hart ended, unless it is 0.
fn put_code(note: &mut Vec<u8>, mode: Mode) -> io::Result<()> {
    match mode {
        Mode::Ended(code) if code != 0 => write!(note, "code {code}"),
        _ => Ok(()),
    }
}

/// Adds why a hart trapped, if it has.
fn put_cause(note: &mut Vec<u8>, after: &After) -> io::Result<()>
    ensures { OnOk result (note.new.items ≡ note.old.items ++ cause_note after.now.overflow after.now.hart.mode) }
{
    match after.hart.mode() {
        Mode::Trapped(cause, _) => {
            put_trapped(note, after.overflow, cause)?;
            Ok(())
        }
        _ => Ok(()),
    }
}

/// Adds a call that was refused, and its code.
fn put_refused(note: &mut Vec<u8>, before: &Hart, after: &Hart) -> io::Result<()> {
    note.extend_from_slice(call_name(called_number(before)).as_bytes())?;
    note.extend_from_slice(b" ")?;
    note.extend_from_slice(code_name(after.get(Reg::new(10))).as_bytes())?;
    Ok(())
}

/// Adds what a receive or a claim of any source asks for.
fn put_wild(note: &mut Vec<u8>, deed: &Deed, before: &Hart) -> io::Result<()> {
    if let Some(selection) = wildcard_in(deed.made) {
        note.extend_from_slice(call_name(called_number(before)).as_bytes())?;
        match selection.tag {
            None => note.extend_from_slice(b" any, any")?,
            Some(tag) => write!(note, " any, {tag}")?,
        }
    }
    Ok(())
}

/// What stands beside the mark of a step, if anything. The only error is want of memory.
pub(crate) fn note_of(
    alloc: Global,
    deed: &Deed,
    before: &Hart,
    after: &After,
    out: &[u8],
) -> io::Result<Vec<u8>> {
    let mut note = Vec::new(alloc);
    match deed.shape {
        Some(Shape::Put) => note.extend_from_slice(&out[..out.len().min(SHOWN)])?,
        Some(Shape::Exit) => put_code(&mut note, after.hart.mode())?,
        Some(Shape::Trap) => put_cause(&mut note, after)?,
        Some(Shape::Refused) => put_refused(&mut note, before, &after.hart)?,
        _ => put_wild(&mut note, deed, before)?,
    }
    Ok(note)
}
