//! What each step changed.

ghost use Rattle.std.specs.Prelude.{◌≡◌, ◌++◌, OnOk};
ghost use Rattle.std.specs.List.{flat_map};
ghost use Rattle.rvmc_changes.specs.Given.{difference_in};
ghost use Rattle.rvmc_changes.specs.Given.{differences};
ghost use Rattle.rvmc_page.specs.Steps.{changed_byte, change_text, changes_text, change_head, put_text, changed_register};

use crate::safe::put_bytes;
use crate::starts::put_stand;
use rvmc_changes::{Change, Edit};
use std::io;
use std::io::Write;

/// Adds a register.
#[tactic(auto, unfolding(crate::specs::Steps::changed_register))]
fn put_register(text: &mut Vec<u8>, edit: Edit) -> io::Result<()>
    ensures { OnOk result (text.new.items ≡ text.old.items ++ changed_register edit) }
{
    let Edit { place, old, new } = edit;
    write!(text, " x{place}.{old:x}.{new:x}")
}

/// Adds registers.
fn put_registers(text: &mut Vec<u8>, edits: &[Edit]) -> io::Result<()>
    ensures { OnOk result (text.new.items ≡ text.old.items ++ flat_map changed_register edits.now) }
{
    for edit in edits {
        put_register(text, *edit)?;
    }
    Ok(())
}

/// Adds a byte of the memory.
#[tactic(auto, unfolding(crate::specs::Steps::changed_byte))]
fn put_memory_byte(text: &mut Vec<u8>, edit: Edit) -> io::Result<()>
    ensures { OnOk result (text.new.items ≡ text.old.items ++ changed_byte edit) }
{
    let Edit { place, old, new } = edit;
    write!(text, " m{place:x}.{old:x}.{new:x}")
}

/// Adds bytes of the memory.
fn put_memory_bytes(text: &mut Vec<u8>, edits: &[Edit]) -> io::Result<()>
    ensures { OnOk result (text.new.items ≡ text.old.items ++ flat_map changed_byte edits.now) }
{
    for edit in edits {
        put_memory_byte(text, *edit)?;
    }
    Ok(())
}

/// Adds what was put out, if anything.
fn put_output(text: &mut Vec<u8>, bytes: &[u8]) -> io::Result<()>
    ensures { OnOk result (text.new.items ≡ text.old.items ++ put_text bytes.now) }
{
    if bytes.is_empty() {
        return Ok(());
    }
    text.extend_from_slice(b" o")?;
    put_bytes(text, bytes)
}

/// Adds where the hart of a step stood, and where it stands.
fn put_head(text: &mut Vec<u8>, change: &Change) -> io::Result<()>
    ensures { OnOk result (text.new.items ≡ text.old.items ++ change_head (difference_in change.now)) }
{
    let Change { rank, hart, .. } = change;
    write!(text, "{rank} {hart} ")?;
    put_stand(text, change.old)?;
    text.extend_from_slice(b" ")?;
    put_stand(text, change.new)
}

/// Adds a step.
#[tactic(auto, unfolding(crate::specs::Steps::change_text))]
fn put_change(text: &mut Vec<u8>, change: &Change) -> io::Result<()>
    ensures { OnOk result (text.new.items ≡ text.old.items ++ change_text (difference_in change.now)) }
{
    put_head(text, change)?;
    put_registers(text, change.registers.as_slice())?;
    put_memory_bytes(text, change.bytes.as_slice())?;
    put_output(text, change.put.as_slice())?;
    text.extend_from_slice(b"\n")?;
    Ok(())
}

/// Adds all steps.
pub(crate) fn put_changes(text: &mut Vec<u8>, changes: &[Change]) -> io::Result<()>
    ensures { OnOk result (text.new.items ≡ text.old.items ++ changes_text (differences changes.now)) }
{
    for change in changes {
        put_change(text, change)?;
    }
    Ok(())
}
