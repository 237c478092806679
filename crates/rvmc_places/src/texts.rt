//! The text of a place.

ghost use Rattle.std.specs.Prelude.{◌≡◌, ◌++◌, OnOk, option_map};
ghost use Rattle.std.specs.Option.{option_copied};
ghost use Rattle.rvmc_places.specs.Places.{bracketed, function_text, hex_text, label_text, place_name, named_address_text, text_by};
ghost use Rattle.rvmc_places.specs.Read.{read_of};

use crate::names::SourceLine;
use crate::near::{line_at, nearest_label};
use rv_image_types::Symbol;
use std::alloc::AllocError;
use std::io::Write;

/// Adds an address, as `0x344`.
fn put_address(text: &mut Vec<u8>, at: u64) -> Result<(), AllocError>
    ensures { OnOk result (text.new.items ≡ text.old.items ++ hex_text at) }
{
    match write!(text, "0x{at:x}") {
        Ok(()) => Ok(()),
        Err(_) => Err(AllocError),
    }
}

/// Adds how far an address is behind a label, as `worker+0x24`; without a label the address alone.
fn put_label(text: &mut Vec<u8>, label: Option<&Symbol>, at: u64) -> Result<(), AllocError>
    ensures { OnOk result (text.new.items ≡ text.old.items ++ label_text (option_copied label.entry) at) }
{
    let Some(label) = label else {
        return put_address(text, at);
    };
    text.extend_from_slice(label.name.as_slice())?;
    let offset = at.saturating_sub(u64::from(label.address));
    text.extend_from_slice(b"+")?;
    put_address(text, offset)
}

/// Adds the function of a line, as ` in worker`.
fn put_function(text: &mut Vec<u8>, label: Option<&Symbol>) -> Result<(), AllocError>
    ensures { OnOk result (text.new.items ≡ text.old.items ++ function_text (option_copied label.entry)) }
{
    let Some(label) = label else {
        return Ok(());
    };
    text.extend_from_slice(b" in ")?;
    text.extend_from_slice(label.name.as_slice())
}

/// Adds an address behind the text of its place, as ` [0x344]`.
fn put_bracketed(text: &mut Vec<u8>, at: u64) -> Result<(), AllocError>
    ensures { OnOk result (text.new.items ≡ text.old.items ++ bracketed at) }
{
    text.extend_from_slice(b" [")?;
    put_address(text, at)?;
    text.extend_from_slice(b"]")
}

/// Adds a place by what is near to it.
fn put_by(
    text: &mut Vec<u8>,
    label: Option<&Symbol>,
    line: Option<SourceLine<'_>>,
    at: u64,
) -> Result<(), AllocError>
    ensures { OnOk result
        (text.new.items ≡ text.old.items ++ text_by (option_copied label.entry) (option_map read_of line.entry) at) }
{
    let Some(line) = line else {
        return put_label(text, label, at);
    };
    text.extend_from_slice(line.file)?;
    text.extend_from_slice(b":")?;
    text.extend_from_slice(line.number)?;
    put_function(text, label)
}

/// Adds a place: `farm.c:46 in worker`, `worker+0x24` where no line is known, `0x344` where no label is. The only error
/// is want of memory.
#[tactic(auto, unfolding(crate::specs::Places::place_name))]
pub fn put_name(text: &mut Vec<u8>, symbols: &[Symbol], at: u64) -> Result<(), AllocError>
    ensures { OnOk result (text.new.items ≡ text.old.items ++ place_name symbols.now at) }
{
    put_by(text, nearest_label(symbols, at), line_at(symbols, at), at)
}

/// Adds a place and its address, as `farm.c:46 in worker [0x344]`; where no label is known, the address alone. The only
/// error is want of memory.
#[tactic(auto, unfolding(crate::specs::Places::named_address_text, crate::specs::Places::place_name))]
pub fn put_place(text: &mut Vec<u8>, symbols: &[Symbol], at: u64) -> Result<(), AllocError>
    ensures { OnOk result (text.new.items ≡ text.old.items ++ named_address_text symbols.now at) }
{
    let label = nearest_label(symbols, at);
    let line = line_at(symbols, at);
    put_by(text, label, line, at)?;
    if label.is_none() && line.is_none() {
        return Ok(());
    }
    put_bracketed(text, at)
}
