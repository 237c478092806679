//! Where a line of a source begins.

ghost use Rattle.std.specs.Prelude.{◌≡◌, IfOk};
ghost use Rattle.rvmc_places.specs.Places.{begins_line, is_line, line_start, line_starts};
ghost use Rattle.rvmc_places.specs.Read.{read_of};

use crate::names::{SourceLine, line_named};
use rv_image_types::Symbol;
use std::alloc::{AllocError, Global};

/// Whether a symbol is where a line begins.
fn begins_line(file: &[u8], number: &[u8], symbol: &Symbol) -> bool
    ensures { result ≡ begins_line file.now number.now symbol.now }
{
    match line_named(symbol.name.as_slice()) {
        None => false,
        Some(line) => line.file == file && line.number == number,
    }
}

/// The address at which a line begins, or the first of several, in the order of the symbols' names.
pub fn line_start(symbols: &[Symbol], file: &[u8], number: &[u8]) -> Option<u64>
    ensures { result ≡ line_start file.now number.now symbols.now }
{
    for symbol in symbols {
        if begins_line(file, number, symbol) {
            return Some(u64::from(symbol.address));
        }
    }
    None
}

/// The addresses at which a line begins, in the order of the symbols' names. The only error is want of memory, where there
/// is one.
pub fn line_starts(
    alloc: Global,
    symbols: &[Symbol],
    file: &[u8],
    number: &[u8],
) -> Result<Vec<u64>, AllocError>
    ensures { IfOk result (λ found. found.items ≡ line_starts file.now number.now symbols.now) }
{
    let mut found = Vec::new(alloc);
    for symbol in symbols {
        if begins_line(file, number, symbol) {
            found.push(u64::from(symbol.address))?;
        }
    }
    Ok(found)
}
