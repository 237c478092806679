//! The nearest symbols of an address, and the line that it belongs to.

ghost use Rattle.std.specs.Prelude.{◌≡◌, option_map};
ghost use Rattle.std.specs.Option.{option_copied};
ghost use Rattle.rvmc_places.specs.Places.{is_inside, is_nearer, is_kind, line_at as line_of, nearest_of};
ghost use Rattle.rvmc_places.specs.Read.{read_of};
ghost use Rattle.rvmc_places.specs.declared.near.Kind.TheVariants as kind;

use crate::names::{SourceLine, line_named};
use rv_image_types::Symbol;

/// What a symbol is.
#[derive(Clone, Copy)]
pub enum Kind {
    /// Where a line of a source begins.
    Line,
    /// A function, a variable, or what `.globl` names.
    Label,
}

/// Whether the symbol is of a kind.
fn is_kind(wanted: Kind, symbol: &Symbol) -> bool
    ensures { result ≡ is_kind wanted symbol.now }
{
    match wanted {
        Kind::Line => line_named(symbol.name.as_slice()).is_some(),
        Kind::Label => line_named(symbol.name.as_slice()).is_none(),
    }
}

/// Whether the symbol is at the address or before it, and nearer than what was found.
fn is_nearer(at: u64, found: Option<&Symbol>, symbol: &Symbol) -> bool
    ensures { result ≡ is_nearer at (option_copied found.entry) symbol.now }
{
    let address = u64::from(symbol.address);
    match found {
        None => address <= at,
        Some(found) => address <= at && u64::from(found.address) < address,
    }
}

/// The symbol of a kind that is at the address or nearest before it, and of several at one address the first.
#[tactic(auto, unfolding(crate::specs::Places::nearest_of))]
fn nearest_of(wanted: Kind, symbols: &[Symbol], at: u64) -> Option<&Symbol>
    ensures { option_copied result ≡ nearest_of wanted symbols.now at }
{
    let mut found = None;
    for symbol in symbols {
        if is_nearer(at, found, symbol) && is_kind(wanted, symbol) {
            found = Some(symbol);
        }
    }
    found
}

/// The label at the address or nearest before it.
pub fn nearest_label(symbols: &[Symbol], at: u64) -> Option<&Symbol>
    ensures { option_copied result ≡ nearest_of kind.Label symbols.now at }
{
    nearest_of(Kind::Label, symbols, at)
}

/// Whether a line isn't that of a function before the label.
fn is_inside(label: Option<&Symbol>, line: &Symbol) -> bool
    ensures { result ≡ is_inside (option_copied label.entry) line.now }
{
    match label {
        None => true,
        Some(label) => label.address <= line.address,
    }
}

/// The line that the address belongs to: that of the nearest symbol of a line, unless a label stands between.
#[tactic(auto, unfolding(crate::specs::Places::line_at))]
pub fn line_at(symbols: &[Symbol], at: u64) -> Option<SourceLine<'_>>
    ensures { option_map read_of result ≡ line_of symbols.now at }
{
    let line = nearest_of(Kind::Line, symbols, at)?;
    if !is_inside(nearest_label(symbols, at), line) {
        return None;
    }
    line_named(line.name.as_slice())
}
