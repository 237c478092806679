//! The symbols of a source.

ghost use Rattle.std.specs.Prelude.{◌≡◌, ◌<◌, ◌^◌, ◌++◌, ◌∷◌, [], IfOk, IfSome, OnOk, List, ℕ};
ghost use Rattle.rv_asm_lines.specs.LayoutView.{addresses_view, layout_view};
ghost use Rattle.rv_asm_lines.specs.Resolved.{address_in};
ghost use Rattle.rv_asm.specs.Source.{symbols_in};

use rv_asm_lines::{Layout, find_label};
use rv_image_types::{Symbol, SymbolName, Symbols};
use std::alloc::{AllocError, Global};

/// Adds a symbol.
fn put_symbol(
    alloc: Global,
    done: &mut Vec<Symbol>,
    name: &[u8],
    address: u32,
) -> Result<(), AllocError>
    ensures { OnOk result
        (done.new.items ≡ done.old.items ++ record { name = name.now; address = address } ∷ []) }
{
    let name = SymbolName::from_vec(Vec::from_slice(alloc, name)?);
    done.push(Symbol { name, address })?;
    Ok(())
}

/// The names of `.globl` in byte order, with the addresses of their labels.
pub fn symbols_of(alloc: Global, layout: &Layout<'_>) -> Result<Symbols, AllocError>
    requires { (w : List ℕ) → IfSome (address_in w (addresses_view layout.now)) (λ at. at < 2 ^ 32) }
    ensures { IfOk result (λ symbols. symbols ≡ symbols_in (layout_view layout.now)) }
{
    let mut done = Vec::new(alloc);
    for name in &layout.globals {
        if let Some(at) = find_label(layout, name.as_slice()) {
            put_symbol(alloc, &mut done, name.as_slice(), at as u32)?;
        }
    }
    Ok(Symbols::from_vec(done))
}
