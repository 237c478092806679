//! The names of `.globl`.

ghost use Rattle.std.specs.Prelude.{◌≡◌, Ok, Err, Some, true, MatchResult, OnOk};
ghost use Rattle.std.specs.BTreeSet.{insert_key};
ghost use Rattle.std.specs.Cmp.Lexicographic.{slice_cmp};
ghost use Rattle.std.specs.Ordering.{nat_cmp};
ghost use Rattle.rv_asm_tokens.specs.declared.fault.AsmFaultKind.TheVariants as kinds;
ghost use Rattle.rv_asm_tokens.specs.Returned.{Fails};
ghost use Rattle.rv_asm_lines.specs.Refused.{NoFault};
ghost use Rattle.rv_asm_lines.specs.Globals.{global_of, globals_behind, with_global};
ghost use Rattle.rv_asm_lines.specs.GlobalNames.{gives_new};
ghost use Rattle.rv_asm_lines.specs.LayoutView.{names_view};

use rv_asm_statements::{Directive, Statement};
use rv_asm_tokens::AsmFaultKind;
use rv_image_types::SYMBOLS_MAX;
use std::alloc::{AllocError, Global};
use std::collections::BTreeSet;

/// Puts a name that isn't there at its place.
fn put_global(alloc: Global, globals: &mut BTreeSet<Vec<u8>>, name: &[u8]) -> Result<(), AllocError>
    ensures { OnOk result (names_view globals.new ≡ insert_key (slice_cmp nat_cmp) (names_view globals.old) name.now) }
{
    let key = Vec::from_slice(alloc, name)?;
    globals.insert(key)?;
    Ok(())
}

/// Takes a name, if it isn't there: `Limit` for the 1,025th.
fn add_global(
    alloc: Global,
    globals: &mut BTreeSet<Vec<u8>>,
    name: &[u8],
) -> Result<(), AsmFaultKind>
    ensures names { MatchResult result
        (λ _. with_global name.now (names_view globals.old) ≡ Ok (names_view globals.new))
        (λ e. Fails e (with_global name.now (names_view globals.old))) }
    ensures memory { result ≡ Err kinds.Memory → NoFault (with_global name.now (names_view globals.old)) }
    ensures asked { result ≡ Err kinds.Memory → gives_new (Some name.now) (names_view globals.old) ≡ true }
{
    if globals.contains(name) {
        return Ok(());
    }
    if globals.len() >= SYMBOLS_MAX as usize {
        return Err(AsmFaultKind::Limit);
    }
    put_global(alloc, globals, name)?;
    Ok(())
}

/// Takes the name of a statement that is a `.globl`: `Limit` for the 1,025th, and `Memory`.
pub fn take_global(
    alloc: Global,
    globals: &mut BTreeSet<Vec<u8>>,
    statement: &Statement,
) -> Result<(), AsmFaultKind>
    ensures names { MatchResult result
        (λ _. globals_behind statement.now (names_view globals.old) ≡ Ok (names_view globals.new))
        (λ e. Fails e (globals_behind statement.now (names_view globals.old))) }
    ensures memory { result ≡ Err kinds.Memory → NoFault (globals_behind statement.now (names_view globals.old)) }
    ensures asked { result ≡ Err kinds.Memory → gives_new (global_of statement.now) (names_view globals.old) ≡ true }
{
    match statement {
        Statement::Directive(Directive::Global(name)) => {
            add_global(alloc, globals, name.as_slice())
        }
        _ => Ok(()),
    }
}
