//! An instruction by its mnemonic and operands.

ghost use Rattle.std.specs.Prelude.{◌≡◌, ◌∷◌, [], List, MatchOption, map, is_some, IsTrue, Err};
ghost use Rattle.rv_asm_tokens.specs.declared.fault.AsmFaultKind.TheVariants as kinds;
ghost use Rattle.rv_asm_tokens.specs.Returned.{Gives};
ghost use Rattle.std.specs.Option.{option_map};
ghost use Rattle.rv_asm_statements.specs.CodeViews.{argument_view};
ghost use Rattle.rv_asm_statements.specs.Walk.{first_given};
ghost use Rattle.rv_asm_statements.specs.RowView.{row_view};
ghost use Rattle.rv_asm_statements.specs.Arguments.{Argument};
ghost use Rattle.rv_asm_statements.specs.Read.{read_use};
ghost use Rattle.rv_asm_statements.specs.Mnemonics.{row_use, row_named, instruction_of, use_of as use_meant};
ghost use Rattle.rv_asm_statements.specs.Kept.{has_label};
ghost use Rattle.rv_asm_statements.specs.Mnemonics.{is_mnemonic as is_mnemonic_meant};

use crate::filled::{Filled, FilledRef};
use crate::names::is_same_name;
use crate::operand_list::{Operand, Operands};
use crate::rows::{
    A_ROWS, B_ROWS, D_ROWS, E_ROWS, F_ROWS, J_ROWS, L_ROWS, M_ROWS, N_ROWS, O_ROWS, R_ROWS, Row,
    S_ROWS, SL_ROWS, SR_ROWS, Template, X_ROWS,
};
use crate::shapes::filled_for;
use rv_asm_tokens::AsmFaultKind;
use std::alloc::Global;

/// A mnemonic's instruction and the operands of the source.
#[derive(Drop)]
pub struct Use {
    pub template: Template,
    pub filled: Filled,
}

/// A mnemonic's instruction and the operands of the source, whose label still stands there.
#[derive(Clone, Copy)]
pub struct UseRef<'a> {
    pub template: Template,
    pub filled: FilledRef<'a>,
}

/// What a row makes of operands, if it is the mnemonic's and takes them.
#[tactic(auto, unfolding(crate::specs::Mnemonics::row_use))]
fn use_of_row<'a>(name: &[u8], operands: &[Operand<'a>], row: &Row) -> Option<UseRef<'a>>
    ensures { option_map read_use result ≡ row_use name.now (map argument_view operands.now) (row_view row.now) }
{
    if is_same_name(row.name, name) {
        match filled_for(row.shape, operands) {
            None => None,
            Some(filled) => Some(UseRef {
                template: row.template,
                filled,
            }),
        }
    } else {
        None
    }
}

fn use_in<'a>(table: &[Row], name: &[u8], operands: &[Operand<'a>]) -> Option<UseRef<'a>>
    ensures { option_map read_use result
        ≡ first_given (row_use name.now (map argument_view operands.now)) (map row_view table.now) }
{
    for row in table {
        if let Some(found) = use_of_row(name, operands, row) {
            return Some(found);
        }
    }
    None
}

fn has_row(table: &[Row], name: &[u8]) -> bool
    ensures { result ≡ is_some (first_given (row_named name.now) (map row_view table.now)) }
{
    for row in table {
        if is_same_name(row.name, name) {
            return true;
        }
    }
    false
}

/// A name's first letter, and what stands behind it.
fn first_letter(name: &[u8]) -> Option<(u8, &[u8])>
    ensures { MatchOption result (name.now ≡ []) (λ x. name.now ≡ x.0 ∷ x.1.now) }
{
    match name {
        [] => None,
        [first, rest @ ..] => Some((*first, rest)),
    }
}

/// The rows of the names that begin with s and what stands behind it. No other row has the name.
#[tactic(auto, unfolding(crate::specs::Mnemonics::row_use))]
fn s_rows(behind: &[u8]) -> &'static [Row]
    ensures uses { (xs : List Argument)
        → first_given (row_use (115 ∷ behind.now) xs) (map row_view result.now) ≡ use_meant (115 ∷ behind.now) xs }
    ensures named { is_some (first_given (row_named (115 ∷ behind.now)) (map row_view result.now))
        ≡ is_mnemonic_meant (115 ∷ behind.now) }
{
    match behind {
        [b'l', ..] => &SL_ROWS,
        [b'r', ..] => &SR_ROWS,
        _ => &S_ROWS,
    }
}

/// The rows of the names that begin with a letter and what stands behind it. No other row has the name.
#[tactic(auto, unfolding(crate::specs::Mnemonics::row_use))]
fn rows_from(letter: u8, behind: &[u8]) -> &'static [Row]
    ensures uses { (xs : List Argument)
        → first_given (row_use (letter ∷ behind.now) xs) (map row_view result.now) ≡ use_meant (letter ∷ behind.now) xs }
    ensures named { is_some (first_given (row_named (letter ∷ behind.now)) (map row_view result.now))
        ≡ is_mnemonic_meant (letter ∷ behind.now) }
{
    match letter {
        b'a' => &A_ROWS,
        b'b' => &B_ROWS,
        b'd' => &D_ROWS,
        b'e' => &E_ROWS,
        b'f' => &F_ROWS,
        b'j' => &J_ROWS,
        b'l' => &L_ROWS,
        b'm' => &M_ROWS,
        b'n' => &N_ROWS,
        b'o' => &O_ROWS,
        b'r' => &R_ROWS,
        b's' => s_rows(behind),
        b'x' => &X_ROWS,
        _ => &[],
    }
}

/// The rows of the names that begin as a name does. No other row has the name.
fn rows_like(name: &[u8]) -> &'static [Row]
    ensures uses { (xs : List Argument)
        → first_given (row_use name.now xs) (map row_view result.now) ≡ use_meant name.now xs }
    ensures named { is_some (first_given (row_named name.now) (map row_view result.now)) ≡ is_mnemonic_meant name.now }
{
    match first_letter(name) {
        None => &[],
        Some((letter, behind)) => rows_from(letter, behind),
    }
}

/// What the first row that takes the operands makes of them. No row takes more than three.
#[tactic(auto, using(crate::proofs::TooMany::no_use_past_three))]
fn use_of<'a>(name: &[u8], operands: &Operands<'a>) -> Option<UseRef<'a>>
    ensures { option_map read_use result ≡ use_meant name.now operands.now }
{
    match operands.few() {
        None => None,
        Some(few) => use_in(rows_like(name), name, few),
    }
}

/// Whether a row has the name.
fn is_mnemonic(name: &[u8]) -> bool
    ensures { result ≡ is_mnemonic_meant name.now }
{
    has_row(rows_like(name), name)
}

/// The instruction of a mnemonic and its operands, which are None where no operands stand there.
///
/// `Mnemonic` where there is no such mnemonic, `Operand` where it does not take these operands, and `Memory`
/// where no memory is left for a copy of its label.
#[tactic(auto, unfolding(crate::specs::Mnemonics::instruction_of))]
pub fn instruction(
    alloc: Global,
    name: &[u8],
    operands: &Option<Operands<'_>>,
) -> Result<Use, AsmFaultKind>
    ensures value { Gives (λ found. found) result (instruction_of name.now operands.now) }
    ensures memory { result ≡ Err kinds.Memory
        → IsTrue (has_label (instruction_of name.now operands.now)) }
{
    if let Some(operands) = operands {
        if let Some(found) = use_of(name, operands) {
            return Ok(Use {
                template: found.template,
                filled: found.filled.copied(alloc)?,
            });
        }
    }
    if is_mnemonic(name) {
        Err(AsmFaultKind::Operand)
    } else {
        Err(AsmFaultKind::Mnemonic)
    }
}
