//! What is told of a source's first fault, by the words of its line.

ghost use Rattle.std.specs.Prelude.{◌≡◌, ◌≢◌, IfSome, Some, false, option_map, true};
ghost use Rattle.rv_asm_tokens.specs.Scan.{tokens_of};
ghost use Rattle.rvmc_hints.specs.Near.{is_near};
ghost use Rattle.rvmc_hints.specs.Sources.{IsDirectiveHint, IsLimitHint, IsMnemonicHint, IsOperandHint, IsRangeHint};
ghost use Rattle.rvmc_hints.specs.Sources.{IsSo, first_number, is_of, limit_text, whole_text};
ghost use Rattle.rvmc_hints.specs.Texts.{hint_text};

use crate::hint::{Hint, Kind, Place};
use crate::labels::{missing_hint, twice_hint};
use crate::lines::{first_word, is_number, line_at, statement};
use crate::mnemonics::{Row, directives, here_for, mnemonics, row_of};
use crate::near::is_near;
use crate::seen::are_printable;
use crate::tokens::token_hint;
use cl_calls::call_number;
use rv_asm_statements::register;
use rv_asm_tokens::{AsmFault, AsmFaultKind, Token, Tokens, value_of};

/// The first name of a table that is near to a word.
fn near_in(table: &'static [Row], word: &[u8]) -> Option<&'static str>
    ensures { IfSome result (λ name. is_near name.now word.now ≡ true) }
{
    for row in table {
        if is_near(row.name.as_bytes(), word) {
            return Some(row.name);
        }
    }
    None
}

/// A name near to a word, of the mnemonics or the directives, first of the kind that it looks like.
fn near_name(word: &[u8]) -> Option<&'static str>
    ensures { IfSome result (λ name. is_near name.now word.now ≡ true) }
{
    match word {
        [b'.', ..] => near_in(directives(), word),
        _ => match near_in(mnemonics(), word) {
            Some(name) => Some(name),
            None => near_in(directives(), word),
        },
    }
}

/// The row of a word that begins a statement.
fn row_named(word: &[u8]) -> Option<&'static Row>
    ensures { IfSome result (λ row. row.now.name.now ≡ word.now) }
{
    match word {
        [b'.', ..] => row_of(directives(), word),
        _ => row_of(mnemonics(), word),
    }
}

/// A statement's first word is no mnemonic.
fn mnemonic_hint(line: &[u8]) -> Option<Hint<'_>>
    ensures { IfSome result IsMnemonicHint }
{
    let first = statement(line)?;
    let word = first.text;
    if row_named(word).is_some() {
        return None;
    }
    if let Some(here) = here_for(word) {
        return Some(Hint::Foreign { word, here });
    }
    Some(Hint::Unknown {
        word,
        kind: Kind::Instruction,
        near: near_name(word),
    })
}

/// Whether a word is of the kind that a place asks for.
fn is_of(place: Place, word: &[u8]) -> bool
    ensures { result ≡ is_of place word.now }
{
    match place {
        Place::Register => register(word).is_some(),
        Place::Number => is_number(word),
        Place::Target => true,
        Place::Label => !is_number(word),
        Place::Orders => word == b"iorw".as_slice(),
    }
}

/// A word that is of no such kind, of a statement that takes these operands.
fn misplaced<'a>(word: &'a [u8], kind: Place, row: &Row) -> Hint<'a>
    requires { is_of kind word.now ≡ false }
    ensures { IsOperandHint result }
{
    if let Place::Number = kind {
        if let Some(number) = call_number(word) {
            return Hint::Call { word, number };
        }
    }
    Hint::Misplaced {
        word,
        kind,
        name: row.name,
        operands: row.operands,
    }
}

/// The first operand that is of another kind than its place asks for.
fn operand_hint<'a>(row: &Row, operands: &'a [u8]) -> Hint<'a>
    ensures { IsOperandHint result }
{
    let mut rest = operands;
    for place in row.places {
        let Some(found) = first_word(rest) else {
            break;
        };
        if !is_of(*place, found.text) {
            return misplaced(found.text, *place, row);
        }
        rest = found.behind;
    }
    Hint::Takes {
        name: row.name,
        operands: row.operands,
    }
}

/// A mnemonic doesn't take the operands behind it.
fn operands_hint(line: &[u8]) -> Option<Hint<'_>>
    ensures { IfSome result IsOperandHint }
{
    let first = statement(line)?;
    let row = row_of(mnemonics(), first.text)?;
    Some(operand_hint(row, first.behind))
}

/// How many bytes of a statement are shown at most.
const SHOWN: usize = 64;

/// What a directive takes, with what stands behind it, where that is printable and short.
fn takes_at<'a>(behind: &'a [u8], row: &Row) -> Hint<'a>
    ensures { IsDirectiveHint result }
{
    let words = behind.trim_ascii();
    if words.is_empty() || words.len() > SHOWN || !are_printable(words) {
        return Hint::Takes {
            name: row.name,
            operands: row.operands,
        };
    }
    Hint::At {
        words,
        name: row.name,
        operands: row.operands,
    }
}

/// A directive isn't known, or is wrong where it stands.
fn directive_hint(line: &[u8]) -> Option<Hint<'_>>
    ensures { IfSome result IsDirectiveHint }
{
    let first = statement(line)?;
    let word = first.text;
    if let [b'.', ..] = word {
        let Some(row) = row_of(directives(), word) else {
            return Some(Hint::Unknown {
                word,
                kind: Kind::Directive,
                near: near_name(word),
            });
        };
        return Some(takes_at(first.behind, row));
    }
    Some(Hint::Most("instructions stand in the text part, behind .text"))
}

/// The number that a word spells.
fn number_of(word: &[u8]) -> Option<i128>
    ensures { result ≡ first_number (tokens_of word.now) }
{
    let Ok(mut tokens) = Tokens::of_line(word) else {
        return None;
    };
    match tokens.next() {
        Some(Token::Number(number)) => Some(value_of(number)),
        _ => None,
    }
}

/// The first word that spells this number.
fn word_of(value: i128, operands: &[u8]) -> Option<&[u8]>
    ensures { IfSome result (λ word. first_number (tokens_of word.now) ≡ Some value) }
{
    let mut rest = operands;
    while let Some(found) = first_word(rest) {
        if number_of(found.text) == Some(value) {
            return Some(found.text);
        }
        rest = found.behind;
    }
    None
}

/// A number doesn't fit, or the way to a target.
fn range_hint(value: i128, line: &[u8]) -> Option<Hint<'_>>
    ensures { IfSome result (IsRangeHint value) }
{
    let first = statement(line)?;
    let row = row_named(first.text)?;
    match word_of(value, first.behind) {
        Some(word) => Some(Hint::Unfit {
            word,
            name: row.name,
            operands: row.operands,
        }),
        None => Some(Hint::Takes {
            name: row.name,
            operands: row.operands,
        }),
    }
}

/// What there may be so many of, by the name of the statement that asks for one more.
fn limit_of(name: &str) -> &'static str
    ensures { result.now ≡ limit_text name.now }
{
    if name == ".comm" {
        "an image has at most 7 communicators"
    } else if name == ".link" {
        "an image has at most 32 links"
    } else if name == ".globl" {
        "an image has at most 1024 symbols"
    } else {
        "the text and the data have at most 1048576 bytes each"
    }
}

/// A part, or the number of communicators, links or symbols, grows past its limit.
fn limit_hint(line: &[u8]) -> Option<Hint<'_>>
    ensures { IfSome result IsLimitHint }
{
    let first = statement(line)?;
    let row = row_named(first.text)?;
    Some(Hint::Most(limit_of(row.name)))
}

/// A fault of the source as a whole.
fn whole_hint<'a>(kind: AsmFaultKind) -> Option<Hint<'a>>
    ensures { option_map hint_text result ≡ whole_text kind }
{
    match kind {
        AsmFaultKind::Directive => Some(Hint::NoText),
        AsmFaultKind::Limit => Some(Hint::Most(
            "4096 bytes a hart, the text and the data have to fit into the memory, which .memory sets",
        )),
        _ => None,
    }
}

/// What a person can be told of a source's first fault.
pub fn source_hint(bytes: &[u8], fault: AsmFault) -> Option<Hint<'_>>
    ensures whole { fault.line ≡ 0 → option_map hint_text result ≡ whole_text fault.kind }
    ensures said { fault.line ≢ 0 → IfSome result (IsSo fault.line fault.kind) }
{
    if fault.line == 0 {
        return whole_hint(fault.kind);
    }
    let line = line_at(bytes, fault.line);
    match fault.kind {
        AsmFaultKind::Token => token_hint(line),
        AsmFaultKind::Mnemonic => mnemonic_hint(line),
        AsmFaultKind::Operand => operands_hint(line),
        AsmFaultKind::Range(value) => range_hint(value, line),
        AsmFaultKind::LabelTwice => twice_hint(bytes, fault.line, line),
        AsmFaultKind::LabelMissing => missing_hint(bytes, line),
        AsmFaultKind::Directive => directive_hint(line),
        AsmFaultKind::Limit => limit_hint(line),
        AsmFaultKind::Memory => None,
    }
}
