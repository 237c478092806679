//! A line's statement.

ghost use Rattle.std.specs.Prelude.{◌≡◌, ◌∷◌, Err, IsTrue, Some};
ghost use Rattle.rv_asm_tokens.specs.declared.fault.AsmFaultKind.TheVariants as kinds;
ghost use Rattle.rv_asm_tokens.specs.Returned.{Gives};
ghost use Rattle.rv_asm_tokens.specs.Lexeme.{name};
ghost use Rattle.rv_asm_statements.specs.Statements.{begins_with_dot as is_directive_name};
ghost use Rattle.rv_asm_statements.specs.LongData.{begins_with_name};
ghost use Rattle.rv_asm_statements.specs.Statements.{statement_of};
ghost use Rattle.rv_asm_statements.specs.LongData.{long_data as long_data_meant};

use crate::directive_forms::{directive, long_directive};
use crate::directives::{Directive, Width};
use crate::mnemonics::{Use, instruction};
use crate::operand_list::Operands;
use crate::values::Label;
use rv_asm_tokens::{AsmFaultKind, Token, Tokens};
use std::alloc::Global;

/// What stands at an address: the label of a line, or its statement.
#[derive(Drop)]
pub enum Statement {
    Label(Label),
    Instruction(Use),
    Directive(Directive),
}

fn begins_with_dot(name: &[u8]) -> bool
    ensures { result ≡ is_directive_name name.now }
{
    matches!(name, [b'.', ..])
}

/// The directive or the instruction of a name and what stands behind it.
#[tactic(auto, unfolding(crate::specs::Statements::statement_of))]
fn named_statement(alloc: Global, word: &[u8], rest: Tokens<'_>) -> Result<Statement, AsmFaultKind>
    ensures { Gives Some result (statement_of (name word.now ∷ rest.entry)) }
{
    let operands = Operands::of_tokens(rest);
    if begins_with_dot(word) {
        Ok(Statement::Directive(directive(alloc, word, &operands)?))
    } else {
        Ok(Statement::Instruction(instruction(alloc, word, &operands)?))
    }
}

/// The statement that follows a line's labels, if there is one.
///
/// `Directive` where it begins with a dot and is no directive with its operands within their limits; else
/// `Mnemonic` where it does not begin with a mnemonic, and `Operand` where its operands are wrong; and `Memory`,
/// but not where no name stands first.
#[tactic(auto, unfolding(crate::specs::Statements::statement_of))]
pub fn parse_statement(
    alloc: Global,
    tokens: &Tokens<'_>,
) -> Result<Option<Statement>, AsmFaultKind>
    ensures value { Gives (λ found. found) result (statement_of tokens.now) }
    ensures memory { result ≡ Err kinds.Memory → IsTrue (begins_with_name tokens.now) }
{
    match tokens.get(0) {
        None => Ok(None),
        Some(Token::Name(word)) => {
            let mut rest = tokens.again();
            rest.next();
            Ok(Some(named_statement(alloc, word, rest)?))
        }
        Some(_) => Err(AsmFaultKind::Mnemonic),
    }
}

/// The width of a statement's data, if it has more items than so many. It takes no memory.
#[tactic(auto, unfolding(crate::specs::Statements::statement_of), using(crate::proofs::Long::no_long_use))]
pub fn long_data(most: u32, tokens: &Tokens<'_>) -> Option<Width>
    ensures { result ≡ long_data_meant most (statement_of tokens.now) }
{
    match tokens.get(0) {
        Some(Token::Name(word)) => {
            if begins_with_dot(word) {
                let mut rest = tokens.again();
                rest.next();
                long_directive(most, word, rest)
            } else {
                None
            }
        }
        _ => None,
    }
}
