//! Of `rv_asm_statements`: registers, operands, limits, and what asks for no memory.

ghost use Rattle.std.specs.Prelude.{◌≡◌, IfOk, Some, None, Ok, Err, negsuc, length, true};
ghost use Rattle.rv_asm_tokens.specs.declared.fault.AsmFaultKind.TheVariants as kinds;
ghost use Rattle.rv_asm_statements.specs.declared.directives.Directive.TheVariants as directives;

use rv_asm_statements::{
    Bytes, Directive, Integer, Integers, Items, Label, Limited, Operands, Statement, Target, Use,
    directive, instruction, parse_statement, register,
};
use rv_asm_tokens::{AsmFaultKind, Number, Tokens};
use rv_decode::Reg;
use std::alloc::{AllocError, Global};

/// `fp` is x8.
pub fn fp_is_x8() -> Option<Reg>
    ensures { result ≡ Some 8 }
{
    register(b"fp")
}

/// There is no x32.
pub fn x32_is_no_register() -> Option<Reg>
    ensures { result ≡ None }
{
    register(b"x32")
}

/// Eight ranks keep the limits, and are told as eight.
#[tactic(auto, unfolding(rv_asm_statements::specs::Limits::limited))]
pub fn eight_ranks_are_eight() -> Option<u32>
    ensures { result ≡ Some 8 }
{
    let ranks = Limited::<1, 8, 1>::from_number(Number {
        negative: false,
        magnitude: 8,
    })?;
    Some(ranks.number())
}

/// Nine ranks are too many.
#[tactic(auto, unfolding(rv_asm_statements::specs::Limits::limited))]
pub fn nine_ranks_are_too_many() -> Option<Limited<1, 8, 1>>
    ensures { result ≡ None }
{
    Limited::from_number(Number {
        negative: false,
        magnitude: 9,
    })
}

/// 6,144 bytes are no whole number of 4,096.
#[tactic(auto, unfolding(rv_asm_statements::specs::Limits::limited))]
pub fn memory_is_whole_pages() -> Option<Limited<4_096, 1_048_576, 4_096>>
    ensures { result ≡ None }
{
    Limited::from_number(Number {
        negative: false,
        magnitude: 6_144,
    })
}

/// A label has all bytes of its name.
pub fn a_label_has_its_name(alloc: Global, name: &[u8]) -> Result<bool, AllocError>
    ensures { IfOk result (λ same. same ≡ true) }
{
    let label = Label::copied(alloc, name)?;
    Ok(label.as_slice() == name)
}

/// An integer has its sign.
pub fn an_integer_has_its_sign() -> i128
    ensures { result ≡ negsuc 4 }
{
    Integer::from_number(Number {
        negative: true,
        magnitude: 5,
    })
    .value()
}

/// A communicator has all its numbers.
pub fn a_communicator_has_its_numbers(numbers: Vec<Integer>) -> usize
    ensures { result ≡ length numbers.items }
{
    Integers::from_vec(numbers).as_slice().len()
}

/// A line of data has all its items.
pub fn a_line_has_its_items(targets: Vec<Target>) -> usize
    ensures { result ≡ length targets.items }
{
    Items::from_vec(targets).as_slice().len()
}

/// A string has all its bytes.
pub fn a_string_has_its_bytes(bytes: Vec<u8>) -> usize
    ensures { result ≡ length bytes.items }
{
    Bytes::from_vec(bytes).as_slice().len()
}

/// Behind a last comma an operand is missing.
#[tactic(auto, unfolding(rv_asm_tokens::specs::Digits::digits_from, rv_asm_tokens::specs::Digits::magnitude, rv_asm_tokens::specs::Digits::with_digit, rv_asm_tokens::specs::Scan::front_at, rv_asm_tokens::specs::Scan::tokens_from))]
pub fn a_last_comma_wants_an_operand() -> Result<bool, AsmFaultKind>
    ensures { result ≡ Ok true }
{
    let found = Operands::of_tokens(Tokens::of_line(b"0,")?);
    Ok(found.is_none())
}

/// A line with no tokens has no statement, and asks for no memory.
#[tactic(auto, unfolding(rv_asm_statements::specs::Statements::statement_of, rv_asm_tokens::specs::Scan::tokens_from))]
pub fn no_tokens_are_no_statement(alloc: Global) -> Result<Option<Statement>, AsmFaultKind>
    ensures { result ≡ Ok None }
{
    parse_statement(alloc, &Tokens::of_line(b"")?)
}

/// A statement that begins with a comma is Mnemonic, whatever memory there is.
#[tactic(auto, unfolding(rv_asm_statements::specs::Statements::statement_of, rv_asm_tokens::specs::Scan::front_at, rv_asm_tokens::specs::Scan::tokens_from))]
pub fn a_comma_is_no_mnemonic(alloc: Global) -> Result<Option<Statement>, AsmFaultKind>
    ensures { result ≡ Err kinds.Mnemonic }
{
    parse_statement(alloc, &Tokens::of_line(b",")?)
}

/// `add` without its operands is Operand, whatever memory there is.
#[tactic(auto, unfolding(rv_asm_statements::specs::Mnemonics::instruction_of))]
pub fn add_wants_operands(alloc: Global) -> Result<Use, AsmFaultKind>
    ensures { result ≡ Err kinds.Operand }
{
    instruction(alloc, b"add", &None)
}

/// `mov` is Mnemonic, whatever memory there is.
#[tactic(auto, unfolding(rv_asm_statements::specs::Mnemonics::instruction_of))]
pub fn mov_is_no_mnemonic(alloc: Global) -> Result<Use, AsmFaultKind>
    ensures { result ≡ Err kinds.Mnemonic }
{
    instruction(alloc, b"mov", &None)
}

/// `.org` is Directive, whatever memory there is.
#[tactic(auto, unfolding(rv_asm_statements::specs::Directives::directive_of))]
pub fn org_is_no_directive(alloc: Global) -> Result<Directive, AsmFaultKind>
    ensures { result ≡ Err kinds.Directive }
{
    directive(alloc, b".org", &None)
}

/// `.data` is taken, and asks for no memory.
#[tactic(auto, unfolding(rv_asm_statements::specs::Directives::directive_by, rv_asm_statements::specs::Directives::directive_of, rv_asm_tokens::specs::Scan::tokens_from))]
pub fn data_asks_for_no_memory(alloc: Global) -> Result<Directive, AsmFaultKind>
    ensures { result ≡ Ok directives.Data }
{
    directive(alloc, b".data", &Operands::of_tokens(Tokens::of_line(b"")?))
}
