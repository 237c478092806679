//! The operands of an instruction, by the shape that its mnemonic asks for.

ghost use Rattle.std.specs.Prelude.{◌≡◌, map, pos, Some};
ghost use Rattle.std.specs.Option.{option_map};
ghost use Rattle.rv_asm_tokens.specs.Lexeme.{number_value};
ghost use Rattle.rv_asm_statements.specs.CodeViews.{argument_view};
ghost use Rattle.rv_asm_statements.specs.Read.{read_filled, read_target};
ghost use Rattle.rv_asm_statements.specs.Shapes.{at_number, at_label, register_of, number_of, value_of, offset_of};
ghost use Rattle.rv_asm_statements.specs.Shapes.{base_of, label_of, is_all_orders, target_of, filled_if, filled_by};
ghost use Rattle.rv_asm_statements.specs.Shapes.{nothing_at, orders_at, reg_at, reg_reg_at, reg_reg_reg_at};
ghost use Rattle.rv_asm_statements.specs.Shapes.{reg_number_at};
ghost use Rattle.rv_asm_statements.specs.Shapes.{reg_reg_number_at, reg_place_at, only_target_at, reg_target_at};
ghost use Rattle.rv_asm_statements.specs.Shapes.{reg_reg_target_at, reg_label_at};

use crate::filled::{FilledRef, TargetRef};
use crate::operand_list::Operand;
use crate::registers::register;
use crate::rows::Shape;
use rv_asm_tokens::{Number, ZERO};
use rv_decode::Reg;

pub fn number_target(number: Number) -> TargetRef<'static>
    ensures { read_target result ≡ at_number (number_value number) }
{
    TargetRef {
        label: None,
        number,
    }
}

pub fn label_target(name: &[u8], number: Number) -> TargetRef<'_>
    ensures { read_target result ≡ at_label name.now (number_value number) }
{
    TargetRef {
        label: Some(name),
        number,
    }
}

fn target_at<'a>(operand: &Operand<'a>) -> Option<TargetRef<'a>>
    ensures { option_map read_target result ≡ target_of (argument_view operand.now) }
{
    match *operand {
        Operand::Name(name) => Some(label_target(name, ZERO)),
        Operand::Sum(name, number) => Some(label_target(name, number)),
        Operand::Number(number) => Some(number_target(number)),
        _ => None,
    }
}

fn register_in(operand: &Operand<'_>) -> Option<Reg>
    ensures { result ≡ register_of (argument_view operand.now) }
{
    match operand {
        Operand::Name(name) => register(name),
        _ => None,
    }
}

pub fn number_in(operand: &Operand<'_>) -> Option<Number>
    ensures { option_map number_value result ≡ number_of (argument_view operand.now) }
{
    match operand {
        Operand::Number(number) => Some(*number),
        _ => None,
    }
}

fn value_in(operand: &Operand<'_>) -> Option<TargetRef<'static>>
    ensures { option_map read_target result ≡ value_of (argument_view operand.now) }
{
    match operand {
        Operand::Number(number) => Some(number_target(*number)),
        _ => None,
    }
}

fn offset_in(operand: &Operand<'_>) -> Option<TargetRef<'static>>
    ensures { option_map read_target result ≡ offset_of (argument_view operand.now) }
{
    match operand {
        Operand::Place(number, _) => Some(number_target(*number)),
        _ => None,
    }
}

fn base_in(operand: &Operand<'_>) -> Option<Reg>
    ensures { result ≡ base_of (argument_view operand.now) }
{
    match operand {
        Operand::Place(_, name) => register(name),
        _ => None,
    }
}

fn label_in<'a>(operand: &Operand<'a>) -> Option<TargetRef<'a>>
    ensures { option_map read_target result ≡ label_of (argument_view operand.now) }
{
    match *operand {
        Operand::Name(name) => Some(label_target(name, ZERO)),
        _ => None,
    }
}

fn names_all_orders(operand: &Operand<'_>) -> bool
    ensures { result ≡ is_all_orders (argument_view operand.now) }
{
    match operand {
        Operand::Name(name) => *name == b"iorw".as_slice(),
        _ => false,
    }
}

/// x0, in place of a register that a shape lacks.
fn no_register() -> Option<Reg>
    ensures { result ≡ Some 0 }
{
    Some(Reg::new(0))
}

/// 0, in place of a target that a shape lacks.
fn no_target() -> Option<TargetRef<'static>>
    ensures { option_map read_target result ≡ Some (at_number (pos 0)) }
{
    Some(number_target(ZERO))
}

/// Registers and a target, if each is there.
fn all_of(
    first: Option<Reg>,
    second: Option<Reg>,
    third: Option<Reg>,
    target: Option<TargetRef<'_>>,
) -> Option<FilledRef<'_>>
    ensures { option_map read_filled result ≡ filled_if first second third (option_map read_target target.entry) }
{
    Some(FilledRef {
        first: first?,
        second: second?,
        third: third?,
        target: target?,
    })
}

fn nothing(operands: &[Operand<'_>]) -> Option<FilledRef<'static>>
    ensures { option_map read_filled result ≡ nothing_at (map argument_view operands.now) }
{
    match operands {
        [] => all_of(no_register(), no_register(), no_register(), no_target()),
        _ => None,
    }
}

fn orders(operands: &[Operand<'_>]) -> Option<FilledRef<'static>>
    ensures { option_map read_filled result ≡ orders_at (map argument_view operands.now) }
{
    match operands {
        [before, after] => {
            if names_all_orders(before) && names_all_orders(after) {
                all_of(no_register(), no_register(), no_register(), no_target())
            } else {
                None
            }
        }
        _ => None,
    }
}

fn reg(operands: &[Operand<'_>]) -> Option<FilledRef<'static>>
    ensures { option_map read_filled result ≡ reg_at (map argument_view operands.now) }
{
    match operands {
        [a] => all_of(register_in(a), no_register(), no_register(), no_target()),
        _ => None,
    }
}

fn reg_reg(operands: &[Operand<'_>]) -> Option<FilledRef<'static>>
    ensures { option_map read_filled result ≡ reg_reg_at (map argument_view operands.now) }
{
    match operands {
        [a, b] => all_of(register_in(a), register_in(b), no_register(), no_target()),
        _ => None,
    }
}

fn reg_reg_reg(operands: &[Operand<'_>]) -> Option<FilledRef<'static>>
    ensures { option_map read_filled result ≡ reg_reg_reg_at (map argument_view operands.now) }
{
    match operands {
        [a, b, c] => all_of(register_in(a), register_in(b), register_in(c), no_target()),
        _ => None,
    }
}

fn reg_number(operands: &[Operand<'_>]) -> Option<FilledRef<'static>>
    ensures { option_map read_filled result ≡ reg_number_at (map argument_view operands.now) }
{
    match operands {
        [a, n] => all_of(register_in(a), no_register(), no_register(), value_in(n)),
        _ => None,
    }
}

fn reg_reg_number(operands: &[Operand<'_>]) -> Option<FilledRef<'static>>
    ensures { option_map read_filled result ≡ reg_reg_number_at (map argument_view operands.now) }
{
    match operands {
        [a, b, n] => all_of(register_in(a), register_in(b), no_register(), value_in(n)),
        _ => None,
    }
}

fn reg_place(operands: &[Operand<'_>]) -> Option<FilledRef<'static>>
    ensures { option_map read_filled result ≡ reg_place_at (map argument_view operands.now) }
{
    match operands {
        [a, place] => all_of(
            register_in(a),
            base_in(place),
            no_register(),
            offset_in(place),
        ),
        _ => None,
    }
}

fn only_target<'a>(operands: &[Operand<'a>]) -> Option<FilledRef<'a>>
    ensures { option_map read_filled result ≡ only_target_at (map argument_view operands.now) }
{
    match operands {
        [goal] => all_of(no_register(), no_register(), no_register(), target_at(goal)),
        _ => None,
    }
}

fn reg_target<'a>(operands: &[Operand<'a>]) -> Option<FilledRef<'a>>
    ensures { option_map read_filled result ≡ reg_target_at (map argument_view operands.now) }
{
    match operands {
        [a, goal] => all_of(
            register_in(a),
            no_register(),
            no_register(),
            target_at(goal),
        ),
        _ => None,
    }
}

fn reg_reg_target<'a>(operands: &[Operand<'a>]) -> Option<FilledRef<'a>>
    ensures { option_map read_filled result ≡ reg_reg_target_at (map argument_view operands.now) }
{
    match operands {
        [a, b, goal] => all_of(
            register_in(a),
            register_in(b),
            no_register(),
            target_at(goal),
        ),
        _ => None,
    }
}

fn reg_label<'a>(operands: &[Operand<'a>]) -> Option<FilledRef<'a>>
    ensures { option_map read_filled result ≡ reg_label_at (map argument_view operands.now) }
{
    match operands {
        [a, label] => all_of(
            register_in(a),
            no_register(),
            no_register(),
            label_in(label),
        ),
        _ => None,
    }
}

/// The operands that a shape finds in those that are there, if it takes them.
#[tactic(auto, unfolding(crate::specs::Shapes::filled_by))]
pub fn filled_for<'a>(shape: Shape, operands: &[Operand<'a>]) -> Option<FilledRef<'a>>
    ensures { option_map read_filled result ≡ filled_by shape (map argument_view operands.now) }
{
    match shape {
        Shape::Nothing => nothing(operands),
        Shape::Orders => orders(operands),
        Shape::Reg => reg(operands),
        Shape::RegReg => reg_reg(operands),
        Shape::RegRegReg => reg_reg_reg(operands),
        Shape::RegNumber => reg_number(operands),
        Shape::RegRegNumber => reg_reg_number(operands),
        Shape::RegPlace => reg_place(operands),
        Shape::Target => only_target(operands),
        Shape::RegTarget => reg_target(operands),
        Shape::RegRegTarget => reg_reg_target(operands),
        Shape::RegLabel => reg_label(operands),
    }
}
