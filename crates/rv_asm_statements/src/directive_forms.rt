//! A directive by its name and operands.

ghost use Rattle.std.specs.Prelude.{◌≡◌, ◌<◌, map, is_some, Err, IfOk, IsErr, IsTrue, true, nat_lt, length};
ghost use Rattle.std.specs.Option.{option_map};
ghost use Rattle.std.specs.List.{filter_map};
ghost use Rattle.rv_asm_tokens.specs.declared.fault.AsmFaultKind.TheVariants as kinds;
ghost use Rattle.rv_asm_tokens.specs.Escapes.{text_of};
ghost use Rattle.rv_asm_tokens.specs.Returned.{Gives};
ghost use Rattle.rv_asm_tokens.specs.Lexeme.{number_value};
ghost use Rattle.rv_asm_statements.specs.declared.directive_rows.Form.TheVariants as forms;
ghost use Rattle.rv_asm_statements.specs.CodeViews.{argument_view};
ghost use Rattle.rv_asm_statements.specs.Read.{read_target};
ghost use Rattle.rv_asm_statements.specs.Shapes.{number_of};
ghost use Rattle.rv_asm_statements.specs.Walk.{all_given, beside, first_given};
ghost use Rattle.rv_asm_statements.specs.DirectiveRowView.{directive_row_view};
ghost use Rattle.rv_asm_statements.specs.Directives.{only_number as number_alone, only_name as name_alone};
ghost use Rattle.rv_asm_statements.specs.Directives.{only_symbol as symbol_alone, only_text as text_alone};
ghost use Rattle.rv_asm_statements.specs.Directives.{takes_labels as width_takes_labels, item_of, some_given};
ghost use Rattle.rv_asm_statements.specs.Directives.{limited_number, link_of, directive_alone, only_alignment};
ghost use Rattle.rv_asm_statements.specs.Directives.{directive_by, directive_of};
ghost use Rattle.rv_asm_statements.specs.Kept.{is_kept, keeps, takes_two};
ghost use Rattle.rv_asm_statements.specs.Kept.{long_items};
ghost use Rattle.rv_asm_statements.specs.Statements.{directive_at};
ghost use Rattle.rv_asm_statements.specs.LongData.{long_data};

use crate::data_lists::{Bytes, Integers, Items};
use crate::directive_rows::{DIRECTIVES, DirectiveRow, Form};
use crate::directives::{Alignment, Directive, Width};
use crate::filled::TargetRef;
use crate::limited::Limited;
use crate::operand_list::{Operand, Operands};
use crate::shapes::{label_target, number_in, number_target};
use crate::values::{Integer, Label};
use rv_asm_tokens::{AsmFaultKind, Number, Tokens, ZERO, text_bytes, value_of};
use rv_image_types::is_symbol_name;
use std::alloc::{AllocError, Global};

fn only_number(operands: &[Operand<'_>]) -> Option<Number>
    ensures { option_map number_value result ≡ number_alone (map argument_view operands.now) }
{
    match operands {
        [Operand::Number(number)] => Some(*number),
        _ => None,
    }
}

fn only_name<'a>(operands: &[Operand<'a>]) -> Option<&'a [u8]>
    ensures { option_map (λ w. w.now) result ≡ name_alone (map argument_view operands.now) }
{
    match operands {
        [Operand::Name(name)] => Some(name),
        _ => None,
    }
}

fn only_text<'a>(operands: &[Operand<'a>]) -> Option<&'a [u8]>
    ensures { option_map (λ w. text_of w.now) result ≡ text_alone (map argument_view operands.now) }
{
    match operands {
        [Operand::Text(raw)] => Some(raw),
        _ => None,
    }
}

fn takes_labels(width: Width) -> bool
    ensures { result ≡ width_takes_labels width }
{
    matches!(width, Width::Word | Width::Double)
}

fn item<'a>(width: Width, operand: &Operand<'a>) -> Option<TargetRef<'a>>
    ensures { option_map read_target result ≡ item_of width (argument_view operand.now) }
{
    match *operand {
        Operand::Number(number) => Some(number_target(number)),
        Operand::Name(name) if takes_labels(width) => Some(label_target(name, ZERO)),
        _ => None,
    }
}

/// Whether all operands are items of data.
fn all_items(width: Width, operands: &Operands<'_>) -> bool
    ensures { result ≡ is_some (all_given (item_of width) operands.now) }
{
    let mut rest = operands.left();
    while let Some(operand) = rest.next() {
        if item(width, &operand).is_none() {
            return false;
        }
    }
    true
}

/// Whether the operands are one item of data or more.
fn are_items(width: Width, operands: &Operands<'_>) -> bool
    ensures { result ≡ is_some (some_given (item_of width) operands.now) }
{
    operands.left().next().is_some() && all_items(width, operands)
}

/// The items of data among operands.
fn items(alloc: Global, width: Width, operands: &Operands<'_>) -> Result<Items, AllocError>
    ensures { IfOk result (λ found. found ≡ filter_map (item_of width) operands.now) }
{
    let mut done = Vec::new(alloc);
    let mut rest = operands.left();
    while let Some(operand) = rest.next() {
        if let Some(found) = item(width, &operand) {
            done.push(found.copied(alloc)?)?;
        }
    }
    Ok(Items::from_vec(done))
}

/// Whether all operands are numbers.
fn all_numbers(operands: &Operands<'_>) -> bool
    ensures { result ≡ is_some (all_given number_of operands.now) }
{
    let mut rest = operands.left();
    while let Some(operand) = rest.next() {
        if number_in(&operand).is_none() {
            return false;
        }
    }
    true
}

/// Whether the operands are one number or more.
fn are_numbers(operands: &Operands<'_>) -> bool
    ensures { result ≡ is_some (some_given number_of operands.now) }
{
    operands.left().next().is_some() && all_numbers(operands)
}

/// The numbers among operands.
fn numbers(alloc: Global, operands: &Operands<'_>) -> Result<Integers, AllocError>
    ensures { IfOk result (λ found. found ≡ filter_map number_of operands.now) }
{
    let mut done = Vec::new(alloc);
    let mut rest = operands.left();
    while let Some(operand) = rest.next() {
        if let Some(found) = number_in(&operand) {
            done.push(Integer::from_number(found))?;
        }
    }
    Ok(Integers::from_vec(done))
}

/// A directive that takes no operand.
fn alone(what: Directive, operands: &[Operand<'_>]) -> Option<Directive>
    ensures { result ≡ directive_alone what (map argument_view operands.now) }
{
    if operands.is_empty() {
        Some(what)
    } else {
        None
    }
}

/// The number of a directive that takes one within limits.
fn limited<const LEAST: u32, const MOST: u32, const STEP: u32>(
    operands: &[Operand<'_>],
) -> Option<Limited<LEAST, MOST, STEP>>
    requires { 0 < STEP }
    ensures { result ≡ limited_number LEAST MOST STEP (map argument_view operands.now) }
{
    let number = only_number(operands)?;
    Limited::from_number(number)
}

fn alignment(operands: &[Operand<'_>]) -> Option<Alignment>
    ensures { result ≡ only_alignment (map argument_view operands.now) }
{
    let number = only_number(operands)?;
    match value_of(number) {
        1 => Some(Alignment::One),
        2 => Some(Alignment::Two),
        4 => Some(Alignment::Four),
        8 => Some(Alignment::Eight),
        16 => Some(Alignment::Sixteen),
        _ => None,
    }
}

#[tactic(auto, unfolding(crate::specs::Directives::directive_by))]
fn entry(alloc: Global, operands: &[Operand<'_>]) -> Result<Option<Directive>, AllocError>
    ensures value { IfOk result (λ found. found ≡ directive_by forms.Entry (map argument_view operands.now)) }
    ensures memory { IsErr result → IsTrue (is_kept (directive_by forms.Entry (map argument_view operands.now))) }
{
    match only_name(operands) {
        None => Ok(None),
        Some(name) => Ok(Some(Directive::Entry(Label::copied(alloc, name)?))),
    }
}

fn only_symbol<'a>(operands: &[Operand<'a>]) -> Option<&'a [u8]>
    ensures { option_map (λ w. w.now) result ≡ symbol_alone (map argument_view operands.now) }
{
    match only_name(operands) {
        Some(name) if is_symbol_name(name) => Some(name),
        _ => None,
    }
}

#[tactic(auto, unfolding(crate::specs::Directives::directive_by))]
fn global(alloc: Global, operands: &[Operand<'_>]) -> Result<Option<Directive>, AllocError>
    ensures value { IfOk result (λ found. found ≡ directive_by forms.Global (map argument_view operands.now)) }
    ensures memory { IsErr result → IsTrue (is_kept (directive_by forms.Global (map argument_view operands.now))) }
{
    match only_symbol(operands) {
        None => Ok(None),
        Some(name) => Ok(Some(Directive::Global(Label::copied(alloc, name)?))),
    }
}

#[tactic(auto, unfolding(crate::specs::Directives::directive_by))]
fn communicator(alloc: Global, operands: &Operands<'_>) -> Result<Option<Directive>, AllocError>
    ensures value { IfOk result (λ found. found ≡ directive_by forms.Comm operands.now) }
    ensures memory { IsErr result → IsTrue (is_kept (directive_by forms.Comm operands.now)) }
{
    if are_numbers(operands) {
        let found = numbers(alloc, operands)?;
        Ok(Some(Directive::Comm(found)))
    } else {
        Ok(None)
    }
}

fn link(operands: &[Operand<'_>]) -> Option<Directive>
    ensures { result ≡ link_of (map argument_view operands.now) }
{
    match operands {
        [Operand::Number(from), Operand::Number(to)] => Some(Directive::Link(
            Integer::from_number(*from),
            Integer::from_number(*to),
        )),
        _ => None,
    }
}

#[tactic(auto, unfolding(crate::specs::Directives::directive_by))]
fn data(
    alloc: Global,
    width: Width,
    operands: &Operands<'_>,
) -> Result<Option<Directive>, AllocError>
    ensures value { IfOk result (λ found. found ≡ directive_by (forms.Items width) operands.now) }
    ensures memory { IsErr result
        → IsTrue (is_kept (directive_by (forms.Items width) operands.now)) }
{
    if are_items(width, operands) {
        let found = items(alloc, width, operands)?;
        Ok(Some(Directive::Items(width, found)))
    } else {
        Ok(None)
    }
}

#[tactic(auto, unfolding(crate::specs::Directives::directive_by))]
fn string(alloc: Global, operands: &[Operand<'_>]) -> Result<Option<Directive>, AllocError>
    ensures value { IfOk result (λ found. found ≡ directive_by forms.String (map argument_view operands.now)) }
    ensures memory { IsErr result → IsTrue (is_kept (directive_by forms.String (map argument_view operands.now))) }
{
    match only_text(operands) {
        None => Ok(None),
        Some(raw) => {
            let bytes = text_bytes(alloc, raw)?;
            Ok(Some(Directive::Bytes(Bytes::from_vec(bytes))))
        }
    }
}

#[tactic(auto, unfolding(crate::specs::Directives::directive_by))]
fn string_and_zero(alloc: Global, operands: &[Operand<'_>]) -> Result<Option<Directive>, AllocError>
    ensures value { IfOk result (λ found. found ≡ directive_by forms.StringAndZero (map argument_view operands.now)) }
    ensures memory { IsErr result
        → IsTrue (is_kept (directive_by forms.StringAndZero (map argument_view operands.now))) }
{
    match only_text(operands) {
        None => Ok(None),
        Some(raw) => {
            let mut bytes = text_bytes(alloc, raw)?;
            bytes.push(0)?;
            Ok(Some(Directive::Bytes(Bytes::from_vec(bytes))))
        }
    }
}

/// What a directive that takes two operands at most is with these, if it takes them.
#[tactic(auto, unfolding(crate::specs::Directives::directive_by))]
fn directive_with(
    alloc: Global,
    form: Form,
    operands: &[Operand<'_>],
) -> Result<Option<Directive>, AllocError>
    requires { takes_two form ≡ true }
    ensures value { IfOk result (λ found. found ≡ directive_by form (map argument_view operands.now)) }
    ensures memory { IsErr result → IsTrue (is_kept (directive_by form (map argument_view operands.now))) }
{
    match form {
        Form::Ranks => Ok(limited(operands).map(Directive::Ranks)),
        Form::Harts => Ok(limited(operands).map(Directive::Harts)),
        Form::Memory => Ok(limited(operands).map(Directive::Memory)),
        Form::Zero => Ok(limited(operands).map(Directive::Zero)),
        Form::Align => Ok(alignment(operands).map(Directive::Align)),
        Form::Entry => entry(alloc, operands),
        Form::Global => global(alloc, operands),
        Form::Link => Ok(link(operands)),
        Form::Text => Ok(alone(Directive::Text, operands)),
        Form::Data => Ok(alone(Directive::Data, operands)),
        Form::String => string(alloc, operands),
        Form::StringAndZero => string_and_zero(alloc, operands),
        Form::Comm | Form::Items(_) => Ok(None),
    }
}

/// What a directive that takes two operands at most is with these operands, if it takes them.
#[tactic(auto, using(crate::proofs::TooMany::no_directive_past_three))]
fn short_directive(
    alloc: Global,
    form: Form,
    operands: &Operands<'_>,
) -> Result<Option<Directive>, AllocError>
    requires { takes_two form ≡ true }
    ensures value { IfOk result (λ found. found ≡ directive_by form operands.now) }
    ensures memory { IsErr result → IsTrue (is_kept (directive_by form operands.now)) }
{
    match operands.few() {
        None => Ok(None),
        Some(few) => directive_with(alloc, form, few),
    }
}

/// What a directive is with these operands, if it takes them.
fn directive_for(
    alloc: Global,
    form: Form,
    operands: &Operands<'_>,
) -> Result<Option<Directive>, AllocError>
    ensures value { IfOk result (λ found. found ≡ directive_by form operands.now) }
    ensures memory { IsErr result → IsTrue (is_kept (directive_by form operands.now)) }
{
    match form {
        Form::Comm => communicator(alloc, operands),
        Form::Items(width) => data(alloc, width, operands),
        _ => short_directive(alloc, form, operands),
    }
}

/// Whether there are more operands than so many.
fn are_more(most: u32, operands: &Operands<'_>) -> bool
    ensures { result ≡ nat_lt most (length operands.now) }
{
    let mut rest = operands.left();
    for _ in 0..most {
        if rest.next().is_none() {
            return false;
        }
    }
    rest.next().is_some()
}

/// The width of data with more items than so many.
#[tactic(auto, using(crate::proofs::Long::short_form, crate::proofs::Long::short_comm, crate::proofs::Long::items_are, crate::proofs::Long::no_items))]
fn long_form(most: u32, form: Form, operands: &Operands<'_>) -> Option<Width>
    ensures { result ≡ long_items most (directive_by form operands.now) }
{
    match form {
        Form::Items(width) => {
            if are_items(width, operands) && are_more(most, operands) {
                Some(width)
            } else {
                None
            }
        }
        _ => None,
    }
}

/// What the row of a name says that its directive is.
fn form_in(table: &[DirectiveRow], name: &[u8]) -> Option<Form>
    ensures { result ≡ first_given (beside name.now) (map directive_row_view table.now) }
{
    for row in table {
        if row.name == name {
            return Some(row.form);
        }
    }
    None
}

/// The width of data with more items than so many.
#[tactic(auto, unfolding(crate::specs::Directives::directive_of), using(crate::proofs::Long::long_directive))]
pub fn long_directive(most: u32, name: &[u8], rest: Tokens<'_>) -> Option<Width>
    ensures { result ≡ long_data most (directive_at name.now rest.entry) }
{
    let operands = Operands::of_tokens(rest);
    let form = form_in(&DIRECTIVES, name)?;
    match &operands {
        None => None,
        Some(operands) => long_form(most, form, operands),
    }
}

/// The directive of a name and its operands, which are None where no operands stand there.
///
/// `Directive` where there is no such directive, where it does not take these operands, and where a number is
/// outside its limits or the name of a symbol over 31 bytes; and `Memory` where no memory is left for what it
/// keeps: a name, numbers, items or bytes.
#[tactic(auto, unfolding(crate::specs::Directives::directive_of))]
pub fn directive(
    alloc: Global,
    name: &[u8],
    operands: &Option<Operands<'_>>,
) -> Result<Directive, AsmFaultKind>
    ensures value { Gives (λ found. found) result (directive_of name.now operands.now) }
    ensures memory { result ≡ Err kinds.Memory
        → IsTrue (keeps (directive_of name.now operands.now)) }
{
    let Some(form) = form_in(&DIRECTIVES, name) else {
        return Err(AsmFaultKind::Directive);
    };
    let Some(operands) = operands else {
        return Err(AsmFaultKind::Directive);
    };
    match directive_for(alloc, form, operands)? {
        None => Err(AsmFaultKind::Directive),
        Some(found) => Ok(found),
    }
}
