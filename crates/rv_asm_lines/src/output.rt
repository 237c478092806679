//! The second pass: the bytes of each statement, the entry, the communicators and the links.

ghost use Rattle.std.specs.Prelude.{◌≡◌, ◌<◌, MatchResult, OnOk, Ok, Err};
ghost use Rattle.rv_asm_tokens.specs.Returned.{Fails};
ghost use Rattle.rv_asm_lines.specs.Output.{is_text_address, with_entry_point, label_step, directive_step, stated_step};
ghost use Rattle.rv_asm_lines.specs.LayoutView.{addresses_view, layout_view};
ghost use Rattle.rv_asm_lines.specs.Places.{IsSound};
ghost use Rattle.rv_asm_lines.specs.OutputView.{output_view};
ghost use Rattle.rv_asm_lines.specs.declared.parts.Place.{Place};
ghost use Rattle.rv_asm_statements.specs.declared.directives.Directive.TheVariants as directives;

use crate::cluster::{link_of, members_of};
use crate::data::put_directive;
use crate::encoded::put_use;
use crate::fields::ranks_of;
use crate::item::{Item, Kept, plain_use};
use crate::labels::find_label;
use crate::layout::Layout;
use crate::parts::{Part, Place, address_of};
use rv_asm_statements::{Directive, Integer, Statement};
use rv_asm_tokens::{AsmFaultKind, Number};
use rv_image_types::{Link, Members};
use std::alloc::Global;

/// What is made so far: the parts' bytes, where every hart begins, the communicators and the links.
#[derive(Drop)]
pub struct Output {
    pub text: Vec<u8>,
    pub init: Vec<u8>,
    pub entry: Option<u32>,
    pub comms: Vec<Members>,
    pub links: Vec<Link>,
}

/// Makes an address the entry: that of a word of the text, else `Directive`.
#[tactic(auto, unfolding(crate::specs::Output::with_entry_point))]
fn take_entry(end: u32, at: u64, output: &mut Output) -> Result<(), AsmFaultKind>
    ensures { MatchResult result
        (λ _. with_entry_point end at (output_view output.old) ≡ Ok (output_view output.new))
        (λ e. with_entry_point end at (output_view output.old) ≡ Err e) }
{
    if at < u64::from(end) && at % 4 == 0 {
        output.entry = Some(at as u32);
        Ok(())
    } else {
        Err(AsmFaultKind::Directive)
    }
}

/// The label `_start` is the entry where no `.entry` is.
#[tactic(auto, unfolding(crate::specs::Output::label_step))]
fn take_label(
    layout: &Layout<'_>,
    name: &[u8],
    place: Place,
    output: &mut Output,
) -> Result<(), AsmFaultKind>
    ensures { MatchResult result
        (λ _. label_step (layout_view layout.now) name.now place (output_view output.old) ≡ Ok (output_view output.new))
        (λ e. label_step (layout_view layout.now) name.now place (output_view output.old) ≡ Err e) }
{
    if name == b"_start".as_slice() && !layout.fields.has_entry {
        return take_entry(layout.text, address_of(layout.text, place), output);
    }
    Ok(())
}

/// Adds a communicator.
#[tactic(auto, unfolding(crate::specs::Output::directive_step))]
fn take_members(
    alloc: Global,
    layout: &Layout<'_>,
    numbers: &[Integer],
    output: &mut Output,
) -> Result<(), AsmFaultKind>
    ensures { (place : Place) → MatchResult result
        (λ _. directive_step (layout_view layout.now) place (directives.Comm numbers.now) (output_view output.old)
        ≡ Ok (output_view output.new))
        (λ e. Fails e
        (directive_step (layout_view layout.now) place (directives.Comm numbers.now) (output_view output.old))) }
{
    let members = members_of(alloc, ranks_of(&layout.fields), numbers)?;
    output.comms.push(Members::from_vec(members))?;
    Ok(())
}

/// Adds a link.
#[tactic(auto, unfolding(crate::specs::Output::directive_step))]
fn take_link(
    layout: &Layout<'_>,
    from: &Integer,
    to: &Integer,
    output: &mut Output,
) -> Result<(), AsmFaultKind>
    ensures { (place : Place) → MatchResult result
        (λ _. directive_step (layout_view layout.now) place (directives.Link from.now to.now) (output_view output.old)
        ≡ Ok (output_view output.new))
        (λ e. Fails e
        (directive_step (layout_view layout.now) place (directives.Link from.now to.now) (output_view output.old))) }
{
    let link = link_of(ranks_of(&layout.fields), from, to)?;
    output.links.push(link)?;
    Ok(())
}

/// Adds what a directive is: the entry, a communicator, a link, or bytes. The label of a symbol has to be there.
#[tactic(auto, unfolding(crate::specs::Output::directive_step))]
fn take_directive(
    alloc: Global,
    layout: &Layout<'_>,
    place: Place,
    directive: &Directive,
    output: &mut Output,
) -> Result<(), AsmFaultKind>
    ensures { MatchResult result
        (λ _. directive_step (layout_view layout.now) place directive.now (output_view output.old)
        ≡ Ok (output_view output.new))
        (λ e. Fails e (directive_step (layout_view layout.now) place directive.now (output_view output.old))) }
{
    match directive {
        Directive::Entry(name) => match find_label(layout, name.as_slice()) {
            None => Err(AsmFaultKind::LabelMissing),
            Some(at) => take_entry(layout.text, at, output),
        },
        Directive::Global(name) => match find_label(layout, name.as_slice()) {
            None => Err(AsmFaultKind::LabelMissing),
            Some(_) => Ok(()),
        },
        Directive::Comm(numbers) => take_members(alloc, layout, numbers.as_slice(), output),
        Directive::Link(from, to) => take_link(layout, from, to, output),
        _ => match place.part {
            Part::Text => put_directive(layout, place.at, directive, &mut output.text),
            Part::Data => put_directive(layout, place.at, directive, &mut output.init),
        },
    }
}

/// Adds what a statement at a place is.
#[tactic(auto, unfolding(crate::specs::Output::stated_step))]
fn take_statement(
    alloc: Global,
    layout: &Layout<'_>,
    place: Place,
    statement: &Statement,
    output: &mut Output,
) -> Result<(), AsmFaultKind>
    ensures output { MatchResult result
        (λ _. stated_step (layout_view layout.now) place statement.now (output_view output.old)
        ≡ Ok (output_view output.new))
        (λ e. Fails e (stated_step (layout_view layout.now) place statement.now (output_view output.old))) }
    ensures sound { OnOk result (IsSound (addresses_view layout.now) place.at statement.now) }
{
    match statement {
        Statement::Label(name) => take_label(layout, name.as_slice(), place, output),
        Statement::Instruction(found) => {
            put_use(layout, u64::from(place.at), found, &mut output.text)
        }
        Statement::Directive(directive) => take_directive(alloc, layout, place, directive, output),
    }
}

/// Adds what one item is.
#[tactic(auto, unfolding(crate::specs::Output::stated_step))]
pub fn take_item(
    alloc: Global,
    layout: &Layout<'_>,
    item: &Item<'_>,
    output: &mut Output,
) -> Result<(), AsmFaultKind>
    ensures output { MatchResult result
        (λ _. stated_step (layout_view layout.now) item.now.place item.now.statement (output_view output.old)
        ≡ Ok (output_view output.new))
        (λ e. Fails e
        (stated_step (layout_view layout.now) item.now.place item.now.statement (output_view output.old))) }
    ensures sound { OnOk result (IsSound (addresses_view layout.now) item.now.place.at item.now.statement) }
{
    let place = item.place();
    match item.kept {
        Kept::Label(_, _, _, name) => take_label(layout, name, place, output),
        Kept::Directive(_, _, _, ref directive) => {
            take_directive(alloc, layout, place, directive, output)
        }
        Kept::Plain {
            template,
            at,
            first,
            second,
            third,
            negative,
            magnitude,
            ..
        } => {
            let number = Number {
                negative,
                magnitude,
            };
            let found = plain_use(template, first, second, third, number);
            put_use(layout, u64::from(at), &found, &mut output.text)
        }
        Kept::Other(_, _, _, ref statement) => {
            take_statement(alloc, layout, place, statement, output)
        }
    }
}
