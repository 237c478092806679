//! The labels of a source, in the order in which they stand.

ghost use Rattle.std.specs.Prelude.{◌≡◌, ◌<◌, ◌^◌, ◌++◌, ◌∷◌, [], IfSome, MatchOption, MatchResult, OnOk};
ghost use Rattle.std.specs.Prelude.{None, Some, Ok, length};
ghost use Rattle.rv_asm_tokens.specs.Returned.{Fails};
ghost use Rattle.rv_asm_lines.specs.Layout.{labels_at, place_in, with_label};
ghost use Rattle.rv_asm_lines.specs.LayoutView.{addresses_view, labels_view, layout_view, front_label};
ghost use Rattle.rv_asm_lines.specs.Resolved.{address_in};

use crate::item::Item;
use crate::layout::{Layout, next_place};
use crate::parts::{Place, address_of};
use indexmap::IndexMap;
use rv_asm_tokens::{AsmFaultKind, Token, Tokens};
use std::alloc::AllocError;

/// Where a label stands.
fn find_place(labels: &IndexMap<&[u8], Place>, name: &[u8]) -> Option<Place>
    ensures { result ≡ place_in name.now (labels_view labels.now.entries) }
{
    labels.get(name).copied()
}

/// The address of a label, where no more text follows.
#[tactic(auto, using(crate::proofs::LabelSteps::address_of_place))]
pub fn find_label(layout: &Layout<'_>, name: &[u8]) -> Option<u64>
    ensures value { result ≡ address_in name.now (addresses_view layout.now) }
    ensures small { IfSome result (λ at. at < 2 ^ 34) }
{
    match find_place(&layout.labels, name) {
        None => None,
        Some(place) => Some(address_of(layout.text, place)),
    }
}

/// Takes the name and the colon that tokens begin with.
fn first_label<'a>(tokens: &mut Tokens<'a>) -> Option<&'a [u8]>
    ensures value { MatchOption result (front_label tokens.old ≡ None)
        (λ name. front_label tokens.old ≡ Some (name.now, tokens.new)) }
    ensures shorter { IfSome result (λ _. length tokens.new < length tokens.old) }
{
    let Some(Token::Name(name)) = tokens.next() else {
        return None;
    };
    let Some(Token::Colon) = tokens.next() else {
        return None;
    };
    Some(name)
}

/// Adds a name, which is new, behind the labels.
fn put_label<'a>(
    labels: &mut IndexMap<&'a [u8], Place>,
    name: &'a [u8],
    place: Place,
) -> Result<(), AllocError>
    requires { place_in name.now (labels_view labels.old.entries) ≡ None }
    ensures { OnOk result
        (labels_view labels.new.entries ≡ labels_view labels.old.entries ++ (name.now, place) ∷ []) }
{
    labels.insert(name, place)?;
    Ok(())
}

/// Adds a label, which is new, at the end of the part.
fn add_label<'a>(line: u64, layout: &mut Layout<'a>, name: &'a [u8]) -> Result<(), AllocError>
    requires { place_in name.now (labels_view layout.old.labels.entries) ≡ None }
    ensures { OnOk result (layout_view layout.new ≡ with_label line (layout_view layout.old) name.now) }
{
    let place = next_place(layout);
    put_label(&mut layout.labels, name, place)?;
    layout.items.push(Item::label(line, place, name))?;
    Ok(())
}

/// Takes the labels that a line begins with, and leaves what follows them.
pub fn take_labels<'a>(
    line: u64,
    layout: &mut Layout<'a>,
    tokens: &mut Tokens<'a>,
) -> Result<(), AsmFaultKind>
    ensures { MatchResult result
        (λ _. labels_at line (layout_view layout.old) tokens.old ≡ Ok (layout_view layout.new, tokens.new))
        (λ e. Fails e (labels_at line (layout_view layout.old) tokens.old)) }
{
    'fronts: loop {
        let mut rest = tokens.again();
        let Some(name) = first_label(&mut rest) else {
            return Ok(());
        };
        if find_place(&layout.labels, name).is_some() {
            return Err(AsmFaultKind::LabelTwice);
        }
        add_label(line, layout, name)?;
        *tokens = rest;
    }
}
