//! The bytes of data.

ghost use Rattle.std.specs.Prelude.{◌≡◌, ◌++◌, ◌^◌, ◌*◌, ◌-◌, pos, neg_ℤ, replicate, MatchResult, OnOk, Ok, Err};
ghost use Rattle.rv_asm_tokens.specs.declared.fault.AsmFaultKind.TheVariants as kinds;
ghost use Rattle.rv_asm_tokens.specs.Returned.{Fails, Is};
ghost use Rattle.rv_asm_lines.specs.Refused.{NoFault};
ghost use Rattle.rv_asm_lines.specs.Data.{item_ranged, low_bytes, item_bytes, items_bytes, directive_bytes};
ghost use Rattle.rv_asm_lines.specs.Appending.{appended};
ghost use Rattle.rv_asm_lines.specs.LayoutView.{addresses_view};
ghost use Rattle.rv_asm_lines.specs.Parts.{width_bytes};

use crate::layout::Layout;
use crate::offsets::offset;
use crate::parts::{bytes_of_width, padding_at};
use rv_asm_statements::{Directive, Target, Width};
use rv_asm_tokens::AsmFaultKind;
use std::alloc::AllocError;

/// The least and the greatest number that an item of this width holds, signed or unsigned.
fn limits(width: Width) -> (i128, i128)
    ensures least { result.0 ≡ neg_ℤ (pos (2 ^ (8 * width_bytes width - 1))) }
    ensures most { result.1 ≡ pos (2 ^ (8 * width_bytes width) - 1) }
{
    match width {
        Width::Byte => (-128, 255),
        Width::Half => (-32_768, 65_535),
        Width::Word => (-2_147_483_648, 4_294_967_295),
        Width::Double => (-9_223_372_036_854_775_808, 18_446_744_073_709_551_615),
    }
}

/// A number that an item of this width holds, else `Range`.
#[tactic(auto, unfolding(crate::specs::Resolved::ranged))]
fn item_within(width: Width, value: i128) -> Result<i128, AsmFaultKind>
    ensures { Is (λ z. z) result (item_ranged (width_bytes width) value) }
{
    let (least, most) = limits(width);
    if value < least || value > most {
        return Err(AsmFaultKind::Range(value));
    }
    Ok(value)
}

/// Adds the low bytes of a number, the lowest first.
#[tactic(auto, unfolding(crate::specs::Data::low_bytes))]
fn put_low_bytes(bytes: &mut Vec<u8>, width: Width, value: i128) -> Result<(), AllocError>
    ensures { OnOk result (bytes.new.items ≡ bytes.old.items ++ low_bytes (width_bytes width) value) }
{
    let all = value.cast_unsigned().to_le_bytes();
    bytes.extend_from_slice(&all[..bytes_of_width(width)])
}

/// Adds an item: its number, or the address of its label.
#[tactic(auto, unfolding(crate::specs::Data::item_bytes))]
fn put_item(
    layout: &Layout<'_>,
    width: Width,
    item: &Target,
    bytes: &mut Vec<u8>,
) -> Result<(), AsmFaultKind>
    ensures value { MatchResult result
        (λ _. appended bytes.old.items (item_bytes (addresses_view layout.now) width item.now) ≡ Ok bytes.new.items)
        (λ e. Fails e (item_bytes (addresses_view layout.now) width item.now)) }
    ensures memory { result ≡ Err kinds.Memory → NoFault (item_bytes (addresses_view layout.now) width item.now) }
{
    let value = item_within(width, offset(layout, 0, item)?)?;
    put_low_bytes(bytes, width, value)?;
    Ok(())
}

/// Adds items from left to right.
#[tactic(auto, unfolding(crate::specs::Data::items_bytes))]
fn put_items(
    layout: &Layout<'_>,
    width: Width,
    items: &[Target],
    bytes: &mut Vec<u8>,
) -> Result<(), AsmFaultKind>
    ensures { MatchResult result
        (λ _. appended bytes.old.items (items_bytes (addresses_view layout.now) width items.now) ≡ Ok bytes.new.items)
        (λ e. Fails e (items_bytes (addresses_view layout.now) width items.now)) }
{
    let mut rest = items;
    while let [item, after @ ..] = rest {
        put_item(layout, width, item, bytes)?;
        rest = after;
    }
    Ok(())
}

/// Adds so many zero bytes.
fn put_zeros(bytes: &mut Vec<u8>, count: u32) -> Result<(), AllocError>
    ensures { OnOk result (bytes.new.items ≡ bytes.old.items ++ replicate count 0) }
{
    let length = bytes.len() + count as usize;
    bytes.resize(length, 0)
}

/// Adds the bytes of a directive at a place of its part.
#[tactic(auto, unfolding(crate::specs::Data::directive_bytes))]
pub fn put_directive(
    layout: &Layout<'_>,
    at: u32,
    directive: &Directive,
    bytes: &mut Vec<u8>,
) -> Result<(), AsmFaultKind>
    ensures { MatchResult result
        (λ _. appended bytes.old.items (directive_bytes (addresses_view layout.now) at directive.now)
        ≡ Ok bytes.new.items)
        (λ e. Fails e (directive_bytes (addresses_view layout.now) at directive.now)) }
{
    match directive {
        Directive::Items(width, items) => put_items(layout, *width, items.as_slice(), bytes)?,
        Directive::Bytes(text) => bytes.extend_from_slice(text.as_slice())?,
        Directive::Zero(count) => put_zeros(bytes, count.number())?,
        Directive::Align(alignment) => put_zeros(bytes, padding_at(*alignment, at))?,
        _ => {}
    }
    Ok(())
}
