//! Numbers in the places where they stand.

ghost use Rattle.std.specs.Prelude.{◌≡◌, ◌≤ℤ◌, ◌^◌, pos, neg_ℤ, IfOk, int_rem};
ghost use Rattle.rv_asm_tokens.specs.Returned.{Is};
ghost use Rattle.rv_asm_lines.specs.LayoutView.{addresses_view};
ghost use Rattle.rv_asm_lines.specs.Resolved.{ranged, even_ranged, goal_offset, upper_immediate as upper_meant};

use crate::labels::find_label;
use crate::layout::Layout;
use rv_asm_statements::Target;
use rv_asm_tokens::AsmFaultKind;

/// A number within two bounds, else `Range`.
#[tactic(auto, unfolding(crate::specs::Resolved::ranged))]
pub fn within(low: i32, high: i32, value: i128) -> Result<i32, AsmFaultKind>
    ensures value { Is (λ x. x) result (ranged low high value) }
    ensures low { IfOk result (λ x. low ≤ℤ x) }
    ensures high { IfOk result (λ x. x ≤ℤ high) }
{
    if value < i128::from(low) || value > i128::from(high) {
        return Err(AsmFaultKind::Range(value));
    }
    Ok(value as i32)
}

/// An even number within two bounds, else `Range`.
#[tactic(auto, unfolding(crate::specs::Resolved::even_ranged))]
pub fn even_within(low: i32, high: i32, value: i128) -> Result<i32, AsmFaultKind>
    ensures value { Is (λ x. x) result (even_ranged low high value) }
    ensures low { IfOk result (λ x. low ≤ℤ x) }
    ensures high { IfOk result (λ x. x ≤ℤ high) }
    ensures even { IfOk result (λ x. int_rem x (pos 2) ≡ pos 0) }
{
    if value < i128::from(low) || value > i128::from(high) {
        return Err(AsmFaultKind::Range(value));
    }
    let offset = value as i32;
    if offset % 2 != 0 {
        return Err(AsmFaultKind::Range(value));
    }
    Ok(offset)
}

/// What a target adds to an address: a number, or how far a label is.
#[tactic(auto, unfolding(crate::specs::Resolved::label_offset))]
pub fn offset(layout: &Layout<'_>, at: u64, target: &Target) -> Result<i128, AsmFaultKind>
    ensures value { Is (λ x. x) result (goal_offset (addresses_view layout.now) at target.now) }
    ensures low { IfOk result (λ x. neg_ℤ (pos (2 ^ 70)) ≤ℤ x) }
    ensures high { IfOk result (λ x. x ≤ℤ pos (2 ^ 70)) }
{
    match &target.label {
        None => Ok(target.number.value()),
        Some(name) => match find_label(layout, name.as_slice()) {
            None => Err(AsmFaultKind::LabelMissing),
            Some(address) => Ok(i128::from(address) + target.number.value() - i128::from(at)),
        },
    }
}

/// The immediate of lui and auipc, whose number has 20 bits.
#[tactic(auto, unfolding(crate::specs::Resolved::upper_immediate))]
pub fn upper_immediate(number: i32) -> i32
    requires low { pos 0 ≤ℤ number }
    requires high { number ≤ℤ pos 1048575 }
    ensures value { result ≡ upper_meant number }
    ensures whole { int_rem result (pos 4096) ≡ pos 0 }
{
    if number <= 524_287 {
        number * 4096
    } else {
        (number - 1_048_576) * 4096
    }
}
