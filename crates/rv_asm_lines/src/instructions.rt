//! Instructions of registers and a number, which has to fit: else `Range`.

ghost use Rattle.std.specs.Prelude.{◌≡◌, ◌≤ℤ◌, ◌∷◌, [], ◌-◌, ◌^◌, IfOk, OnOk, pos, negsuc};
ghost use Rattle.rv_decode.specs.declared.instruction.Instr.TheVariants as instr;
ghost use Rattle.rv_decode.specs.Table.{amount_bits, written_word};
ghost use Rattle.rv_asm_tokens.specs.Returned.{Is};
ghost use Rattle.rv_asm_lines.specs.LayoutView.{addresses_view};
ghost use Rattle.rv_asm_lines.specs.Places.{AllWritten, IfRight, IsWritten};
ghost use Rattle.rv_asm_lines.specs.WordsView.{words_list};
ghost use Rattle.rv_asm_lines.specs.Resolved.{register_at, number_given, jal_to, branch_to};
ghost use Rattle.rv_asm_lines.specs.Resolved.{imm_12, upper_of, jal_of, jalr_of, branch_of, load_of, store_of, imm_of};
ghost use Rattle.rv_asm_lines.specs.Resolved.{all_words, shift_of, single};

use crate::layout::Layout;
use crate::offsets::{even_within, offset, upper_immediate, within};
use crate::words::{Words, one};
use rv_asm_statements::{Amount, Filled, Slot};
use rv_asm_tokens::AsmFaultKind;
use rv_decode::{ArithOp, BranchOp, ImmOp, Instr, LoadOp, Reg, ShiftOp, StoreOp, UpperOp};

/// The register of a slot.
pub fn register(slot: Slot, o: &Filled) -> Reg
    ensures { result ≡ register_at slot o.now }
{
    match slot {
        Slot::First => o.first,
        Slot::Second => o.second,
        Slot::Third => o.third,
        Slot::Zero => Reg::new(0),
        Slot::Link => Reg::new(1),
    }
}

fn number(amount: Amount, o: &Filled) -> i128
    ensures { result ≡ number_given amount o.now }
{
    match amount {
        Amount::Written => o.target.number.value(),
        Amount::Given(given) => i128::from(given),
    }
}

/// An immediate of 12 bits with a sign.
fn immediate(number: i128) -> Result<i32, AsmFaultKind>
    ensures value { Is (λ x. x) result (imm_12 number) }
    ensures low { IfOk result (λ x. negsuc 2047 ≤ℤ x) }
    ensures high { IfOk result (λ x. x ≤ℤ pos 2047) }
{
    within(-2048, 2047, number)
}

/// The greatest amount of a shift.
fn greatest_amount(op: ShiftOp) -> i32
    ensures value { pos (2 ^ amount_bits op - 1) ≡ result }
    ensures bound { result ≤ℤ pos 63 }
{
    match op {
        ShiftOp::Slli | ShiftOp::Srli | ShiftOp::Srai => 63,
        ShiftOp::Slliw | ShiftOp::Srliw | ShiftOp::Sraiw => 31,
    }
}

/// `lui` or `auipc`, of a number of 20 bits.
pub fn upper(op: UpperOp, d: Slot, o: &Filled) -> Result<Words, AsmFaultKind>
    ensures value { Is words_list result (all_words (single (upper_of op (register_at d o.now) o.now.target.number))) }
    ensures written { OnOk result
        (IfRight (single (upper_of op (register_at d o.now) o.now.target.number)) AllWritten) }
{
    let rd = register(d, o);
    let imm = upper_immediate(within(0, 1_048_575, o.target.number.value())?);
    Ok(one(Instr::Upper { op, rd, imm }))
}

/// `jal`, by an even offset of 21 bits with a sign.
fn jal_by(rd: Reg, offset: i128) -> Result<Words, AsmFaultKind>
    ensures value { Is words_list result (all_words (single (jal_of rd offset))) }
    ensures written { OnOk result (IfRight (single (jal_of rd offset)) AllWritten) }
{
    let off = even_within(-1_048_576, 1_048_575, offset)?;
    Ok(one(Instr::Jal { rd, off }))
}

/// `jal` to a target, at an address.
pub fn jal(layout: &Layout<'_>, at: u64, d: Slot, o: &Filled) -> Result<Words, AsmFaultKind>
    ensures value { Is words_list result (all_words (jal_to (addresses_view layout.now) at d o.now)) }
    ensures written { OnOk result (IfRight (jal_to (addresses_view layout.now) at d o.now) AllWritten) }
{
    let far = offset(layout, at, &o.target)?;
    jal_by(register(d, o), far)
}

/// `jalr`.
pub fn jalr(d: Slot, s: Slot, n: Amount, o: &Filled) -> Result<Words, AsmFaultKind>
    ensures value { Is words_list result
        (all_words (single (jalr_of (register_at d o.now) (register_at s o.now) (number_given n o.now)))) }
    ensures written { OnOk result
        (IfRight (single (jalr_of (register_at d o.now) (register_at s o.now) (number_given n o.now))) AllWritten) }
{
    let off = immediate(number(n, o))?;
    Ok(one(Instr::Jalr {
        rd: register(d, o),
        rs1: register(s, o),
        off,
    }))
}

/// A branch, by an even offset of 13 bits with a sign.
fn branch_by(op: BranchOp, rs1: Reg, rs2: Reg, offset: i128) -> Result<Words, AsmFaultKind>
    ensures value { Is words_list result (all_words (single (branch_of op rs1 rs2 offset))) }
    ensures written { OnOk result (IfRight (single (branch_of op rs1 rs2 offset)) AllWritten) }
{
    let off = even_within(-4096, 4095, offset)?;
    Ok(one(Instr::Branch { op, rs1, rs2, off }))
}

/// A branch to a target, at an address.
pub fn branch(
    layout: &Layout<'_>,
    at: u64,
    op: BranchOp,
    s: Slot,
    t: Slot,
    o: &Filled,
) -> Result<Words, AsmFaultKind>
    ensures value { Is words_list result (all_words (branch_to (addresses_view layout.now) at op s t o.now)) }
    ensures written { OnOk result (IfRight (branch_to (addresses_view layout.now) at op s t o.now) AllWritten) }
{
    let far = offset(layout, at, &o.target)?;
    branch_by(op, register(s, o), register(t, o), far)
}

/// A load.
pub fn load(op: LoadOp, d: Slot, s: Slot, o: &Filled) -> Result<Words, AsmFaultKind>
    ensures value { Is words_list result
        (all_words (single (load_of op (register_at d o.now) (register_at s o.now) o.now.target.number))) }
    ensures written { OnOk result
        (IfRight (single (load_of op (register_at d o.now) (register_at s o.now) o.now.target.number)) AllWritten) }
{
    let off = immediate(o.target.number.value())?;
    Ok(one(Instr::Load {
        op,
        rd: register(d, o),
        rs1: register(s, o),
        off,
    }))
}

/// A store.
pub fn store(op: StoreOp, s: Slot, t: Slot, o: &Filled) -> Result<Words, AsmFaultKind>
    ensures value { Is words_list result
        (all_words (single (store_of op (register_at s o.now) (register_at t o.now) o.now.target.number))) }
    ensures written { OnOk result
        (IfRight (single (store_of op (register_at s o.now) (register_at t o.now) o.now.target.number)) AllWritten) }
{
    let off = immediate(o.target.number.value())?;
    Ok(one(Instr::Store {
        op,
        rs1: register(s, o),
        rs2: register(t, o),
        off,
    }))
}

/// An operation with an immediate.
pub fn imm(op: ImmOp, d: Slot, s: Slot, n: Amount, o: &Filled) -> Result<Words, AsmFaultKind>
    ensures value { Is words_list result
        (all_words (single (imm_of op (register_at d o.now) (register_at s o.now) (number_given n o.now)))) }
    ensures written { OnOk result
        (IfRight (single (imm_of op (register_at d o.now) (register_at s o.now) (number_given n o.now))) AllWritten) }
{
    let imm = immediate(number(n, o))?;
    Ok(one(Instr::Imm {
        op,
        rd: register(d, o),
        rs1: register(s, o),
        imm,
    }))
}

/// A shift by an amount below the register's, or the word's, number of bits.
pub fn shift(op: ShiftOp, d: Slot, s: Slot, o: &Filled) -> Result<Words, AsmFaultKind>
    ensures value { Is words_list result
        (all_words (single (shift_of op (register_at d o.now) (register_at s o.now) o.now.target.number))) }
    ensures written { OnOk result
        (IfRight (single (shift_of op (register_at d o.now) (register_at s o.now) o.now.target.number)) AllWritten) }
{
    let amount = within(0, greatest_amount(op), o.target.number.value())? as u8;
    Ok(one(Instr::Shift {
        op,
        rd: register(d, o),
        rs1: register(s, o),
        amount,
    }))
}

/// An operation of two registers.
pub fn arith(op: ArithOp, d: Slot, s: Slot, t: Slot, o: &Filled) -> Words
    ensures words { words_list result
        ≡ written_word (instr.Arith op (register_at d o.now) (register_at s o.now) (register_at t o.now)) ∷ [] }
    ensures written { IsWritten (instr.Arith op (register_at d o.now) (register_at s o.now) (register_at t o.now)) }
{
    one(Instr::Arith {
        op,
        rd: register(d, o),
        rs1: register(s, o),
        rs2: register(t, o),
    })
}
