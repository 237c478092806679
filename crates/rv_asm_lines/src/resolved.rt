//! The instructions of a mnemonic and its operands.

ghost use Rattle.std.specs.Prelude.{◌≡◌, ◌≤◌, ◌^◌, map, OnOk, pos, negsuc, neg_ℤ, ◌≤ℤ◌, ◌+ℤ◌, ◌-ℤ◌, ◌*ℤ◌};
ghost use Rattle.rv_decode.specs.Table.{written_word};
ghost use Rattle.rv_decode.specs.WordOf.{Fits};
ghost use Rattle.rv_asm_tokens.specs.Returned.{Is};
ghost use Rattle.rv_asm_lines.specs.LayoutView.{addresses_view};
ghost use Rattle.rv_asm_lines.specs.Places.{AllWritten, IfRight};
ghost use Rattle.rv_asm_lines.specs.WordsView.{words_list};
ghost use Rattle.rv_asm_lines.specs.Resolved.{load_target, lui_high, low_part, high_part, load_parts, load_immediate};
ghost use Rattle.rv_asm_lines.specs.Resolved.{all_words, load_address, load_number as load_meant, use_length};
ghost use Rattle.rv_asm_lines.specs.Resolved.{instrs_of, words_of as resolved_words};

use crate::instructions::{arith, branch, imm, jal, jalr, load, register, shift, store, upper};
use crate::layout::Layout;
use crate::offsets::{offset, upper_immediate, within};
use crate::words::{Words, one, two};
use rv_asm_statements::{Filled, Slot, Template, Use};
use rv_asm_tokens::AsmFaultKind;
use rv_decode::{ImmOp, Instr, Reg, UpperOp};

/// 4096 times the high part is within 2048 of the number.
fn high(z: i128) -> i128
    requires low { neg_ℤ (pos (2 ^ 70)) ≤ℤ z }
    requires high { z ≤ℤ pos (2 ^ 70) }
    ensures value { result ≡ high_part z }
    ensures above { (pos 4096 *ℤ result) ≤ℤ (z +ℤ pos 2048) }
    ensures below { z ≤ℤ ((pos 4096 *ℤ result) +ℤ pos 2047) }
{
    (z + 2048).div_euclid(4096)
}

/// What is left of a number besides 4096 times another.
fn rest(z: i128, high: i128) -> i32
    requires low { neg_ℤ (pos (2 ^ 70)) ≤ℤ z }
    requires high { z ≤ℤ pos (2 ^ 70) }
    requires above { (pos 4096 *ℤ high) ≤ℤ (z +ℤ pos 2048) }
    requires below { z ≤ℤ ((pos 4096 *ℤ high) +ℤ pos 2047) }
    ensures value { result ≡ z -ℤ (pos 4096 *ℤ high) }
    ensures above { negsuc 2047 ≤ℤ result }
    ensures below { result ≤ℤ pos 2047 }
{
    (z - 4096 * high) as i32
}

/// What is left of a number besides its high part.
fn low(z: i128) -> i32
    requires low { neg_ℤ (pos (2 ^ 70)) ≤ℤ z }
    requires high { z ≤ℤ pos (2 ^ 70) }
    ensures value { result ≡ low_part z }
    ensures above { negsuc 2047 ≤ℤ result }
    ensures below { result ≤ℤ pos 2047 }
{
    rest(z, high(z))
}

/// `lui` of a number's high part.
fn load_high(d: Reg, z: i128) -> Instr
    requires low { neg_ℤ (pos (2 ^ 70)) ≤ℤ z }
    requires high { z ≤ℤ pos (2 ^ 70) }
    ensures value { result ≡ lui_high d z }
    ensures fits { Fits result }
{
    let bits = high(z).rem_euclid(1_048_576);
    Instr::Upper {
        op: UpperOp::Lui,
        rd: d,
        imm: upper_immediate(bits as i32),
    }
}

/// The parts of a number, the low one unless it is 0.
fn words_of_parts(d: Reg, z: i128) -> Words
    requires low { neg_ℤ (pos (2 ^ 70)) ≤ℤ z }
    requires high { z ≤ℤ pos (2 ^ 70) }
    ensures words { words_list result ≡ map written_word (load_parts d z) }
    ensures written { AllWritten (load_parts d z) }
{
    let first = load_high(d, z);
    let imm = low(z);
    if imm == 0 {
        return one(first);
    }
    two(
        first,
        Instr::Imm {
            op: ImmOp::Addiw,
            rd: d,
            rs1: d,
            imm,
        },
    )
}

/// `li`, of a number of 32 bits with a sign.
fn immediate_words(d: Reg, z: i32) -> Words
    ensures words { words_list result ≡ map written_word (load_immediate d z) }
    ensures written { AllWritten (load_immediate d z) }
{
    if z >= -2048 && z <= 2047 {
        return one(Instr::Imm {
            op: ImmOp::Addi,
            rd: d,
            rs1: Reg::new(0),
            imm: z,
        });
    }
    words_of_parts(d, i128::from(z))
}

/// `li`, of a number that fits 32 bits with a sign, else `Range`.
fn load_number(d: Reg, number: i128) -> Result<Words, AsmFaultKind>
    ensures value { Is words_list result (all_words (load_meant d number)) }
    ensures written { OnOk result (IfRight (load_meant d number) AllWritten) }
{
    let z = within(i32::MIN, i32::MAX, number)?;
    Ok(immediate_words(d, z))
}

/// `la`, of an address.
fn address_words(d: Reg, z: i128) -> Words
    requires low { neg_ℤ (pos (2 ^ 70)) ≤ℤ z }
    requires high { z ≤ℤ pos (2 ^ 70) }
    ensures words { words_list result ≡ map written_word (load_address d z) }
    ensures written { AllWritten (load_address d z) }
{
    two(
        load_high(d, z),
        Instr::Imm {
            op: ImmOp::Addi,
            rd: d,
            rs1: d,
            imm: low(z),
        },
    )
}

/// `la`, of a target.
fn target_words(layout: &Layout<'_>, d: Slot, o: &Filled) -> Result<Words, AsmFaultKind>
    ensures value { Is words_list result (all_words (load_target (addresses_view layout.now) d o.now)) }
    ensures written { OnOk result (IfRight (load_target (addresses_view layout.now) d o.now) AllWritten) }
{
    let address = offset(layout, 0, &o.target)?;
    Ok(address_words(register(d, o), address))
}

/// The words of a template and its operands, at an address.
#[tactic(auto, unfolding(crate::specs::Resolved::instrs_of))]
pub fn words_of(
    layout: &Layout<'_>,
    at: u64,
    template: Template,
    o: &Filled,
) -> Result<Words, AsmFaultKind>
    ensures value { Is words_list result (resolved_words (addresses_view layout.now) at template o.now) }
    ensures written { OnOk result (IfRight (instrs_of (addresses_view layout.now) at template o.now) AllWritten) }
{
    match template {
        Template::Upper(op, d) => upper(op, d, o),
        Template::Jal(d) => jal(layout, at, d, o),
        Template::Jalr(d, s, n) => jalr(d, s, n, o),
        Template::Branch(op, s, t) => branch(layout, at, op, s, t, o),
        Template::Load(op, d, s) => load(op, d, s, o),
        Template::Store(op, s, t) => store(op, s, t, o),
        Template::Imm(op, d, s, n) => imm(op, d, s, n, o),
        Template::Shift(op, d, s) => shift(op, d, s, o),
        Template::Arith(op, d, s, t) => Ok(arith(op, d, s, t, o)),
        Template::Fence => Ok(one(Instr::Fence)),
        Template::Ecall => Ok(one(Instr::Ecall)),
        Template::Ebreak => Ok(one(Instr::Ebreak)),
        Template::LoadImmediate(d) => load_number(register(d, o), o.target.number.value()),
        Template::LoadAddress(d) => target_words(layout, d, o),
    }
}

/// How many bytes the instructions of a mnemonic take.
#[tactic(auto, unfolding(crate::specs::Resolved::use_length))]
pub fn length_of_use(found: &Use) -> u64
    ensures value { result ≡ use_length found.now }
    ensures small { result ≤ 8 }
{
    let written = found.filled.target.number.value();
    match found.template {
        Template::LoadAddress(_) => 8,
        Template::LoadImmediate(_) => {
            if written >= -2048 && written <= 2047 {
                4
            } else if written >= -2_147_483_648 && written <= 2_147_483_647 && low(written) == 0 {
                4
            } else {
                8
            }
        }
        _ => 4,
    }
}
