//! A hart, and its steps (rv_hart).
ghost use Rattle.std.specs.Prelude.{◌≡◌, ◌≢◌, [], ◌∷◌, ℕ, ◌+◌, ◌-◌, ◌*◌, ◌^◌, ◌<◌, pos, negsuc, Some, None, Ok, IfOk, true};
ghost use Rattle.rv_decode.specs.declared.instruction.ArithOp.TheVariants.{Addw, Srl, Mulh, Divw, Divuw, Remu};
ghost use Rattle.rv_decode.specs.declared.instruction.BranchOp.TheVariants.{Bgeu};
ghost use Rattle.rv_decode.specs.declared.instruction.ImmOp.TheVariants.{Sltiu};
ghost use Rattle.rv_decode.specs.declared.instruction.ShiftOp.TheVariants.{Srai};
ghost use Rattle.rv_decode.specs.declared.instruction.StoreOp.TheVariants.{Sw};
ghost use Rattle.rv_decode.specs.declared.instruction.UpperOp.TheVariants.{Auipc, Lui};
ghost use Rattle.rv_hart.specs.Effect.{offset};
ghost use Rattle.rv_hart.specs.Results.{arith_result, imm_result, upper_result, shift_result, is_taken, store_width};
ghost use Rattle.rv_hart.specs.State.{at_pc, in_mode, read, write};
ghost use Rattle.rv_hart.specs.declared.state.Mode.TheVariants.{Running, Trapped};
ghost use Rattle.rv_memory.specs.Access.{stored, word_at};
ghost use Rattle.rv_memory.specs.declared.memory.Width.TheVariants.{Word};

use rv_decode::Reg;
use rv_hart::{Did, Hart, Mode, step};
use rv_memory::{Cause, RankMemory};
use std::alloc::AllocError;

// ---- a hart

/// A register reads what was written.
pub fn written_register_is_read(value: u64) -> u64
    ensures { result ≡ value }
{
    let mut hart = Hart::start(0, 4096, 0, 0);
    hart.set(Reg::new(5), value);
    hart.get(Reg::new(5))
}

/// x0 reads 0 whatever was written.
pub fn x0_reads_zero(hart: &mut Hart, value: u64) -> u64
    ensures { result ≡ 0 }
{
    hart.set(Reg::new(0), value);
    hart.get(Reg::new(0))
}

/// The pc is what was set, also where it isn't a multiple of 4.
pub fn pc_is_what_was_set(hart: &mut Hart, pc: u64) -> u64
    ensures { result ≡ pc }
{
    hart.set_pc(pc);
    hart.pc()
}

/// The mode is what was set, whatever it was before.
pub fn mode_is_what_was_set(hart: &mut Hart, mode: Mode) -> Mode
    ensures { result ≡ mode }
{
    hart.set_mode(mode);
    hart.mode()
}

/// The third hart's stack ends 8,192 bytes before the end of the memory.
pub fn third_stack_is_below_two_others() -> u64
    ensures { result ≡ 57344 }
{
    Hart::start(0, 65536, 2, 7).get(Reg::new(2))
}

// ---- steps

/// An ECALL changes nothing, the pc with it.
#[tactic(auto, unfolding(rv_hart::specs::Stepped::stepped, rv_hart::specs::Stores::store_range, rv_decode::specs::Decoded::decoded))]
pub fn ecall_changes_nothing(hart: &mut Hart, memory: &mut RankMemory) -> Result<Did, AllocError>
    requires running { hart.old.mode ≡ Running }
    requires ecall { word_at memory.old hart.old.pc ≡ Some 0x00000073 }
    ensures did { result ≡ Ok Did.Call }
    ensures hart { hart.new ≡ hart.old }
    ensures memory { memory.new ≡ memory.old }
{
    step(hart, memory)
}

/// An EBREAK stops the hart where it is, and is no plain instruction.
#[tactic(auto, unfolding(rv_hart::specs::Stepped::stepped, rv_hart::specs::Stores::store_range, rv_decode::specs::Decoded::decoded))]
pub fn ebreak_stops_the_hart(hart: &mut Hart, memory: &mut RankMemory) -> Result<Did, AllocError>
    requires running { hart.old.mode ≡ Running }
    requires ebreak { word_at memory.old hart.old.pc ≡ Some 0x00100073 }
    ensures did { result ≡ Ok Did.Break }
    ensures hart { hart.new ≡ in_mode hart.old (Trapped Cause.Breakpoint hart.old.pc) }
{
    step(hart, memory)
}

/// A trap leaves the pc where it is.
#[tactic(auto, unfolding(rv_hart::specs::Stepped::stepped, rv_hart::specs::Stores::store_range, rv_decode::specs::Decoded::decoded))]
pub fn trap_leaves_the_pc(hart: &mut Hart, memory: &mut RankMemory) -> Result<Did, AllocError>
    requires running { hart.old.mode ≡ Running }
    requires illegal { word_at memory.old hart.old.pc ≡ Some 0xffffffff }
    ensures did { result ≡ Ok (Did.Trap Cause.IllegalInstruction) }
    ensures pc { hart.new.pc ≡ hart.old.pc }
{
    step(hart, memory)
}

/// A step goes alike where the text was decoded and where it wasn't: behind the text, at a pc that is no multiple of 4, and
/// at a word that stands for no instruction, as at any other.
pub fn decoded_text_is_stepped_alike(
    hart: &mut Hart,
    other: &mut Hart,
    memory: &mut RankMemory,
    decoded: &mut RankMemory,
) -> Result<(Did, Did), AllocError>
    requires running { hart.old.mode ≡ Running }
    requires harts { other.old ≡ hart.old }
    requires memories { decoded.old ≡ memory.old }
    ensures did { IfOk result (λ did. did.0 ≡ did.1) }
    ensures hart { IfOk result (λ did. hart.new ≡ other.new) }
    ensures memory { IfOk result (λ did. memory.new ≡ decoded.new) }
{
    decoded.decode_text()?;
    Ok((step(hart, memory)?, step(other, decoded)?))
}

/// A branch that isn't taken goes on to the next instruction: 00001463 is `bne x0, x0, 8`.
#[tactic(auto, unfolding(rv_hart::specs::Stepped::stepped, rv_hart::specs::Stores::store_range, rv_decode::specs::Decoded::decoded, rv_hart::specs::Results::is_taken))]
pub fn branch_not_taken_goes_on(hart: &mut Hart, memory: &mut RankMemory) -> Result<Did, AllocError>
    requires running { hart.old.mode ≡ Running }
    requires at_four { hart.old.pc ≡ 4 }
    requires branch { word_at memory.old hart.old.pc ≡ Some 0x00001463 }
    ensures did { result ≡ Ok Did.Plain }
    ensures hart { hart.new ≡ at_pc hart.old 8 }
{
    step(hart, memory)
}

/// A jump to an address that isn't a multiple of 4 leaves the link as it was: 002000ef is `jal x1, 2`.
#[tactic(auto, unfolding(rv_hart::specs::Stepped::stepped, rv_hart::specs::Stores::store_range, rv_decode::specs::Decoded::decoded, rv_hart::specs::Effect::jumps))]
pub fn misaligned_jump_leaves_the_link(
    hart: &mut Hart,
    memory: &mut RankMemory,
) -> Result<Did, AllocError>
    requires running { hart.old.mode ≡ Running }
    requires at_four { hart.old.pc ≡ 4 }
    requires jump { word_at memory.old hart.old.pc ≡ Some 0x002000ef }
    ensures did { result ≡ Ok (Did.Trap Cause.InstructionMisaligned) }
    ensures registers { hart.new.regs ≡ hart.old.regs }
{
    step(hart, memory)
}

/// A fence is done, and not given up: 0ff0000f is `fence`.
#[tactic(auto, unfolding(rv_hart::specs::Stepped::stepped, rv_hart::specs::Stores::store_range, rv_decode::specs::Decoded::decoded))]
pub fn fence_goes_on(hart: &mut Hart, memory: &mut RankMemory) -> Result<Did, AllocError>
    requires running { hart.old.mode ≡ Running }
    requires at_four { hart.old.pc ≡ 4 }
    requires fence { word_at memory.old hart.old.pc ≡ Some 0x0ff0000f }
    ensures did { result ≡ Ok Did.Plain }
    ensures hart { hart.new ≡ at_pc hart.old 8 }
{
    step(hart, memory)
}

/// A jump leaves the address of the instruction behind it: 008000ef is `jal x1, 8`.
#[tactic(auto, unfolding(rv_hart::specs::Stepped::stepped, rv_hart::specs::Stores::store_range, rv_decode::specs::Decoded::decoded, rv_hart::specs::Effect::jumps))]
pub fn jump_links_to_what_is_behind_it(
    hart: &mut Hart,
    memory: &mut RankMemory,
) -> Result<Did, AllocError>
    requires running { hart.old.mode ≡ Running }
    requires at_four { hart.old.pc ≡ 4 }
    requires jump { word_at memory.old hart.old.pc ≡ Some 0x008000ef }
    ensures did { result ≡ Ok Did.Plain }
    ensures hart { hart.new ≡ at_pc (write hart.old 1 8) 12 }
{
    step(hart, memory)
}

/// A jump by a register drops bit 0 of its target: 00100067 is `jalr x0, 1(x0)`.
#[tactic(auto, unfolding(rv_hart::specs::Stepped::stepped, rv_hart::specs::Stores::store_range, rv_decode::specs::Decoded::decoded, rv_hart::specs::Effect::jumps))]
pub fn jump_by_a_register_drops_bit_0(
    hart: &mut Hart,
    memory: &mut RankMemory,
) -> Result<Did, AllocError>
    requires running { hart.old.mode ≡ Running }
    requires jump { word_at memory.old hart.old.pc ≡ Some 0x00100067 }
    ensures did { result ≡ Ok Did.Plain }
    ensures hart { hart.new ≡ at_pc hart.old 0 }
{
    step(hart, memory)
}

/// A jump by the register that it writes goes by what that held before: 000080e7 is `jalr x1, 0(x1)`.
#[tactic(auto, unfolding(rv_hart::specs::Stepped::stepped, rv_hart::specs::Stores::store_range, rv_decode::specs::Decoded::decoded, rv_hart::specs::Effect::jumps))]
pub fn jump_by_its_own_link(hart: &mut Hart, memory: &mut RankMemory) -> Result<Did, AllocError>
    requires running { hart.old.mode ≡ Running }
    requires at_four { hart.old.pc ≡ 4 }
    requires link { read hart.old 1 ≡ 16 }
    requires jump { word_at memory.old hart.old.pc ≡ Some 0x000080e7 }
    ensures did { result ≡ Ok Did.Plain }
    ensures hart { hart.new ≡ at_pc (write hart.old 1 8) 16 }
{
    step(hart, memory)
}

// ---- what instructions compute: laws of the definitions, with no code

/// A sum of words is extended from bit 31.
#[tactic(auto, unfolding(rv_hart::specs::Results::arith_result))]
pub fn sum_of_words_is_extended()
    ensures { arith_result Addw 0x7fffffff 1 ≡ 0xffffffff80000000 }
{}

/// A logical shift fills with zeros.
#[tactic(auto, unfolding(rv_hart::specs::Results::arith_result))]
pub fn logical_shift_fills_with_zeros()
    ensures { arith_result Srl (2 ^ 63) 63 ≡ 1 }
{}

/// An arithmetic shift fills with the sign.
#[tactic(auto, unfolding(rv_hart::specs::Results::shift_result))]
pub fn arithmetic_shift_fills_with_the_sign()
    ensures { shift_result Srai (2 ^ 63) 63 ≡ 2 ^ 64 - 1 }
{}

/// The high half of -1 times -1 is 0, where both are signed.
#[tactic(auto, unfolding(rv_hart::specs::Results::arith_result))]
pub fn high_half_is_signed()
    ensures { arith_result Mulh (2 ^ 64 - 1) (2 ^ 64 - 1) ≡ 0 }
{}

/// A quotient of words is signed: -2 by 2 is -1.
#[tactic(auto, unfolding(rv_hart::specs::Results::arith_result))]
pub fn quotient_of_words_is_signed()
    ensures { arith_result Divw 0xfffffffe 2 ≡ 2 ^ 64 - 1 }
{}

/// A remainder by zero is the dividend.
#[tactic(auto, unfolding(rv_hart::specs::Results::arith_result))]
pub fn remainder_by_zero_is_the_dividend()
    ensures { arith_result Remu 5 0 ≡ 5 }
{}

/// An immediate that is compared without signs is extended first: -1 is the greatest number.
#[tactic(auto, unfolding(rv_hart::specs::Results::imm_result))]
pub fn immediate_is_extended_and_compared_without_sign()
    ensures { imm_result Sltiu 5 (negsuc 0) ≡ 1 }
{}

/// AUIPC adds to the pc.
#[tactic(auto, unfolding(rv_hart::specs::Results::upper_result))]
pub fn auipc_adds_to_the_pc()
    ensures { upper_result Auipc 4 (pos 4096) ≡ 4100 }
{}

/// It goes round below 0, and LUI extends from bit 31.
#[tactic(auto, unfolding(rv_hart::specs::Results::upper_result))]
pub fn upper_immediates_are_signed()
    ensures auipc { upper_result Auipc 0 (negsuc 4095) ≡ 0xfffffffffffff000 }
    ensures lui { upper_result Lui 4 (negsuc 0x7fffffff) ≡ 0xffffffff80000000 }
{}

/// A jump from 0 back by 4 goes to the last word of all addresses.
pub fn offsets_go_round()
    ensures { offset 0 (negsuc 3) ≡ 0xfffffffffffffffc }
{}

/// A store of a half changes two bytes, and takes the lowest ones of its value.
pub fn half_changes_two_bytes()
    ensures { (stored (record { bytes = 0x88 ∷ 0x87 ∷ 0x86 ∷ 0x85 ∷ []; text = 0; pages = [] }) 2 2 0x0102030405060708).bytes
        ≡ 0x88 ∷ 0x87 ∷ 0x08 ∷ 0x07 ∷ [] }
{}

/// What equals is at least as great.
#[tactic(auto, unfolding(rv_hart::specs::Results::is_taken))]
pub fn equal_is_at_least_as_great()
    ensures { is_taken Bgeu 5 5 ≡ true }
{}

/// A quotient of unsigned words by zero is all ones, in its upper half too.
#[tactic(auto, unfolding(rv_hart::specs::Results::arith_result))]
pub fn quotient_by_zero_is_all_ones()
    ensures { arith_result Divuw 5 0 ≡ 2 ^ 64 - 1 }
{}

/// SW stores a word.
pub fn sw_stores_a_word()
    ensures { store_width Sw ≡ Word }
{}
