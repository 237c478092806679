//! What each instruction computes, one small function an operation.
ghost use Rattle.std.specs.Prelude.{ℤ, pos, ◌≡◌, ◌≢◌, ◌+◌, ◌*◌, ◌/◌, ◌%◌, ◌^◌, ◌<◌, ◌+ℤ◌, ◌-ℤ◌, ◌*ℤ◌, int_div, int_rem};
ghost use Rattle.rv_decode.specs.Fields.{signed as signed_of};
ghost use Rattle.rv_decode.specs.Table.{amount_bits};
ghost use Rattle.rv_hart.specs.Numbers.{modulo, floor, signed_64, low_32, signed_32, in_64, in_32};
ghost use Rattle.rv_hart.specs.Results.{upper_result, arith_result, imm_result, shift_result, is_taken as taken_of};
ghost use Rattle.rv_hart.specs.Results.{load_width as load_width_of, store_width as store_width_of, load_result};
ghost use Rattle.rv_memory.specs.Access.{size_of};

use rv_decode::{ArithOp, BranchOp, ImmOp, LoadOp, ShiftOp, StoreOp, UpperOp};
use rv_memory::Width;

// ---- readings of a register

/// The low 32 bits.
#[inline(always)]
fn low(value: u64) -> u32
    ensures { result ≡ low_32 value }
{
    (value % 0x1_0000_0000) as u32
}

#[inline(always)]
fn signed(value: u64) -> i64
    ensures { result ≡ signed_64 value }
{
    value.cast_signed()
}

#[inline(always)]
fn low_signed(value: u64) -> i32
    ensures { result ≡ signed_32 value }
{
    low(value).cast_signed()
}

// ---- numbers in a register

#[inline(always)]
fn unsigned(value: i64) -> u64
    ensures { result ≡ in_64 value }
{
    value.cast_unsigned()
}

/// An immediate, sign-extended.
#[inline(always)]
fn wide(imm: i32) -> u64
    ensures { result ≡ in_64 imm }
{
    (imm as i64).cast_unsigned()
}

/// 32 bits, sign-extended.
#[inline(always)]
fn extended(value: u32) -> u64
    ensures { result ≡ in_32 (pos value) }
{
    (value.cast_signed() as i64).cast_unsigned()
}

#[inline(always)]
fn extended_signed(value: i32) -> u64
    ensures value { result ≡ in_32 value }
    ensures wide { result ≡ in_64 value }
{
    (value as i64).cast_unsigned()
}

/// The value of the bytes of a width, sign-extended.
#[inline(always)]
fn extended_from(width: Width, value: u64) -> u64
    requires { value < 256 ^ size_of width }
    ensures { result ≡ in_64 (signed_of (8 * size_of width) value) }
{
    match width {
        Width::Byte => unsigned((value as u8).cast_signed() as i64),
        Width::Half => unsigned((value as u16).cast_signed() as i64),
        Width::Word => extended(value as u32),
        Width::Double => value,
    }
}

// ---- sums, differences and shifts

#[inline(always)]
pub(crate) fn add_signed(a: u64, b: i32) -> u64
    ensures { result ≡ in_64 (pos a +ℤ b) }
{
    a.wrapping_add_signed(b as i64)
}

#[inline(always)]
fn sub(a: u64, b: u64) -> u64
    ensures { result ≡ in_64 (pos a -ℤ pos b) }
{
    a.wrapping_sub(b)
}

#[inline(always)]
fn sra(a: u64, amount: u64) -> u64
    requires { amount < 64 }
    ensures { result ≡ in_64 (floor (signed_64 a) (2 ^ amount)) }
{
    unsigned(signed(a) >> amount)
}

#[inline(always)]
fn addw(a: u64, b: u64) -> u64
    ensures { result ≡ in_32 (pos (low_32 a + low_32 b)) }
{
    extended(low(a).wrapping_add(low(b)))
}

#[inline(always)]
fn addiw(a: u64, b: i32) -> u64
    ensures { result ≡ in_32 (pos (low_32 a) +ℤ b) }
{
    extended(low(a).wrapping_add_signed(b))
}

#[inline(always)]
fn subw(a: u64, b: u64) -> u64
    ensures { result ≡ in_32 (pos (low_32 a) -ℤ pos (low_32 b)) }
{
    extended(low(a).wrapping_sub(low(b)))
}

#[inline(always)]
fn sllw(a: u64, amount: u32) -> u64
    requires { amount < 32 }
    ensures { result ≡ in_32 (pos (low_32 a * 2 ^ amount)) }
{
    extended(low(a) << amount)
}

#[inline(always)]
fn srlw(a: u64, amount: u32) -> u64
    requires { amount < 32 }
    ensures { result ≡ in_32 (pos (low_32 a / 2 ^ amount)) }
{
    extended(low(a) >> amount)
}

#[inline(always)]
fn sraw(a: u64, amount: u32) -> u64
    requires { amount < 32 }
    ensures { result ≡ in_32 (floor (signed_32 a) (2 ^ amount)) }
{
    extended_signed(low_signed(a) >> amount)
}

// ---- products
//
// Upper halves, quotients and remainders of signed numbers stand by themselves: they are seldom asked for, and with them
// inside the step it grows so large that the compiler leaves it outside its loops (tests/checks/symbols).

#[inline(always)]
fn product(a: i64, b: i64) -> i128
    ensures { result ≡ a *ℤ b }
{
    a as i128 * b as i128
}

#[inline(always)]
fn mixed_product(a: i64, b: u64) -> i128
    ensures { result ≡ a *ℤ pos b }
{
    a as i128 * b as i128
}

/// The upper 64 bits.
#[inline(always)]
fn high(value: i128) -> u64
    ensures { result ≡ in_64 (floor value (2 ^ 64)) }
{
    unsigned((value >> 64) as i64)
}

#[inline(never)]
fn mulh(a: u64, b: u64) -> u64
    ensures { result ≡ in_64 (floor (signed_64 a *ℤ signed_64 b) (2 ^ 64)) }
{
    high(product(signed(a), signed(b)))
}

#[inline(never)]
fn mulhsu(a: u64, b: u64) -> u64
    ensures { result ≡ in_64 (floor (signed_64 a *ℤ pos b) (2 ^ 64)) }
{
    high(mixed_product(signed(a), b))
}

#[inline(never)]
fn mulhu(a: u64, b: u64) -> u64
    ensures { result ≡ a * b / 2 ^ 64 }
{
    ((a as u128 * b as u128) >> 64) as u64
}

#[inline(always)]
fn mulw(a: u64, b: u64) -> u64
    ensures { result ≡ in_32 (pos (low_32 a * low_32 b)) }
{
    extended(low(a).wrapping_mul(low(b)))
}

// ---- quotients and remainders, of a divisor that isn't 0

#[inline(never)]
fn div(a: u64, b: u64) -> u64
    requires { 0 < b }
    ensures { result ≡ in_64 (int_div (signed_64 a) (signed_64 b)) }
{
    unsigned(signed(a).wrapping_div(signed(b)))
}

#[inline(never)]
fn rem(a: u64, b: u64) -> u64
    requires { 0 < b }
    ensures { result ≡ in_64 (int_rem (signed_64 a) (signed_64 b)) }
{
    unsigned(signed(a).wrapping_rem(signed(b)))
}

#[inline(always)]
fn quotient_32(a: i32, b: i32) -> i32
    requires { b ≢ pos 0 }
    ensures { result ≡ signed_of 32 (modulo (int_div a b) (2 ^ 32)) }
{
    a.wrapping_div(b)
}

#[inline(never)]
fn divw(a: u64, b: u64) -> u64
    requires { 0 < low_32 b }
    ensures { result ≡ in_32 (int_div (signed_32 a) (signed_32 b)) }
{
    extended_signed(quotient_32(low_signed(a), low_signed(b)))
}

#[inline(never)]
fn remw(a: u64, b: u64) -> u64
    requires { 0 < low_32 b }
    ensures { result ≡ in_32 (int_rem (signed_32 a) (signed_32 b)) }
{
    extended_signed(low_signed(a).wrapping_rem(low_signed(b)))
}

// ---- the instructions

/// What `op` gives for what rs1 and rs2 read.
#[inline(always)]
#[tactic(auto, unfolding(crate::specs::Results::arith_result))]
pub(crate) fn arith(op: ArithOp, a: u64, b: u64) -> u64
    ensures { result ≡ arith_result op a b }
{
    match op {
        ArithOp::Add => a.wrapping_add(b),
        ArithOp::Sub => sub(a, b),
        ArithOp::Sll => a << (b % 64),
        ArithOp::Slt => (signed(a) < signed(b)) as u64,
        ArithOp::Sltu => (a < b) as u64,
        ArithOp::Xor => a ^ b,
        ArithOp::Srl => a >> (b % 64),
        ArithOp::Sra => sra(a, b % 64),
        ArithOp::Or => a | b,
        ArithOp::And => a & b,
        ArithOp::Addw => addw(a, b),
        ArithOp::Subw => subw(a, b),
        ArithOp::Sllw => sllw(a, (b % 32) as u32),
        ArithOp::Srlw => srlw(a, (b % 32) as u32),
        ArithOp::Sraw => sraw(a, (b % 32) as u32),
        ArithOp::Mul => a.wrapping_mul(b),
        ArithOp::Mulh => mulh(a, b),
        ArithOp::Mulhsu => mulhsu(a, b),
        ArithOp::Mulhu => mulhu(a, b),
        ArithOp::Div if b == 0 => u64::MAX,
        ArithOp::Div => div(a, b),
        ArithOp::Divu if b == 0 => u64::MAX,
        ArithOp::Divu => a / b,
        ArithOp::Rem if b == 0 => a,
        ArithOp::Rem => rem(a, b),
        ArithOp::Remu if b == 0 => a,
        ArithOp::Remu => a % b,
        ArithOp::Mulw => mulw(a, b),
        ArithOp::Divw if low(b) == 0 => u64::MAX,
        ArithOp::Divw => divw(a, b),
        ArithOp::Divuw if low(b) == 0 => u64::MAX,
        ArithOp::Divuw => extended(low(a) / low(b)),
        ArithOp::Remw if low(b) == 0 => extended(low(a)),
        ArithOp::Remw => remw(a, b),
        ArithOp::Remuw if low(b) == 0 => extended(low(a)),
        ArithOp::Remuw => extended(low(a) % low(b)),
    }
}

/// What `op` gives for what rs1 reads and the immediate.
#[inline(always)]
#[tactic(auto, unfolding(crate::specs::Results::imm_result))]
pub(crate) fn imm(op: ImmOp, a: u64, imm: i32) -> u64
    ensures { result ≡ imm_result op a imm }
{
    match op {
        ImmOp::Addi => add_signed(a, imm),
        ImmOp::Slti => (signed(a) < imm as i64) as u64,
        ImmOp::Sltiu => (a < wide(imm)) as u64,
        ImmOp::Xori => a ^ wide(imm),
        ImmOp::Ori => a | wide(imm),
        ImmOp::Andi => a & wide(imm),
        ImmOp::Addiw => addiw(a, imm),
    }
}

/// What `op` gives for the pc and the upper immediate.
#[inline(always)]
#[tactic(auto, unfolding(crate::specs::Results::upper_result))]
pub(crate) fn upper(op: UpperOp, pc: u64, imm: i32) -> u64
    ensures { result ≡ upper_result op pc imm }
{
    match op {
        UpperOp::Lui => wide(imm),
        UpperOp::Auipc => add_signed(pc, imm),
    }
}

/// What `op` gives for what rs1 reads and the amount.
#[inline(always)]
#[tactic(auto, unfolding(crate::specs::Results::shift_result))]
pub(crate) fn shift(op: ShiftOp, a: u64, amount: u8) -> u64
    requires { amount < 2 ^ amount_bits op }
    ensures { result ≡ shift_result op a amount }
{
    match op {
        ShiftOp::Slli => a << amount,
        ShiftOp::Srli => a >> amount,
        ShiftOp::Srai => sra(a, u64::from(amount)),
        ShiftOp::Slliw => sllw(a, u32::from(amount)),
        ShiftOp::Srliw => srlw(a, u32::from(amount)),
        ShiftOp::Sraiw => sraw(a, u32::from(amount)),
    }
}

/// Whether a branch is taken, for what rs1 and rs2 read.
#[inline(always)]
#[tactic(auto, unfolding(crate::specs::Results::is_taken))]
pub(crate) fn is_taken(op: BranchOp, a: u64, b: u64) -> bool
    ensures { result ≡ taken_of op a b }
{
    match op {
        BranchOp::Beq => a == b,
        BranchOp::Bne => a != b,
        BranchOp::Blt => signed(a) < signed(b),
        BranchOp::Bge => signed(a) >= signed(b),
        BranchOp::Bltu => a < b,
        BranchOp::Bgeu => a >= b,
    }
}

/// How much a load reads.
#[inline(always)]
pub(crate) fn load_width(op: LoadOp) -> Width
    ensures { result ≡ load_width_of op }
{
    match op {
        LoadOp::Lb | LoadOp::Lbu => Width::Byte,
        LoadOp::Lh | LoadOp::Lhu => Width::Half,
        LoadOp::Lw | LoadOp::Lwu => Width::Word,
        LoadOp::Ld => Width::Double,
    }
}

/// What the register gets for the value of the bytes that were read.
#[inline(always)]
#[tactic(auto, unfolding(crate::specs::Results::load_result))]
pub(crate) fn loaded(op: LoadOp, value: u64) -> u64
    requires { value < 256 ^ size_of (load_width_of op) }
    ensures { result ≡ load_result op value }
{
    match op {
        LoadOp::Lb => extended_from(Width::Byte, value),
        LoadOp::Lh => extended_from(Width::Half, value),
        LoadOp::Lw => extended_from(Width::Word, value),
        LoadOp::Ld | LoadOp::Lbu | LoadOp::Lhu | LoadOp::Lwu => value,
    }
}

/// How much a store writes.
#[inline(always)]
pub(crate) fn store_width(op: StoreOp) -> Width
    ensures { result ≡ store_width_of op }
{
    match op {
        StoreOp::Sb => Width::Byte,
        StoreOp::Sh => Width::Half,
        StoreOp::Sw => Width::Word,
        StoreOp::Sd => Width::Double,
    }
}
