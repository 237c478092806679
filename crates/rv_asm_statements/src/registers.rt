//! The names of the integer registers.

ghost use Rattle.std.specs.Prelude.{◌≡◌, map, IfSome, Some};
ghost use Rattle.rv_asm_statements.specs.Registers.{register_named};
ghost use Rattle.rv_asm_statements.specs.CodeViews.{register_view};
ghost use Rattle.rv_asm_statements.specs.Walk.{beside, first_given};

use crate::names::is_same_name;
use rv_decode::Reg;

/// A name of a register, and its number.
pub struct RegisterName {
    pub name: &'static [u8],
    pub number: u8,
}

/// The table of names, one line a name: a name, and the number of its register.
macro_rules! registers {
    ($($name:literal $number:literal;)*) => {
        [$(RegisterName { name: $name, number: $number }),*]
    };
}

// The names by their first letters: x0 to x31, and those of the calling convention.

static X_NAMES: [RegisterName; 32] = registers! {
    b"x0" 0;
    b"x1" 1;
    b"x2" 2;
    b"x3" 3;
    b"x4" 4;
    b"x5" 5;
    b"x6" 6;
    b"x7" 7;
    b"x8" 8;
    b"x9" 9;
    b"x10" 10;
    b"x11" 11;
    b"x12" 12;
    b"x13" 13;
    b"x14" 14;
    b"x15" 15;
    b"x16" 16;
    b"x17" 17;
    b"x18" 18;
    b"x19" 19;
    b"x20" 20;
    b"x21" 21;
    b"x22" 22;
    b"x23" 23;
    b"x24" 24;
    b"x25" 25;
    b"x26" 26;
    b"x27" 27;
    b"x28" 28;
    b"x29" 29;
    b"x30" 30;
    b"x31" 31;
};

static A_NAMES: [RegisterName; 8] = registers! {
    b"a0" 10;
    b"a1" 11;
    b"a2" 12;
    b"a3" 13;
    b"a4" 14;
    b"a5" 15;
    b"a6" 16;
    b"a7" 17;
};

static S_NAMES: [RegisterName; 13] = registers! {
    b"sp" 2;
    b"s0" 8;
    b"s1" 9;
    b"s2" 18;
    b"s3" 19;
    b"s4" 20;
    b"s5" 21;
    b"s6" 22;
    b"s7" 23;
    b"s8" 24;
    b"s9" 25;
    b"s10" 26;
    b"s11" 27;
};

static T_NAMES: [RegisterName; 8] = registers! {
    b"tp" 4;
    b"t0" 5;
    b"t1" 6;
    b"t2" 7;
    b"t3" 28;
    b"t4" 29;
    b"t5" 30;
    b"t6" 31;
};

static OTHER_NAMES: [RegisterName; 4] = registers! {
    b"zero" 0;
    b"ra" 1;
    b"gp" 3;
    b"fp" 8;
};

/// The names that begin as a name does. No other register has the name.
fn names_like(name: &[u8]) -> &'static [RegisterName]
    ensures { first_given (beside name.now) (map register_view result.now) ≡ register_named name.now }
{
    match name {
        [b'x', ..] => &X_NAMES,
        [b'a', ..] => &A_NAMES,
        [b's', ..] => &S_NAMES,
        [b't', ..] => &T_NAMES,
        _ => &OTHER_NAMES,
    }
}

fn number_in(table: &[RegisterName], name: &[u8]) -> Option<u8>
    ensures { result ≡ first_given (beside name.now) (map register_view table.now) }
{
    for row in table {
        if is_same_name(row.name, name) {
            return Some(row.number);
        }
    }
    None
}

/// The number in a name from `x0` to `x31`, which most sources use.
#[inline(always)]
#[tactic(auto, using(crate::proofs::RegisterNumbers::one_digit, crate::proofs::RegisterNumbers::two_digits, crate::proofs::RegisterNumbers::from_thirty))]
fn number_behind_x(name: &[u8]) -> Option<u8>
    ensures { IfSome result (λ number. register_named name.now ≡ Some number) }
{
    match name {
        [b'x', ones @ b'0'..=b'9'] => Some(*ones - b'0'),
        [b'x', tens @ b'1'..=b'2', ones @ b'0'..=b'9'] => {
            Some((*tens - b'0') * 10 + (*ones - b'0'))
        }
        [b'x', b'3', ones @ b'0'..=b'1'] => Some(30 + (*ones - b'0')),
        _ => None,
    }
}

fn number_of(name: &[u8]) -> Option<u8>
    ensures { result ≡ register_named name.now }
{
    match number_behind_x(name) {
        Some(number) => Some(number),
        None => number_in(names_like(name), name),
    }
}

/// The register of a name: `x0` to `x31`, or `zero`, `ra`, `sp`, `gp`, `tp`, `t0` to `t6`, `s0` to `s11`, `fp`, `a0` to
/// `a7`.
pub fn register(name: &[u8]) -> Option<Reg>
    ensures { result ≡ register_named name.now }
{
    let number = number_of(name)?;
    Some(Reg::new(number))
}
