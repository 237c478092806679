//! Names that differ from another by one slip of the hand.

ghost use Rattle.std.specs.Prelude.{◌≡◌};
ghost use Rattle.rvmc_hints.specs.Near.{is_near, is_slip, is_swapped};

/// Whether the first two bytes are swapped, and all others the same.
fn is_swapped(one: &[u8], other: &[u8]) -> bool
    ensures { result ≡ is_swapped one.now other.now }
{
    match (one, other) {
        ([a, b, ones @ ..], [c, d, others @ ..]) => a == d && b == c && ones == others,
        _ => false,
    }
}

/// Whether two names, whose first bytes differ, differ by one slip there.
fn is_slip(one: &[u8], other: &[u8]) -> bool
    ensures { result ≡ is_slip one.now other.now }
{
    match (one, other) {
        ([], []) => false,
        ([_, ones @ ..], []) => ones.is_empty(),
        ([], [_, others @ ..]) => others.is_empty(),
        ([_, ones @ ..], [_, others @ ..]) => {
            ones == others || ones == other || one == others || is_swapped(one, other)
        }
    }
}

/// Whether one name is the other with one slip: a byte stands for another, is missing or is one too many, or two that
/// stand side by side are swapped.
pub fn is_near(one: &[u8], other: &[u8]) -> bool
    ensures { result ≡ is_near one.now other.now }
{
    let mut ones = one;
    let mut others = other;
    while let (Some((a, after)), Some((b, behind))) = (ones.split_first(), others.split_first()) {
        if *a != *b {
            return is_slip(ones, others);
        }
        ones = after;
        others = behind;
    }
    is_slip(ones, others)
}
