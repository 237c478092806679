//! Whether two names are the same.

ghost use Rattle.std.specs.Prelude.{◌≡◌};
ghost use Rattle.std.specs.Str.{bytes_eq};

/// Whether names are the same. Most that are compared differ in their second bytes or their lengths.
#[inline(always)]
pub fn is_same_name(known: &[u8], name: &[u8]) -> bool
    ensures { result ≡ bytes_eq known.now name.now }
{
    match (known, name) {
        ([_, second, ..], [_, wanted, ..]) if *second != *wanted => false,
        _ => known.len() == name.len() && known == name,
    }
}
