//! Bytes that begin as a record does.

ghost use Rattle.std.specs.Prelude.{◌≡◌};
ghost use Rattle.std.specs.Int.{w32, w64};
ghost use Rattle.rvmc_hints.specs.Records.{least_length, magic_in, number_at, short_in};
ghost use Rattle.rvmc_hints.specs.Seen.{seen_in};

use crate::hint::Hint;
use crate::seen::{Seen, seen_in};

/// The number of four bytes from a place on, the lowest byte first, where they are there.
fn u32_at(bytes: &[u8], at: usize) -> Option<u32>
    ensures { result ≡ number_at w32 at bytes.now }
{
    if at > bytes.len() || bytes.len() - at < 4 {
        return None;
    }
    let n = &bytes[at..at + 4];
    Some(u32::from_le_bytes([n[0], n[1], n[2], n[3]]))
}

/// The same of eight bytes.
fn u64_at(bytes: &[u8], at: usize) -> Option<u64>
    ensures { result ≡ number_at w64 at bytes.now }
{
    if at > bytes.len() || bytes.len() - at < 8 {
        return None;
    }
    let n = &bytes[at..at + 8];
    Some(u64::from_le_bytes([n[0], n[1], n[2], n[3], n[4], n[5], n[6], n[7]]))
}

/// How many bytes a record has at least that begins so: its head, its image, the number of its steps, and 16 bytes a
/// step. A number that doesn't fit is the greatest.
fn least_length(bytes: &[u8]) -> usize
    ensures { result ≡ least_length bytes.now }
{
    let Some(image) = u32_at(bytes, 8) else {
        return 20;
    };
    let image = image as usize;
    match u64_at(bytes, image + 12) {
        Some(steps) => (steps as usize)
            .saturating_mul(16)
            .saturating_add(image + 20),
        None => image + 20,
    }
}

/// A record that ends too early.
pub fn short_hint<'a>(bytes: &[u8]) -> Option<Hint<'a>>
    ensures { result ≡ short_in bytes.now }
{
    let least = least_length(bytes);
    if least > bytes.len() {
        Some(Hint::Least(least))
    } else {
        None
    }
}

/// Bytes that begin as a record of another version does.
pub fn magic_hint<'a>(bytes: &[u8]) -> Option<Hint<'a>>
    ensures { result ≡ magic_in (seen_in bytes.now) }
{
    match seen_in(bytes) {
        Seen::Record => Some(Hint::Version),
        _ => None,
    }
}
