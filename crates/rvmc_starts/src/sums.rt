//! By what an image is known again.

ghost use Rattle.std.specs.Prelude.{◌≡◌, ◌++◌, IfOk, OnOk, map};
ghost use Rattle.rvmc_starts.specs.Sums.{sum_in, sum_of, sum_of_parts, sum_text};

use crate::hex::{hex_in, put_word};
use crate::words::{parts, put_number};
use rvmc_words::number_in;
use sha2::{Digest, Sha256};
use std::alloc::{AllocError, Global};

/// The size of an image in bytes, and the first eight bytes of its SHA-256 digest (FIPS 180-4), as one number, highest
/// byte first.
#[derive(Clone, Copy, PartialEq, Eq, Drop)]
pub struct ImageSum {
    pub size: u64,
    pub digest: u64,
}

/// The size and the digest of an image of these bytes. Takes no memory.
pub fn sum_of(bytes: &[u8]) -> ImageSum
    ensures { result ≡ sum_of bytes.now }
{
    let digest = Sha256::digest(bytes);
    let [a, b, c, d, e, f, g, h, ..] = digest;
    ImageSum {
        size: bytes.len() as u64,
        digest: u64::from_be_bytes([a, b, c, d, e, f, g, h]),
    }
}

/// Adds a size and a digest, as `1234-0123456789abcdef`.
pub(crate) fn put_sum(alloc: Global, text: &mut Vec<u8>, sum: ImageSum) -> Result<(), AllocError>
    ensures { OnOk result (text.new.items ≡ text.old.items ++ sum_text sum) }
{
    put_number(alloc, text, sum.size)?;
    text.push(b'-')?;
    put_word(text, sum.digest)
}

fn sum_of_parts(parts: &[&str]) -> Option<ImageSum>
    ensures { result ≡ sum_of_parts (map (λ part. part.now) parts.now) }
{
    let [size, digest] = parts else {
        return None;
    };
    let size = number_in(0, u64::MAX, size)?;
    let digest = hex_in(digest)?;
    Some(ImageSum { size, digest })
}

/// The size and the digest that a text writes.
#[tactic(auto, unfolding(crate::specs::Sums::sum_in))]
pub(crate) fn sum_in(alloc: Global, text: &str) -> Result<Option<ImageSum>, AllocError>
    ensures { IfOk result (λ found. found ≡ sum_in text.now) }
{
    let parts = parts(alloc, '-', text)?;
    Ok(sum_of_parts(&parts))
}
