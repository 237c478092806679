//! The limits of a shape.

ghost use Rattle.std.specs.Prelude.{◌≡◌, ◌*◌};
ghost use Rattle.part_phase.specs.Limits.{are_parts as are_parts_of, box_words as box_words_of, is_size as is_size_of};

use rv_image_types::ImageVersion;

/// How many data words a box has in a run of an image of this version: 8 in version 1, 16 in version 2.
pub fn box_words(version: ImageVersion) -> usize
    ensures { result ≡ box_words_of version }
{
    match version {
        ImageVersion::One => 8,
        ImageVersion::Two => 16,
    }
}

/// Whether a transfer may have so many partitions: 1 to 16.
pub fn are_parts(parts: u64) -> bool
    ensures { result ≡ are_parts_of parts }
{
    1 <= parts && parts <= 16
}

/// Whether a partition may have so many bytes: whole 8s, and no more than a box has, which are 64 in version 1 and 128
/// in version 2.
pub fn is_size(version: ImageVersion, size: u64) -> bool
    ensures { result ≡ is_size_of version size }
{
    8 <= size && size <= 8 * box_words(version) as u64 && size % 8 == 0
}
