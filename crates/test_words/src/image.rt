//! The bytes of a program (rv_image).
ghost use Rattle.std.specs.Prelude.{◌≡◌, length, Err, IfOk, false, true};
ghost use Rattle.rv_image_types.specs.Image.{IsImage, in_version_two};
ghost use Rattle.rv_image.specs.Text.{image_text};

use rv_image::{ImageFault, read_image, write_image};
use rv_image_types::{
    Comms, Image, ImageParts, Link, Links, Members, Segment, Symbol, SymbolName, Symbols,
    is_symbol_name, name_before,
};
use std::alloc::{AllocError, Global};

/// A segment has and shows each of its bytes.
pub fn segment_has_all_its_bytes(bytes: Vec<u8>) -> Result<usize, AllocError>
    ensures { IfOk result (λ count. count ≡ length bytes.items) }
{
    Ok(Segment::from_vec(bytes)?.as_slice().len())
}

/// A text that is loaded is the segment's.
pub fn shared_bytes_are_the_same(segment: &Segment) -> Result<usize, AllocError>
    ensures { IfOk result (λ count. count ≡ length segment.now) }
{
    Ok(segment.share()?.len())
}

/// A communicator has and shows each of its ranks.
pub fn communicator_has_all_its_ranks(ranks: Vec<u8>) -> usize
    ensures { result ≡ length ranks.items }
{
    Members::from_vec(ranks).as_slice().len()
}

/// All communicators are kept and shown.
pub fn all_communicators_are_kept(comms: Vec<Members>) -> usize
    ensures { result ≡ length comms.items }
{
    Comms::from_vec(comms).as_slice().len()
}

/// All links are kept and shown.
pub fn all_links_are_kept(links: Vec<Link>) -> usize
    ensures { result ≡ length links.items }
{
    Links::from_vec(links).as_slice().len()
}

/// A symbol's name has and shows each of its bytes.
pub fn name_has_all_its_bytes(bytes: Vec<u8>) -> usize
    ensures { result ≡ length bytes.items }
{
    SymbolName::from_vec(bytes).as_slice().len()
}

/// All symbols are kept and shown.
pub fn all_symbols_are_kept(symbols: Vec<Symbol>) -> usize
    ensures { result ≡ length symbols.items }
{
    Symbols::from_vec(symbols).as_slice().len()
}

/// Bytes are compared before lengths: `b` is shorter than `aa`, and behind it.
pub fn longer_name_before_a_shorter() -> bool
    ensures { result ≡ true }
{
    name_before(b"aa", b"b") && !name_before(b"b", b"aa")
}

/// No bytes are no name.
pub fn no_name_is_empty() -> bool
    ensures { result ≡ false }
{
    is_symbol_name(b"")
}

/// 31 bytes may be a name.
pub fn name_of_31_bytes() -> bool
    ensures { result ≡ true }
{
    is_symbol_name(b"abcdefghijklmnopqrstuvwxyz_.$09")
}

/// 32 bytes are none.
pub fn no_name_has_32_bytes() -> bool
    ensures { result ≡ false }
{
    is_symbol_name(b"abcdefghijklmnopqrstuvwxyz_.$090")
}

/// An image of either version is written as version 2 once it is turned into it.
pub fn version_two_is_written(alloc: Global, image: Image) -> Result<Vec<u8>, AllocError>
    ensures { IfOk result (λ bytes. bytes.items ≡ image_text (in_version_two image)) }
{
    write_image(alloc, &image.into_version_two())
}

/// An image has as many ranks and harts as its parts say.
pub fn image_has_the_numbers_of_its_parts(parts: ImageParts) -> (u8, u8)
    requires { IsImage parts }
    ensures ranks { result.0 ≡ parts.ranks }
    ensures harts { result.1 ≡ parts.harts }
{
    let image = Image::new(parts);
    (image.parts().ranks, image.parts().harts)
}

/// Want of memory is told as such, and as no fault of the bytes.
pub fn want_of_memory_is_told_as_such() -> ImageFault
    ensures { result ≡ ImageFault.Memory }
{
    ImageFault::from(AllocError)
}

/// No bytes are short, and no memory is asked for.
#[tactic(auto, unfolding(rv_image::specs::Reading::reading))]
pub fn no_bytes_are_short(alloc: Global) -> Result<Image, ImageFault>
    ensures { result ≡ Err (ImageFault.Short 0) }
{
    read_image(alloc, &[])
}

/// Four letters are tested before any other byte is missed.
#[tactic(auto, unfolding(rv_image::specs::Reading::reading))]
pub fn letters_are_tested_before_the_length(alloc: Global) -> Result<Image, ImageFault>
    ensures { result ≡ Err ImageFault.Magic }
{
    read_image(alloc, b"RVMD")
}

/// A byte behind the end is told, with where the end is: an image of one `nop`, and a byte more.
#[tactic(auto, unfolding(rv_image::specs::Reading::reading, rv_image::specs::Reading::header_at, rv_image::specs::Reading::body_at, rv_image::specs::Reading::repeated))]
pub fn byte_behind_the_end_is_long(alloc: Global) -> Result<Image, ImageFault>
    ensures { result ≡ Err (ImageFault.Long 32) }
{
    let image = b"RVMC\x01\0\x01\x01\0\x10\0\0\0\0\0\0\x04\0\0\0\0\0\0\0\0\0\0\0\x13\0\0\0\0";
    read_image(alloc, image)
}
