//! What every rank of a cluster loads.

ghost use Rattle.std.specs.Prelude.{◌≡◌};

use crate::lists::{Comms, Links, Segment, SymbolName, Symbols};
use std::marker::Model;

/// The version of the format in which an image is written.
#[derive(Clone, Copy)]
pub enum ImageVersion {
    /// 1: without symbols.
    One,
    /// 2: with symbols.
    Two,
}

/// A link for partitioned transfers: from one rank to another.
#[derive(Clone, Copy)]
pub struct Link {
    /// The sending rank.
    pub from: u8,
    /// The receiving rank.
    pub to: u8,
}

/// A named address.
#[derive(Drop)]
pub struct Symbol {
    /// The name: 1 to 31 letters, digits, `_`, `.` and `$`, of which the first is no digit.
    pub name: SymbolName,
    /// The address: in the memory, or at its very end.
    pub address: u32,
}

/// What an image is made of. It becomes an [`Image`] where it keeps the limits.
#[derive(Drop)]
pub struct ImageParts {
    /// The version in which it is written.
    pub version: ImageVersion,
    /// Number of ranks, 1 to 8.
    pub ranks: u8,
    /// Number of harts of each rank, 1 to 4.
    pub harts: u8,
    /// Bytes of memory of each rank: 4,096 to 1,048,576 in whole 4,096s, and 4,096 at least for each hart.
    pub memory: u32,
    /// The address at which every hart begins: a multiple of 4 in the text.
    pub entry: u32,
    /// The text, loaded at address 0: some whole 4s of bytes.
    pub text: Segment,
    /// The initial data, loaded at the text's length rounded up to a multiple of 16.
    pub init: Segment,
    /// Communicators 1 to 7, each of 1 to 8 different ranks. Communicator 0, all ranks in order, isn't kept.
    pub comms: Comms,
    /// At most 32 links, each of two different ranks.
    pub links: Links,
    /// At most 1,024 symbols, each name before the next one in byte order. None in version 1.
    pub symbols: Symbols,
}

/// An image that loads: parts that keep the limits. Contracts see its parts.
#[derive(Drop)]
pub struct Image {
    parts: ImageParts,
}

impl Model for Image {
    ghost use Rattle.rv_image_types.specs.declared.images.ImageParts.{ImageParts};
    ghost use Rattle.rv_image_types.specs.Image.{IsImage};

    ghost Value = { ImageParts };

    ghost view = { λ image. image.parts };

    ghost invariant = { λ image. IsImage image.parts };
}

impl Image {
    ghost use Rattle.rv_image_types.specs.Image.{IsImage, in_version_two};

    /// The image of these parts. Takes no memory.
    pub fn new(parts: ImageParts) -> Image
        requires { IsImage parts }
        ensures { result ≡ parts }
    {
        Image { parts }
    }

    /// What the image is made of. Whoever asks knows that it keeps the limits.
    pub fn parts(&self) -> &ImageParts
        ensures parts { result.now ≡ self.now }
        ensures limits { IsImage self.now }
    {
        &self.parts
    }
    /// The same image in version 2, with the symbols that it has. Takes no memory.
    pub fn into_version_two(self) -> Image
        ensures { result ≡ in_version_two self }
    {
        Image {
            parts: ImageParts {
                version: ImageVersion::Two,
                ..self.parts
            },
        }
    }
}
