//! Why bytes are no image.

ghost use Rattle.std.specs.Prelude.{◌≡◌};
ghost use Rattle.rv_image.specs.declared.faults.ImageFault.TheVariants as faults;

use std::alloc::{AllocError, AllocFailed};
use thiserror::Error;

/// The first fault of the bytes in the order of the tests, or want of memory.
///
/// It is printed as its name and its numbers, one blank before each, as `Limit 6 9`. Offsets are those of the
/// format's table in docs/FORMATS.md.
#[derive(Clone, Copy, Debug, Drop, Error)]
pub enum ImageFault {
    /// 1: the first four bytes aren't `RVMC`.
    #[error("Magic")]
    Magic,
    /// 2: the version is neither 1 nor 2.
    #[error("Version")]
    Version,
    /// 3: the input ends before the image does. Carries the input's length.
    #[error("Short {0}")]
    Short(usize),
    /// 4: bytes follow the image. Carries where the image ends.
    #[error("Long {0}")]
    Long(usize),
    /// 5: a number of the header is outside its limits. Carries the field's offset, and the number.
    #[error("Limit {0} {1}")]
    Limit(u8, u32),
    /// 6: text, initial data or entry don't fit. Carries the offset of the field that says their length or place.
    #[error("Text {0}")]
    Text(u8),
    /// 7: a communicator isn't 1 to 8 different ranks of the image. Carries its number, from 1.
    #[error("Comm {0}")]
    Comm(usize),
    /// 8: a link doesn't join two different ranks of the image. Carries its number, from 0.
    #[error("Link {0}")]
    Link(usize),
    /// 10: a symbol's name is none, or isn't above the last one, or its address is above the memory. Carries its
    /// number, from 0.
    #[error("Symbol {0}")]
    Symbol(usize),
    /// 9: memory ran out. It says nothing of the bytes.
    #[error("Memory")]
    Memory,
}

impl From<AllocError> for ImageFault {
    ghost from_gives = { λ _ fault. fault ≡ faults.Memory };

    fn from(_e: AllocError) -> ImageFault {
        ImageFault::Memory
    }
}

impl<T: Drop> From<AllocFailed<T>> for ImageFault {
    ghost from_gives = { λ _ fault. fault ≡ faults.Memory };

    fn from(_e: AllocFailed<T>) -> ImageFault {
        ImageFault::from(AllocError)
    }
}
