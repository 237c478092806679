//! Texts that a client writes in hexadecimal digits.

ghost use Rattle.std.specs.Prelude.{◌≡◌, IfOk};
ghost use Rattle.rvmc_protocol.specs.Requests.Texts.{text_in};

use hex::FromHexError;
use std::alloc::{AllocError, Global};
use std::marker::Model;

/// What a person typed behind `monitor`. Contracts see its bytes.
#[derive(Drop)]
pub struct Text {
    bytes: Vec<u8>,
}

impl Model for Text {
    ghost use Rattle.std.specs.Prelude.{List, ℕ};

    ghost Value = { List ℕ };

    ghost view = { λ text. text.bytes.items };
}

impl Text {
    /// The bytes.
    pub fn as_slice(&self) -> &[u8]
        ensures { result.now ≡ self.now }
    {
        self.bytes.as_slice()
    }
}

/// The text of so many pairs of digits, of either case, where there is nothing else.
#[tactic(auto, unfolding(crate::specs::Requests::Texts::text_in))]
pub(crate) fn text_in(alloc: Global, digits: &[u8]) -> Result<Option<Text>, AllocError>
    ensures { IfOk result (λ found. found ≡ text_in digits.now) }
{
    match hex::decode(alloc, digits) {
        Ok(bytes) => Ok(Some(Text { bytes })),
        Err(FromHexError::OutOfMemory) => Err(AllocError),
        Err(_) => Ok(None),
    }
}
