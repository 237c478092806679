//! The bytes of a box.

ghost use Rattle.std.specs.Prelude.{◌≡◌, ◌≤◌, ◌-◌, ◌++◌, drop, length, replicate, take};
ghost use Rattle.part_phase.specs.Limits.{box_bytes, padded};

use crate::limits::box_words;
use rv_image_types::ImageVersion;
use std::marker::Model;

/// The bytes of a box, 0 behind those of its partition: 64 where it has 8 data words, 128 where it has 16. They take no
/// memory. Contracts see the list of them.
#[derive(Drop)]
pub struct Contents {
    bytes: [u8; 128],
    count: usize,
}

impl Model for Contents {
    ghost use Rattle.std.specs.Prelude.{List, ℕ, ◌≤◌, take};

    ghost Value = { List ℕ };

    ghost view = { λ contents. take contents.count contents.bytes };

    ghost invariant = { λ contents. contents.count ≤ 128 };
}

// Puts other bytes at the beginning.
fn put(bytes: &mut [u8], new: &[u8])
    requires { length new.now ≤ length bytes.old }
    ensures { bytes.new ≡ new.now ++ drop (length new.now) bytes.old }
{
    bytes[..new.len()].copy_from_slice(new);
}

// Bytes, 128 at most, with zeros behind them.
fn widened(bytes: &[u8]) -> [u8; 128]
    requires { length bytes.now ≤ 128 }
    ensures { result ≡ bytes.now ++ replicate (128 - length bytes.now) 0 }
{
    let mut wide = [0; 128];
    put(&mut wide, bytes);
    wide
}

impl Contents {
    #[tactic(auto, using(crate::proofs::Padding::take_padded))]
    /// The bytes of a box of a run of an image of this version: these, and 0 behind them up to the box's width.
    pub fn of(version: ImageVersion, bytes: &[u8]) -> Contents
        requires { length bytes.now ≤ box_bytes version }
        ensures { result ≡ padded version bytes.now }
    {
        Contents {
            bytes: widened(bytes),
            count: 8 * box_words(version),
        }
    }

    /// All bytes of the box.
    pub fn as_slice(&self) -> &[u8]
        ensures { result.now ≡ self.now }
    {
        &self.bytes[..self.count]
    }

    /// The first so many of them; all, where there are no more.
    pub fn first(&self, count: usize) -> &[u8]
        ensures { result.now ≡ take count self.now }
    {
        let all = self.as_slice();
        if count < all.len() {
            &all[..count]
        } else {
            all
        }
    }
}
