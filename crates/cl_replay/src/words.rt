//! The bytes of a partition as data words of a box, and back.

ghost use Rattle.std.specs.Prelude.{◌≡◌, ◌%◌, ◌≤◌, ◌++◌, ◌-◌, length, replicate};
ghost use Rattle.part_channel.specs.Words.{bytes_of_words};
ghost use Rattle.cl_machine.specs.Keys.{bytes_in};

use part_channel::{put_word, word};
use part_phase::{Contents, box_words};
use rv_image_types::ImageVersion;

/// The sixteen words of the bytes, 0 past them.
pub(crate) fn to_words(bytes: &[u8]) -> [u64; 16]
    requires whole { length bytes.now % 8 ≡ 0 }
    requires fits { length bytes.now ≤ 128 }
    ensures { bytes_of_words result ≡ bytes.now ++ replicate (128 - length bytes.now) 0 }
{
    let mut words = [0; 16];
    for i in 0..16 {
        words[i] = word(bytes, i);
    }
    words
}

/// The bytes of sixteen words.
fn to_bytes(words: &[u64; 16]) -> [u8; 128]
    ensures { result ≡ bytes_of_words words.now }
{
    let mut out = [0; 128];
    for i in 0..16 {
        put_word(&mut out, i, words[i]);
    }
    out
}

/// The bytes that the words of a box spell, of a run of an image of this version.
pub(crate) fn contents(version: ImageVersion, words: &[u64; 16]) -> Contents
    ensures { result ≡ bytes_in version words.now }
{
    Contents::of(version, &to_bytes(words)[..8 * box_words(version)])
}
