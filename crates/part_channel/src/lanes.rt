//! One partition through one box: its bytes as data words, the calls of the box in their order, and the stamps.
ghost use Rattle.std.specs.Prelude.{◌≡◌, ℕ, ◌+◌, ◌*◌, ◌%◌, ◌^◌, ◌<◌, ◌≤◌, ◌++◌, [], length, take, drop, replicate};
ghost use Rattle.std.specs.Prelude.{IsTrue, Some, None, List, max, ◌-◌};
ghost use Rattle.std.specs.Int.{w64, to_le_bytes};
ghost use Rattle.part_channel.specs.Words.{bytes_of_words};
ghost use Rattle.part_channel.specs.BoxWords.{word_at, words_of};
ghost use Rattle.part_channel.specs.Sending.{made_of};
ghost use Rattle.part_channel.specs.Receiving.{got_of, lane_took, shown_take};
ghost use Rattle.part_box.specs.Gate.{ready_stamp};

use crate::progress::Take;
use mp_types::Stamp;
use part_box::{PartBox, RecvKey, SendKey};

/// Word i of the bytes, low byte first, and 0 past them.
pub fn word(bytes: &[u8], i: usize) -> u64
    requires whole { length bytes.now % 8 ≡ 0 }
    requires low { i < 16 }
    ensures { result ≡ word_at bytes.now i }
{
    if 8 * i < bytes.len() {
        let mut eight = [0; 8];
        eight.copy_from_slice(&bytes[8 * i..8 * i + 8]);
        u64::from_le_bytes(eight)
    } else {
        0
    }
}

/// Fills a box with the bytes of a partition and makes them ready.
pub(crate) fn put(place: &PartBox, key: &mut SendKey, width: usize, bytes: &[u8], stamp: Stamp)
    requires own { key.old.at ≡ place.now.at }
    requires wide { (width ≡ place.now.width) × (width ≤ 16) }
    requires whole { length bytes.now % 8 ≡ 0 }
    requires open { IsTrue key.old.view.is_open × (key.old.view.filled ≡ []) }
    requires stamp { (key.old.view.front < stamp) × (stamp < 2 ^ 62) }
    ensures { key.new ≡ made_of (words_of bytes.now width) stamp key.old }
{
    for at in 0..width {
        place.fill(key, word(bytes, at));
    }
    place.ready(key, stamp);
}

/// Puts a word, low byte first, behind the first `i` ones.
pub fn put_word(out: &mut [u8; 128], i: usize, word: u64)
    requires { i < 16 }
    ensures { out.new ≡ take (8 * i) out.old ++ (to_le_bytes w64 word ++ drop (8 * i + 8) out.old) }
{
    out[8 * i..8 * i + 8].copy_from_slice(&word.to_le_bytes());
}

/// Takes the thing that was seen in a box. The answer is its bytes, 0 past the box's width.
pub(crate) fn take_out(place: &PartBox, key: &mut RecvKey, width: usize, stamp: Stamp) -> [u8; 128]
    requires own { key.old.at ≡ place.now.at }
    requires wide { (width ≡ place.now.width) × (width ≤ 16) }
    requires seen { (n : ℕ) × (key.old.view.seen ≡ Some n) × (n < stamp) }
    requires fresh { key.old.view.copied ≡ [] }
    requires low { stamp < 2 ^ 62 }
    ensures { (words : List ℕ) × (length words ≡ width) × (key.new ≡ got_of words stamp key.old)
        × (result ≡ bytes_of_words words) }
{
    let mut out = [0; 128];
    for i in 0..width {
        let word = place.copy(key);
        put_word(&mut out, i, word);
    }
    place.empty(key, stamp);
    out
}

/// Takes the thing in a box, if one is seen there.
pub(crate) fn try_take(place: &PartBox, key: &mut RecvKey, width: usize, clock: Stamp) -> Take
    requires own { key.old.at ≡ place.now.at }
    requires wide { (width ≡ place.now.width) × (width ≤ 16) }
    requires fresh { (key.old.view.seen ≡ None) × (key.old.view.copied ≡ []) }
    requires clock { clock < 2 ^ 62 - 1 }
    ensures { (gate : ℕ) × (words : List ℕ) × (length words ≡ width)
        × (key.new ≡ lane_took gate words clock key.old) × (result ≡ shown_take clock words (ready_stamp gate)) }
{
    match place.look(key) {
        None => Take::Missed(clock + 1),
        Some(seen) => {
            let stamp = above(clock, seen);
            let bytes = take_out(place, key, width, stamp);
            Take::Taken(bytes, stamp)
        }
    }
}

/// The stamp behind a clock and another stamp.
pub(crate) fn above(clock: Stamp, other: Stamp) -> Stamp
    requires { (clock < 2 ^ 62 - 1) × (other < 2 ^ 62 - 1) }
    ensures { result ≡ max clock other + 1 }
{
    clock.max(other) + 1
}
