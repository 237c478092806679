//! Boxes: what each call makes of its key, and what a box is left with.
ghost use Rattle.std.specs.Prelude.{◌≡◌, ◌+◌, ◌*◌, ◌^◌, ◌<◌, [], ◌∷◌, ◌++◌, length, take, replicate, IfOk, IfSome};
ghost use Rattle.std.specs.Prelude.{IsTrue, Some, None, true, false};
ghost use Rattle.part_box.specs.declared.view.Made.{Made};
ghost use Rattle.part_box.specs.Gate.{last_take};
ghost use Rattle.part_box.specs.LastReady.{last_ready};

use part_box::{PartBox, RecvKey, SendKey, Settled};
use std::alloc::{AllocError, Global};

/// A box of 16 data words is 16 words wide, and its keys know of nothing.
pub fn a_wide_box_is_wide(alloc: Global) -> Result<(PartBox, SendKey, RecvKey), AllocError>
    ensures wide { IfOk result (λ r. r.0.width ≡ 16) }
    ensures unused { IfOk result (λ r.
        (r.1.view.made ≡ []) × IsTrue r.1.view.is_open × (r.2.view.got ≡ []) × (r.2.view.seen ≡ None)) }
{
    PartBox::new(alloc, 16)
}

/// A word is filled in behind those before it.
pub fn a_word_goes_behind_the_others(place: &PartBox, key: &mut SendKey)
    requires own { key.old.at ≡ place.now.at }
    requires open { IsTrue key.old.view.is_open }
    requires first { (key.old.view.filled ≡ 7 ∷ []) × (1 < place.now.width) }
    ensures { key.new.view.filled ≡ 7 ∷ 8 ∷ [] }
{
    place.fill(key, 8);
}

/// A thing is made ready under the stamp that was given, with the words that were filled, and closes the box.
pub fn a_thing_has_its_stamp(place: &PartBox, key: &mut SendKey)
    requires own { key.old.at ≡ place.now.at }
    requires filled { length key.old.view.filled ≡ place.now.width }
    requires above { key.old.view.front < 5 }
    ensures made { key.new.view.made ≡ key.old.view.made ++ record { stamp = 5; words = key.old.view.filled } ∷ [] }
    ensures closed { (key.new.view.is_open ≡ false) × (key.new.view.front ≡ 5) × (key.new.view.filled ≡ []) }
{
    place.ready(key, 5);
}

/// The stamp of a take that was told stood in the gate word that was loaded, which was even.
pub fn a_told_take_was_loaded(place: &PartBox, key: &mut SendKey) -> Option<u64>
    requires own { key.old.at ≡ place.now.at }
    requires made { 0 < length key.old.view.made }
    ensures { IfSome result (λ stamp.
        key.new.view.loads ≡ key.old.view.loads ++ record { word = 2 * stamp; count = length key.old.view.made } ∷ []) }
{
    place.freed(key)
}

/// A look for a take loads the gate, whatever it answers.
pub fn a_take_is_looked_for(place: &PartBox, key: &mut SendKey) -> Option<u64>
    requires own { key.old.at ≡ place.now.at }
    requires made { 0 < length key.old.view.made }
    ensures { length key.new.view.loads ≡ length key.old.view.loads + 1 }
{
    place.freed(key)
}

/// The stamp of a thing that was seen stood in the gate word that was loaded, which was odd.
pub fn a_seen_thing_was_loaded(place: &PartBox, key: &mut RecvKey) -> Option<u64>
    requires own { key.old.at ≡ place.now.at }
    requires nothing_pending { key.old.view.seen ≡ None }
    ensures loaded { IfSome result (λ stamp.
        key.new.view.loads ≡ key.old.view.loads
        ++ record { word = 2 * stamp + 1; count = length key.old.view.got } ∷ []) }
    ensures pending { key.new.view.seen ≡ result }
{
    place.look(key)
}

/// The word that was read is copied behind those before it.
pub fn a_copied_word_is_told(place: &PartBox, key: &mut RecvKey) -> u64
    requires own { key.old.at ≡ place.now.at }
    requires pending { key.old.view.seen ≡ Some 5 }
    requires more { length key.old.view.copied < place.now.width }
    ensures { key.new.view.copied ≡ key.old.view.copied ++ result ∷ [] }
{
    place.copy(key)
}

/// A thing is taken under the stamp that was given, with the stamp that was seen and the words that were copied.
pub fn a_take_has_both_stamps(place: &PartBox, key: &mut RecvKey)
    requires own { key.old.at ≡ place.now.at }
    requires copied { length key.old.view.copied ≡ place.now.width }
    requires seen { key.old.view.seen ≡ Some 5 }
    ensures got { key.new.view.got
        ≡ key.old.view.got ++ record { stamp = 5; words = key.old.view.copied; taken = 9 } ∷ [] }
    ensures free { (key.new.view.seen ≡ None) × (key.new.view.copied ≡ []) }
{
    place.empty(key, 9);
}

/// A box in which nothing was made is left empty, with stamp 0 and words 0.
pub fn an_unused_box_is_left_empty(place: PartBox, send: SendKey, recv: RecvKey) -> Settled
    requires own { (send.at ≡ place.at) × (recv.at ≡ place.at) }
    requires unused { (send.view.made ≡ []) × (recv.view.got ≡ []) }
    ensures { (result.full ≡ false) × (result.stamp ≡ 0) × (result.words ≡ replicate 16 0) }
{
    place.settle(send, recv)
}

/// A thing that was made and not taken is left, with its stamp and its words.
pub fn an_untaken_thing_is_left(place: PartBox, send: SendKey, recv: RecvKey) -> Settled
    requires own { (send.at ≡ place.at) × (recv.at ≡ place.at) }
    requires untaken { (m : Made) × (send.view.made ≡ m ∷ []) × (recv.view.got ≡ []) }
    ensures { (result.full ≡ true)
        × (send.view.made ≡ record { stamp = result.stamp; words = take place.width result.words } ∷ []) }
{
    place.settle(send, recv)
}

/// Who holds both keys knows of a take that was told: all that was made was got, and the take was the last.
pub fn a_told_take_was_the_last(
    place: &PartBox,
    send: &mut SendKey,
    recv: &mut RecvKey,
) -> Option<u64>
    requires own { (send.old.at ≡ place.now.at) × (recv.old.at ≡ place.now.at) }
    requires made { 0 < length send.old.view.made }
    ensures last { IfSome result (λ stamp.
        (length send.new.view.made ≡ length recv.old.view.got) × (stamp ≡ last_take recv.old.view.got)) }
    ensures unchanged { recv.new ≡ recv.old }
{
    let told = place.freed(send);
    place.agree(send, recv);
    told
}

/// And of a thing that was seen: it is the one that was made and not got.
pub fn a_seen_thing_was_made(place: &PartBox, send: &mut SendKey, recv: &mut RecvKey) -> Option<u64>
    requires own { (send.old.at ≡ place.now.at) × (recv.old.at ≡ place.now.at) }
    requires nothing_pending { recv.old.view.seen ≡ None }
    ensures seen { IfSome result (λ stamp.
        (length send.old.view.made ≡ length recv.new.view.got + 1) × (stamp ≡ last_ready send.old.view.made)) }
    ensures unchanged { send.new ≡ send.old }
{
    let seen = place.look(recv);
    place.agree(send, recv);
    seen
}
