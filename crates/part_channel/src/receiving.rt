//! The receiving side.
ghost use Rattle.std.specs.Prelude.{◌≡◌, ℕ, ◌+◌, ◌-◌, ◌*◌, ◌%◌, ◌^◌, ◌<◌, ◌≤◌, List, length, map, IfOk, IfNone, OnOk};
ghost use Rattle.std.specs.Prelude.{OnErr, IfErr, Some, None, true, false, Bool, not, ◌==◌, ◌&&◌, nat_lt, get_or};
ghost use Rattle.std.specs.Prelude.{if◌then◌else◌, replicate};
ghost use Rattle.mp_types.specs.declared.codes.Code.TheVariants.{Active};
ghost use Rattle.part_box.specs.Keys.{BoxId, new_receiver};
ghost use Rattle.part_box.specs.Gate.{ready_stamp};
ghost use Rattle.part_channel.specs.Channels.{receiver_box};
ghost use Rattle.part_channel.specs.Sending.{none_marked};
ghost use Rattle.part_channel.specs.Receiving.{new_recv_side, awaited, lowest_from, is_left, next_box, overlaps};
ghost use Rattle.part_channel.specs.Receiving.{next_box_of, HasArrived, take_refusal, took, shown_take, take_stamp};
ghost use Rattle.part_channel.specs.Receiving.{IsRecvSide, HasGot};

use crate::channel::Channel;
use crate::lanes::try_take;
use crate::progress::Take;
use mp_types::{Code, Stamp};
use part_box::RecvKey;
use std::marker::Model;

/// The right to take partitions, one out of each box. Contracts see it as a `RecvView`: what it knows.
#[derive(Drop)]
pub struct RecvSide {
    pub(crate) keys: Vec<RecvKey>,
    parts: u8,
    size: u8,
    // The sender's cut: so many boxes in use, of so many bytes each. Both are 0 until it is known.
    boxes: u8,
    bytes: u8,
    active: bool,
    taken: [bool; 16],
}

impl Model for RecvSide {
    ghost use Rattle.part_channel.specs.Receiving.{RecvView, IsRecvSide, round_of};

    ghost Value = { RecvView };

    ghost view = { λ s. record {
      keys = s.keys.items;
      parts = s.parts;
      size = s.size;
      boxes = s.boxes;
      bytes = s.bytes;
      phase = round_of s.keys.items s.taken;
      active = s.active;
      taken = s.taken;
    } };

    ghost invariant = { λ s. IsRecvSide s.keys.items s.parts s.size s.boxes s.bytes s.active s.taken };
}

impl RecvSide {
    // A side over new keys.
    pub(crate) fn over(keys: Vec<RecvKey>) -> RecvSide
        requires new { (boxes : List BoxId) × (length boxes ≡ 16) × (keys.items ≡ map new_receiver boxes) }
        ensures over { (result.keys ≡ keys.items) × (result ≡ new_recv_side (map receiver_box keys.items)) }
    {
        RecvSide {
            keys,
            parts: 0,
            size: 0,
            boxes: 0,
            bytes: 0,
            active: false,
            taken: [false; 16],
        }
    }

    // Its keys.
    pub(crate) fn into_keys(self) -> Vec<RecvKey>
        ensures { result.items ≡ self.keys }
    {
        self.keys
    }

    /// Sets the shape: so many partitions of so many bytes.
    ///
    /// Once, before the other calls, and inside the limits: 1 to 16 partitions of 8 to 128 bytes in whole 8s.
    pub fn shape(&mut self, parts: u8, size: u8)
        requires once { (self.old.parts ≡ 0) × (self.old.boxes ≡ 0) }
        requires parts { (0 < parts) × (parts ≤ 16) }
        requires size { (0 < size) × (size ≤ 128) × (size % 8 ≡ 0) }
        ensures shaped { self.new ≡ (record self.old { parts = parts; size = size }) }
    {
        self.parts = parts;
        self.size = size;
    }

    /// Sets the sender's cut, which decides the boxes: box i has the bytes of the sender's partition i.
    ///
    /// Once, inside the limits of a shape, and of the same total as this side's shape. A phase may be going on.
    pub fn cut(&mut self, parts: u8, size: u8)
        requires once { self.old.boxes ≡ 0 }
        requires parts { (0 < parts) × (parts ≤ 16) }
        requires size { (0 < size) × (size ≤ 128) × (size % 8 ≡ 0) }
        requires total { parts * size ≡ self.old.parts * self.old.size }
        ensures cut { self.new ≡ (record self.old { boxes = parts; bytes = size }) }
    {
        self.boxes = parts;
        self.bytes = size;
    }

    /// Whether the sender's cut is set.
    pub fn knows_cut(&self) -> bool
        ensures { result ≡ not (self.now.boxes == 0) }
    {
        self.boxes != 0
    }

    /// Begins a phase, in which no box is taken. It waits for nobody.
    ///
    /// Refusal: 12 where one is going on.
    pub fn start(&mut self) -> Result<(), Code>
        ensures refused { IfErr result (λ code. (code ≡ Active) × (self.old.active ≡ true)) }
        ensures unchanged { OnErr result (self.new ≡ self.old) }
        ensures begun { OnOk result ((self.old.active ≡ false) × (self.new ≡ awaited self.old)) }
        // So it is still of the same boxes.
        ensures keys { self.new.keys ≡ self.old.keys }
    {
        if self.active {
            return Err(Code::Active);
        }
        self.active = true;
        Ok(())
    }

    /// The lowest box that isn't taken in this phase. None between phases, and while the sender's cut isn't known.
    pub fn next(&self) -> Option<u8>
        ensures lowest { result ≡ next_box self.now }
        // Whoever asks knows what a side keeps.
        ensures kept { IsRecvSide self.now.keys self.now.parts self.now.size self.now.boxes self.now.bytes
            self.now.active self.now.taken }
    {
        if self.active {
            lowest(&self.taken, self.boxes)
        } else {
            None
        }
    }

    /// The lowest box, not yet taken in this phase, that one of this side's partitions overlaps: some byte of the
    /// transfer is in both. None where all of them were taken, between phases, and while the sender's cut isn't known.
    pub fn next_of(&self, part: u8) -> Option<u8>
        ensures lowest { result ≡ next_box_of self.now part }
        // So where there is none in a phase, all bytes of the partition have come.
        ensures arrived { IfNone result
            (self.now.active ≡ true → 0 < self.now.boxes → part < self.now.parts → HasArrived self.now part) }
    {
        if !self.active {
            return None;
        }
        for i in 0..self.boxes {
            if self.wants(part, i) {
                return Some(i);
            }
        }
        None
    }

    // Whether a box isn't taken, and has a byte of one of this side's partitions.
    fn wants(&self, part: u8, place: u8) -> bool
        requires { place < 16 }
        ensures { result ≡ (is_left self.now.taken place && overlaps self.now part place) }
    {
        !self.taken[place as usize] && self.overlaps(part, place)
    }

    // Whether some byte is in a partition of this side and in a box.
    fn overlaps(&self, part: u8, place: u8) -> bool
        ensures { result ≡ overlaps self.now part place }
    {
        let (size, bytes) = (u32::from(self.size), u32::from(self.bytes));
        let (part, place) = (u32::from(part), u32::from(place));
        place * bytes < (part + 1) * size && part * size < (place + 1) * bytes
    }

    /// Takes what lies in a box, if a thing is seen there, and answers its bytes, 0 past the channel's width. The last
    /// box that is taken ends the phase. One gate word is loaded, and whether something comes is read off it.
    ///
    /// Refusals in this order: 9 where there is no such box, also while the sender's cut isn't known; 16 where no phase
    /// is going on; 15 where it was taken in this phase.
    ///
    /// The side is this channel's, and the clock is below 2^62 - 1.
    pub fn take(&mut self, channel: &Channel, part: u8, clock: Stamp) -> Result<Take, Code>
        requires own { map receiver_box self.old.keys ≡ channel.now.boxes }
        requires limit { clock < 2 ^ 62 - 1 }
        ensures refused { IfErr result (λ code. take_refusal self.old part ≡ Some code) }
        ensures unchanged { OnErr result (self.new ≡ self.old) }
        ensures accepted { IfOk result (λ _. take_refusal self.old part ≡ None) }
        ensures took { IfOk result (λ take. (gate : ℕ) × (words : List ℕ) × (length words ≡ channel.now.width)
            × (self.new ≡ took self.old part gate words clock) × (take ≡ shown_take clock words (ready_stamp gate))) }
        // In phase k it answers thing k that was got from its box.
        ensures phase { IfOk result (λ take. HasGot self.old self.new part take) }
        // So it keeps its shape and its cut, it is still this channel's, and the stamp will do as the next clock.
        ensures shape { (self.new.parts ≡ self.old.parts) × (self.new.size ≡ self.old.size) }
        ensures cut { (self.new.boxes ≡ self.old.boxes) × (self.new.bytes ≡ self.old.bytes) }
        ensures own { map receiver_box self.new.keys ≡ channel.now.boxes }
        ensures stamp { IfOk result (λ take. (clock < take_stamp take) × (take_stamp take < 2 ^ 62)) }
    {
        if self.boxes <= part {
            return Err(Code::BadPartition);
        }
        if !self.active {
            return Err(Code::NotActive);
        }
        let at = part as usize;
        if self.taken[at] {
            return Err(Code::AlreadyReady);
        }
        let take = try_take(&channel.boxes[at], &mut self.keys[at], channel.width, clock);
        match take {
            Take::Missed(_) => {}
            Take::Taken(_, _) => {
                self.taken[at] = true;
                self.active = lowest(&self.taken, self.boxes).is_some();
                self.taken = kept(self.taken, self.active);
            }
        }
        Ok(take)
    }
}

// The lowest of the first `boxes` boxes that isn't taken.
fn lowest(taken: &[bool; 16], boxes: u8) -> Option<u8>
    requires { boxes ≤ 16 }
    ensures { result ≡ lowest_from (is_left taken.now) 0 boxes }
{
    for i in 0..boxes {
        if !taken[i as usize] {
            return Some(i);
        }
    }
    None
}

// Which boxes are taken once one more was: none where that was the last.
fn kept(taken: [bool; 16], more: bool) -> [bool; 16]
    ensures { result ≡ (if more then taken else none_marked) }
{
    if more { taken } else { [false; 16] }
}
