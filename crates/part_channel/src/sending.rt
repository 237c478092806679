//! The sending side.
ghost use Rattle.std.specs.Prelude.{◌≡◌, ℕ, ◌+◌, ◌-◌, ◌*◌, ◌%◌, ◌^◌, ◌<◌, ◌≤◌, List, length, map, IfOk, OnOk, OnErr};
ghost use Rattle.std.specs.Prelude.{IfErr, Some, None, replicate, false, if◌then◌else◌};
ghost use Rattle.mp_types.specs.declared.codes.Code.TheVariants.{Active};
ghost use Rattle.part_box.specs.Keys.{BoxId, new_sender};
ghost use Rattle.part_channel.specs.Channels.{sender_box};
ghost use Rattle.part_channel.specs.BoxWords.{words_of};
ghost use Rattle.part_channel.specs.Sending.{new_send_side, shaped, begun, next_to_free, ready_refusal, readied};
ghost use Rattle.part_channel.specs.Sending.{IsSendSide, HasMade, tested, test_progress, none_marked, IsPast, IsTold};

use crate::channel::Channel;
use crate::lanes::{above, put};
use crate::progress::Progress;
use mp_types::{Code, Stamp};
use part_box::SendKey;
use std::marker::Model;

/// The right to make partitions ready, one in each box. Contracts see it as a `SendView`: what it knows.
#[derive(Drop)]
pub struct SendSide {
    pub(crate) keys: Vec<SendKey>,
    parts: u8,
    size: u8,
    ready: [bool; 16],
    // How many partitions, from the lowest on, are known to be taken; all of them between phases.
    freed: u8,
}

impl Model for SendSide {
    ghost use Rattle.part_channel.specs.Sending.{SendView, IsSendSide, phase_of};

    ghost Value = { SendView };

    ghost view = { λ s. record {
      keys = s.keys.items;
      parts = s.parts;
      size = s.size;
      phase = phase_of s.keys.items s.ready;
      ready = s.ready;
      freed = s.freed;
    } };

    ghost invariant = { λ s. IsSendSide s.keys.items s.parts s.size s.freed s.ready };
}

impl SendSide {
    // A side over new keys.
    pub(crate) fn over(keys: Vec<SendKey>) -> SendSide
        requires new { (boxes : List BoxId) × (length boxes ≡ 16) × (keys.items ≡ map new_sender boxes) }
        ensures over { (result.keys ≡ keys.items) × (result ≡ new_send_side (map sender_box keys.items)) }
    {
        SendSide {
            keys,
            parts: 0,
            size: 0,
            ready: [false; 16],
            freed: 0,
        }
    }

    // Its keys.
    pub(crate) fn into_keys(self) -> Vec<SendKey>
        ensures { result.items ≡ self.keys }
    {
        self.keys
    }

    /// Sets the shape: so many partitions of so many bytes.
    ///
    /// Once, before the other calls, and inside the limits: 1 to 16 partitions of 8 to 128 bytes in whole 8s.
    pub fn shape(&mut self, parts: u8, size: u8)
        requires once { self.old.parts ≡ 0 }
        requires parts { (0 < parts) × (parts ≤ 16) }
        requires size { (0 < size) × (size ≤ 128) × (size % 8 ≡ 0) }
        ensures shaped { self.new ≡ shaped self.old parts size }
    {
        self.parts = parts;
        self.size = size;
        self.freed = parts;
    }

    /// Begins a phase, in which no partition is ready and none freed. It waits for nobody.
    ///
    /// Refusal: 12 where one is going on.
    pub fn start(&mut self) -> Result<(), Code>
        ensures refused { IfErr result (λ code. (code ≡ Active) × (self.old.freed < self.old.parts)) }
        ensures unchanged { OnErr result (self.new ≡ self.old) }
        ensures begun { OnOk result ((self.old.freed ≡ self.old.parts) × (self.new ≡ begun self.old)) }
        // So it is still of the same boxes.
        ensures keys { self.new.keys ≡ self.old.keys }
    {
        if self.freed < self.parts {
            return Err(Code::Active);
        }
        self.freed = 0;
        Ok(())
    }

    /// The lowest partition of this phase that isn't freed. None between phases.
    pub fn next(&self) -> Option<u8>
        ensures lowest { result ≡ next_to_free self.now }
        // Whoever asks knows what a side keeps.
        ensures kept { IsSendSide self.now.keys self.now.parts self.now.size self.now.freed self.now.ready }
    {
        if self.parts <= self.freed {
            None
        } else {
            Some(self.freed)
        }
    }

    /// Makes a partition ready with these bytes, and 0 behind them up to the width of the channel. The answer is the
    /// stamp, which is the clock's next.
    ///
    /// Refusals in this order: 9 where there is no such partition, 16 where no phase is going on, 15 where it was made
    /// ready in this phase.
    ///
    /// The side is this channel's. The bytes are as many as a partition has, and no more than a box takes. The clock is
    /// below 2^62 - 1 and not below any stamp that the side has stored or seen.
    pub fn ready(
        &mut self,
        channel: &Channel,
        part: u8,
        bytes: &[u8],
        clock: Stamp,
    ) -> Result<Stamp, Code>
        requires own { map sender_box self.old.keys ≡ channel.now.boxes }
        requires bytes { length bytes.now ≡ self.old.size }
        requires fits { self.old.size ≤ 8 * channel.now.width }
        requires past { IsPast self.old clock }
        requires limit { clock < 2 ^ 62 - 1 }
        ensures refused { IfErr result (λ code. ready_refusal self.old part ≡ Some code) }
        ensures unchanged { OnErr result (self.new ≡ self.old) }
        ensures accepted { IfOk result (λ _. ready_refusal self.old part ≡ None) }
        ensures stamp { IfOk result (λ stamp. stamp ≡ clock + 1) }
        ensures made { IfOk result (λ stamp.
            self.new ≡ readied self.old part (words_of bytes.now channel.now.width) stamp) }
        // In phase k it makes thing k of its box.
        ensures phase { IfOk result (λ stamp.
            HasMade self.old self.new part (words_of bytes.now channel.now.width) stamp) }
        // So it is still this channel's, and the stamp will do as the next clock.
        ensures own { map sender_box self.new.keys ≡ channel.now.boxes }
        ensures past { IfOk result (λ stamp. IsPast self.new stamp) }
    {
        if self.parts <= part {
            return Err(Code::BadPartition);
        }
        if self.parts <= self.freed {
            return Err(Code::NotActive);
        }
        let at = part as usize;
        if self.ready[at] {
            return Err(Code::AlreadyReady);
        }
        let stamp = clock + 1;
        put(
            &channel.boxes[at],
            &mut self.keys[at],
            channel.width,
            bytes,
            stamp,
        );
        self.ready[at] = true;
        Ok(stamp)
    }

    /// Looks whether the lowest partition that isn't freed was taken. The last one that is freed ends the phase.
    ///
    /// One gate word is loaded exactly where that partition is there and was made ready, and the answer is read off it.
    ///
    /// The side is this channel's. The clock is below 2^62 - 1 and not below any stamp that the side has stored or
    /// seen.
    pub fn test(&mut self, channel: &Channel, clock: Stamp) -> Progress
        requires own { map sender_box self.old.keys ≡ channel.now.boxes }
        requires past { IsPast self.old clock }
        requires limit { clock < 2 ^ 62 - 1 }
        ensures tested { (gate : ℕ) × (self.new ≡ tested self.old gate) × (result ≡ test_progress self.old clock gate) }
        // So it keeps its shape, it is still this channel's, and the stamp will do as the next clock.
        ensures shape { (self.new.parts ≡ self.old.parts) × (self.new.size ≡ self.old.size) }
        ensures own { map sender_box self.new.keys ≡ channel.now.boxes }
        ensures told { IsTold self.new result }
    {
        if self.parts <= self.freed {
            return Progress::AllFreed;
        }
        let at = self.freed as usize;
        if !self.ready[at] {
            return Progress::NotReady;
        }
        match channel.boxes[at].freed(&mut self.keys[at]) {
            None => Progress::Missed(clock + 1),
            Some(taken) => {
                self.freed += 1;
                self.ready = left(self.ready, self.freed == self.parts);
                Progress::Freed(above(clock, taken))
            }
        }
    }
}

// Which partitions are ready once one more was freed: none where that was the last.
fn left(ready: [bool; 16], over: bool) -> [bool; 16]
    ensures { result ≡ (if over then none_marked else ready) }
{
    if over { [false; 16] } else { ready }
}
