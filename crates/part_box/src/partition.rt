//! The box, its six calls, and what it is left with.
ghost use Rattle.std.specs.Prelude.{◌≡◌, ◌⊎◌, ℕ, ◌+◌, ◌-◌, ◌*◌, ◌^◌, ◌<◌, ◌≤◌, List, length, IfOk, IfSome, IsSome};
ghost use Rattle.std.specs.Prelude.{IsTrue, Some, None};
ghost use Rattle.std.specs.Slots.{slots_items, slots_len, IsFull};
ghost use Rattle.part_box.specs.Fields.{IsBox};
ghost use Rattle.part_box.specs.Gate.{ready_stamp, taken_stamp};
ghost use Rattle.part_box.specs.Keys.{Place, new_sender, new_receiver, after_fill, after_ready, after_freed};
ghost use Rattle.part_box.specs.Keys.{after_look, after_copy, after_empty};
ghost use Rattle.part_box.specs.Rule.{GateRule};
ghost use Rattle.part_box.specs.Settling.{IsSettled};
ghost use Rattle.part_box.specs.Spelled.{IsDataOf, Spells};

use crate::gate::{ready_in, taken_in};
use crate::keys::{RecvKey, SendKey};
use crate::rule::{Agree, BothKeys, Copy, Empty, Fill, Freed, Gated, Look, Ready};
use crate::settled::Settled;
use crate::view::View;
use atomic_table::{Closed, Table};
use std::alloc::{AllocError, Global};
use std::marker::Model;

/// A box for one thing at a time, between one sender and one receiver.
///
/// Its words are a gate and the data words. Word 0 is the gate, since splitting the two keys reads word 0.
/// Contracts see a box as a `Place`: which box it is, and how many data words it has.
#[derive(Drop)]
pub struct PartBox {
    pub(crate) table: Table<(), View, usize, Gated, Global>,
    width: usize,
}

impl Model for PartBox {
    ghost Value = { Place };

    ghost view = { λ b. record { at = b.table.shared.table_id; width = b.width } };

    ghost invariant = { λ b. IsBox b.table.shared.table_id b.table.shared.key b.width };
}

impl PartBox {
    /// An empty box of 8 or 16 data words with gate 0, and its two keys.
    pub fn new(alloc: Global, width: usize) -> Result<(PartBox, SendKey, RecvKey), AllocError>
        requires wide { (width ≡ 8) ⊎ (width ≡ 16) }
        ensures wide { IfOk result (λ r. r.0.width ≡ width) }
        ensures sender { IfOk result (λ r. r.1 ≡ new_sender r.0.at) }
        ensures receiver { IfOk result (λ r. r.2 ≡ new_receiver r.0.at) }
    {
        PartBox::of_width(alloc, width)
    }

    // The same with any number of data words from 1 to 16.
    fn of_width(alloc: Global, width: usize) -> Result<(PartBox, SendKey, RecvKey), AllocError>
        requires least { 0 < width }
        requires most { width ≤ 16 }
        ensures wide { IfOk result (λ r. r.0.width ≡ width) }
        ensures sender { IfOk result (λ r. r.1 ≡ new_sender r.0.at) }
        ensures receiver { IfOk result (λ r. r.2 ≡ new_receiver r.0.at) }
    {
        let zeros = [0; 17];
        let (table, mut seat) = Table::of_words(alloc, &zeros[..width + 1], &width)?;
        let other = table.shared.split_seat::<BothKeys>(&mut seat);
        Ok((
            PartBox { table, width },
            SendKey { seat, filled: 0 },
            RecvKey {
                seat: other,
                copied: 0,
            },
        ))
    }

    /// Stores the next data word of the thing that is being filled.
    ///
    /// The key is this box's and open, and fewer words are filled than the box has.
    pub fn fill(&self, key: &mut SendKey, word: u64)
        requires own { key.old.at ≡ self.now.at }
        requires open { IsTrue key.old.view.is_open }
        requires room { length key.old.view.filled < self.now.width }
        ensures filled { key.new ≡ after_fill key.old word }
    {
        self.table
            .shared
            .store::<Fill>(&mut key.seat, key.filled + 1, word);
        key.filled += 1;
    }

    /// Makes the filled words ready under a stamp. The gate is then twice the stamp, and one more.
    ///
    /// The key is this box's, all words are filled, and the stamp is above the key's front and below 2^62.
    pub fn ready(&self, key: &mut SendKey, stamp: u64)
        requires own { key.old.at ≡ self.now.at }
        requires filled { length key.old.view.filled ≡ self.now.width }
        requires above { key.old.view.front < stamp }
        requires limit { stamp < 2 ^ 62 }
        ensures made { key.new ≡ after_ready key.old stamp }
    {
        self.table
            .shared
            .store::<Ready>(&mut key.seat, 0, 2 * stamp + 1);
        key.filled = 0;
    }

    /// The stamp under which the last thing was taken, if its take is seen.
    ///
    /// The key is this box's, and has made a thing. A look may miss a take that has just been made, and a gate with
    /// stamp 2^62 - 1 counts as a miss from then on.
    pub fn freed(&self, key: &mut SendKey) -> Option<u64>
        requires own { key.old.at ≡ self.now.at }
        requires made { 0 < length key.old.view.made }

        // One gate word was loaded: the key's view gains it, and the answer is read off it.
        ensures loaded { (gate : ℕ) × (key.new ≡ after_freed key.old gate) × (result ≡ taken_stamp gate) }
        // So there is a stamp above it for the next thing.
        ensures room_above { IfSome result (λ stamp. stamp < 2 ^ 62 - 1) }
    {
        taken_in(self.gate_for_sender(key))
    }

    /// The stamp of the thing in the box, if one is seen. From then on it is pending.
    ///
    /// The key is this box's, and nothing is pending. A look may miss a thing that has just been made ready, and a
    /// gate with stamp 2^62 - 1 counts as a miss from then on.
    pub fn look(&self, key: &mut RecvKey) -> Option<u64>
        requires own { key.old.at ≡ self.now.at }
        requires nothing_pending { key.old.view.seen ≡ None }

        // One gate word was loaded: the key's view gains it, and the answer is read off it.
        ensures loaded { (gate : ℕ) × (key.new ≡ after_look key.old gate) × (result ≡ ready_stamp gate) }
        // So there is a stamp above it for the take.
        ensures room_above { IfSome result (λ stamp. stamp < 2 ^ 62 - 1) }
    {
        ready_in(self.gate_for_receiver(key))
    }

    /// The next data word of the thing that was seen.
    ///
    /// The key is this box's, a thing is pending, and not all of its words are copied.
    pub fn copy(&self, key: &mut RecvKey) -> u64
        requires own { key.old.at ≡ self.now.at }
        requires pending { IsSome key.old.view.seen }
        requires more { length key.old.view.copied < self.now.width }
        ensures copied { key.new ≡ after_copy key.old result }
    {
        let word = self
            .table
            .shared
            .load::<Copy>(&mut key.seat, key.copied + 1);
        key.copied += 1;
        word
    }

    /// Takes the copied thing under a stamp. The gate is then twice the stamp, and the box is empty.
    ///
    /// The key is this box's, all words are copied, and the stamp is above the one that was seen and below 2^62.
    pub fn empty(&self, key: &mut RecvKey, stamp: u64)
        requires own { key.old.at ≡ self.now.at }
        requires copied { length key.old.view.copied ≡ self.now.width }
        requires above { (seen : ℕ) × (key.old.view.seen ≡ Some seen) × (seen < stamp) }
        requires limit { stamp < 2 ^ 62 }
        ensures taken { key.new ≡ after_empty key.old stamp }
    {
        self.table
            .shared
            .store::<Empty>(&mut key.seat, 0, 2 * stamp);
        key.copied = 0;
    }

    /// What both keys know of each other: the gate rule holds of them, and of the words that are there.
    ///
    /// It is for who holds both keys, as the driver of all ranks on one thread does between two turns: `look` and
    /// `freed` tell what a gate word showed, and this tells what that means. Nothing is changed; it costs four loads.
    ///
    /// Both keys are this box's.
    pub fn agree(&self, send: &mut SendKey, recv: &mut RecvKey)
        requires sender { send.old.at ≡ self.now.at }
        requires receiver { recv.old.at ≡ self.now.at }
        ensures sender { send.new ≡ send.old }
        ensures receiver { recv.new ≡ recv.old }
        ensures agreed { (words : List ℕ) × GateRule self.now.width words send.old.view recv.old.view }
    {
        // The receiver's part is cut off its seat, joins the sender's seat for one load, and is cut off that again.
        let shared = &self.table.shared;
        let part = shared.split_seat::<BothKeys>(&mut recv.seat);
        shared.join_seat::<BothKeys>(&mut send.seat, part);
        shared.load::<Agree>(&mut send.seat, self.width);
        recv.seat = shared.split_seat::<BothKeys>(&mut send.seat);
    }

    /// What lies in the box at the end.
    ///
    /// It is full exactly where one thing that was made ready wasn't taken; what was taken is the beginning of what was
    /// made. A half-done fill or copy may stand.
    ///
    /// Both keys are this box's.
    pub fn settle(self, send: SendKey, recv: RecvKey) -> Settled
        requires sender { send.at ≡ self.at }
        requires receiver { recv.at ≡ self.at }
        ensures settled { IsSettled self.width send.view recv.view result }
    {
        let PartBox { table, width } = self;
        let SendKey {
            mut seat,
            filled: _,
        } = send;
        let RecvKey {
            seat: other,
            copied: _,
        } = recv;
        table.shared.join_seat::<BothKeys>(&mut seat, other);
        let closed = table.close_with(seat);
        let left = left_over(&closed, width);
        closed.free();
        left
    }

    // The sender's load of the gate.
    fn gate_for_sender(&self, key: &mut SendKey) -> u64
        requires own { key.old.at ≡ self.now.at }
        ensures loaded { key.new ≡ after_freed key.old result }
    {
        self.table.shared.load::<Freed>(&mut key.seat, 0)
    }

    // The receiver's load of the gate.
    fn gate_for_receiver(&self, key: &mut RecvKey) -> u64
        requires own { key.old.at ≡ self.now.at }
        requires nothing_pending { key.old.view.seen ≡ None }
        ensures loaded { key.new ≡ after_look key.old result }
    {
        self.table.shared.load::<Look>(&mut key.seat, 0)
    }
}

// What the words spell: a thing where the gate is odd.
fn left_over(closed: &Closed<(), Global>, width: usize) -> Settled
    requires most { width ≤ 16 }
    requires full { IsFull closed.now.words }
    requires there { width < slots_len closed.now.words }
    ensures { Spells width (slots_items closed.now.words) result }
{
    let gate = closed.word(0);
    let full = gate % 2 == 1;
    let words = if full {
        data_words(closed, width)
    } else {
        [0; 16]
    };
    Settled {
        full,
        stamp: gate / 2,
        words,
    }
}

// The first `width` data words, and 0 past them.
fn data_words(closed: &Closed<(), Global>, width: usize) -> [u64; 16]
    requires most { width ≤ 16 }
    requires full { IsFull closed.now.words }
    requires there { width < slots_len closed.now.words }
    ensures { IsDataOf width (slots_items closed.now.words) result }
{
    let mut words = [0; 16];
    for i in 0..width {
        words[i] = closed.word(i + 1);
    }
    words
}
