//! Sides: where each call refuses, what it answers, and what it leaves alone.
ghost use Rattle.std.specs.Prelude.{◌≡◌, ◌≢◌, ◌⊎◌, ℕ, ◌+◌, ◌-◌, ◌*◌, ◌^◌, ◌<◌, ◌≤◌, List, [], map, length, get_or};
ghost use Rattle.std.specs.Prelude.{slice_get, set, IfOk, OnOk, Ok, Err, Some, None, true, false};
ghost use Rattle.mp_types.specs.declared.codes.Code.TheVariants.{AlreadyReady, NotActive, BadPartition, Active};
ghost use Rattle.part_channel.specs.declared.progress.Progress.TheVariants.{AllFreed, NotReady, Freed};
ghost use Rattle.part_channel.specs.declared.progress.Take.TheVariants.{Taken};
ghost use Rattle.part_box.specs.Keys.{Sender, Receiver};
ghost use Rattle.part_channel.specs.Channels.{sender_box, receiver_box};
ghost use Rattle.part_channel.specs.Sending.{IsPast, none_marked};
ghost use Rattle.test_boxes.specs.Sides.{MaySend, MaySendEight, MayTake};

use mp_types::{Code, Stamp};
use part_channel::{Channel, Progress, RecvSide, SendSide, Take};

/// A phase begins with no partition ready.
pub fn a_phase_begins_with_none_ready(side: &mut SendSide) -> Result<(), Code>
    ensures { OnOk result (side.new.ready ≡ none_marked) }
{
    side.start()
}

/// A phase begins with no box taken.
pub fn a_phase_begins_with_none_taken(side: &mut RecvSide) -> Result<(), Code>
    ensures { OnOk result (side.new.taken ≡ none_marked) }
{
    side.start()
}

/// A phase isn't begun while one is going on.
pub fn a_phase_is_begun_once(side: &mut RecvSide) -> Result<(), Code>
    requires { side.old.active ≡ true }
    ensures { (result ≡ Err Active) × (side.new ≡ side.old) }
{
    side.start()
}

/// A box that was taken in this phase isn't taken again.
pub fn a_box_is_taken_once(
    side: &mut RecvSide,
    channel: &Channel,
    clock: Stamp,
) -> Result<Take, Code>
    requires own { MayTake side.old channel.now clock }
    requires taken { (side.old.boxes ≡ 2) × (side.old.active ≡ true) × (get_or side.old.taken 1 false ≡ true) }
    ensures { (result ≡ Err AlreadyReady) × (side.new ≡ side.old) }
{
    side.take(channel, 1, clock)
}

/// A partition that isn't ready is told so, and nothing is looked at.
pub fn an_unready_partition_is_told(
    side: &mut SendSide,
    channel: &Channel,
    clock: Stamp,
) -> Progress
    requires own { MaySend side.old channel.now clock }
    requires unready { (side.old.parts ≡ 2) × (side.old.freed ≡ 1) × (get_or side.old.ready 1 false ≡ false) }
    ensures { (result ≡ NotReady) × (side.new ≡ side.old) }
{
    side.test(channel, clock)
}

/// A partition that was made ready is never told as one that wasn't.
pub fn a_ready_partition_is_looked_at(
    side: &mut SendSide,
    channel: &Channel,
    clock: Stamp,
) -> Progress
    requires own { MaySend side.old channel.now clock }
    requires ready { (side.old.parts ≡ 2) × (side.old.freed ≡ 1) × (get_or side.old.ready 1 false ≡ true) }
    ensures { (result ≢ NotReady) × (result ≢ AllFreed) }
{
    side.test(channel, clock)
}

/// Partition 1 of 2 of 96 bytes waits for box 1 of 3 of 64 first, by its bytes and not by its number.
pub fn boxes_overlap_by_bytes(side: &RecvSide) -> Option<u8>
    requires cut { (side.now.size ≡ 96) × (side.now.boxes ≡ 3) × (side.now.bytes ≡ 64) }
    requires phase { (side.now.active ≡ true) × (side.now.taken ≡ none_marked) }
    ensures { result ≡ Some 1 }
{
    side.next_of(1)
}

/// Once box 0 is taken, partition 0 of 96 bytes waits for box 1: its last 32 bytes are there.
pub fn the_last_bytes_are_waited_for(side: &RecvSide) -> Option<u8>
    requires cut { (side.now.size ≡ 96) × (side.now.boxes ≡ 3) × (side.now.bytes ≡ 64) }
    requires phase { (side.now.active ≡ true) × (side.now.taken ≡ set none_marked 0 true) }
    ensures { result ≡ Some 1 }
{
    side.next_of(0)
}

/// A partition that ends where a box ends doesn't wait for the next one.
pub fn no_box_past_the_end_is_waited_for(side: &RecvSide) -> Option<u8>
    requires cut { (side.now.size ≡ 8) × (side.now.boxes ≡ 2) × (side.now.bytes ≡ 8) }
    requires phase { (side.now.active ≡ true) × (side.now.taken ≡ set none_marked 0 true) }
    ensures { result ≡ None }
{
    side.next_of(0)
}

/// A partition is made ready once in a phase.
pub fn a_partition_is_made_ready_once(
    side: &mut SendSide,
    channel: &Channel,
    clock: Stamp,
) -> Result<Stamp, Code>
    requires own { MaySendEight side.old channel.now clock }
    requires ready { (side.old.parts ≡ 2) × (side.old.freed ≡ 0) × (get_or side.old.ready 1 false ≡ true) }
    ensures { (result ≡ Err AlreadyReady) × (side.new ≡ side.old) }
{
    side.ready(channel, 1, &[0; 8], clock)
}

/// Between phases no partition is made ready.
pub fn nothing_is_made_ready_between_phases(
    side: &mut SendSide,
    channel: &Channel,
    clock: Stamp,
) -> Result<Stamp, Code>
    requires own { MaySendEight side.old channel.now clock }
    requires ended { (side.old.parts ≡ 2) × (side.old.freed ≡ 2) }
    ensures { (result ≡ Err NotActive) × (side.new ≡ side.old) }
{
    side.ready(channel, 1, &[0; 8], clock)
}

/// The last partition that is freed ends the phase: the next one has the next number, and none is ready in it.
pub fn the_last_freed_ends_the_phase(
    side: &mut SendSide,
    channel: &Channel,
    clock: Stamp,
) -> Progress
    requires own { MaySend side.old channel.now clock }
    requires last { (side.old.parts ≡ 2) × (side.old.freed ≡ 1) × (get_or side.old.ready 1 false ≡ true) }
    ensures { (stamp : ℕ) → result ≡ Freed stamp
        → (side.new.freed ≡ 2) × (side.new.phase ≡ side.old.phase + 1) × (side.new.ready ≡ none_marked) }
{
    side.test(channel, clock)
}

/// The last box that is taken ends the phase: the next one has the next number, and none is taken in it.
pub fn the_last_take_ends_the_phase(
    side: &mut RecvSide,
    channel: &Channel,
    clock: Stamp,
) -> Result<Take, Code>
    requires own { MayTake side.old channel.now clock }
    requires last { (side.old.boxes ≡ 2) × (side.old.active ≡ true) × (side.old.taken ≡ set none_marked 0 true) }
    ensures { (bytes : List ℕ) (stamp : ℕ) → result ≡ Ok (Taken bytes stamp)
        → (side.new.active ≡ false) × (side.new.phase ≡ side.old.phase + 1) × (side.new.taken ≡ none_marked) }
{
    side.take(channel, 1, clock)
}

/// A side of a channel is still the channel's once it has a shape and a phase was begun, or refused.
pub fn a_sending_side_keeps_its_boxes(side: &mut SendSide, channel: &Channel) -> Result<(), Code>
    requires own { map sender_box side.old.keys ≡ channel.now.boxes }
    requires new { side.old.parts ≡ 0 }
    ensures own { map sender_box side.new.keys ≡ channel.now.boxes }
{
    side.shape(2, 8);
    side.start()
}

/// And so is the other side, once it has the sender's cut too.
pub fn a_receiving_side_keeps_its_boxes(side: &mut RecvSide, channel: &Channel) -> Result<(), Code>
    requires own { map receiver_box side.old.keys ≡ channel.now.boxes }
    requires new { (side.old.parts ≡ 0) × (side.old.boxes ≡ 0) }
    ensures own { map receiver_box side.new.keys ≡ channel.now.boxes }
{
    side.shape(2, 96);
    side.cut(3, 64);
    side.start()
}

/// Who holds both sides knows of a partition that was told as freed: all that was made in its box was got.
pub fn a_freed_partition_was_taken(
    send: &mut SendSide,
    recv: &mut RecvSide,
    channel: &Channel,
    clock: Stamp,
) -> Progress
    requires own { (map sender_box send.old.keys ≡ channel.now.boxes)
        × (map receiver_box recv.old.keys ≡ channel.now.boxes) }
    requires clock { IsPast send.old clock × (clock < 2 ^ 62 - 1) }
    requires next { send.old.freed ≡ 1 }
    ensures taken { (stamp : ℕ) (was is : Sender) (r : Receiver) → result ≡ Freed stamp
        → slice_get send.old.keys 1 ≡ Some was → slice_get send.new.keys 1 ≡ Some is
        → slice_get recv.new.keys 1 ≡ Some r → length is.view.made ≡ length r.view.got }
    ensures unchanged { recv.new ≡ recv.old }
{
    let told = send.test(channel, clock);
    channel.agree(send, recv, 1);
    told
}
