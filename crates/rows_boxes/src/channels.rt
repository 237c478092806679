//! Worked rows of a channel: the stamps, refusals and bytes of both sides.
ghost use Rattle.std.specs.Prelude.{◌≡◌, ◌⊎◌, ℕ, ◌-◌, ◌*◌, ◌^◌, ◌<◌, ◌≤◌, map, IfSome};
ghost use Rattle.part_channel.specs.Channels.{sender_box, receiver_box};
ghost use Rattle.part_channel.specs.Sending.{IsPast};
ghost use Rattle.rows_boxes.specs.Channels.{IsSideOf, AreParts};

use crate::boxes::print_left;
use mp_types::{Code, Stamp};
use part_box::Settled;
use part_channel::{Channel, Progress, RecvSide, SendSide, Take};
use std::alloc::{AllocError, Global};
use std::io;
use std::io::Write;

/// No clock of a row is above this one.
const LAST_CLOCK: Stamp = 1_000;

/// One call of the sending side, and what it answers. Its clock is the last stamp that the side was told. The bytes of a
/// partition are all the same.
#[derive(Clone, Copy)]
enum Sends {
    Ready(u8, u8, Result<Stamp, Code>),
    Test(Progress),
}

/// What a take finds: a byte, so often, and the stamp; the stamp alone; or a refusal.
#[derive(Clone, Copy)]
enum Finds {
    Taken(u8, usize, Stamp),
    Missed(Stamp),
    Refused(Code),
}

/// One call of the receiving side, and what it answers: which box a partition waits for, or what a take of a box finds
/// under a clock.
#[derive(Clone, Copy)]
enum Takes {
    Waits(u8, Option<u8>),
    Take(u8, Stamp, Finds),
}

/// One call of either side.
#[derive(Clone, Copy)]
enum Call {
    Send(Sends),
    Recv(Takes),
}

/// Two partitions of 8 bytes, both sides started; and the refusals after both phases have ended.
const TWO_OF_EIGHT: [Call; 13] = [
    Call::Send(Sends::Ready(0, 7, Ok(5))),
    Call::Recv(Takes::Take(1, 0, Finds::Missed(1))),
    Call::Recv(Takes::Take(0, 1, Finds::Taken(7, 8, 6))),
    Call::Send(Sends::Test(Progress::Freed(7))),
    Call::Send(Sends::Test(Progress::NotReady)),
    Call::Send(Sends::Ready(1, 0, Ok(8))),
    Call::Send(Sends::Test(Progress::Missed(9))),
    Call::Recv(Takes::Take(1, 6, Finds::Taken(0, 8, 9))),
    Call::Recv(Takes::Take(1, 9, Finds::Refused(Code::NotActive))),
    Call::Send(Sends::Test(Progress::Freed(10))),
    Call::Send(Sends::Test(Progress::AllFreed)),
    Call::Send(Sends::Ready(2, 0, Err(Code::BadPartition))),
    Call::Send(Sends::Ready(0, 0, Err(Code::NotActive))),
];

/// A sender of 3 partitions of 64 bytes, and a receiver that cuts the same 192 bytes into 2 of 96: which box each of the
/// receiver's partitions waits for. The sender makes partition 2 ready, then 0, and at last 1. Bytes 0 to 95 are in
/// boxes 0 and 1, and bytes 96 to 191 in boxes 1 and 2.
const THREE_AGAINST_TWO: [Call; 17] = [
    Call::Send(Sends::Ready(2, 22, Ok(1))),
    Call::Send(Sends::Ready(0, 20, Ok(2))),
    Call::Send(Sends::Ready(0, 20, Err(Code::AlreadyReady))),
    Call::Recv(Takes::Waits(1, Some(1))),
    Call::Recv(Takes::Take(1, 0, Finds::Missed(1))),
    Call::Recv(Takes::Waits(0, Some(0))),
    Call::Recv(Takes::Take(0, 1, Finds::Taken(20, 64, 3))),
    Call::Recv(Takes::Waits(0, Some(1))),
    Call::Recv(Takes::Take(1, 3, Finds::Missed(4))),
    Call::Send(Sends::Ready(1, 21, Ok(3))),
    Call::Recv(Takes::Waits(0, Some(1))),
    Call::Recv(Takes::Take(1, 4, Finds::Taken(21, 64, 5))),
    Call::Recv(Takes::Take(1, 5, Finds::Refused(Code::AlreadyReady))),
    Call::Recv(Takes::Waits(0, None)),
    Call::Recv(Takes::Waits(1, Some(2))),
    Call::Recv(Takes::Take(2, 5, Finds::Taken(22, 64, 6))),
    Call::Recv(Takes::Take(3, 6, Finds::Refused(Code::BadPartition))),
];

/// One thing is taken, one isn't, and none is made in the third box.
const ONE_OF_THREE: [Call; 3] = [
    Call::Send(Sends::Ready(0, 1, Ok(1))),
    Call::Send(Sends::Ready(1, 2, Ok(2))),
    Call::Recv(Takes::Take(0, 6, Finds::Taken(1, 8, 7))),
];

/// The bytes of a partition, all the same, in an answer.
fn filled(byte: u8, size: usize) -> [u8; 128] {
    let mut filled = [0; 128];
    for i in 0..filled.len() {
        if i < size {
            filled[i] = byte;
        }
    }
    filled
}

/// The stamp that the call was told, or the clock, where it answered as it should.
fn made_ready(
    channel: &Channel,
    send: &mut SendSide,
    size: usize,
    part: u8,
    byte: u8,
    answer: Result<Stamp, Code>,
    clock: Stamp,
) -> Option<Stamp>
    requires side { IsSideOf channel.now size send.old }
    requires past { IsPast send.old clock }
    requires limit { clock < 2 ^ 62 - 1 }
    ensures side { IsSideOf channel.now size send.new }
    ensures past { IfSome result (λ stamp. IsPast send.new stamp) }
{
    let bytes = [byte; 128];
    let told = send.ready(channel, part, &bytes[..size], clock);
    if told != answer {
        return None;
    }
    match told {
        Ok(stamp) => Some(stamp),
        Err(_) => Some(clock),
    }
}

/// The same of a test.
fn tested(
    channel: &Channel,
    send: &mut SendSide,
    size: usize,
    answer: Progress,
    clock: Stamp,
) -> Option<Stamp>
    requires limit { clock < 2 ^ 62 - 1 }
    requires side { IsSideOf channel.now size send.old }
    requires past { IsPast send.old clock }
    ensures side { IsSideOf channel.now size send.new }
    ensures past { IfSome result (λ stamp. IsPast send.new stamp) }
{
    let told = send.test(channel, clock);
    if told != answer {
        return None;
    }
    match told {
        Progress::AllFreed => Some(clock),
        Progress::NotReady => Some(clock),
        Progress::Missed(stamp) => Some(stamp),
        Progress::Freed(stamp) => Some(stamp),
    }
}

/// The same of either call of the sending side.
fn sent(
    channel: &Channel,
    send: &mut SendSide,
    size: usize,
    call: Sends,
    clock: Stamp,
) -> Option<Stamp>
    requires side { IsSideOf channel.now size send.old }
    requires past { IsPast send.old clock }
    ensures side { IsSideOf channel.now size send.new }
    ensures past { IfSome result (λ stamp. IsPast send.new stamp) }
{
    if LAST_CLOCK < clock {
        return None;
    }
    match call {
        Sends::Ready(part, byte, answer) => {
            made_ready(channel, send, size, part, byte, answer, clock)
        }
        Sends::Test(answer) => tested(channel, send, size, answer, clock),
    }
}

/// What a take answers where it finds this.
fn answer_of(finds: Finds) -> Result<Take, Code> {
    match finds {
        Finds::Taken(byte, size, stamp) => Ok(Take::Taken(filled(byte, size), stamp)),
        Finds::Missed(stamp) => Ok(Take::Missed(stamp)),
        Finds::Refused(code) => Err(code),
    }
}

/// Whether a call of the receiving side answered as it should.
fn taken(channel: &Channel, recv: &mut RecvSide, call: Takes) -> bool
    requires own { map receiver_box recv.old.keys ≡ channel.now.boxes }
    ensures own { map receiver_box recv.new.keys ≡ channel.now.boxes }
{
    match call {
        Takes::Waits(part, place) => recv.next_of(part) == place,
        Takes::Take(place, clock, finds) => {
            if LAST_CLOCK < clock {
                return false;
            }
            recv.take(channel, place, clock) == answer_of(finds)
        }
    }
}

/// The last stamp that the sending side was told, where this call answered as it should.
fn answered(
    channel: &Channel,
    send: &mut SendSide,
    recv: &mut RecvSide,
    size: usize,
    call: Call,
    clock: Stamp,
) -> Option<Stamp>
    requires side { IsSideOf channel.now size send.old }
    requires own { map receiver_box recv.old.keys ≡ channel.now.boxes }
    requires past { IsPast send.old clock }
    ensures side { IsSideOf channel.now size send.new }
    ensures own { map receiver_box recv.new.keys ≡ channel.now.boxes }
    ensures past { IfSome result (λ stamp. IsPast send.new stamp) }
{
    match call {
        Call::Send(call) => sent(channel, send, size, call, clock),
        Call::Recv(call) => {
            if taken(channel, recv, call) {
                Some(clock)
            } else {
                None
            }
        }
    }
}

/// Whether each of these calls answers as it should.
fn all_answer(
    channel: &Channel,
    send: &mut SendSide,
    recv: &mut RecvSide,
    size: usize,
    calls: &[Call],
    mut clock: Stamp,
) -> bool
    requires side { IsSideOf channel.now size send.old }
    requires own { map receiver_box recv.old.keys ≡ channel.now.boxes }
    requires past { IsPast send.old clock }
    ensures side { IsSideOf channel.now size send.new }
    ensures own { map receiver_box recv.new.keys ≡ channel.now.boxes }
{
    for i in 0..calls.len() {
        match answered(channel, send, recv, size, calls[i], clock) {
            Some(stamp) => clock = stamp,
            None => return false,
        }
    }
    true
}

/// Starts both sides: the sender's partitions of this size, and the receiver's of its own, which cut the same bytes.
fn starts(send: &mut SendSide, recv: &mut RecvSide, sent: (u8, u8), got: (u8, u8)) -> bool
    requires new { (send.old.parts ≡ 0) × (recv.old.parts ≡ 0) × (recv.old.boxes ≡ 0) }
    requires sent { AreParts sent.0 sent.1 }
    requires got { AreParts got.0 got.1 }
    requires total { sent.0 * sent.1 ≡ got.0 * got.1 }
    ensures sender { (send.new.keys ≡ send.old.keys) × (send.new.size ≡ sent.1) }
    ensures receiver { recv.new.keys ≡ recv.old.keys }
{
    send.shape(sent.0, sent.1);
    recv.shape(got.0, got.1);
    recv.cut(sent.0, sent.1);
    if send.start().is_err() {
        return false;
    }
    recv.start().is_ok()
}

/// Two partitions of 8 bytes. No box is left to wait for.
fn two_of_eight(alloc: Global, width: usize) -> Result<bool, AllocError>
    requires { (width ≡ 8) ⊎ (width ≡ 16) }
{
    let (channel, mut send, mut recv) = Channel::new(alloc, width)?;
    if !starts(&mut send, &mut recv, (2, 8), (2, 8)) {
        return Ok(false);
    }
    let right = all_answer(&channel, &mut send, &mut recv, 8, &TWO_OF_EIGHT, 4);
    Ok(right && recv.next() == None && send.next() == None)
}

/// Three partitions of 64 bytes against two of 96.
fn three_against_two(alloc: Global, width: usize) -> Result<bool, AllocError>
    requires { (width ≡ 8) ⊎ (width ≡ 16) }
{
    let (channel, mut send, mut recv) = Channel::new(alloc, width)?;
    if !starts(&mut send, &mut recv, (3, 64), (2, 96)) {
        return Ok(false);
    }
    let calls = &THREE_AGAINST_TWO;
    Ok(all_answer(&channel, &mut send, &mut recv, 64, calls, 0))
}

/// The sender's cut is learnt while a phase is going on.
fn learns_cut(recv: &mut RecvSide) -> bool
    requires { (recv.old.parts ≡ 0) × (recv.old.boxes ≡ 0) }
{
    recv.shape(2, 96);
    if recv.start().is_err() || recv.knows_cut() || recv.next() != None {
        return false;
    }
    recv.cut(3, 64);
    recv.knows_cut() && recv.next() == Some(0)
}

fn cut_in_a_phase(alloc: Global, width: usize) -> Result<bool, AllocError>
    requires { (width ≡ 8) ⊎ (width ≡ 16) }
{
    let (_channel, _send, mut recv) = Channel::new(alloc, width)?;
    Ok(learns_cut(&mut recv))
}

/// What a channel is left with where one thing was taken, one wasn't, and none was made in the third.
fn left_of_three(alloc: Global, width: usize) -> Result<Option<[Settled; 16]>, AllocError>
    requires { (width ≡ 8) ⊎ (width ≡ 16) }
{
    let (channel, mut send, mut recv) = Channel::new(alloc, width)?;
    if !starts(&mut send, &mut recv, (3, 8), (3, 8)) {
        return Ok(None);
    }
    if !all_answer(&channel, &mut send, &mut recv, 8, &ONE_OF_THREE, 0) {
        return Ok(None);
    }
    Ok(Some(channel.settle(send, recv)))
}

/// A phase that is going on isn't begun by the sender.
fn sends_once(send: &mut SendSide) -> bool
    requires { send.old.parts ≡ 0 }
{
    send.shape(1, 8);
    if send.next() != None || send.start().is_err() {
        return false;
    }
    send.next() == Some(0) && send.start() == Err(Code::Active)
}

/// And not by the receiver, which has no box to wait for before it knows the cut.
fn receives_once(recv: &mut RecvSide) -> bool
    requires { (recv.old.parts ≡ 0) × (recv.old.boxes ≡ 0) }
{
    recv.shape(1, 8);
    if recv.next() != None || recv.start().is_err() {
        return false;
    }
    recv.next() == None && recv.start() == Err(Code::Active)
}

fn begun_twice(alloc: Global, width: usize) -> Result<bool, AllocError>
    requires { (width ≡ 8) ⊎ (width ≡ 16) }
{
    let (_channel, mut send, mut recv) = Channel::new(alloc, width)?;
    Ok(sends_once(&mut send) && receives_once(&mut recv))
}

/// Prints whether a row's calls answered as they should.
fn print_row<W: Write>(out: &mut W, row: &str, right: Result<bool, AllocError>) -> io::Result<()> {
    let told = if right? { "as it should be" } else { "WRONG" };
    writeln!(out, "{row}: {told}")
}

/// Prints how channels of boxes of this width answer.
fn print_rows<W: Write>(alloc: Global, out: &mut W, width: usize) -> io::Result<()>
    requires { (width ≡ 8) ⊎ (width ≡ 16) }
{
    print_row(out, "two partitions of 8 bytes", two_of_eight(alloc, width))?;
    print_row(
        out,
        "3 of 64 against 2 of 96",
        three_against_two(alloc, width),
    )?;
    print_row(out, "a cut in a phase", cut_in_a_phase(alloc, width))?;
    print_row(out, "a phase begun twice", begun_twice(alloc, width))
}

/// Prints what a channel is left with, box by box.
fn print_boxes_left<W: Write>(out: &mut W, left: &[Settled; 16]) -> io::Result<()> {
    for settled in left {
        print_left(out, settled)?;
    }
    Ok(())
}

/// Prints what a channel of three partitions is left with.
fn print_three<W: Write>(alloc: Global, out: &mut W, width: usize) -> io::Result<()>
    requires { (width ≡ 8) ⊎ (width ≡ 16) }
{
    match left_of_three(alloc, width)? {
        Some(left) => print_boxes_left(out, &left),
        None => print_row(out, "three partitions", Ok(false)),
    }
}

/// Prints how channels of boxes of this width answer, and what one is left with, box by box.
pub fn print_channels<W: Write>(alloc: Global, out: &mut W, width: usize) -> io::Result<()>
    requires { (width ≡ 8) ⊎ (width ≡ 16) }
{
    writeln!(out, "channels of {width} words")?;
    print_rows(alloc, out, width)?;
    print_three(alloc, out, width)
}
