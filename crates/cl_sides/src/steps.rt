//! What a rank does with its sides: it finds one by its link, makes a step on one of its boxes, and lets it follow
//! the phase.

ghost use Rattle.std.specs.Prelude.{◌≡◌, ◌<◌, ◌+◌, ◌-◌, ◌^◌, IfSome};
ghost use Rattle.cl_sides.specs.Sides.{side_of};
ghost use Rattle.cl_sides.specs.Steps.{IsPlace, IsReadied, IsTaken, IsTested, MayReady, MayTake, MayTest, changed_side};
ghost use Rattle.cl_sides.specs.Steps.{ReceivingMay, SendingMay, begun_at, begun_receiver, begun_sender};
ghost use Rattle.cl_sides.specs.Steps.{followed_receiver, followed_sender};

use mp_types::Stamp;
use part_channel::{Channel, Progress, RecvSide, SendSide, Take};
use part_phase::{RecvPhase, SendPhase};

/// A box of the cluster, by the number of its link and its number there.
#[derive(Clone, Copy, Drop)]
pub struct BoxId {
    pub link: u8,
    pub part: u8,
}

/// Finds where the side of a link stands among these, or `None` if none of them is of the link.
pub fn find<S>(sides: &[(u8, S)], link: u8) -> Option<usize>
    ensures { IsPlace link sides.now result }
{
    for i in 0..sides.len() {
        if sides[i].0 == link {
            return Some(i);
        }
    }
    None
}

/// Makes a partition ready with these bytes, and returns the stamp of that: one above the rank's clock.
///
/// Other sides stay as they are. It may be called where the link has a side here that doesn't refuse the partition.
pub fn make_ready(
    sends: &mut Vec<(u8, SendSide)>,
    channels: &[Channel],
    place: BoxId,
    bytes: &[u8],
    clock: Stamp,
) -> Stamp
    requires may { MayReady channels.now place.link place.part bytes.now clock sends.old.items }
    requires low { clock < 2 ^ 62 - 1 }
    ensures stamp { result ≡ clock + 1 }
    ensures made { IsReadied channels.now place.link place.part bytes.now result sends.old.items sends.new.items }
{
    let Some(at) = find(sends.as_slice(), place.link) else {
        unreachable!()
    };
    let side = &mut sends[at].1;
    // ghost: brings into scope what a side keeps; no effect at run time
    let _kept = side.next();
    let channel = &channels[place.link as usize];
    match side.ready(channel, place.part, bytes, clock) {
        Ok(stamp) => stamp,
        Err(_) => unreachable!(),
    }
}

/// Looks whether the lowest partition of a link that isn't freed was taken.
///
/// Other sides stay as they are. It may be called where that partition was made ready.
pub fn test(
    sends: &mut Vec<(u8, SendSide)>,
    channels: &[Channel],
    link: u8,
    clock: Stamp,
) -> Progress
    requires may { MayTest channels.now link clock sends.old.items }
    requires low { clock < 2 ^ 62 - 1 }
    ensures tested { IsTested channels.now link clock result sends.old.items sends.new.items }
{
    let Some(at) = find(sends.as_slice(), link) else {
        unreachable!()
    };
    let side = &mut sends[at].1;
    // ghost: brings into scope what a side keeps; no effect at run time
    let _kept = side.next();
    side.test(&channels[link as usize], clock)
}

/// Takes what lies in a box, if a thing is seen there. Other sides stay as they are.
///
/// It may be called where the link has a side here that doesn't refuse the box. If none is seen, the answer is
/// `Take::Missed`, and the side keeps only what it saw.
pub fn take(
    recvs: &mut Vec<(u8, RecvSide)>,
    channels: &[Channel],
    place: BoxId,
    clock: Stamp,
) -> Take
    requires may { MayTake channels.now place.link place.part recvs.old.items }
    requires low { clock < 2 ^ 62 - 1 }
    ensures taken { IsTaken channels.now place.link place.part clock result recvs.old.items recvs.new.items }
{
    let Some(at) = find(recvs.as_slice(), place.link) else {
        unreachable!()
    };
    let side = &mut recvs[at].1;
    // ghost: brings into scope what a side keeps; no effect at run time
    let _kept = side.next();
    match side.take(&channels[place.link as usize], place.part, clock) {
        Ok(take) => take,
        Err(_) => unreachable!(),
    }
}

/// A phase begins. One that is going on goes on.
fn begin_sending(side: &mut SendSide)
    ensures { side.new ≡ begun_sender side.old }
{
    let _ = side.start();
}

fn begin_receiving(side: &mut RecvSide)
    ensures { side.new ≡ begun_receiver side.old }
{
    let _ = side.start();
}

/// The sender's side of a link begins a phase, where none is going on.
fn begin_sender(sends: &mut Vec<(u8, SendSide)>, link: u8)
    ensures { sends.new.items ≡ changed_side link begun_sender sends.old.items }
{
    if let Some(at) = find(sends.as_slice(), link) {
        begin_sending(&mut sends[at].1);
    }
}

/// The receiver's side of a link begins a phase, where none is going on.
fn begin_receiver(recvs: &mut Vec<(u8, RecvSide)>, link: u8)
    ensures { recvs.new.items ≡ changed_side link begun_receiver recvs.old.items }
{
    if let Some(at) = find(recvs.as_slice(), link) {
        begin_receiving(&mut recvs[at].1);
    }
}

/// Begins a phase on both sides of a link, so far as they are here and none is going on there. With `None` nothing
/// changes.
pub fn begin(sends: &mut Vec<(u8, SendSide)>, recvs: &mut Vec<(u8, RecvSide)>, link: Option<u8>)
    ensures sends { sends.new.items ≡ begun_at link begun_sender sends.old.items }
    ensures recvs { recvs.new.items ≡ begun_at link begun_receiver recvs.old.items }
{
    if let Some(link) = link {
        begin_sender(sends, link);
        begin_receiver(recvs, link);
    }
}

fn follow_sending(side: &mut SendSide, was: SendPhase, now: SendPhase)
    requires { SendingMay was now side.old }
    ensures { side.new ≡ followed_sender was now side.old }
{
    if was.parts == 0 && now.parts != 0 {
        side.shape(now.parts, now.size);
    }
}

/// Gives the sender's side of a link, if it is here, the shape that its phase got, if it got one. Other sides stay as
/// they are.
pub fn follow_sender(sends: &mut Vec<(u8, SendSide)>, link: u8, was: SendPhase, now: SendPhase)
    requires { IfSome (side_of link sends.old.items) (SendingMay was now) }
    ensures { sends.new.items ≡ changed_side link (followed_sender was now) sends.old.items }
{
    if let Some(at) = find(sends.as_slice(), link) {
        follow_sending(&mut sends[at].1, was, now);
    }
}

fn follow_receiving(side: &mut RecvSide, was: RecvPhase, now: RecvPhase)
    requires { ReceivingMay was now side.old }
    ensures { side.new ≡ followed_receiver was now side.old }
{
    if was.parts == 0 && now.parts != 0 {
        side.shape(now.parts, now.size);
    } else if was.boxes == 0 && now.boxes != 0 {
        side.cut(now.boxes, now.bytes);
    }
}

/// Gives the receiver's side of a link, if it is here, the shape or the cut that its phase got, if it got one. Other
/// sides stay as they are.
pub fn follow_receiver(recvs: &mut Vec<(u8, RecvSide)>, link: u8, was: RecvPhase, now: RecvPhase)
    requires { IfSome (side_of link recvs.old.items) (ReceivingMay was now) }
    ensures { recvs.new.items ≡ changed_side link (followed_receiver was now) recvs.old.items }
{
    if let Some(at) = find(recvs.as_slice(), link) {
        follow_receiving(&mut recvs[at].1, was, now);
    }
}
