//! What the boxes of all links are left with.

ghost use Rattle.std.specs.Prelude.{◌≡◌, ◌≢◌, ◌≤◌, ◌+◌, ℕ, List, [], Some, length, slice_get, vec_capacity};
ghost use Rattle.cl_rank.specs.RankSides.{side_of};
ghost use Rattle.cl_record.specs.Settling.{AreSidesOf, HasReceiverOf, HasSenderOf, IsAllSettled, IsFirstOf};
ghost use Rattle.cl_record.specs.Settling.{IsLinkSettled, Kept, MaySettle};

use crate::wiring::Ends;
use part_box::Settled;
use part_channel::{Channel, RecvSide, SendSide};
use rv_image_types::Link;

/// The place of the side of a link.
fn place_in<S>(sides: &[(u8, S)], link: u8) -> usize
    requires { (side : S) × (side_of link sides.now ≡ Some side) }
    ensures { IsFirstOf link sides.now result }
{
    for place in 0..sides.len() {
        if sides[place].0 == link {
            return place;
        }
    }
    unreachable!()
}

/// Takes the side of a link out of a rank's sides.
fn take_side<S: Drop>(sides: &mut Vec<(u8, S)>, link: u8) -> S
    requires { (side : S) × (side_of link sides.old.items ≡ Some side) }
    ensures side { side_of link sides.old.items ≡ Some result }
    ensures others { (other : ℕ) → other ≢ link → side_of other sides.new.items ≡ side_of other sides.old.items }
{
    let place = place_in(sides.as_slice(), link);
    let (_, side) = sides.remove(place);
    side
}

/// Takes the sender's side of a link out of the ends of its rank.
fn take_sender(ends: &mut Vec<Ends>, rank: u8, link: u8) -> SendSide
    requires { HasSenderOf link ends.old.items rank }
    ensures side { (own : Ends) → slice_get ends.old.items rank ≡ Some own
        → side_of link own.sends.items ≡ Some result }
    ensures kept { (were : List Ends) → Kept were ends.old.items link link
        → Kept were ends.new.items (link + 1) link }
{
    take_side(&mut ends[rank as usize].sends, link)
}

/// Takes the receiver's side of a link out of the ends of its rank.
fn take_receiver(ends: &mut Vec<Ends>, rank: u8, link: u8) -> RecvSide
    requires { HasReceiverOf link ends.old.items rank }
    ensures side { (own : Ends) → slice_get ends.old.items rank ≡ Some own
        → side_of link own.recvs.items ≡ Some result }
    ensures kept { (were : List Ends) → Kept were ends.old.items (link + 1) link
        → Kept were ends.new.items (link + 1) (link + 1) }
{
    take_side(&mut ends[rank as usize].recvs, link)
}

/// What the boxes of a link are left with. Its two sides are taken out of their ranks' ends.
fn settle_link(channel: Channel, links: &[Link], number: u8, ends: &mut Vec<Ends>) -> [Settled; 16]
    requires { AreSidesOf links.now ends.old.items number channel }
    ensures left { IsLinkSettled links.now ends.old.items number channel result }
    ensures kept { (were : List Ends) → Kept were ends.old.items number number
        → Kept were ends.new.items (number + 1) (number + 1) }
{
    let Link { from, to } = links[number as usize];
    let send = take_sender(ends, from, number);
    let recv = take_receiver(ends, to, number);
    channel.settle(send, recv)
}

/// What the boxes of each link are left with, by the number of the link, in a list that has room for it.
pub fn settle_all(
    channels: Vec<Channel>,
    links: &[Link],
    ends: Vec<Ends>,
    boxes: Vec<[Settled; 16]>,
) -> Vec<[Settled; 16]>
    requires ends { MaySettle links.now channels.items ends.items }
    requires empty { boxes.items ≡ [] }
    requires room { length links.now ≤ vec_capacity boxes }
    ensures { IsAllSettled links.now channels.items ends.items result.items }
{
    let mut ends = ends;
    let mut boxes = boxes;
    for channel in channels {
        let number = boxes.len();
        let left = settle_link(channel, links, number as u8, &mut ends);
        boxes.push_reserved(left);
    }
    boxes
}
