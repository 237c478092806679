//! What two ranks know of each other by a box of theirs.

ghost use Rattle.std.specs.Prelude.{◌≡◌, ℕ, List, Some};
ghost use Rattle.part_box.specs.Rule.{GateRule};
ghost use Rattle.part_box.specs.declared.view.Receiving.{Receiving};
ghost use Rattle.part_box.specs.declared.view.Sending.{Sending};
ghost use Rattle.part_phase.specs.Limits.{box_words};
ghost use Rattle.cl_sides.specs.Sides.{AreChannelsOf, receiver_of, sender_of};
ghost use Rattle.cl_rank.specs.Views.{view_of};

use crate::ranks::Rank;
use cl_sides::{BoxId, find};
use part_channel::Channel;

/// Tells who has both ranks of a box on one thread what its two keys know of each other. Nothing changes.
///
/// The sender's rank has the sender's key of the box, the receiver's rank the other one; `channels` are those of all
/// links, by number.
pub fn agree(sender: &mut Rank, receiver: &mut Rank, channels: &[Channel], place: BoxId)
    requires sender { AreChannelsOf sender.old.state.site.version channels.now (view_of sender.old).sides }
    requires receiver { AreChannelsOf receiver.old.state.site.version channels.now (view_of receiver.old).sides }
    requires sends { (s : Sending) × (sender_of (view_of sender.old).sides place.link place.part ≡ Some s) }
    requires receives { (r : Receiving) × (receiver_of (view_of receiver.old).sides place.link place.part ≡ Some r) }
    ensures sender { sender.new ≡ sender.old }
    ensures receiver { receiver.new ≡ receiver.old }
    ensures agreed { (s : Sending) (r : Receiving)
        → sender_of (view_of sender.old).sides place.link place.part ≡ Some s
        → receiver_of (view_of receiver.old).sides place.link place.part ≡ Some r
        → (words : List ℕ) × GateRule (box_words sender.old.state.site.version) words s r }
{
    let Some(from) = find(sender.sends.as_slice(), place.link) else {
        unreachable!()
    };
    let Some(to) = find(receiver.recvs.as_slice(), place.link) else {
        unreachable!()
    };
    let send = &mut sender.sends[from].1;
    let recv = &mut receiver.recvs[to].1;
    // ghost: brings into scope what both sides keep; no effect at run time
    let _sends = send.next();
    let _receives = recv.next();
    channels[place.link as usize].agree(send, recv, place.part);
}
