//! The boxes of a channel.
ghost use Rattle.std.specs.Prelude.{◌≡◌, ◌⊎◌, ℕ, ◌-◌, ◌<◌, List, IfOk, map, length, slice_get, Some};
ghost use Rattle.part_box.specs.Keys.{Sender, Receiver};
ghost use Rattle.part_box.specs.Rule.{GateRule};
ghost use Rattle.part_channel.specs.Channels.{sender_box, receiver_box};
ghost use Rattle.part_channel.specs.Settling.{IsLeft};
ghost use Rattle.part_channel.specs.Sending.{new_send_side, IsPast};
ghost use Rattle.part_channel.specs.Receiving.{new_recv_side};

use crate::receiving::RecvSide;
use crate::sending::SendSide;
use part_box::{PartBox, Settled};
use std::alloc::{AllocError, Global};
use std::marker::Model;

/// How many boxes a channel has.
const BOXES: usize = 16;

// What an empty box is left with.
const NOTHING: Settled = Settled {
    full: false,
    stamp: 0,
    words: [0; 16],
};

/// Sixteen boxes side by side. Contracts see which boxes they are and how many data words each has.
#[derive(Drop)]
pub struct Channel {
    pub(crate) boxes: Vec<PartBox>,
    pub(crate) width: usize,
}

impl Model for Channel {
    ghost use Rattle.std.specs.Prelude.{map};
    ghost use Rattle.part_channel.specs.Channels.{ChannelView, IsChannel, box_of};

    ghost Value = { ChannelView };

    ghost view = { λ c. record { boxes = map box_of c.boxes.items; width = c.width } };

    ghost invariant = { λ c. IsChannel c.boxes.items c.width };
}

impl Channel {
    /// Sixteen empty boxes of 8 or 16 data words, and the two sides of them. Neither side has a shape yet.
    pub fn new(alloc: Global, width: usize) -> Result<(Channel, SendSide, RecvSide), AllocError>
        requires wide { (width ≡ 8) ⊎ (width ≡ 16) }
        ensures wide { IfOk result (λ r. r.0.width ≡ width) }
        ensures sends { IfOk result (λ r. r.1 ≡ new_send_side r.0.boxes) }
        ensures receives { IfOk result (λ r. r.2 ≡ new_recv_side r.0.boxes) }
        // So both sides are this channel's, and any clock will do for the first call.
        ensures own { IfOk result (λ r.
            (map sender_box r.1.keys ≡ r.0.boxes) × (map receiver_box r.2.keys ≡ r.0.boxes)) }
        ensures past { IfOk result (λ r. (clock : ℕ) → IsPast r.1 clock) }
    {
        let mut boxes = Vec::with_capacity(alloc, BOXES)?;
        let mut sends = Vec::with_capacity(alloc, BOXES)?;
        let mut recvs = Vec::with_capacity(alloc, BOXES)?;
        for i in 0..BOXES {
            let (place, send, recv) = PartBox::new(alloc, width)?;
            boxes.push_reserved(place);
            sends.push_reserved(send);
            recvs.push_reserved(recv);
        }
        let channel = Channel { boxes, width };
        Ok((channel, SendSide::over(sends), RecvSide::over(recvs)))
    }

    /// What the two keys of one box know of each other: the gate rule of that box holds of them.
    ///
    /// It is for who holds both sides, as the driver of all ranks on one thread does between two turns: `take` and
    /// `test` tell what a gate word showed, and this tells what that means. Nothing is changed; it costs four loads.
    ///
    /// Both sides are this channel's, and there is such a box.
    pub fn agree(&self, send: &mut SendSide, recv: &mut RecvSide, part: u8)
        requires sender { map sender_box send.old.keys ≡ self.now.boxes }
        requires receiver { map receiver_box recv.old.keys ≡ self.now.boxes }
        requires there { part < 16 }
        ensures sender { send.new ≡ send.old }
        ensures receiver { recv.new ≡ recv.old }
        ensures agreed { (s : Sender) (r : Receiver)
            → slice_get send.old.keys part ≡ Some s → slice_get recv.old.keys part ≡ Some r
            → (words : List ℕ) × GateRule self.now.width words s.view r.view }
    {
        let at = part as usize;
        self.boxes[at].agree(&mut send.keys[at], &mut recv.keys[at]);
    }

    /// What is left in each box at the end, by its number.
    ///
    /// What was got from each box is the beginning of what was made there, stamps included; a box is full exactly
    /// where one thing that was made wasn't taken. Both sides are this channel's.
    pub fn settle(self, send: SendSide, recv: RecvSide) -> [Settled; 16]
        requires sender { map sender_box send.keys ≡ self.boxes }
        requires receiver { map receiver_box recv.keys ≡ self.boxes }
        ensures settled { IsLeft self.width send.keys recv.keys result }
    {
        let Channel {
            mut boxes,
            width: _,
        } = self;
        let mut sends = send.into_keys();
        let mut recvs = recv.into_keys();
        let mut left = [NOTHING; BOXES];
        for i in 0..BOXES {
            let place = boxes.pop().unwrap();
            let send = sends.pop().unwrap();
            let recv = recvs.pop().unwrap();
            left[BOXES - 1 - i] = place.settle(send, recv);
        }
        left
    }
}
