//! Posts of `mp_match` and claims of `mp_probe` on the boards of one message.

ghost use Rattle.std.specs.Prelude.{◌≡◌, ◌≢◌, ◌-◌, ◌<◌, ◌^◌, length, IfOk, OnOk};
ghost use Rattle.mp_match.specs.Board.{held_count};
ghost use Rattle.test_messages.specs.Boards.{envelope, message, one_collected, one_received, one_sent};

use mp_match::{PostFault, Queues, Selection, Sent};
use mp_probe::{ClaimFault, Claims};
use mp_types::{Bytes, Envelope, Message};
use std::alloc::{AllocError, Global};

// Rank 1 takes whatever there is.
const ANY: Selection = Selection {
    rank: 1,
    comm: 0,
    source: None,
    tag: None,
};

/// What is posted is a receive, and the message is its.
pub fn one_posted(queues: &mut Queues) -> Result<(), AllocError>
    requires { queues.old ≡ one_sent }
    ensures { OnOk result (queues.new ≡ one_received) }
{
    queues.post_recv(ANY)
}

/// Where 65,535 messages are held there is room for one more.
pub fn last_place(queues: &mut Queues, sent: Sent, bytes: Bytes) -> Result<bool, PostFault>
    requires room { length queues.old.lines < 2 ^ 64 - 1 }
    requires held { held_count queues.old.bodies ≡ 65535 }
    ensures { result ≢ Err PostFault.Full }
{
    queues.post_send(sent, bytes)
}

/// A receive takes the message at once, and it isn't held any more.
pub fn received_at_once(
    alloc: Global,
    queues: &mut Queues,
    twin: &mut Option<Message>,
) -> Result<Option<Message>, AllocError>
    requires { queues.old ≡ one_sent }
    ensures message { IfOk result (λ got. got ≡ Some message) }
    ensures after { OnOk result (queues.new ≡ one_collected) }
{
    queues.receive_with(alloc, ANY, twin)
}

/// A claim has the number of its own post, which is 2 here.
pub fn one_claimed(
    claims: &mut Claims,
    queues: &mut Queues,
) -> Result<Option<(u64, Envelope)>, ClaimFault>
    requires { queues.old ≡ one_sent }
    ensures { IfOk result (λ held. held ≡ Some (2, envelope)) }
{
    claims.claim(queues, ANY)
}
