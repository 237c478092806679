//! Posts and pairs of `mp_match`. Most speak of the boards of one message that `specs/Boards.antt` writes down.

ghost use Rattle.std.specs.Prelude.{◌≡◌, ◌-◌, ◌<◌, ◌^◌, ◌↔◌, true, false, length, IfOk, IsTrue};
ghost use Rattle.mp_match.specs.Pairs.{partner_for};
ghost use Rattle.mp_match.specs.declared.posts.Post.TheVariants as post;
ghost use Rattle.test_messages.specs.Accepted.{RefusesOthers};
ghost use Rattle.test_messages.specs.Boards.{message, one_claim_collected, one_claimed, one_collected, one_received};
ghost use Rattle.test_messages.specs.Boards.{one_sent};

use mp_match::{PostFault, Queues, Selection, Sent};
use mp_types::{Bytes, Envelope, Message};

/// No message is accepted that goes to another rank, stands in another communicator, or has another source or tag.
pub fn others_are_refused()
    ensures { RefusesOthers }
{}

/// A probe of another communicator doesn't show the message.
pub fn probed_elsewhere(queues: &Queues) -> Option<Envelope>
    requires { queues.now ≡ one_sent }
    ensures { result ≡ None }
{
    queues.probe(Selection {
        rank: 1,
        comm: 1,
        source: None,
        tag: None,
    })
}

/// A probe for the messages of rank 1 doesn't show one of rank 0.
pub fn probed_for_another_source(queues: &Queues) -> Option<Envelope>
    requires { queues.now ≡ one_sent }
    ensures { result ≡ None }
{
    queues.probe(Selection {
        rank: 1,
        comm: 0,
        source: Some(1),
        tag: None,
    })
}

/// A claimed message isn't probed any more.
pub fn probed_after_a_claim(queues: &Queues) -> Option<Envelope>
    requires { queues.now ≡ one_claimed }
    ensures { result ≡ None }
{
    queues.probe(Selection {
        rank: 1,
        comm: 0,
        source: None,
        tag: None,
    })
}

/// A synchronous send isn't done where no receive waits for it.
pub fn synchronous_send_waits(
    queues: &mut Queues,
    sent: Sent,
    bytes: Bytes,
) -> Result<bool, PostFault>
    requires room { length queues.old.lines < 2 ^ 64 - 1 }
    requires sync { sent.sync ≡ true }
    requires alone { partner_for queues.old.lines (post.Send sent) ≡ None }
    ensures { IfOk result (λ done. done ≡ false) }
{
    queues.post_send(sent, bytes)
}

/// The send is that of rank 0, and of no other rank.
pub fn sender_of_one(queues: &Queues, rank: u8) -> bool
    requires { queues.now ≡ one_sent }
    ensures { IsTrue result ↔ (rank ≡ 0) }
{
    queues.is_send_of(rank, 1)
}

/// The claim is that of rank 1, and of no other rank.
pub fn claimer_of_one(queues: &Queues, rank: u8) -> bool
    requires { queues.now ≡ one_claimed }
    ensures { IsTrue result ↔ (rank ≡ 1) }
{
    queues.is_receive_of(rank, 2)
}

/// A send whose message was claimed is paired.
pub fn claimed_send_is_paired(queues: &Queues) -> bool
    requires { queues.now ≡ one_claimed }
    ensures { result ≡ true }
{
    queues.has_partner(1)
}

/// A claim goes by its number, which is 2 here.
pub fn claim_of_one(queues: &Queues) -> Option<u64>
    requires { queues.now ≡ one_claimed }
    ensures { result ≡ Some 2 }
{
    queues.claim_of(1)
}

/// A synchronous send isn't finished where its message is only claimed.
pub fn claimed_send_is_unfinished(queues: &Queues) -> bool
    requires { queues.now ≡ one_claimed }
    ensures { result ≡ false }
{
    queues.finished(1)
}

/// It is once the claim was collected, when no claim is told any more.
pub fn claim_collected_finishes(queues: &Queues) -> (bool, Option<u64>)
    requires { queues.now ≡ one_claim_collected }
    ensures { result ≡ (true, None) }
{
    (queues.finished(1), queues.claim_of(1))
}

/// A claim that was collected counts as collected, and is collected in vain.
pub fn collected_claim_is_collected(queues: &mut Queues) -> (bool, Option<Message>)
    requires { queues.old ≡ one_claim_collected }
    ensures { result ≡ (true, None) }
{
    let collected = queues.is_collected(2);
    (collected, queues.collect(2))
}

/// A synchronous send is finished where a receive has its message.
pub fn received_send_is_finished(queues: &Queues) -> bool
    requires { queues.now ≡ one_received }
    ensures { result ≡ true }
{
    queues.finished(1)
}

/// A receive isn't collected while its message is held.
pub fn held_is_uncollected(queues: &Queues) -> bool
    requires { queues.now ≡ one_received }
    ensures { result ≡ false }
{
    queues.is_collected(2)
}

/// A receive is collected once its message isn't held any more.
pub fn gone_is_collected(queues: &Queues) -> bool
    requires { queues.now ≡ one_collected }
    ensures { result ≡ true }
{
    queues.is_collected(2)
}

/// Collecting the receive gives the message as it was sent, and it isn't held any more.
pub fn collected_once(queues: &mut Queues) -> Option<Message>
    requires { queues.old ≡ one_received }
    ensures message { result ≡ Some message }
    ensures after { queues.new ≡ one_collected }
{
    queues.collect(2)
}
