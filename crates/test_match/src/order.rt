//! What is matched on boards of two posts or three, which `specs/Boards.antt` writes down.

ghost use Rattle.std.specs.Prelude.{◌≡◌, ◌∷◌, [], false, true, None, Some, IfOk};
ghost use Rattle.mp_match.specs.Board.{held_count, no_posts};
ghost use Rattle.test_match.specs.Boards.{envelope, bodies_left, lines_received, one_received, receive_of_any, sending, sending_in, two_receives, two_sent};

use mp_match::{Line, PostFault, Queues, Selection, Sent};
use mp_types::{Bytes, Envelope, Message};
use std::alloc::{AllocError, Global};

// Rank 1 takes any tag of rank 0.
const ANY_TAG: Selection = Selection {
    rank: 1,
    comm: 0,
    source: Some(0),
    tag: None,
};

/// Of two messages the earlier is found, whatever their tags: here it has the higher one.
pub fn earlier_message_is_found(queues: &Queues) -> Option<Envelope>
    requires { queues.now ≡ two_sent }
    ensures { result ≡ Some (envelope 9) }
{
    queues.probe(ANY_TAG)
}

/// A message in another communicator isn't found, though its source and tag are asked for.
pub fn other_communicator_is_not_found(queues: &Queues) -> Option<Envelope>
    requires { queues.now ≡ two_sent }
    ensures { result ≡ None }
{
    queues.probe(Selection {
        rank: 1,
        comm: 1,
        source: Some(0),
        tag: Some(3),
    })
}

/// A message that was sent in another communicator isn't found, though its source and tag are asked for.
pub fn message_of_another_communicator_is_not_found(
    queues: &mut Queues,
    sent: Sent,
    bytes: Bytes,
) -> Result<Option<Envelope>, PostFault>
    requires board { queues.old ≡ no_posts }
    requires sent { sent ≡ sending_in 1 3 }
    ensures { IfOk result (λ found. found ≡ None) }
{
    queues.post_send(sent, bytes)?;
    Ok(queues.probe(ANY_TAG))
}

/// A copy has the messages, the earlier before the later.
pub fn copy_has_the_messages(alloc: Global, queues: &Queues) -> Result<Option<Envelope>, AllocError>
    requires { queues.now ≡ two_sent }
    ensures { IfOk result (λ found. found ≡ Some (envelope 9)) }
{
    let copy = queues.try_copy(alloc)?;
    Ok(copy.probe(ANY_TAG))
}

/// Queues that are made anew of a send that was collected and of one that waits say so: the receive is collected, the
/// later message is found, and what the last send compared is what was told.
pub fn made_anew(
    alloc: Global,
    lines: &[Line],
    bodies: &[Option<Bytes>],
) -> Result<(bool, Option<Envelope>, u64), AllocError>
    requires lines { lines.now ≡ lines_received }
    requires bodies { bodies.now ≡ bodies_left }
    ensures { IfOk result (λ found. found ≡ (true, Some (envelope 3), 2)) }
{
    let queues = Queues::of(alloc, lines, bodies, 2)?;
    Ok((
        queues.is_collected(3),
        queues.probe(ANY_TAG),
        queues.compared(),
    ))
}

/// A receive of any tag is given the earlier of two messages, and the later has no partner.
pub fn earlier_message_is_received(queues: &mut Queues) -> Result<(bool, bool), AllocError>
    requires { queues.old ≡ two_sent }
    ensures { IfOk result (λ given. given ≡ (true, false)) }
{
    queues.post_recv(ANY_TAG)?;
    Ok((queues.has_partner(1), queues.has_partner(2)))
}

/// Once the earlier is claimed, the later is found.
pub fn claimed_message_is_not_found(queues: &mut Queues) -> Result<Option<Envelope>, AllocError>
    requires { queues.old ≡ two_sent }
    ensures { IfOk result (λ found. found ≡ Some (envelope 3)) }
{
    queues.claim(ANY_TAG)?;
    Ok(queues.probe(ANY_TAG))
}

/// A message is collected once, and isn't held any more: what is held is the other.
pub fn message_is_collected_once(queues: &mut Queues) -> (Option<Message>, Option<Message>)
    requires { queues.old ≡ one_received }
    ensures messages { result ≡ (Some (record { envelope = envelope 9; bytes = 1 ∷ [] }), None) }
    ensures held { held_count queues.new.bodies ≡ 1 }
{
    let first = queues.collect(3);
    (first, queues.collect(3))
}

/// The earlier receive, of any tag, is given a message that both accept; the later one, of its own tag, is given none.
pub fn earlier_receive_is_served(
    queues: &mut Queues,
    sent: Sent,
    bytes: Bytes,
) -> Result<(bool, bool), PostFault>
    requires board { queues.old ≡ two_receives }
    requires sent { sent ≡ sending 3 }
    ensures { IfOk result (λ given. given ≡ (true, false)) }
{
    queues.post_send(sent, bytes)?;
    Ok((queues.has_partner(1), queues.has_partner(2)))
}

/// A send compares both receives that wait for it.
pub fn two_are_compared(queues: &mut Queues, sent: Sent, bytes: Bytes) -> Result<bool, PostFault>
    requires board { queues.old ≡ two_receives }
    requires sent { sent ≡ sending 3 }
    ensures { IfOk result (λ _. queues.new.compared ≡ 2) }
{
    queues.post_send(sent, bytes)
}

/// A receive of any source and any tag is compared too.
pub fn receive_of_any_is_compared(
    queues: &mut Queues,
    sent: Sent,
    bytes: Bytes,
) -> Result<bool, PostFault>
    requires board { queues.old ≡ receive_of_any }
    requires sent { sent ≡ sending 3 }
    ensures { IfOk result (λ _. queues.new.compared ≡ 1) }
{
    queues.post_send(sent, bytes)
}
