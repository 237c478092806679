//! A new post among those that aren't over.

ghost use Rattle.std.specs.Prelude.{◌≡◌, ℕ, length, None, OnErr, OnOk};
ghost use Rattle.mp_match.specs.Live.{kept};
ghost use Rattle.mp_match.specs.InnerLive.{entered, kept_post, post_at};
ghost use Rattle.mp_match.specs.Pairs.{add, partner_for};
ghost use Rattle.mp_match.specs.Queued.{queue};
ghost use Rattle.mp_match.specs.Waiting.{receive_key};
ghost use Rattle.mp_match.specs.Queues.{AreQueued, message_key};

use crate::history::History;
use crate::live::Live;
use crate::posts::Post;
use crate::table::Table;
use crate::waiting::Waiting;
use std::alloc::AllocError;

fn post_at(table: &Table, place: Option<u64>) -> Option<Post>
    ensures { result ≡ kept_post (kept table.now.map) place }
{
    match place {
        None => None,
        Some(place) => table.post(place),
    }
}

/// Puts a new post, at that place, among those that aren't over: it waits, or its partner is told. After a refusal for
/// memory all is as it was.
pub fn enter(
    history: &History,
    table: &mut Table,
    waiting: &mut Waiting,
    place: u64,
    new: Live,
) -> Result<(), AllocError>
    requires place { place ≡ length history.now.board.lines }
    requires partner { new.line.partner ≡ partner_for history.now.board.lines new.line.post }
    requires there { kept_post (kept table.old.map) new.line.partner
        ≡ post_at history.now.board.lines new.line.partner }
    requires free { kept table.old.map place ≡ None }
    requires messages { AreQueued message_key (queue waiting.old.messages.map) history.now.board.lines }
    requires receives { AreQueued receive_key (queue waiting.old.receives.map) history.now.board.lines }
    ensures table { OnOk result ((k : ℕ) →
        kept table.new.map k ≡ entered (kept table.old.map) place new new.line.partner k) }
    ensures messages { OnOk result (AreQueued message_key (queue waiting.new.messages.map)
        (add history.now.board.lines new.line.post)) }
    ensures receives { OnOk result (AreQueued receive_key (queue waiting.new.receives.map)
        (add history.now.board.lines new.line.post)) }
    ensures err_table { OnErr result ((k : ℕ) → kept table.new.map k ≡ kept table.old.map k) }
    ensures err_messages { OnErr result
        (AreQueued message_key (queue waiting.new.messages.map) history.now.board.lines) }
    ensures err_receives { OnErr result
        (AreQueued receive_key (queue waiting.new.receives.map) history.now.board.lines) }
{
    let line = new.line;
    let post = post_at(table, line.partner);
    table.insert(place, new)?;
    if waiting.add(history, place, line.post, post).is_err() {
        table.remove(place);
        return Err(AllocError);
    }
    if let Some(partner) = line.partner {
        table.set_partner(partner, place);
    }
    Ok(())
}
