//! What threads leave behind, as a record.

ghost use Rattle.std.specs.Prelude.{length, map};
ghost use Rattle.cl_record.specs.Leaving.{HaveRoom, IsRecordOf, ends_of};
ghost use Rattle.cl_record.specs.Settling.{MaySettle};

use cl_journal::Hub;
use cl_record::{Done, Lists, Record};
use part_channel::Channel;
use std::collections::VecDeque;

/// The record of these ranks, of this hub and of these channels, in lists that have room for it.
pub(crate) fn leave(channels: Vec<Channel>, hub: Hub, done: VecDeque<Done>, lists: Lists) -> Record
    requires settle { MaySettle hub.links channels.items (map ends_of done.items) }
    requires room { HaveRoom (length done.items) (length hub.links) lists }
    ensures { IsRecordOf hub.links channels.items hub.entries done.items result }
{
    let mut lists = lists;
    for one in done {
        lists.add(one);
    }
    lists.close(hub, channels)
}
