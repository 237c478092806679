//! Messages and their bytes, by sender and receiver.

ghost use Rattle.std.specs.Prelude.{[], ◌∷◌, IfOk, option_to_list};
ghost use Rattle.std.specs.List.{filter_map};
ghost use Rattle.rvmc_stats.specs.Counted.{messages_by_kind, messages_by_reply, received_by};
ghost use Rattle.rvmc_stats.specs.Tables.{AreOfMail};
ghost use Rattle.rvmc_stats.specs.Adding.{AddsMail};

use crate::grid::Grid;
use cl_machine::{KindRef, Step};
use mp_types::{Message, Reply};
use std::alloc::{AllocError, Global};

/// How many messages of each rank each other received, and how many bytes they have: a row a sender, a column a receiver.
#[derive(Drop)]
pub struct Mail {
    pub(crate) messages: Grid,
    pub(crate) bytes: Grid,
}

impl Mail {
    /// No messages between so many ranks. The only error is want of memory.
    #[tactic(auto, using(crate::proofs::Mails::no_mail))]
    pub(crate) fn new(alloc: Global, ranks: usize) -> Result<Mail, AllocError>
        ensures { IfOk result (λ mail. AreOfMail ranks [] mail) }
    {
        let messages = Grid::new(alloc, ranks, ranks)?;
        let bytes = Grid::new(alloc, ranks, ranks)?;
        Ok(Mail { messages, bytes })
    }

    /// Adds a message that this rank received.
    fn add(&mut self, to: u8, message: &Message)
        ensures { AddsMail self.old (received_by to (message.now ∷ [])) self.new }
    {
        let from = usize::from(message.envelope.source);
        let to = usize::from(to);
        self.messages.add(from, to, 1);
        self.bytes.add(from, to, u64::from(message.bytes.count()));
    }

    /// Adds one of several messages, if there is one.
    #[tactic(auto, using(crate::proofs::Mails::none_more))]
    fn add_if_any(&mut self, to: u8, got: &Option<Message>)
        ensures { AddsMail self.old (received_by to (option_to_list got.now)) self.new }
    {
        if let Some(message) = got {
            self.add(to, message);
        }
    }

    /// Adds several messages.
    fn add_all(&mut self, to: u8, gots: &[Option<Message>])
        ensures { AddsMail self.old (received_by to (filter_map (λ got. got) gots.now)) self.new }
    {
        for got in gots {
            self.add_if_any(to, got);
        }
    }

    /// Adds the messages that a reply brings.
    #[tactic(auto, using(crate::proofs::Mails::none_more))]
    fn add_reply(&mut self, to: u8, reply: &Reply)
        ensures { AddsMail self.old (received_by to (messages_by_reply reply.now)) self.new }
    {
        match reply {
            Reply::Got(message) => self.add(to, message),
            Reply::AllGot(gots) => self.add_all(to, gots.as_slice()),
            _ => {}
        }
    }

    /// Adds the messages that a step brought its rank.
    #[tactic(auto, using(crate::proofs::Mails::none_more))]
    pub(crate) fn add_step(&mut self, step: &Step)
        ensures { AddsMail self.old (received_by step.now.rank (messages_by_kind step.now.kind)) self.new }
    {
        match step.kind() {
            KindRef::Hub(reply) => self.add_reply(step.rank(), reply),
            KindRef::Bare(_) => {}
        }
    }
}
