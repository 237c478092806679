//! The session over a stream of bytes.

ghost use Rattle.std.specs.Prelude.{◌≡◌, ◌++◌, IfOk, List, OnOk, ℕ};
ghost use Rattle.rvmc_protocol.specs.Packets.Frames.{packet_of};
ghost use Rattle.rvmc_gdb.specs.Talks.{is_unread};

use crate::answers::{MOST, kills, leaves, quiets};
use crate::session::Session;
use rvmc_protocol::packets::{Message, Payload, Reader, acknowledgement, put_packet};
use rvmc_protocol::requests::{Request, request_in};
use std::alloc::{AllocError, Global};
use std::marker::Model;

/// Whether a session goes on.
#[derive(Clone, Copy)]
pub enum Flow {
    /// Further packets are answered.
    On,
    /// The client has left: nothing is answered any more.
    Ended,
}

/// Whether this is the payload whose answer the client doesn't say that it has.
fn is_unread(unread: &Option<Payload>, payload: &[u8]) -> bool
    ensures { result ≡ is_unread unread.now payload.now }
{
    match unread {
        Some(before) => before.as_slice() == payload,
        None => false,
    }
}

/// A session, and what was read of the stream of its packets. Contracts see how both stand, whether packets are
/// acknowledged, which one was written last, and whether the client has left.
#[derive(Drop)]
pub struct Server {
    alloc: Global,
    session: Session,
    reader: Reader,
    /// Whether packets are acknowledged.
    wanted: bool,
    /// The last packet that was written.
    last: Vec<u8>,
    /// The payload that it answers, as long as the client doesn't say that it has arrived.
    unread: Option<Payload>,
    ended: bool,
}

impl Model for Server {
    ghost use Rattle.rvmc_gdb.specs.Talks.{Connection};

    ghost Value = { Connection };

    ghost view = { λ s. record {
      place = s.reader;
      talk = record { serving = s.session; wanted = s.wanted; last = s.last.items; unread = s.unread; ended = s.ended };
    } };
}

impl Server {
    ghost use Rattle.rvmc_gdb.specs.Talks.{Hears, HearsUnless, MeetsUnless, Meets, Replies, Serves, Takes, connected, flow_of, repeats, unread_by, written};

    /// A session of whose stream nothing is read yet.
    pub fn new(alloc: Global, session: Session) -> Server
        ensures { result ≡ connected session }
    {
        Server {
            alloc,
            session,
            reader: Reader::new(alloc, MOST),
            wanted: true,
            last: Vec::new(alloc),
            unread: None,
            ended: false,
        }
    }

    /// Whether the session goes on.
    fn flow(&self) -> Flow
        ensures { result ≡ flow_of self.now.talk.ended }
    {
        if self.ended { Flow::Ended } else { Flow::On }
    }

    /// The packet of an answer, unless the client wants none.
    fn written(&self, request: &Request, reply: &[u8]) -> Result<Vec<u8>, AllocError>
        ensures { IfOk result (λ text. text.items ≡ written request.now reply.now) }
    {
        let mut packet = Vec::new(self.alloc);
        if !kills(request) {
            put_packet(self.alloc, &mut packet, reply)?;
        }
        Ok(packet)
    }

    /// This payload is answered, and the client doesn't say yet that the answer has arrived.
    fn await_arrival(&mut self, payload: Payload)
        ensures place { self.new.place ≡ self.old.place }
        ensures unread { self.new.talk ≡ unread_by self.old.talk payload }
    {
        self.unread = Some(payload);
    }

    /// Adds the answer to the request of a payload.
    fn hear(
        &mut self,
        out: &mut Vec<u8>,
        payload: Payload,
        request: &Request,
    ) -> Result<(), AllocError>
        ensures place { OnOk result (self.new.place ≡ self.old.place) }
        ensures hears { OnOk result ((text : List ℕ) × Hears self.old.talk payload request.now self.new.talk text
            × (out.new.items ≡ out.old.items ++ text)) }
    {
        let reply = self.session.answer(request)?;
        let packet = self.written(request, reply.as_slice())?;
        out.extend_from_slice(packet.as_slice())?;
        self.last = packet;
        self.wanted = self.wanted && !quiets(request);
        self.ended = leaves(request);
        self.await_arrival(payload);
        Ok(())
    }

    /// Whether a packet was answered, and comes once more before the client said that the answer has arrived.
    fn repeats(&self, payload: &[u8]) -> bool
        ensures { result ≡ repeats self.now.talk payload.now }
    {
        self.wanted && is_unread(&self.unread, payload)
    }

    /// Adds the answer to the request of a payload, but not twice.
    fn hear_once(&mut self, out: &mut Vec<u8>, payload: Payload) -> Result<(), AllocError>
        ensures place { OnOk result (self.new.place ≡ self.old.place) }
        ensures hears { OnOk result ((text : List ℕ)
            × HearsUnless (repeats self.old.talk payload) self.old.talk payload self.new.talk text
            × (out.new.items ≡ out.old.items ++ text)) }
    {
        if self.repeats(payload.as_slice()) {
            return Ok(());
        }
        let request = request_in(self.alloc, payload.as_slice())?;
        self.hear(out, payload, &request)
    }

    /// Adds what is answered to a message behind its acknowledgement.
    fn reply(&mut self, out: &mut Vec<u8>, message: Message) -> Result<(), AllocError>
        ensures place { OnOk result (self.new.place ≡ self.old.place) }
        ensures replies { OnOk result ((text : List ℕ) × Replies self.old.talk message self.new.talk text
            × (out.new.items ≡ out.old.items ++ text)) }
    {
        match message {
            Message::Packet(payload) => self.hear_once(out, payload),
            Message::Wrong => Ok(()),
            Message::Again => {
                out.extend_from_slice(self.last.as_slice())?;
                Ok(())
            }
            Message::Arrived => {
                self.unread = None;
                Ok(())
            }
        }
    }

    /// Adds what is answered to a message, unless the client has left.
    fn meet(&mut self, out: &mut Vec<u8>, message: Message) -> Result<(), AllocError>
        ensures place { OnOk result (self.new.place ≡ self.old.place) }
        ensures meets { OnOk result ((text : List ℕ)
            × MeetsUnless self.old.talk.ended self.old.talk message self.new.talk text
            × (out.new.items ≡ out.old.items ++ text)) }
    {
        if self.ended {
            return Ok(());
        }
        out.extend_from_slice(acknowledgement(self.wanted, &message))?;
        self.reply(out, message)
    }

    /// Takes the next byte of the stream, and adds what is written for it.
    fn take(&mut self, out: &mut Vec<u8>, byte: u8) -> Result<(), AllocError>
        ensures { OnOk result ((text : List ℕ) × Takes self.old byte self.new text
            × (out.new.items ≡ out.old.items ++ text)) }
    {
        match self.reader.take(self.alloc, byte)? {
            Some(message) => self.meet(out, message),
            None => Ok(()),
        }
    }

    /// Takes further bytes of the stream, and adds what is written for them: the answers to the packets that end in them,
    /// in order, each behind its acknowledgement. In which pieces the bytes come makes no difference (`pieces_law`), and
    /// the answers are those to the messages that the stream holds (`heard_law`). Texts of more than 16,384 bytes are
    /// passed over. The only error is want of memory: then the session may stand anywhere, and some of the answers may
    /// have been added.
    pub fn serve(&mut self, bytes: &[u8], out: &mut Vec<u8>) -> Result<Flow, AllocError>
        ensures serves { OnOk result ((text : List ℕ) × Serves self.old bytes.now self.new text
            × (out.new.items ≡ out.old.items ++ text)) }
        ensures flow { IfOk result (λ flow. flow ≡ flow_of self.new.talk.ended) }
    {
        for byte in bytes {
            self.take(out, *byte)?;
        }
        Ok(self.flow())
    }
}
