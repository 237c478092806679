//! A stream of packets, read byte by byte.

ghost use Rattle.std.specs.Prelude.{◌≡◌, IfOk, OnErr, OnOk};
ghost use Rattle.rvmc_protocol.specs.Packets.Frames.{acknowledgement, asked, message_of};
ghost use Rattle.rvmc_protocol.specs.Packets.Reading.{begun, longer, next_place, outside_of, place_after, told};

use crate::packets::sums::is_sum;
use crate::packets::texts::{Payload, payload_in};
use std::alloc::{AllocError, Global};
use std::marker::Model;

/// What a client's bytes tell.
#[derive(Drop)]
pub enum Message {
    /// A packet with this payload, whose sum is right.
    Packet(Payload),
    /// A packet with another sum, or with a text that carries no payload.
    Wrong,
    /// The last packet is wanted again.
    Again,
    /// The last packet has arrived.
    Arrived,
}

/// Where a stream stands.
#[derive(Clone, Copy)]
pub(crate) enum Stage {
    /// In no packet.
    Outside,
    /// In the text of a packet.
    Text,
    /// In the text of a packet that is too long.
    Beyond,
    /// Behind the `#` of a packet.
    Sum,
    /// Behind the first digit of the sum.
    Digit(u8),
}

/// A stream of packets of which so many bytes are read. It keeps at most as many bytes as the text of a packet may have.
/// Contracts see where the stream stands.
#[derive(Drop)]
pub struct Reader {
    most: usize,
    stage: Stage,
    text: Vec<u8>,
}

impl Model for Reader {
    ghost use Rattle.rvmc_protocol.specs.Packets.Reading.{Place};

    ghost Value = { Place };

    ghost view = { λ reader. record { most = reader.most; stage = reader.stage; text = reader.text.items } };
}

impl Reader {
    /// A stream of which nothing is read yet. Texts of more than `most` bytes are passed over.
    pub fn new(alloc: Global, most: usize) -> Reader
        ensures { result ≡ outside_of most }
    {
        Reader {
            most,
            stage: Stage::Outside,
            text: Vec::new(alloc),
        }
    }

    /// Goes to where nothing is begun.
    fn leave(&mut self)
        ensures { self.new ≡ outside_of self.old.most }
    {
        self.stage = Stage::Outside;
        self.text.clear();
    }

    /// Goes to behind the `$` of a packet.
    fn begin(&mut self)
        ensures { self.new ≡ begun self.old.most }
    {
        self.stage = Stage::Text;
        self.text.clear();
    }

    /// Adds a byte of a text, where there is room.
    fn lengthen(&mut self, byte: u8) -> Result<(), AllocError>
        ensures read { OnOk result (self.new ≡ longer self.old.most self.old.text byte) }
        ensures unchanged { OnErr result (self.new ≡ self.old) }
    {
        if self.text.len() < self.most {
            self.text.push(byte)?;
            self.stage = Stage::Text;
        } else {
            self.stage = Stage::Beyond;
            self.text.clear();
        }
        Ok(())
    }

    /// The next byte of the text of a packet.
    fn take_text(&mut self, byte: u8) -> Result<(), AllocError>
        ensures read { OnOk result (self.new ≡ place_after self.old.most Stage.Text self.old.text byte) }
        ensures unchanged { OnErr result (self.new ≡ self.old) }
    {
        match byte {
            b'$' => self.begin(),
            b'#' => self.stage = Stage::Sum,
            _ => self.lengthen(byte)?,
        }
        Ok(())
    }

    /// The next byte of the text of a packet that is too long.
    fn pass_over(&mut self, byte: u8)
        ensures { self.new ≡ place_after self.old.most Stage.Beyond self.old.text byte }
    {
        match byte {
            b'$' => self.begin(),
            b'#' => self.leave(),
            _ => {
                self.text.clear();
                self.stage = Stage::Beyond;
            }
        }
    }

    /// The next byte outside a packet.
    fn take_outside(&mut self, byte: u8)
        ensures { self.new ≡ place_after self.old.most Stage.Outside self.old.text byte }
    {
        if byte == b'$' {
            self.begin();
        } else {
            self.leave();
        }
    }

    /// The last byte of a packet's sum, behind this one: what the packet tells.
    fn take_end(&mut self, alloc: Global, high: u8, byte: u8) -> Result<Message, AllocError>
        ensures told { IfOk result (λ message. message ≡ message_of self.old.text high byte) }
        ensures read { OnOk result (self.new ≡ outside_of self.old.most) }
        ensures unchanged { OnErr result (self.new ≡ self.old) }
    {
        let message = message_of(alloc, self.text.as_slice(), high, byte)?;
        self.leave();
        Ok(message)
    }

    /// Takes the next byte of the stream, and tells what it ends, if it does. Where memory is refused the stream stands
    /// where it stood, as if the byte hadn't come.
    pub fn take(&mut self, alloc: Global, byte: u8) -> Result<Option<Message>, AllocError>
        ensures told { IfOk result (λ message. message ≡ told self.old byte) }
        ensures read { OnOk result (self.new ≡ next_place self.old byte) }
        ensures unchanged { OnErr result (self.new ≡ self.old) }
    {
        match self.stage {
            Stage::Outside => {
                self.take_outside(byte);
                Ok(asked(byte))
            }
            Stage::Text => {
                self.take_text(byte)?;
                Ok(None)
            }
            Stage::Beyond => {
                self.pass_over(byte);
                Ok(None)
            }
            Stage::Sum => {
                self.stage = Stage::Digit(byte);
                Ok(None)
            }
            Stage::Digit(high) => {
                let message = self.take_end(alloc, high, byte)?;
                Ok(Some(message))
            }
        }
    }
}

/// What a byte outside a packet says.
fn asked(byte: u8) -> Option<Message>
    ensures { result ≡ asked byte }
{
    match byte {
        b'-' => Some(Message::Again),
        b'+' => Some(Message::Arrived),
        _ => None,
    }
}

/// What a text with these two bytes behind its `#` tells.
#[tactic(auto, unfolding(crate::specs::Packets::Frames::message_of))]
fn message_of(alloc: Global, text: &[u8], high: u8, low: u8) -> Result<Message, AllocError>
    ensures { IfOk result (λ message. message ≡ message_of text.now high low) }
{
    if !is_sum(text, high, low) {
        return Ok(Message::Wrong);
    }
    match payload_in(alloc, text)? {
        Some(payload) => Ok(Message::Packet(payload)),
        None => Ok(Message::Wrong),
    }
}

/// What is answered to a message at once: `+` to a packet and `-` to a wrong one, unless the client wants no such
/// answers.
pub fn acknowledgement(wanted: bool, message: &Message) -> &'static [u8]
    ensures { result.now ≡ acknowledgement wanted message.now }
{
    if !wanted {
        return b"";
    }
    match message {
        Message::Packet(_) => b"+",
        Message::Wrong => b"-",
        Message::Again | Message::Arrived => b"",
    }
}
