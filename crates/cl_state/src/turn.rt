//! A hart's turn under way: what it reads, and the part of its rank that it changes.

ghost use Rattle.std.specs.Prelude.{◌≡◌, ◌≤◌, ◌+◌, ◌++◌, ◌∷◌, [], IsTrue, length, nat_lt, take, vec_capacity, vec_len};
ghost use Rattle.rv_hart.specs.declared.state.Mode.TheVariants.{Running};
ghost use Rattle.rv_memory.specs.Memory.{bytes_of};
ghost use Rattle.mp_request.specs.Awaited.{is_new};
ghost use Rattle.mp_request.specs.Handles.{IsInactive};
ghost use Rattle.cl_state.specs.declared.row.Outcome.TheVariants as outcome;
ghost use Rattle.cl_state.specs.Told.{asking_again, done, ended, found as found_by, found_nothing, freed};
ghost use Rattle.cl_state.specs.Told.{not_yet as not_yet_of};
ghost use Rattle.cl_state.specs.Told.{opened, received, received_message, returned, waiting, with_status};
ghost use Rattle.cl_state.specs.Turn.{Becomes, HasPages, IsAble, part_in, with_memory};
ghost use Rattle.cl_state.specs.Writes.{IsEnough, bytes_from, how_many, message_into, statuses_from, writes_at_once};
ghost use Rattle.cl_state.specs.Written.{written as written_in};

use crate::pending::{Manner, Target};
use cl_calls::{ANY, NO_RANK, Site, position};
use mp_request::{OpenRequest, Progress, Requests};
use mp_types::{Code, Envelope, Message};
use part_phase::Phases;
use rv_decode::Reg;
use rv_hart::{Hart, Mode, Wait, step_with};
use rv_memory::{RankMemory, SparePages};

/// A hart's turn under way: what it reads, and the part of its rank that it changes.
#[derive(Drop)]
pub(crate) struct Turn<'a> {
    pub(crate) site: &'a Site,
    /// The hart's number.
    pub(crate) number: u8,
    /// The bytes that the turn puts behind the output.
    pub(crate) fresh: &'a [u8],
    pub(crate) hart: &'a mut Hart,
    pub(crate) memory: &'a mut RankMemory,
    /// Pages for what the turn writes.
    pub(crate) spares: &'a mut SparePages,
    pub(crate) requests: &'a mut Requests,
    pub(crate) phases: &'a mut Phases,
    pub(crate) out: &'a mut Vec<u8>,
}

/// The call returns with a code and a value.
#[tactic(auto, unfolding(crate::specs::Told::returned))]
fn return_to(hart: &mut Hart, code: Code, value: u64)
    ensures { hart.new ≡ returned code value hart.old }
{
    let next = hart.pc().wrapping_add(4);
    hart.set(Reg::new(10), u64::from(code.number()));
    hart.set(Reg::new(11), value);
    hart.set_pc(next);
    hart.set_mode(Mode::Running);
}

/// Writes bytes where they may be, in pages that are there or are spare. Takes no memory.
pub(crate) fn write_where_right(
    memory: &mut RankMemory,
    spares: &mut SparePages,
    address: u64,
    bytes: &[u8],
)
    requires { IsEnough memory.old.pages spares.old (bytes_from address (length bytes.now) ∷ []) }
    ensures written { memory.new ≡ written_in memory.old address bytes.now }
    ensures pages { how_many memory.new.pages + spares.new ≡ how_many memory.old.pages + spares.old }
{
    if !bytes.is_empty() {
        let _ = memory.write_with(spares, address, bytes);
    }
}

/// As many bytes as a buffer takes.
pub(crate) fn kept(capacity: u64, bytes: &[u8]) -> &[u8]
    ensures { result.now ≡ take capacity bytes.now }
{
    if bytes.len() as u64 <= capacity {
        bytes
    } else {
        &bytes[0..capacity as usize]
    }
}

/// Whether a message has more bytes than its buffer takes.
pub(crate) fn is_longer(capacity: u64, bytes: &[u8]) -> bool
    ensures { result ≡ nat_lt capacity (length bytes.now) }
{
    capacity < bytes.len() as u64
}

/// A status as a guest finds it: three words, low byte first.
pub(crate) fn status_bytes(source: u64, tag: u64, count: u64) -> [u8; 24]
    ensures { result ≡ bytes_of source 8 ++ bytes_of tag 8 ++ bytes_of count 8 }
{
    let s = source.to_le_bytes();
    let t = tag.to_le_bytes();
    let c = count.to_le_bytes();
    [
        s[0], s[1], s[2], s[3], s[4], s[5], s[6], s[7], t[0], t[1], t[2], t[3], t[4], t[5], t[6],
        t[7], c[0], c[1], c[2], c[3], c[4], c[5], c[6], c[7],
    ]
}

impl<'a> Turn<'a> {
    /// Writes a status, where one is wanted.
    #[tactic(auto, unfolding(crate::specs::Told::with_status))]
    pub(crate) fn write_status(&mut self, address: u64, source: u64, tag: u64, count: u64)
        requires { HasPages self.old (statuses_from address 1 ∷ []) }
        ensures { Becomes self.old self.new
            (with_memory (part_in self.old) (with_status self.old.memory.now address source tag count)) }
    {
        if address != 0 {
            let bytes = status_bytes(source, tag, count);
            write_where_right(self.memory, self.spares, address, &bytes);
        }
    }

    /// Ends the call with a code and a value.
    pub(crate) fn end(&mut self, code: Code, value: u64)
        ensures { Becomes self.old self.new (ended code value (part_in self.old)) }
    {
        return_to(self.hart, code, value);
    }

    /// The hart waits for a post.
    pub(crate) fn wait(&mut self, post: u64)
        ensures { Becomes self.old self.new (waiting post (part_in self.old)) }
    {
        self.hart.set_mode(Mode::Waiting(Wait::Post(post)));
    }

    /// The hart makes its call anew in its next turn.
    pub(crate) fn hold(&mut self)
        ensures { Becomes self.old self.new (asking_again (part_in self.old)) }
    {
        self.hart.set_mode(Mode::Waiting(Wait::Again));
    }

    /// What was asked for isn't there yet.
    pub(crate) fn not_yet(&mut self, manner: Manner)
        ensures { Becomes self.old self.new (not_yet_of manner (part_in self.old)) }
    {
        match manner {
            Manner::Immediate => self.end(Code::Ok, 0),
            Manner::Blocking => self.hold(),
            Manner::Posting => self.end(Code::BadRequest, 0),
            Manner::Polling => {}
        }
    }

    /// A receive completes with these bytes, and with it the target's request.
    #[tactic(auto, unfolding(crate::specs::Told::received))]
    pub(crate) fn receive(&mut self, target: Target, source: u64, tag: u64, bytes: &[u8])
        requires { HasPages self.old (message_into target (length (take target.capacity bytes.now))) }
        ensures { Becomes self.old self.new (received target source tag bytes.now (part_in self.old)) }
    {
        let _ = self.requests.complete(target.handle);
        let kept = kept(target.capacity, bytes);
        write_where_right(self.memory, self.spares, target.buffer, kept);
        let count = kept.len() as u64;
        self.write_status(target.status, source, tag, count);
        if is_longer(target.capacity, bytes) {
            self.end(Code::Truncated, target.value);
        } else {
            self.end(Code::Ok, target.value);
        }
    }

    /// A receive completes with a message, whose source has to be a member of its communicator.
    #[tactic(auto, unfolding(crate::specs::Told::received_message))]
    pub(crate) fn receive_message(&mut self, target: Target, message: &Message)
        requires { HasPages self.old (message_into target target.capacity) }
        ensures { Becomes self.old self.new (received_message self.old.site.now target message.now (part_in self.old)) }
    {
        let envelope = message.envelope;
        match position(envelope.source, self.site.members(u64::from(envelope.comm))) {
            None => self.end(Code::BadRequest, 0),
            Some(source) => {
                let tag = u64::from(envelope.tag);
                self.receive(target, source, tag, message.bytes.as_slice())
            }
        }
    }

    /// A message was found: the call gives this value.
    #[tactic(auto, unfolding(crate::specs::Told::found))]
    pub(crate) fn find(&mut self, value: u64, status: u64, envelope: Envelope)
        requires { HasPages self.old (statuses_from status 1 ∷ []) }
        ensures { Becomes self.old self.new (found_by self.old.site.now value status envelope (part_in self.old)) }
    {
        match position(envelope.source, self.site.members(u64::from(envelope.comm))) {
            None => self.end(Code::BadRequest, 0),
            Some(source) => {
                let tag = u64::from(envelope.tag);
                let count = u64::from(envelope.count);
                self.write_status(status, source, tag, count);
                self.end(Code::Ok, value)
            }
        }
    }

    /// Nothing comes from the null process, and that is found at once.
    #[tactic(auto, unfolding(crate::specs::Told::found_nothing))]
    pub(crate) fn find_nothing(&mut self, value: u64, status: u64)
        requires { HasPages self.old (statuses_from status 1 ∷ []) }
        ensures { Becomes self.old self.new (found_nothing value status (part_in self.old)) }
    {
        self.write_status(status, NO_RANK, ANY, 0);
        self.end(Code::Ok, value)
    }

    /// Opens a request at the lowest free handle, which is the call's value.
    pub(crate) fn open(&mut self, request: OpenRequest)
        requires { IsTrue (is_new request.state) }
        ensures { Becomes self.old self.new (opened request (part_in self.old)) }
    {
        match self.requests.open(request) {
            Ok(handle) => self.end(Code::Ok, u64::from(handle)),
            Err(_) => self.end(Code::Full, 0),
        }
    }

    /// Starts an inactive request.
    pub(crate) fn start(&mut self, handle: u64, progress: Progress)
        requires { IsInactive self.old.requests.now handle }
        ensures { Becomes self.old self.new
            (done self.old.site.now (outcome.Starts handle progress) (part_in self.old)) }
    {
        let Ok(()) = self.requests.start(handle, progress) else {
            unreachable!()
        };
        self.end(Code::Ok, 0)
    }

    /// Frees an inactive request, and with it its handle.
    #[tactic(auto, unfolding(crate::specs::Told::freed))]
    pub(crate) fn free(&mut self, handle: u64)
        requires { IsInactive self.old.requests.now handle }
        ensures { Becomes self.old self.new (freed handle (part_in self.old)) }
    {
        let Ok(()) = self.requests.free(handle) else {
            unreachable!()
        };
        self.end(Code::Ok, 0)
    }

    /// Puts the fresh bytes behind the output, which has room for them.
    pub(crate) fn put(&mut self, buffer: u64, count: u64)
        requires { IsAble self.old (outcome.Puts buffer count) }
        ensures { Becomes self.old self.new (done self.old.site.now (outcome.Puts buffer count) (part_in self.old)) }
    {
        let Ok(()) = self.out.extend_from_slice(self.fresh) else {
            unreachable!()
        };
        self.end(Code::Ok, 0)
    }

    /// Does the instruction at the pc.
    pub(crate) fn step(&mut self)
        requires running { self.old.hart.now.mode ≡ Running }
        requires pages { HasPages self.old (writes_at_once (part_in self.old) outcome.Steps) }
        ensures { Becomes self.old self.new (done self.old.site.now outcome.Steps (part_in self.old)) }
    {
        let Ok(_) = step_with(self.hart, self.memory, self.spares) else {
            unreachable!()
        };
    }
}
