//! The answer to each request.

ghost use Rattle.std.specs.Prelude.{◌≡◌, IfOk};
ghost use Rattle.rvmc_protocol.specs.Replies.Threads.{current_text, host_text, process_text, supported_text, threads_text};
ghost use Rattle.rvmc_gdb.specs.Answers.{kills, leaves, most, quiets};

use crate::session::{Session, text_of};
use rvmc_motions::Mark;
use rvmc_protocol::replies::{put_current, put_host, put_process, put_supported, put_threads};
use rvmc_protocol::requests::{Point, Request};
use std::alloc::AllocError;

/// How many bytes the text of a packet has at most.
pub(crate) const MOST: usize = 16384;

/// Whether nothing is acknowledged behind a request.
pub(crate) fn quiets(request: &Request) -> bool
    ensures { result ≡ quiets request.now }
{
    matches!(request, Request::NoAcknowledgements)
}

/// Whether the client leaves.
pub(crate) fn leaves(request: &Request) -> bool
    ensures { result ≡ leaves request.now }
{
    matches!(request, Request::Detach | Request::Kill)
}

/// Whether it leaves, and wants no answer.
pub(crate) fn kills(request: &Request) -> bool
    ensures { result ≡ kills request.now }
{
    matches!(request, Request::Kill)
}

impl Session {
    ghost use Rattle.rvmc_gdb.specs.Answers.{Answers};
    ghost use Rattle.rvmc_gdb.specs.Points.{mark_of};
    ghost use Rattle.rvmc_gdb.specs.Serving.{own_thread, thread_count, who_of};
    ghost use Rattle.rvmc_gdb.specs.Shown.{alive_text};

    /// What the server can do.
    fn supported(&self) -> Result<Vec<u8>, AllocError>
        ensures { IfOk result (λ text. text.items ≡ supported_text most self.now.all) }
    {
        let mut text = Vec::new(self.alloc);
        match put_supported(&mut text, MOST as u64, self.all) {
            Ok(()) => Ok(text),
            Err(_) => Err(AllocError),
        }
    }

    /// What the threads run on.
    fn host(&self) -> Result<Vec<u8>, AllocError>
        ensures { IfOk result (λ text. text.items ≡ host_text) }
    {
        let mut text = Vec::new(self.alloc);
        match put_host(&mut text) {
            Ok(()) => Ok(text),
            Err(_) => Err(AllocError),
        }
    }

    /// The process, and what it runs on.
    fn process(&self) -> Result<Vec<u8>, AllocError>
        ensures { IfOk result (λ text. text.items ≡ process_text) }
    {
        let mut text = Vec::new(self.alloc);
        match put_process(&mut text) {
            Ok(()) => Ok(text),
            Err(_) => Err(AllocError),
        }
    }

    /// The thread that is meant.
    fn current(&self) -> Result<Vec<u8>, AllocError>
        ensures { IfOk result (λ text. text.items ≡ current_text (own_thread self.now)) }
    {
        let mut text = Vec::new(self.alloc);
        match put_current(&mut text, self.own_thread()) {
            Ok(()) => Ok(text),
            Err(_) => Err(AllocError),
        }
    }

    /// The threads.
    fn threads(&self) -> Result<Vec<u8>, AllocError>
        ensures { IfOk result (λ text. text.items ≡ threads_text (thread_count self.now)) }
    {
        let mut text = Vec::new(self.alloc);
        match put_threads(&mut text, self.thread_count()) {
            Ok(()) => Ok(text),
            Err(_) => Err(AllocError),
        }
    }

    /// Whether a thread is there.
    fn is_alive(&self, thread: u64) -> Result<Vec<u8>, AllocError>
        ensures { IfOk result (λ text. text.items ≡ alive_text (who_of self.now thread)) }
    {
        match self.who_of(thread) {
            Some(_) => self.done(),
            None => self.refused(),
        }
    }

    /// A point of the ranks that are served.
    fn mark_of(&self, point: Point, address: u64, size: u64) -> Mark
        ensures { result ≡ mark_of self.now point address size }
    {
        Mark {
            ranks: self.ranks(),
            point,
            address,
            size,
        }
    }

    /// Does a request, and answers it. The only error is want of memory, and then the session may stand anywhere.
    pub(crate) fn answer(&mut self, request: &Request) -> Result<Vec<u8>, AllocError>
        ensures { IfOk result (λ reply. Answers self.old request.now self.new reply.items) }
    {
        match request {
            Request::Supported => self.supported(),
            Request::Description { from, count } => self.description(*from, *count),
            Request::HostInfo => self.host(),
            Request::ProcessInfo => self.process(),
            Request::Why => self.standing(),
            Request::Select(thread) => self.select(*thread),
            Request::SelectMoved(thread) => self.select_moved(*thread),
            Request::Alive(thread) => self.is_alive(*thread),
            Request::Current => self.current(),
            Request::FirstThreads => self.threads(),
            Request::MoreThreads => text_of(self.alloc, b"l"),
            Request::ThreadText(thread) => self.thread_text(*thread),
            Request::Registers => self.registers(),
            Request::Register(number) => self.register(*number),
            Request::Bytes { address, count } => self.bytes(*address, *count),
            Request::RawBytes { address, count } => self.raw_bytes(*address, *count),
            Request::Moves => text_of(self.alloc, b"vCont;c;C;s;S;t"),
            Request::Move(asked) => self.go(*asked),
            Request::StepBack => self.step_back(),
            Request::GoBack => self.go_back(),
            Request::Insert {
                point,
                address,
                size,
            } => self.insert(self.mark_of(*point, *address, *size)),
            Request::Remove {
                point,
                address,
                size,
            } => self.remove(self.mark_of(*point, *address, *size)),
            Request::Detach | Request::NoAcknowledgements => self.done(),
            Request::ThreadList { from, count } => self.thread_list(*from, *count),
            Request::Kill | Request::Unknown => Ok(Vec::new(self.alloc)),
            Request::Monitor(typed) => self.monitor(typed.as_slice()),
            Request::Change => self.refused(),
        }
    }
}
