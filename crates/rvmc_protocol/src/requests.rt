//! The requests of GDB's remote serial protocol (GDB manual, appendix 'Remote Protocol', 'Packets'), as data: what the
//! payload of a packet asks for.

ghost use Rattle.std.specs.Prelude.{◌≡◌, IfOk};
ghost use Rattle.rvmc_protocol.specs.Requests.{alive_in, asked_in, bytes_in, change_in, description_in, insert_in};
ghost use Rattle.rvmc_protocol.specs.Requests.{lone_word, monitor_in, moved_in, plain_in, point_in, raw_bytes_in};
ghost use Rattle.rvmc_protocol.specs.Requests.{read_in, register_in, remove_in, request_in, select_in, select_moved_in};
ghost use Rattle.rvmc_protocol.specs.Requests.{selected_in, lone_question, supported_in, thread_list_in, thread_text_in};

pub mod laws;
mod pieces;
mod points;
mod texts;
mod threads;

use crate::requests::pieces::{behind, is_word, number_in, numbers_in, parts};
use crate::requests::points::spot_in;
use crate::requests::texts::text_in;
use crate::requests::threads::{moved, thread_in};
pub use points::Point;
use std::alloc::{AllocError, Global};
pub use texts::Text;
pub use threads::{Move, Thread};

/// What a client asks for. Whether a thread, a register or an address is there is not known here.
#[derive(Drop)]
pub enum Request {
    /// `qSupported`: what the server can do.
    Supported,
    /// `qXfer:features:read:target.xml:FROM,COUNT`: a part of the description of the registers.
    Description {
        from: u64,
        count: u64,
    },
    /// `qXfer:threads:read::FROM,COUNT`: a part of the list of threads, each with its name.
    ThreadList {
        from: u64,
        count: u64,
    },
    /// `qHostInfo`: what the threads run on.
    HostInfo,
    /// `qProcessInfo`: which process it is, and what it runs on.
    ProcessInfo,
    /// `?`: why the threads stand.
    Why,
    /// `HgTHREAD`: the thread whose registers are meant from now on.
    Select(Thread),
    /// `HcTHREAD`: the thread that is moved from now on.
    SelectMoved(Thread),
    /// `TNUMBER`: whether the thread is there.
    Alive(u64),
    /// `qC`: the thread that is meant.
    Current,
    /// `qfThreadInfo`: the numbers of the threads.
    FirstThreads,
    /// `qsThreadInfo`: further numbers.
    MoreThreads,
    /// `qThreadExtraInfo,NUMBER`: a text on a thread.
    ThreadText(u64),
    /// `g`: all registers.
    Registers,
    /// `pNUMBER`: one register.
    Register(u64),
    /// `mADDRESS,COUNT`: bytes of memory, in digits.
    Bytes {
        address: u64,
        count: u64,
    },
    /// `xADDRESS,COUNT`: bytes of memory as they are.
    RawBytes {
        address: u64,
        count: u64,
    },
    /// `vCont?`: how threads can be moved.
    Moves,
    /// `vCont;ACTIONS`, `c` and `s`: moves threads forward.
    Move(Move),
    /// `bs`: one step back.
    StepBack,
    /// `bc`: back to where a run stops.
    GoBack,
    /// `ZPOINT,ADDRESS,SIZE`: sets a point where a run stops.
    Insert {
        point: Point,
        address: u64,
        size: u64,
    },
    /// `zPOINT,ADDRESS,SIZE`: takes it away.
    Remove {
        point: Point,
        address: u64,
        size: u64,
    },
    /// `D`: leaves.
    Detach,
    /// `k`: ends.
    Kill,
    /// `qRcmd,DIGITS`: what a person typed behind `monitor`.
    Monitor(Text),
    /// `QStartNoAckMode`: packets are no longer acknowledged.
    NoAcknowledgements,
    /// `G`, `P`, `M` and `X`: another register or another byte, which a record can't have.
    Change,
    /// Anything else.
    Unknown,
}

/// The request of a word that stands alone and begins with `q`, `Q` or `v`.
#[tactic(auto, unfolding(crate::specs::Requests::lone_question))]
fn lone_question(text: &[u8]) -> Option<Request>
    ensures { result ≡ lone_question text.now }
{
    if is_word(text, b"qSupported") {
        return Some(Request::Supported);
    }
    if is_word(text, b"qC") {
        return Some(Request::Current);
    }
    if is_word(text, b"qfThreadInfo") {
        return Some(Request::FirstThreads);
    }
    if is_word(text, b"qsThreadInfo") {
        return Some(Request::MoreThreads);
    }
    if is_word(text, b"qHostInfo") {
        return Some(Request::HostInfo);
    }
    if is_word(text, b"qProcessInfo") {
        return Some(Request::ProcessInfo);
    }
    if is_word(text, b"vCont?") {
        return Some(Request::Moves);
    }
    if is_word(text, b"QStartNoAckMode") {
        return Some(Request::NoAcknowledgements);
    }
    None
}

/// The request of another word that stands alone.
#[tactic(auto, unfolding(crate::specs::Requests::lone_word))]
fn lone_word(text: &[u8]) -> Option<Request>
    ensures { result ≡ lone_word text.now }
{
    if is_word(text, b"?") {
        return Some(Request::Why);
    }
    if is_word(text, b"g") {
        return Some(Request::Registers);
    }
    if is_word(text, b"c") {
        return Some(Request::Move(Move::Go));
    }
    if is_word(text, b"s") {
        return Some(Request::Move(Move::Step(Thread::Any)));
    }
    if is_word(text, b"bs") {
        return Some(Request::StepBack);
    }
    if is_word(text, b"bc") {
        return Some(Request::GoBack);
    }
    if is_word(text, b"D") {
        return Some(Request::Detach);
    }
    if is_word(text, b"k") {
        return Some(Request::Kill);
    }
    None
}

/// `qSupported:` and what the client can do, which may be anything.
#[tactic(auto, unfolding(crate::specs::Requests::supported_in))]
fn supported_in(text: &[u8]) -> Option<Request>
    ensures { result ≡ supported_in text.now }
{
    behind(text, b"qSupported:")?;
    Some(Request::Supported)
}

#[tactic(auto, unfolding(crate::specs::Requests::description_in))]
fn description_in(text: &[u8]) -> Option<Request>
    ensures { result ≡ description_in text.now }
{
    let rest = behind(text, b"qXfer:features:read:target.xml:")?;
    let (from, count) = numbers_in(rest)?;
    Some(Request::Description { from, count })
}

#[tactic(auto, unfolding(crate::specs::Requests::thread_list_in))]
fn thread_list_in(text: &[u8]) -> Option<Request>
    ensures { result ≡ thread_list_in text.now }
{
    let rest = behind(text, b"qXfer:threads:read::")?;
    let (from, count) = numbers_in(rest)?;
    Some(Request::ThreadList { from, count })
}

#[tactic(auto, unfolding(crate::specs::Requests::thread_text_in))]
fn thread_text_in(text: &[u8]) -> Option<Request>
    ensures { result ≡ thread_text_in text.now }
{
    let rest = behind(text, b"qThreadExtraInfo,")?;
    let number = number_in(rest)?;
    Some(Request::ThreadText(number))
}

#[tactic(auto, unfolding(crate::specs::Requests::alive_in))]
fn alive_in(text: &[u8]) -> Option<Request>
    ensures { result ≡ alive_in text.now }
{
    let rest = behind(text, b"T")?;
    let number = number_in(rest)?;
    Some(Request::Alive(number))
}

#[tactic(auto, unfolding(crate::specs::Requests::select_in))]
fn select_in(text: &[u8]) -> Option<Request>
    ensures { result ≡ select_in text.now }
{
    let rest = behind(text, b"Hg")?;
    let thread = thread_in(rest)?;
    Some(Request::Select(thread))
}

#[tactic(auto, unfolding(crate::specs::Requests::select_moved_in))]
fn select_moved_in(text: &[u8]) -> Option<Request>
    ensures { result ≡ select_moved_in text.now }
{
    let rest = behind(text, b"Hc")?;
    let thread = thread_in(rest)?;
    Some(Request::SelectMoved(thread))
}

#[tactic(auto, unfolding(crate::specs::Requests::register_in))]
fn register_in(text: &[u8]) -> Option<Request>
    ensures { result ≡ register_in text.now }
{
    let rest = behind(text, b"p")?;
    let number = number_in(rest)?;
    Some(Request::Register(number))
}

#[tactic(auto, unfolding(crate::specs::Requests::bytes_in))]
fn bytes_in(text: &[u8]) -> Option<Request>
    ensures { result ≡ bytes_in text.now }
{
    let rest = behind(text, b"m")?;
    let (address, count) = numbers_in(rest)?;
    Some(Request::Bytes { address, count })
}

#[tactic(auto, unfolding(crate::specs::Requests::raw_bytes_in))]
fn raw_bytes_in(text: &[u8]) -> Option<Request>
    ensures { result ≡ raw_bytes_in text.now }
{
    let rest = behind(text, b"x")?;
    let (address, count) = numbers_in(rest)?;
    Some(Request::RawBytes { address, count })
}

#[tactic(auto, unfolding(crate::specs::Requests::insert_in))]
fn insert_in(text: &[u8]) -> Option<Request>
    ensures { result ≡ insert_in text.now }
{
    let rest = behind(text, b"Z")?;
    let (point, address, size) = spot_in(rest)?;
    Some(Request::Insert {
        point,
        address,
        size,
    })
}

#[tactic(auto, unfolding(crate::specs::Requests::remove_in))]
fn remove_in(text: &[u8]) -> Option<Request>
    ensures { result ≡ remove_in text.now }
{
    let rest = behind(text, b"z")?;
    let (point, address, size) = spot_in(rest)?;
    Some(Request::Remove {
        point,
        address,
        size,
    })
}

/// What would change a register or a byte.
#[tactic(auto, unfolding(crate::specs::Requests::change_in))]
fn change_in(text: &[u8]) -> Option<Request>
    ensures { result ≡ change_in text.now }
{
    let [letter, ..] = text else {
        return None;
    };
    match *letter {
        b'G' | b'P' | b'M' | b'X' => Some(Request::Change),
        _ => None,
    }
}

/// Questions of the server and its threads.
#[tactic(auto, unfolding(crate::specs::Requests::asked_in))]
fn asked_in(text: &[u8]) -> Option<Request>
    ensures { result ≡ asked_in text.now }
{
    if let Some(request) = supported_in(text) {
        return Some(request);
    }
    if let Some(request) = description_in(text) {
        return Some(request);
    }
    if let Some(request) = thread_list_in(text) {
        return Some(request);
    }
    if let Some(request) = thread_text_in(text) {
        return Some(request);
    }
    alive_in(text)
}

/// Which thread is meant.
#[tactic(auto, unfolding(crate::specs::Requests::selected_in))]
fn selected_in(text: &[u8]) -> Option<Request>
    ensures { result ≡ selected_in text.now }
{
    if let Some(request) = select_in(text) {
        return Some(request);
    }
    select_moved_in(text)
}

/// Questions of registers and bytes.
#[tactic(auto, unfolding(crate::specs::Requests::read_in))]
fn read_in(text: &[u8]) -> Option<Request>
    ensures { result ≡ read_in text.now }
{
    if let Some(request) = register_in(text) {
        return Some(request);
    }
    if let Some(request) = bytes_in(text) {
        return Some(request);
    }
    raw_bytes_in(text)
}

/// Where a run is to stop, or no longer is.
#[tactic(auto, unfolding(crate::specs::Requests::point_in))]
fn point_in(text: &[u8]) -> Option<Request>
    ensures { result ≡ point_in text.now }
{
    if let Some(request) = insert_in(text) {
        return Some(request);
    }
    if let Some(request) = remove_in(text) {
        return Some(request);
    }
    change_in(text)
}

/// Any request but those that need memory.
#[tactic(auto, unfolding(crate::specs::Requests::plain_in))]
fn plain_in(text: &[u8]) -> Option<Request>
    ensures { result ≡ plain_in text.now }
{
    if let Some(request) = lone_question(text) {
        return Some(request);
    }
    if let Some(request) = lone_word(text) {
        return Some(request);
    }
    if let Some(request) = asked_in(text) {
        return Some(request);
    }
    if let Some(request) = selected_in(text) {
        return Some(request);
    }
    if let Some(request) = read_in(text) {
        return Some(request);
    }
    point_in(text)
}

/// `vCont;` and actions, with a semicolon between them.
#[tactic(auto, unfolding(crate::specs::Requests::moved_in))]
fn moved_in(alloc: Global, text: &[u8]) -> Result<Option<Request>, AllocError>
    ensures { IfOk result (λ found. found ≡ moved_in text.now) }
{
    let Some(rest) = behind(text, b"vCont;") else {
        return Ok(None);
    };
    let actions = parts(alloc, rest, b';')?;
    let Some(all) = moved(actions.as_slice()) else {
        return Ok(None);
    };
    Ok(Some(Request::Move(all)))
}

/// `qRcmd,` and the digits of what was typed.
#[tactic(auto, unfolding(crate::specs::Requests::monitor_in))]
fn monitor_in(alloc: Global, text: &[u8]) -> Result<Option<Request>, AllocError>
    ensures { IfOk result (λ found. found ≡ monitor_in text.now) }
{
    let Some(digits) = behind(text, b"qRcmd,") else {
        return Ok(None);
    };
    let Some(text) = text_in(alloc, digits)? else {
        return Ok(None);
    };
    Ok(Some(Request::Monitor(text)))
}

/// What a payload asks for; [`Request::Unknown`] where it is no request's text. Numbers and addresses are one to sixteen
/// hexadecimal digits of either case. It fails only where memory is refused.
#[tactic(auto, unfolding(crate::specs::Requests::request_in))]
pub fn request_in(alloc: Global, payload: &[u8]) -> Result<Request, AllocError>
    ensures { IfOk result (λ request. request ≡ request_in payload.now) }
{
    if let Some(request) = plain_in(payload) {
        return Ok(request);
    }
    if let Some(request) = moved_in(alloc, payload)? {
        return Ok(request);
    }
    if let Some(request) = monitor_in(alloc, payload)? {
        return Ok(request);
    }
    Ok(Request::Unknown)
}
