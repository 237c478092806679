//! What a turn does to a rank.

ghost use Rattle.std.specs.Prelude.{◌≡◌, ◌<◌, ◌+◌, ◌^◌, ◌++◌, ◌∷◌, [], List, length, IfErr, IfOk, IfSome, Ok};
ghost use Rattle.std.specs.Prelude.{None, Some, false, true, vec_len};
ghost use Rattle.mp_types.specs.declared.replies.Reply.{Reply};
ghost use Rattle.mp_types.specs.declared.replies.Reply.TheVariants.{NotYet, Posted};
ghost use Rattle.part_channel.specs.Channels.{ChannelView};
ghost use Rattle.cl_state.specs.declared.asking.Ask.TheVariants as ask;
ghost use Rattle.cl_state.specs.declared.asking.Answer.TheVariants.{Alone, Reply as AnswerReply};
ghost use Rattle.cl_state.specs.Asked.{asked};
ghost use Rattle.cl_state.specs.Moves.{started_in};
ghost use Rattle.cl_state.specs.Room.{rank_of};
ghost use Rattle.cl_state.specs.Told.{told};
ghost use Rattle.cl_state.specs.TurnRoom.{IsNext, row_at};
ghost use Rattle.cl_rank.specs.Follows.{named_link as named_link_in};
ghost use Rattle.cl_rank.specs.QuickReceives.{Fits, IsRightReceive, MayReceive, request_in};
ghost use Rattle.cl_rank.specs.QuickSends.{MaySend};
ghost use Rattle.cl_rank.specs.Roomy.{IsAgain, is_anew as is_anew_in, repeats as repeats_in};
ghost use Rattle.cl_rank.specs.Tidings.{HasLooked, TakeTells, TestTells};
ghost use Rattle.cl_deeds.specs.Turns.{AllStopped, IsActive};
ghost use Rattle.cl_rank.specs.Turning.{StopHolds};
ghost use Rattle.cl_deeds.specs.Turns.{all_stopped as all_stopped_of};
ghost use Rattle.cl_rank.specs.Views.{AsksNobody, HasTurn, IsHubTurn, IsOver, IsQuietTurn, MayTurn, MayWait, Stays, TurnEnds};
ghost use Rattle.cl_trace.specs.declared.events.Kind.TheVariants.{Hub};
ghost use Rattle.cl_trace.specs.Rising.{last_stamp};

use crate::desks::Desk;
use crate::quick_handles::at_handle;
use crate::quick_receives::{fits, received, request_of, tell_got, tell_waits};
use crate::quick_sends::{sent, tell_sent};
use crate::ranks::Rank;
use crate::stops::{Stop, stop_of};
use cl_calls::{Call, IRECV, PARRIVED, PREADY, Receiving, WAIT};
use cl_sides::{BoxId, begin, follow_receiver, follow_sender, make_ready, take, test};
use cl_state::{Answer, Ask, Doing, RankState, Row};
use cl_trace::{Event, Kind, Trace};
use mp_request::{OpenRequest, Requests, Transfer};
use mp_types::{Reply, Request, Stamp};
use part_channel::{Channel, Progress, Take};
use part_phase::{Contents, box_words};
use rv_decode::Reg;
use rv_hart::{Hart, Mode, Wait};
use rv_image_types::ImageVersion;
use rv_memory::RankMemory;

pub(crate) fn all_stopped(state: &RankState) -> bool
    ensures { result ≡ all_stopped_of (rank_of state.now) }
{
    for hart in state.harts.iter() {
        if !hart.mode().is_stopped() {
            return false;
        }
    }
    true
}

/// A hart's turn, as it was worked out: what it is, and what it does by the table of calls.
#[derive(Clone, Copy, Drop)]
pub(crate) struct Turn {
    pub(crate) hart: u8,
    pub(crate) doing: Doing,
    pub(crate) row: Row,
}

/// Whether a hart makes its call anew.
fn is_anew(hart: &Hart) -> bool
    ensures { result ≡ is_anew_in hart.now.mode }
{
    matches!(hart.mode(), Mode::Waiting(Wait::Again))
}

/// Whether a turn polls a post, or makes a call anew that waits. Told that nothing is there yet, the hart stays as it is.
fn repeats(hart: &Hart, doing: &Doing) -> bool
    ensures { result ≡ repeats_in hart.now.mode doing.now }
{
    match doing {
        Doing::Poll(..) => true,
        Doing::Go(call) => {
            matches!(
                call,
                Call::Wait(_) | Call::Probe(_) | Call::Mprobe(_) | Call::Waitall(_)
            ) && is_anew(hart)
        }
        _ => false,
    }
}

/// The link on which a call begins a phase, if it does.
fn started(requests: &Requests, doing: &Doing) -> Option<u8>
    ensures { result ≡ started_in requests.now doing.now }
{
    let Doing::Go(Call::Start { handle }) = doing else {
        return None;
    };
    match requests.get(*handle) {
        Some(OpenRequest { transfer, .. }) => match transfer {
            Transfer::SendPartitions(side) | Transfer::ReceivePartitions(side) => Some(side.link),
            _ => None,
        },
        None => None,
    }
}

/// The link whose side gets its shape or its cut by a reply.
/// Any other reply changes no side, so that any number will do.
fn named_link(request: &Request, reply: &Reply) -> u8
    ensures { result ≡ named_link_in request.now reply.now }
{
    match (request, reply) {
        (_, Reply::Link(link)) => *link,
        (Request::Cut { link }, _) => *link,
        _ => 0,
    }
}

fn into_reply(answer: Answer) -> Reply
    requires { (reply : Reply) × (answer ≡ AnswerReply reply) }
    ensures { answer ≡ AnswerReply result }
{
    match answer {
        Answer::Reply(reply) => reply,
        Answer::Alone => unreachable!(),
        Answer::Taken(_bytes) => unreachable!(),
        Answer::Missed => unreachable!(),
        Answer::Freed => unreachable!(),
    }
}

/// What a hart is told of the box that its turn asked, and the kind and the stamp of the turn's event.
type Tidings = (Answer, Kind, Stamp);

/// What a test tells that looked at a box.
fn told_of_test(progress: Progress) -> Tidings
    requires { HasLooked progress }
    ensures { TestTells progress result }
{
    match progress {
        Progress::Freed(stamp) => (Answer::Freed, Kind::Freed, stamp),
        Progress::Missed(stamp) => (Answer::Missed, Kind::Miss, stamp),
        Progress::AllFreed => unreachable!(),
        Progress::NotReady => unreachable!(),
    }
}

/// What a take tells.
fn told_of_take(version: ImageVersion, take: &Take) -> Tidings
    ensures { TakeTells version take.now result }
{
    match take {
        Take::Taken(bytes, stamp) => {
            let count = 8 * box_words(version);
            // the compiler knows both lengths, so it calls no function to copy the bytes
            let bytes = if count == bytes.len() {
                Contents::of(version, bytes)
            } else {
                Contents::of(version, &bytes[..count])
            };
            (Answer::Taken(bytes), Kind::Take, *stamp)
        }
        Take::Missed(stamp) => (Answer::Missed, Kind::Miss, *stamp),
    }
}

/// What is noted of a turn: its event, the box that it asked, and the hart whose poll was in vain.
#[derive(Drop)]
struct Noted {
    event: Event,
    asked_box: Option<BoxId>,
    roomy: Option<u8>,
}

/// Of a turn that made no call.
#[inline(always)]
fn uncalled(hart: u8, stamp: Stamp, kind: Kind, asked_box: Option<BoxId>) -> Noted
    ensures event { result.event ≡ record { hart = hart; stamp = stamp; kind = kind; request = None } }
    ensures place { result.asked_box ≡ asked_box }
    ensures waits { result.roomy ≡ None }
{
    let event = Event {
        hart,
        stamp,
        kind,
        request: None,
    };
    Noted {
        event,
        asked_box,
        roomy: None,
    }
}

/// Of a call of the hub.
#[inline(always)]
fn called(hart: u8, stamp: Stamp, request: Request, reply: Reply, roomy: Option<u8>) -> Noted
    ensures event { result.event ≡ record { hart = hart; stamp = stamp; kind = Hub reply; request = Some request } }
    ensures place { result.asked_box ≡ None }
    ensures waits { result.roomy ≡ roomy }
{
    let event = Event {
        hart,
        stamp,
        kind: Kind::Hub(reply),
        request: Some(request),
    };
    Noted {
        event,
        asked_box: None,
        roomy,
    }
}

/// Notes a turn: its event stands behind the events before.
#[inline(always)]
fn note(trace: &mut Trace, asked_box: &mut Option<BoxId>, roomy: &mut Option<u8>, noted: Noted)
    requires room { 0 < trace.old.room }
    requires rises { last_stamp 0 trace.old.events < noted.event.stamp }
    requires low { noted.event.stamp < 2 ^ 62 }
    requires few { length trace.old.events + 1 < 2 ^ 64 }
    ensures event { trace.new.events ≡ trace.old.events ++ noted.event ∷ [] }
    ensures place { asked_box.new ≡ noted.asked_box }
    ensures waits { roomy.new ≡ noted.roomy }
{
    *asked_box = noted.asked_box;
    *roomy = noted.roomy;
    trace.push(noted.event);
}

impl Rank {
    /// A turn of any kind, of a rank that has a turn left and room for its event. A poll that was just in vain is made
    /// again; a SEND and a RECV are tried next, as ranks make these again and again.
    #[inline(never)]
    pub(crate) fn other_turn<R, D: Desk<R>>(
        &mut self,
        rt: &R,
        desk: &mut D,
        hart: u8,
        channels: &[Channel],
    ) -> Result<(), Stop>
        requires has { HasTurn self.old hart }
        requires own { IsOver self.old channels.now }
        ensures { TurnEnds D.gives hart channels.now self.old desk.old result self.new desk.new }
    {
        if all_stopped(&self.state) {
            return Err(Stop::AllEnded);
        }
        if self.roomy == Some(hart) {
            if let Some(request) = self.known(hart) {
                return self.poll_again(rt, desk, hart, request);
            }
        }
        self.roomy = None;
        if let Some(request) = sent(&self.state, hart) {
            self.state.fresh = Vec::new(self.alloc);
            return self.send(hart, request, rt, desk);
        }
        if let Some(receiving) = received(&self.state, hart) {
            self.state.fresh = Vec::new(self.alloc);
            return self.receive(hart, receiving, rt, desk);
        }
        self.worked_turn(channels, rt, desk, hart)
    }

    /// A turn that is worked out before its call: an IRECV, a WAIT, a PREADY or a PARRIVED from the registers, if it can be,
    /// and any other by the table of calls.
    fn worked_turn<R, D: Desk<R>>(
        &mut self,
        channels: &[Channel],
        rt: &R,
        desk: &mut D,
        hart: u8,
    ) -> Result<(), Stop>
        requires has { HasTurn self.old hart }
        requires own { IsOver self.old channels.now }
        requires active { ¬ (AllStopped (rank_of self.old.state)) }
        ensures { TurnEnds D.gives hart channels.now self.old desk.old result self.new desk.new }
    {
        self.roomy = None;
        match self.state.harts[hart as usize].get(Reg::new(17)) {
            IRECV | WAIT => {
                if let Some((turn, request)) = at_handle(&self.state, hart) {
                    self.state.fresh = Vec::new(self.alloc);
                    return self.call_hub(rt, desk, &turn, request);
                }
            }
            PREADY => {
                if self.ready_turn(channels, hart) {
                    return Ok(());
                }
            }
            PARRIVED => {
                if self.look_turn(channels, hart) {
                    return Ok(());
                }
            }
            _ => {}
        }
        self.table_turn(channels, rt, desk, hart)
    }

    /// A turn that is worked out by the table of calls. A function of its own, so that nothing is laid out for it in turns
    /// that are worked out from the registers.
    #[inline(never)]
    fn table_turn<R, D: Desk<R>>(
        &mut self,
        channels: &[Channel],
        rt: &R,
        desk: &mut D,
        hart: u8,
    ) -> Result<(), Stop>
        requires has { HasTurn self.old hart }
        requires own { IsOver self.old channels.now }
        requires active { ¬ (AllStopped (rank_of self.old.state)) }
        ensures { TurnEnds D.gives hart channels.now self.old desk.old result self.new desk.new }
    {
        self.roomy = None;
        let doing = self.state.next(hart);
        let known = self.trace.posts_of(hart);
        let Ok(ask) = self.state.ask_again(hart, &doing, known) else {
            return Err(Stop::Memory);
        };
        let Ok(row) = self.state.lay_out(hart, &doing) else {
            return Err(Stop::Memory);
        };
        let turn = Turn { hart, doing, row };
        match ask {
            Ask::Hub(request) => return self.call_hub(rt, desk, &turn, request),
            Ask::Plain => self.go_alone(&turn, Kind::Plain),
            Ask::Local => self.go_alone(&turn, Kind::Local),
            Ask::Held => self.go_alone(&turn, Kind::Held),
            Ask::Idle => self.go_alone(&turn, Kind::Idle),
            Ask::Ready { link, part, bytes } => {
                self.make_ready(channels, &turn, BoxId { link, part }, &bytes)
            }
            Ask::Look { link, part } => self.look(channels, &turn, BoxId { link, part }),
            Ask::Freed { link, part } => self.test(channels, &turn, BoxId { link, part }),
        }
        Ok(())
    }

    /// The turn of a hart whose room was made, worked out behind its call. The rank stays as it is.
    fn work_out(&mut self, hart: u8) -> Turn
        requires { hart < vec_len self.old.state.harts }
        ensures hart { result.hart ≡ hart }
        ensures next { IsNext self.old.state hart result.doing }
        ensures row { result.row ≡ row_at self.old.state hart result.doing }
        ensures same { self.new ≡ self.old }
    {
        let doing = self.state.next(hart);
        let row = self.state.row_next(hart, &doing);
        Turn { hart, doing, row }
    }

    /// A turn that asks nobody.
    fn go_alone(&mut self, turn: &Turn, kind: Kind)
        requires may { MayTurn self.old turn.now }
        requires asked { AsksNobody (asked (rank_of self.old.state) turn.now.hart) kind }
        ensures { IsQuietTurn turn.now.hart self.old self.new }
    {
        let (hart, stamp) = (turn.hart, self.state.clock + 1);
        let link = started(&self.state.requests, &turn.doing);
        self.state
            .tell_row(hart, &turn.doing, &turn.row, &Answer::Alone, stamp);
        begin(&mut self.sends, &mut self.recvs, link);
        let noted = uncalled(hart, stamp, kind, None);
        note(&mut self.trace, &mut self.asked_box, &mut self.roomy, noted);
    }

    /// Makes a call of the hub: the request once more, the reply, and its stamp. `send` and `receive` call it themselves,
    /// so that the hub's code is compiled into theirs.
    #[inline(never)]
    fn ask_hub<R, D: Desk<R>>(
        &self,
        rt: &R,
        desk: &mut D,
        hart: u8,
        request: Request,
    ) -> Result<(Request, Reply, Stamp), Stop>
        requires active { IsActive (rank_of self.now.state) (length self.now.trace.events) self.now.budget }
        requires asked { asked (rank_of self.now.state) hart ≡ ask.Hub request }
        ensures request { IfOk result (λ told. told.0 ≡ request) }
        ensures stamp { IfOk result (λ told. (self.now.state.clock < told.2) × (told.2 < 2 ^ 62)) }
        ensures gives { IfOk result (λ told. D.gives desk.old self.now.state.site.number hart self.now.state.clock
            told.0 (Ok (told.1, told.2)) desk.new) }
        ensures stop { IfErr result (λ stop. StopHolds D.gives hart (rank_of self.now.state)
            self.now.trace.room (length self.now.trace.events) self.now.budget desk.old desk.new stop) }
    {
        // made before the call, so that nothing can fail once the hub has answered
        let Ok(copy) = request.try_copy(self.alloc) else {
            return Err(Stop::Memory);
        };
        let clock = self.state.clock;
        match desk.call(rt, self.state.site.number, hart, clock, request) {
            Ok((reply, stamp)) => Ok((copy, reply, stamp)),
            Err(fault) => Err(stop_of(fault)),
        }
    }

    /// Makes the call that a hart asked for, and tells the rank its reply.
    fn call_hub<R, D: Desk<R>>(
        &mut self,
        rt: &R,
        desk: &mut D,
        turn: &Turn,
        request: Request,
    ) -> Result<(), Stop>
        requires may { MayTurn self.old turn.now }
        requires asked { asked (rank_of self.old.state) turn.now.hart ≡ ask.Hub request }
        requires active { ¬ (AllStopped (rank_of self.old.state)) }
        ensures { (channels : List ChannelView) → IsOver self.old channels
            → TurnEnds D.gives turn.now.hart channels self.old desk.old result self.new desk.new }
    {
        let (request, reply, stamp) = self.ask_hub(rt, desk, turn.hart, request)?;
        match reply {
            Reply::NotYet => self.put_off(turn, request, stamp),
            reply => self.tell_reply(turn, request, reply, stamp),
        }
        Ok(())
    }

    /// Makes the call of a SEND that was worked out, and tells the rank its reply. As a rule that is the message's post.
    #[inline(never)]
    fn send<R, D: Desk<R>>(
        &mut self,
        hart: u8,
        request: Request,
        rt: &R,
        desk: &mut D,
    ) -> Result<(), Stop>
        requires may { MaySend self.old hart request }
        requires active { ¬ (AllStopped (rank_of self.old.state)) }
        ensures { (channels : List ChannelView) → IsOver self.old channels
            → TurnEnds D.gives hart channels self.old desk.old result self.new desk.new }
    {
        let Ok(copy) = request.try_copy(self.alloc) else {
            return Err(Stop::Memory);
        };
        let (reply, stamp) = match desk.call(
            rt,
            self.state.site.number,
            hart,
            self.state.clock,
            request,
        ) {
            Ok(told) => told,
            Err(fault) => return Err(stop_of(fault)),
        };
        match reply {
            Reply::Posted { post, done } => self.tell_posted(hart, copy, post, done, stamp),
            reply => {
                let turn = self.work_out(hart);
                self.tell_reply(&turn, copy, reply, stamp);
            }
        }
        Ok(())
    }

    /// Tells the rank that the message of a SEND has its post.
    #[inline(always)]
    fn tell_posted(&mut self, hart: u8, request: Request, post: u64, done: bool, stamp: Stamp)
        requires may { MaySend self.old hart request }
        requires stamp { (self.old.state.clock < stamp) × (stamp < 2 ^ 62) }
        ensures { IsHubTurn hart request (Posted post done) stamp self.old self.new }
    {
        tell_sent(&mut self.state, hart, stamp);
        let noted = called(hart, stamp, request, Reply::Posted { post, done }, None);
        note(&mut self.trace, &mut self.asked_box, &mut self.roomy, noted);
    }

    /// What a RECV asks that was worked out.
    #[inline(always)]
    fn request_of(&self, receiving: &Receiving) -> Request
        requires { IsRightReceive self.now.state.site self.now.state.memory receiving.now }
        ensures { result ≡ request_in self.now.state receiving.now }
    {
        request_of(&self.state.site, &self.state.memory, true, receiving)
    }

    /// Makes the call of a RECV that was worked out, and tells the rank its reply. As a rule that is a message that fits,
    /// or a post.
    #[inline(never)]
    fn receive<R, D: Desk<R>>(
        &mut self,
        hart: u8,
        receiving: Receiving,
        rt: &R,
        desk: &mut D,
    ) -> Result<(), Stop>
        requires may { MayReceive self.old hart receiving (request_in self.old.state receiving) }
        requires active { ¬ (AllStopped (rank_of self.old.state)) }
        ensures { (channels : List ChannelView) → IsOver self.old channels
            → TurnEnds D.gives hart channels self.old desk.old result self.new desk.new }
    {
        // the hub takes one of them, and the trace keeps the other
        let request = self.request_of(&receiving);
        let copy = self.request_of(&receiving);
        let (reply, stamp) = match desk.call(
            rt,
            self.state.site.number,
            hart,
            self.state.clock,
            request,
        ) {
            Ok(told) => told,
            Err(fault) => return Err(stop_of(fault)),
        };
        if fits(&self.state.site, &receiving, &reply) {
            self.tell_message(hart, receiving, copy, reply, stamp);
            return Ok(());
        }
        match reply {
            Reply::Posted { post, done } => {
                self.tell_waiting(hart, receiving, copy, post, done, stamp)
            }
            reply => {
                let turn = self.work_out(hart);
                self.tell_reply(&turn, copy, reply, stamp);
            }
        }
        Ok(())
    }

    /// Tells the rank that a RECV has its message.
    #[inline(always)]
    fn tell_message(
        &mut self,
        hart: u8,
        receiving: Receiving,
        request: Request,
        reply: Reply,
        stamp: Stamp,
    )
        requires may { MayReceive self.old hart receiving request }
        requires fits { Fits self.old.state.site receiving reply }
        requires stamp { (self.old.state.clock < stamp) × (stamp < 2 ^ 62) }
        ensures { IsHubTurn hart request reply stamp self.old self.new }
    {
        let Reply::Got(message) = &reply else {
            unreachable!()
        };
        tell_got(
            &mut self.state,
            hart,
            receiving.buffer,
            message.bytes.as_slice(),
            stamp,
        );
        let noted = called(hart, stamp, request, reply, None);
        note(&mut self.trace, &mut self.asked_box, &mut self.roomy, noted);
    }

    /// Tells the rank that a RECV has its post, for which the hart waits.
    fn tell_waiting(
        &mut self,
        hart: u8,
        receiving: Receiving,
        request: Request,
        post: u64,
        done: bool,
        stamp: Stamp,
    )
        requires may { MayReceive self.old hart receiving request }
        requires stamp { (self.old.state.clock < stamp) × (stamp < 2 ^ 62) }
        ensures { IsHubTurn hart request (Posted post done) stamp self.old self.new }
    {
        let _ = receiving;
        tell_waits(&mut self.state, hart, post, stamp);
        let noted = called(hart, stamp, request, Reply::Posted { post, done }, None);
        note(&mut self.trace, &mut self.asked_box, &mut self.roomy, noted);
    }

    /// What a hart asks again whose last turn was told that nothing is there yet, if it is known.
    fn known(&self, hart: u8) -> Option<Request>
        requires { IsAgain self.now.state hart self.now.again }
        ensures { IfSome result (λ request. Stays self.now.state hart request) }
    {
        match &self.again {
            None => None,
            Some(request) => match request.try_copy(self.alloc) {
                Ok(request) => Some(request),
                Err(_) => None,
            },
        }
    }

    /// Tells the rank that nothing is there yet of what a call asked for. Where the hart polls, or made the call before
    /// and waits, only the clock moves, and what it asks again is kept.
    fn put_off(&mut self, turn: &Turn, request: Request, stamp: Stamp)
        requires may { MayTurn self.old turn.now }
        requires asked { asked (rank_of self.old.state) turn.now.hart ≡ ask.Hub request }
        requires stamp { (self.old.state.clock < stamp) × (stamp < 2 ^ 62) }
        ensures { IsHubTurn turn.now.hart request NotYet stamp self.old self.new }
    {
        if repeats(&self.state.harts[turn.hart as usize], &turn.doing) {
            self.roomy = None;
            self.again = request.try_copy(self.alloc).ok();
            self.wait_on(turn.hart, request, stamp);
        } else {
            self.tell_reply(turn, request, Reply::NotYet, stamp);
        }
    }

    /// Asks again for what the last turn was told isn't there yet. Only the desk's answer counts: what the turn does is
    /// worked out where there is something, and the room for it is made.
    #[inline(never)]
    fn poll_again<R, D: Desk<R>>(
        &mut self,
        rt: &R,
        desk: &mut D,
        hart: u8,
        request: Request,
    ) -> Result<(), Stop>
        requires may { MayWait self.old hart request }
        requires again { IsAgain self.old.state hart self.old.again }
        requires active { ¬ (AllStopped (rank_of self.old.state)) }
        ensures { (channels : List ChannelView) → IsOver self.old channels
            → TurnEnds D.gives hart channels self.old desk.old result self.new desk.new }
    {
        match self.ask_hub(rt, desk, hart, request)? {
            (request, Reply::NotYet, stamp) => self.wait_on(hart, request, stamp),
            (request, reply, stamp) => {
                let turn = self.work_out(hart);
                self.tell_reply(&turn, request, reply, stamp);
            }
        }
        Ok(())
    }

    /// Tells the rank that what a hart asks for again isn't there yet: only the clock moves, and the room that was made
    /// for the turn is there still.
    fn wait_on(&mut self, hart: u8, request: Request, stamp: Stamp)
        requires may { MayWait self.old hart request }
        requires again { IsAgain self.old.state hart self.old.again }
        requires stamp { (self.old.state.clock < stamp) × (stamp < 2 ^ 62) }
        ensures { IsHubTurn hart request NotYet stamp self.old self.new }
    {
        self.state.clock = stamp;
        let noted = called(hart, stamp, request, Reply::NotYet, Some(hart));
        note(&mut self.trace, &mut self.asked_box, &mut self.roomy, noted);
    }

    /// Tells the rank the reply to its request.
    fn tell_reply(&mut self, turn: &Turn, request: Request, reply: Reply, stamp: Stamp)
        requires may { MayTurn self.old turn.now }
        requires asked { asked (rank_of self.old.state) turn.now.hart ≡ ask.Hub request }
        requires stamp { (self.old.state.clock < stamp) × (stamp < 2 ^ 62) }
        ensures { IsHubTurn turn.now.hart request reply stamp self.old self.new }
    {
        let (hart, link) = (turn.hart, named_link(&request, &reply));
        let phases = &self.state.phases;
        let (sending, receiving) = (phases.sending(link), phases.receiving(link));
        let answer = Answer::Reply(reply);
        self.state
            .tell_row(hart, &turn.doing, &turn.row, &answer, stamp);
        let phases = &self.state.phases;
        follow_sender(&mut self.sends, link, sending, phases.sending(link));
        follow_receiver(&mut self.recvs, link, receiving, phases.receiving(link));
        let noted = called(hart, stamp, request, into_reply(answer), None);
        note(&mut self.trace, &mut self.asked_box, &mut self.roomy, noted);
    }

    /// Makes a partition ready, with the bytes that are to stand in its box.
    pub(crate) fn make_ready(
        &mut self,
        channels: &[Channel],
        turn: &Turn,
        place: BoxId,
        bytes: &Contents,
    )
        requires may { MayTurn self.old turn.now }
        requires asked { asked (rank_of self.old.state) turn.now.hart ≡ ask.Ready place.link place.part bytes.now }
        requires own { IsOver self.old channels.now }
        ensures { IsQuietTurn turn.now.hart self.old self.new }
    {
        let size = self.state.phases.sending(place.link).size;
        let clock = self.state.clock;
        let bytes = &bytes.as_slice()[..size as usize];
        let stamp = make_ready(&mut self.sends, channels, place, bytes, clock);
        self.state
            .tell_row(turn.hart, &turn.doing, &turn.row, &Answer::Alone, stamp);
        let noted = uncalled(turn.hart, stamp, Kind::Ready, Some(place));
        note(&mut self.trace, &mut self.asked_box, &mut self.roomy, noted);
    }

    /// Looks whether a partition was taken.
    fn test(&mut self, channels: &[Channel], turn: &Turn, place: BoxId)
        requires may { MayTurn self.old turn.now }
        requires asked { asked (rank_of self.old.state) turn.now.hart ≡ ask.Freed place.link place.part }
        requires own { IsOver self.old channels.now }
        ensures { IsQuietTurn turn.now.hart self.old self.new }
    {
        let progress = test(&mut self.sends, channels, place.link, self.state.clock);
        let (answer, kind, stamp) = told_of_test(progress);
        self.state
            .tell_row(turn.hart, &turn.doing, &turn.row, &answer, stamp);
        let noted = uncalled(turn.hart, stamp, kind, Some(place));
        note(&mut self.trace, &mut self.asked_box, &mut self.roomy, noted);
    }

    /// Looks whether a box is ready, and takes what lies in it.
    pub(crate) fn look(&mut self, channels: &[Channel], turn: &Turn, place: BoxId)
        requires may { MayTurn self.old turn.now }
        requires asked { asked (rank_of self.old.state) turn.now.hart ≡ ask.Look place.link place.part }
        requires own { IsOver self.old channels.now }
        ensures { IsQuietTurn turn.now.hart self.old self.new }
    {
        let take = take(&mut self.recvs, channels, place, self.state.clock);
        let (answer, kind, stamp) = told_of_take(self.state.site.version, &take);
        self.state
            .tell_row(turn.hart, &turn.doing, &turn.row, &answer, stamp);
        let noted = uncalled(turn.hart, stamp, kind, Some(place));
        note(&mut self.trace, &mut self.asked_box, &mut self.roomy, noted);
    }
}
