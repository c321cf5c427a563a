//! Calls by bytes at a host: they are those of its self-managing member, or of its judged one.
ghost use Rattle.std.specs.Prelude.{◌≡◌, IfOk, Ok, is_some};
ghost use Rattle.wb_names.specs.Moments.{IsMoment};
ghost use Rattle.wb_codec.specs.Reading.{reading};
ghost use Rattle.wb_keeping.specs.Calls.{IsWithin, line_of};
ghost use Rattle.wb_member.specs.Questions.{IsAnswerable};
ghost use Rattle.wb_c.specs.Performing.{Answers, Performs};
ghost use Rattle.wb_dialog.specs.Doing.{judged_in};
ghost use Rattle.wb_c.specs.Serving.{Adds, AddsBy, Asks, AtAny, AtMember, AtOwn, CameBy, Draws, GivesEvent, Takes, TicksBy, read_by};

use crate::performing::{ask, perform};
use crate::query::query_of;
use crate::room::{Room, write_out};
use crate::status::{
    DONE, JUDGED, NO_DATAGRAM, NO_DRAWOP, NO_MOMENT, NO_QUESTION, NOT_KEPT, NOTHING, WAITS,
};
use std::alloc::{AllocError, Global};
use wb_codec::{Datagram, ReadFault, read};
use wb_judging::{Call, JudgedMember, News};
use wb_keeping::KeptCall;
use wb_member::Query;
use wb_names::{Drawop, MOMENT_LIMIT, PageId, shape_of};

/// The datagram of some bytes, or the status that says why they are none.
pub(crate) fn datagram_of(alloc: Global, bytes: &[u8]) -> Result<Result<Datagram, u32>, AllocError>
    ensures { IfOk result (λ read. read ≡ read_by (reading bytes.now)) }
{
    match read(alloc, bytes) {
        Ok(datagram) => Ok(Ok(datagram)),
        Err(ReadFault::Memory) => Err(AllocError),
        Err(fault) => Ok(Err(NO_DATAGRAM + fault.code())),
    }
}

impl Room {
    /// Something happens to a self-managing member, if it is one.
    fn call_kept(&mut self, alloc: Global, call: KeptCall<'_>) -> Result<u32, AllocError>
        requires { IsWithin (line_of call) }
        ensures { IfOk result (AtMember (Performs (line_of call.entry)) self.old self.new) }
    {
        let Some(mut kept) = self.dialog.take_kept() else {
            return Ok(NOT_KEPT);
        };
        let status = perform(alloc, &mut kept, call, &mut self.events);
        self.dialog.put_kept(kept);
        status
    }

    /// A datagram came in at a moment, without its origin.
    fn take_unjudged(
        &mut self,
        alloc: Global,
        now: u64,
        datagram: &Datagram,
    ) -> Result<u32, AllocError>
        requires { IsMoment now }
        ensures { IfOk result (Takes now (Ok datagram.now) self.old self.new) }
    {
        if self.dialog.is_judged() {
            return Ok(JUDGED);
        }
        self.call_kept(alloc, KeptCall::Came { now, datagram })
    }

    /// The bytes of a datagram came in at a moment.
    pub(crate) fn came(&mut self, alloc: Global, now: u64, bytes: &[u8]) -> Result<u32, AllocError>
        ensures { IfOk result (CameBy now (reading bytes.now) self.old self.new) }
    {
        if now >= MOMENT_LIMIT {
            return Ok(NO_MOMENT);
        }
        match datagram_of(alloc, bytes)? {
            Ok(datagram) => self.take_unjudged(alloc, now, &datagram),
            Err(status) => Ok(status),
        }
    }

    /// Time goes on to a moment.
    pub(crate) fn tick(&mut self, alloc: Global, now: u64) -> Result<u32, AllocError>
        ensures { IfOk result (TicksBy now self.old self.new) }
    {
        if now >= MOMENT_LIMIT {
            return Ok(NO_MOMENT);
        }
        if self.dialog.is_judged() {
            let news = News::Nothing;
            return self.judge(alloc, &Call::Passed { now, news });
        }
        self.call_kept(alloc, KeptCall::Ticked { now })
    }

    /// The user draws what a drawop does.
    fn draw(&mut self, alloc: Global, now: u64, drawop: Drawop) -> Result<u32, AllocError>
        requires { IsMoment now }
        ensures { IfOk result (Draws now drawop self.old self.new) }
    {
        let page = drawop.name().page();
        if self.dialog.is_judged() {
            let op = *drawop.op();
            return self.judge(alloc, &Call::UserDrew { now, page, op });
        }
        let call = KeptCall::Added {
            now,
            page,
            time: drawop.time(),
            shape: shape_of(drawop.op()),
        };
        self.call_kept(alloc, call)
    }

    /// The user draws what a datagram does, if it is a drawop.
    fn add_drawop(
        &mut self,
        alloc: Global,
        now: u64,
        datagram: &Datagram,
    ) -> Result<u32, AllocError>
        requires { IsMoment now }
        ensures { IfOk result (Adds now (Ok datagram.now) self.old self.new) }
    {
        match datagram {
            Datagram::Draw(drawop) => self.draw(alloc, now, *drawop),
            _ => Ok(NO_DRAWOP),
        }
    }

    /// The user draws what the drawop of some bytes does.
    pub(crate) fn add(&mut self, alloc: Global, now: u64, bytes: &[u8]) -> Result<u32, AllocError>
        ensures { IfOk result (AddsBy now (reading bytes.now) self.old self.new) }
    {
        if now >= MOMENT_LIMIT {
            return Ok(NO_MOMENT);
        }
        match datagram_of(alloc, bytes)? {
            Ok(datagram) => self.add_drawop(alloc, now, &datagram),
            Err(status) => Ok(status),
        }
    }

    /// It is asked a question, if it is judged.
    fn answers_judged(&mut self, alloc: Global, query: Query) -> Result<u32, AllocError>
        requires { IsAnswerable query }
        ensures { IfOk result
            (AtOwn (Answers query) (judged_in self.old.dialog.host) self.old self.new) }
    {
        let Some(member) = self.dialog.take_member() else {
            return Ok(NOT_KEPT);
        };
        let (mut kept, judge) = member.into_parts();
        let status = ask(alloc, &mut kept, query, &mut self.events);
        self.dialog.put_member(JudgedMember::of_parts(kept, judge));
        status
    }

    /// It is asked a question, if it is not judged.
    fn answers_kept(&mut self, alloc: Global, query: Query) -> Result<u32, AllocError>
        requires { IsAnswerable query }
        ensures { IfOk result (AtMember (Answers query) self.old self.new) }
    {
        let Some(mut kept) = self.dialog.take_kept() else {
            return Ok(NOT_KEPT);
        };
        let status = ask(alloc, &mut kept, query, &mut self.events);
        self.dialog.put_kept(kept);
        status
    }

    /// It is asked a question.
    fn answers(&mut self, alloc: Global, query: Query) -> Result<u32, AllocError>
        requires { IsAnswerable query }
        ensures { IfOk result
            (AtAny (is_some (judged_in self.old.dialog.host)) (Answers query) self.old self.new) }
    {
        if self.dialog.is_judged() {
            self.answers_judged(alloc, query)
        } else {
            self.answers_kept(alloc, query)
        }
    }

    /// It is asked the question of this number, about a page.
    pub(crate) fn ask(
        &mut self,
        alloc: Global,
        question: u32,
        page: PageId,
        width: u32,
        height: u32,
    ) -> Result<u32, AllocError>
        ensures { IfOk result (Asks question page width height self.old self.new) }
    {
        match query_of(question, page, width, height) {
            Some(query) => self.answers(alloc, query),
            None => Ok(NO_QUESTION),
        }
    }

    /// Hands over the next event, if there is room for its bytes.
    pub(crate) fn next_event(
        &mut self,
        alloc: Global,
        kind: &mut u32,
        buffer: &mut [u8],
        size: &mut usize,
    ) -> Result<u32, AllocError>
        ensures dialog { self.new.dialog ≡ self.old.dialog }
        ensures block { self.new.block ≡ self.old.block }
        ensures event { IfOk result (GivesEvent self.old.events.items self.new.events.items
            buffer.old buffer.new kind.new size.new) }
    {
        let Some(event) = self.events.front() else {
            *kind = 0;
            *size = 0;
            return Ok(NOTHING);
        };
        let bytes = event.bytes(alloc)?;
        *kind = event.kind();
        *size = bytes.len();
        if !write_out(bytes.as_slice(), buffer) {
            return Ok(WAITS);
        }
        self.events.pop_front();
        Ok(DONE)
    }
}
