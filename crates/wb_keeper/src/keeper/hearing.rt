//! What is heard of others, and answered at once.

ghost use Rattle.std.specs.Prelude.{◌≡◌, ◌≢◌, ◌⊎◌, ◌∷◌, [], IfErr, IfOk, OnOk, OnErr, false, nat_le};
ghost use Rattle.wb_board.specs.Desks.{IsPassOf, IsCaughtUp, ReadsOn};
ghost use Rattle.wb_names.specs.Ascending.{AreMarks};
ghost use Rattle.wb_names.specs.Faults.{first_of, fault_unless};
ghost use Rattle.wb_names.specs.declared.entries.TheConstants.{MAX_ENTRIES};
ghost use Rattle.wb_gaps.specs.Merging.{source_count};
ghost use Rattle.wb_keeper.specs.Hearing.{IsSent, ArePageStates, answers_to, asks_for_held, hear_fault, has_room};
ghost use Rattle.wb_keeper.specs.Keeper.{Hear, is_own};
ghost use Rattle.wb_keeper.specs.Keeping.{Keeps, marks_at};
ghost use Rattle.wb_keeper.specs.KeepFaults.{IsKeptBy};
ghost use Rattle.wb_keeper.specs.TakingIn.{AreMerged, IsMerged, has_all};
ghost use Rattle.wb_keeper.specs.declared.keep_fault.KeepFault.TheVariants.{Memory, TooMany};

use crate::keep_fault::KeepFault;
use crate::keeper::Keeper;
use crate::keeper::knowing::number_of;
use std::alloc::{AllocError, Global};
use wb_board::{Board, Desk};
use wb_codec::Datagram;
use wb_gaps::{MergeFault, merge_marks};
use wb_names::{Mark, Marks};

impl Keeper {
    /// Hears a datagram, and answers what is to be sent at once: the page states if another member
    /// asks which pages there are, and else nothing. It reads the history to its end first.
    ///
    /// The marks of a session message or page state are merged with those heard of its page. The
    /// sender of a session message is remembered, up to 65,535 senders, and its echo of this
    /// member, if it has one, may tell the delay to the sender. A request goes to the timers, with
    /// the word. A drawop, and what this member sent itself, changes nothing but the moment.
    ///
    /// Refused with `BackInTime`, `Range`, `TooMany` (of the marks of its page) or `Memory`, in
    /// this order. A refused call leaves the keeper as it was, and the desk too, except that it may
    /// have seen more if memory ran out. The moment is in microseconds.
    pub fn hear(
        &mut self,
        alloc: Global,
        board: &Board,
        desk: &mut Desk,
        now: u64,
        datagram: &Datagram,
        word: u64,
    ) -> Result<Vec<Datagram>, KeepFault>
        requires desk { IsPassOf board.now desk.old }
        ensures fault { IsKeptBy (hear_fault self.old.me self.old.moment
            (marks_at self.old.marks) now datagram.now) result }
        ensures desk { (desk.new ≡ desk.old) ⊎ ReadsOn desk.old desk.new }
        ensures untouched { IfErr result (λ fault. fault ≢ Memory → desk.new ≡ desk.old) }
        ensures end { OnOk result (ReadsOn desk.old desk.new × IsCaughtUp desk.old desk.new) }
        ensures answers { IfOk result
            (λ sent. sent.items ≡ answers_to self.old.me desk.new.seen datagram.now) }
        ensures ok { OnOk result (Keeps (Hear now datagram.now word
            (asks_for_held desk.new.seen datagram.now)) self.old self.new) }
        ensures err { OnErr result (self.new ≡ self.old) }
    {
        self.check(now)?;
        if self.is_own(datagram) {
            board.refresh(desk)?;
            self.moment = now;
            return Ok(Vec::new(alloc));
        }
        let merged = self.merged(alloc, datagram)?;
        board.refresh(desk)?;
        let sent = self.answers(alloc, desk, datagram)?;
        self.take_in(desk, now, datagram, word, merged)?;
        Ok(sent)
    }

    /// Whether this member sent it.
    fn is_own(&self, datagram: &Datagram) -> bool
        ensures { result ≡ is_own self.now.me datagram.now }
    {
        match datagram {
            Datagram::Draw(_) => false,
            Datagram::Session { sender, .. } => *sender == self.me,
            Datagram::Request { asker, .. } => *asker == self.me,
            Datagram::AskPages { asker } => *asker == self.me,
            Datagram::PageState { sender, .. } => *sender == self.me,
        }
    }

    /// The marks of its page once those that it tells are merged with what was heard, if it tells
    /// something new.
    fn merged(&self, alloc: Global, datagram: &Datagram) -> Result<Option<Marks>, KeepFault>
        ensures fault { IsKeptBy (first_of
            (fault_unless (has_room (marks_at self.now.marks) datagram.now) TooMany ∷ [])) result }
        ensures merged { IfOk result (AreMerged (marks_at self.now.marks) datagram.now) }
    {
        match datagram {
            Datagram::Session { page, marks, .. } => merge(alloc, self.marks(*page), marks),
            Datagram::PageState { page, marks, .. } => merge(alloc, self.marks(*page), marks),
            Datagram::Draw(_) | Datagram::Request { .. } | Datagram::AskPages { .. } => Ok(None),
        }
    }

    /// What is sent at once for a datagram of another member.
    fn answers(
        &self,
        alloc: Global,
        desk: &mut Desk,
        datagram: &Datagram,
    ) -> Result<Vec<Datagram>, AllocError>
        requires other { is_own self.now.me datagram.now ≡ false }
        ensures same { desk.new ≡ desk.old }
        ensures sent { IfOk result
            (λ sent. IsSent self.now.me desk.old.seen datagram.now sent.items) }
    {
        match datagram {
            Datagram::AskPages { .. } => self.page_states(alloc, desk),
            Datagram::Draw(_)
            | Datagram::Session { .. }
            | Datagram::Request { .. }
            | Datagram::PageState { .. } => Ok(Vec::new(alloc)),
        }
    }

    /// A page state for each page that the desk holds, ascending.
    fn page_states(&self, alloc: Global, desk: &mut Desk) -> Result<Vec<Datagram>, AllocError>
        ensures same { desk.new ≡ desk.old }
        ensures sent { IfOk result (λ sent. ArePageStates self.now.me desk.old.seen sent.items) }
    {
        let holdings = desk.holdings()?;
        let reports = holdings.reports(alloc)?;
        let sent = reports.into_iter().map(|report| Datagram::PageState {
            sender: self.me,
            page: report.page,
            marks: report.marks,
        });
        sent.collect(alloc)
    }
}

/// Both lists of marks as one, or None if those that were heard have all that the others tell.
fn merge(alloc: Global, heard: &Marks, told: &Marks) -> Result<Option<Marks>, KeepFault>
    ensures fault { IsKeptBy (first_of
        (fault_unless (nat_le (source_count heard.now told.now) MAX_ENTRIES) TooMany ∷ [])) result }
    ensures merged { IfOk result (IsMerged heard.now told.now) }
{
    if have_all(heard.as_slice(), told.as_slice()) {
        return Ok(None);
    }
    match merge_marks(alloc, heard, told) {
        Ok(marks) => Ok(Some(marks)),
        Err(MergeFault::TooMany) => Err(KeepFault::TooMany),
        Err(MergeFault::Memory) => Err(KeepFault::Memory),
    }
}

/// Whether the marks that were heard have all that the others tell.
fn have_all(heard: &[Mark], told: &[Mark]) -> bool
    requires { AreMarks heard.now }
    ensures { result ≡ has_all heard.now told.now }
{
    for mark in told {
        if number_of(heard, mark.source()) < mark.high() {
            return false;
        }
    }
    true
}
