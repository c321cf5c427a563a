//! What a self-managing member sends others as time goes on.
ghost use Rattle.std.specs.Prelude.{◌≡◌, ◌≤◌, ◌<◌, ◌++◌, ◌∷◌, [], IfOk, OnErr, OnOk, map};
ghost use Rattle.wb_gaps.specs.Answers.{pages_of, report_of};
ghost use Rattle.wb_keeping.specs.Kept.{answers, asks_pages, reports, reports_due, reports_in_turn, reports_newest, reports_next, reports_page, reports_turn, state_of, timed};
ghost use Rattle.wb_keeping.specs.Performing.{Does, IsKeptAt, Keeping, LeavesSome, view_of};
ghost use Rattle.wb_keeping.specs.Views.{is_known};
ghost use Rattle.wb_policy.specs.Choices.{firsts_of, have_answered, until_in};
ghost use Rattle.wb_policy.specs.Reports.{newest_now, page_after, rest_after, slice_after, slice_with};

use crate::kept_member::KeptMember;
use crate::kept_member::lines::send;
use std::alloc::{AllocError, Global};
use wb_codec::Datagram;
use wb_names::{Echo, Marks, Name, PageId};
use wb_policy::limits::{MOST_MARKS, MOST_PAGES};
use wb_policy::{
    Told, echoed, firsts, from_source, is_here, is_telling, is_untold, last_source, members,
    newest, next_turn, page_after, report_bytes,
};

impl KeptMember {
    /// What is due is sent: an answer, then a question, then a report; and then a hole has its turn,
    /// if that is due.
    pub(super) fn timed(
        &mut self,
        alloc: Global,
        sent: &mut Vec<Datagram>,
    ) -> Result<(), AllocError>
        ensures does { OnOk result (Does timed self.old self.new sent.old.items sent.new.items) }
        ensures left { OnErr result (LeavesSome timed self.old self.new) }
    {
        self.answers(alloc, sent)?;
        self.asks_pages(sent)?;
        self.reports_due(alloc, sent)?;
        self.turns_due(alloc)?;
        Ok(())
    }

    /// A question for pages is answered, if that is due.
    fn answers(&mut self, alloc: Global, sent: &mut Vec<Datagram>) -> Result<(), AllocError>
        ensures does { OnOk result (Does answers self.old self.new sent.old.items sent.new.items) }
        ensures left { OnErr result (LeavesSome answers self.old self.new) }
    {
        let now = self.member.moment();
        if !self.policy.is_to_answer(now) {
            return Ok(());
        }
        let first = self.member.pages_after(alloc, None, MOST_PAGES)?;
        self.tells_pages(alloc, sent, &first)?;
        self.policy.answered(now, first.len());
        Ok(())
    }

    /// The states of these pages are sent.
    fn tells_pages(
        &mut self,
        alloc: Global,
        sent: &mut Vec<Datagram>,
        pages: &[PageId],
    ) -> Result<(), AllocError>
        ensures same { self.new ≡ self.old }
        ensures sent { OnOk result ((k : Keeping) → IsKeptAt self.old k →
            sent.new.items ≡ sent.old.items ++ map (state_of (view_of k.host)) pages.now) }
    {
        for page in pages {
            let marks = self.slice(alloc, *page, None)?;
            let state = Datagram::PageState {
                sender: self.member.me(),
                page: *page,
                marks,
            };
            send(sent, state)?;
        }
        Ok(())
    }

    /// The next marks of a page: at most 64, of sources above `told`, or the first ones.
    fn slice(&mut self, alloc: Global, page: PageId, told: Option<u32>) -> Result<Marks, AllocError>
        ensures same { self.new ≡ self.old }
        ensures slice { IfOk result (λ slice. (k : Keeping) → IsKeptAt self.old k →
            slice ≡ slice_after told (report_of k.host.is.held page)) }
    {
        let slice = self.member.marks_after(alloc, page, told, MOST_MARKS)?;
        Ok(slice)
    }

    /// It asks for pages, if that is due.
    fn asks_pages(&mut self, sent: &mut Vec<Datagram>) -> Result<(), AllocError>
        ensures does { OnOk result
            (Does asks_pages self.old self.new sent.old.items sent.new.items) }
        ensures left { OnErr result (LeavesSome asks_pages self.old self.new) }
    {
        if !self.policy.asks_pages(self.member.moment()) {
            return Ok(());
        }
        let asker = self.member.me();
        send(sent, Datagram::AskPages { asker })?;
        Ok(())
    }

    /// It reports, if that is due.
    fn reports_due(&mut self, alloc: Global, sent: &mut Vec<Datagram>) -> Result<(), AllocError>
        ensures does { OnOk result
            (Does reports_due self.old self.new sent.old.items sent.new.items) }
        ensures left { OnErr result (LeavesSome reports_due self.old self.new) }
    {
        if !self.policy.reports(self.member.moment()) {
            return Ok(());
        }
        self.reports(alloc, sent)?;
        Ok(())
    }

    /// It reports what is in turn, and the next time what changed last.
    fn reports(&mut self, alloc: Global, sent: &mut Vec<Datagram>) -> Result<(), AllocError>
        ensures does { OnOk result (Does reports self.old self.new sent.old.items sent.new.items) }
        ensures left { OnErr result (LeavesSome reports self.old self.new) }
    {
        match self.newest_now() {
            Some(name) => self.reports_newest(alloc, sent, &name),
            None => self.reports_in_turn(alloc, sent),
        }
    }

    /// The name of the newest drawop that is held, if the next report tells its page.
    fn newest_now(&self) -> Option<Name>
        ensures { (k : Keeping) → IsKeptAt self.now k →
            result ≡ newest_now k.host.is.held k.policy.told }
    {
        if !self.policy.told().in_turn {
            return None;
        }
        newest(self.member.drawops())
    }

    /// It reports what changed last: the marks of the page of a name, with that of its source.
    fn reports_newest(
        &mut self,
        alloc: Global,
        sent: &mut Vec<Datagram>,
        name: &Name,
    ) -> Result<(), AllocError>
        ensures does { OnOk result
            (Does (reports_newest name.now) self.old self.new sent.old.items sent.new.items) }
        ensures left { OnErr result (LeavesSome (reports_newest name.now) self.old self.new) }
    {
        let slice = self.slice_with(alloc, name.page(), name.source())?;
        let told = Told {
            in_turn: false,
            ..self.policy.told()
        };
        self.reports_page(alloc, sent, name.page(), told, slice)
    }

    /// The marks of a page with that of a source: the first, or else those from it on.
    fn slice_with(&mut self, alloc: Global, page: PageId, source: u32) -> Result<Marks, AllocError>
        ensures same { self.new ≡ self.old }
        ensures slice { IfOk result (λ slice. (k : Keeping) → IsKeptAt self.old k →
            slice ≡ slice_with source (report_of k.host.is.held page)) }
    {
        let first = self.slice(alloc, page, None)?;
        if is_untold(last_source(first.as_slice()), source) {
            return self.slice(alloc, page, from_source(source));
        }
        Ok(first)
    }

    /// It reports what comes next of the page of its last report in turn, or else the next page.
    fn reports_in_turn(&mut self, alloc: Global, sent: &mut Vec<Datagram>) -> Result<(), AllocError>
        ensures does { OnOk result
            (Does reports_in_turn self.old self.new sent.old.items sent.new.items) }
        ensures left { OnErr result (LeavesSome reports_in_turn self.old self.new) }
    {
        let told = self.policy.told();
        let rest = self.rest(alloc)?;
        if rest.as_slice().is_empty() {
            self.reports_next(alloc, sent)?;
            return Ok(());
        }
        self.reports_turn(alloc, sent, told.page, told.until, rest)?;
        Ok(())
    }

    /// The next marks of the page of the last report in turn: none if its telling has ended.
    fn rest(&mut self, alloc: Global) -> Result<Marks, AllocError>
        ensures same { self.new ≡ self.old }
        ensures rest { IfOk result (λ rest. (k : Keeping) → IsKeptAt self.old k →
            rest ≡ rest_after k.policy.told.until k.policy.told.last
            (report_of k.host.is.held k.policy.told.page)) }
    {
        let told = self.policy.told();
        if !is_telling(told.until, told.last) {
            return Ok(Marks::from_ascending(Vec::new(alloc)));
        }
        self.slice(alloc, told.page, told.last)
    }

    /// The telling of the next page begins.
    fn reports_next(&mut self, alloc: Global, sent: &mut Vec<Datagram>) -> Result<(), AllocError>
        ensures does { OnOk result
            (Does reports_next self.old self.new sent.old.items sent.new.items) }
        ensures left { OnErr result (LeavesSome reports_next self.old self.new) }
    {
        let page = self.next_page(alloc)?;
        let until = self.until(page)?;
        let first = self.slice(alloc, page, None)?;
        self.reports_turn(alloc, sent, page, until, first)?;
        Ok(())
    }

    /// Where the telling of a page ends: at its last source, or at 0.
    fn until(&mut self, page: PageId) -> Result<u32, AllocError>
        ensures same { self.new ≡ self.old }
        ensures until { IfOk result (λ until. (k : Keeping) → IsKeptAt self.old k →
            until ≡ until_in (report_of k.host.is.held page)) }
    {
        let last = self.member.last_source(page)?;
        Ok(last.unwrap_or(0))
    }

    /// The next page in the cycle of the pages.
    fn next_page(&mut self, alloc: Global) -> Result<PageId, AllocError>
        ensures same { self.new ≡ self.old }
        ensures next { IfOk result (λ page. (k : Keeping) → IsKeptAt self.old k →
            page ≡ page_after k.policy.told.page (pages_of k.host.is.held)) }
    {
        let told = self.policy.told();
        let later = self.member.pages_after(alloc, Some(told.page), 1)?;
        let first = self.member.pages_after(alloc, None, 1)?;
        Ok(page_after(&later, &first))
    }

    /// In turn, it reports these marks of a page, whose telling ends at a source.
    fn reports_turn(
        &mut self,
        alloc: Global,
        sent: &mut Vec<Datagram>,
        page: PageId,
        until: u32,
        marks: Marks,
    ) -> Result<(), AllocError>
        ensures does { OnOk result
            (Does (reports_turn page until marks) self.old self.new sent.old.items
            sent.new.items) }
        ensures left { OnErr result (LeavesSome (reports_turn page until marks) self.old self.new) }
    {
        let told = Told {
            page,
            last: last_source(marks.as_slice()),
            until,
            in_turn: true,
        };
        self.reports_page(alloc, sent, page, told, marks)
    }

    /// It reports these marks of a page; `told` is what its reports told then.
    fn reports_page(
        &mut self,
        alloc: Global,
        sent: &mut Vec<Datagram>,
        page: PageId,
        told: Told,
        marks: Marks,
    ) -> Result<(), AllocError>
        ensures does { OnOk result
            (Does (reports_page page told marks) self.old self.new sent.old.items sent.new.items) }
        ensures left { OnErr result (LeavesSome (reports_page page told marks) self.old self.new) }
    {
        let all = self.member.echoes(alloc)?;
        let from = self.policy.echoed();
        let firsts = self.firsts(alloc, all.as_slice())?;
        let echoes = echoed(alloc, &firsts, from, &all)?;
        let next = next_turn(&firsts, from, echoes.as_slice());
        let bytes = report_bytes(&marks, &echoes);
        let now = self.member.moment();
        let others = members(all.as_slice());
        self.policy.echoed_up_to(next);
        self.policy.reported(now, told, others, bytes);
        let report = Datagram::Session {
            sender: self.member.me(),
            sent: now,
            page,
            marks,
            echoes,
        };
        send(sent, report)?;
        Ok(())
    }

    /// The senders that are echoed first.
    fn firsts(&self, alloc: Global, all: &[Echo]) -> Result<Vec<Echo>, AllocError>
        ensures { IfOk result (λ firsts. (k : Keeping) → IsKeptAt self.now k →
            firsts.items ≡ firsts_of (is_known (view_of k.host)) k.policy.echoed all.now) }
    {
        let answered = self.answered(alloc, all)?;
        let from = self.policy.echoed();
        let firsts = firsts(alloc, from, &answered)?;
        Ok(firsts)
    }

    /// The senders that are here and have answered.
    fn answered(&self, alloc: Global, all: &[Echo]) -> Result<Vec<Echo>, AllocError>
        ensures { IfOk result (λ answered. (k : Keeping) → IsKeptAt self.now k →
            answered.items ≡ have_answered (is_known (view_of k.host)) all.now) }
    {
        let mut answered = Vec::new(alloc);
        for echo in all {
            if self.is_known(echo.source) && is_here(*echo) {
                answered.push(*echo)?;
            }
        }
        Ok(answered)
    }
}
