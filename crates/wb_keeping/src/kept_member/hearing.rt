//! What a self-managing member does with a datagram that came in.
ghost use Rattle.std.specs.Prelude.{◌≡◌, ◌≤◌, ◌<◌, ◌∷◌, ◌||◌, [], ℕ, IfOk, OnErr, OnOk, if◌then◌else◌};
ghost use Rattle.wb_codec.specs.declared.datagram.Datagram.TheVariants.{PageState, Session};
ghost use Rattle.wb_member.specs.Holding.{outcome_in};
ghost use Rattle.wb_member.specs.Opened.{becomes};
ghost use Rattle.wb_keeping.specs.Kept.{Calls, hears, hears_request, hears_session, hears_some, hears_state, measures, of_other, performs, takes, takes_question};
ghost use Rattle.wb_keeping.specs.Performing.{DoesQuietly, IsKeptAt, Keeping, LeavesSome, view_of};
ghost use Rattle.wb_keeping.specs.Views.{holds, is_full};
ghost use Rattle.wb_keeping.specs.Refusing.{came_as};

use crate::kept_member::KeptMember;
use std::alloc::{AllocError, Global};
use wb_board::Reply;
use wb_codec::Datagram;
use wb_names::{Drawop, Echoes, Marks, Name, PageId};
use wb_policy::{echoed_delay, own_echo, own_marks, told_names};

impl KeptMember {
    /// A datagram came in. What names this member as its sender is no news. Answers what became of
    /// a drawop.
    pub(super) fn hears(
        &mut self,
        alloc: Global,
        datagram: &Datagram,
    ) -> Result<Option<Reply>, AllocError>
        ensures became { IfOk result (λ reply. (k : Keeping) → IsKeptAt self.old k →
            outcome_in reply ≡ came_as datagram.now k.host) }
        ensures does { OnOk result (DoesQuietly (hears datagram.now) self.old self.new) }
        ensures left { OnErr result (LeavesSome (hears datagram.now) self.old self.new) }
    {
        match datagram {
            Datagram::Draw(drawop) => {
                let became = self.takes(alloc, drawop)?;
                return Ok(became);
            }
            Datagram::Session {
                sender,
                sent,
                page,
                marks,
                echoes,
            } => self.hears_session(alloc, *sender, *sent, *page, marks, echoes)?,
            Datagram::PageState {
                sender,
                page,
                marks,
            } => self.hears_state(alloc, *sender, *page, marks)?,
            Datagram::Request { asker, name } => self.hears_request(alloc, *asker, *name)?,
            Datagram::AskPages { asker } => self.takes_question(*asker),
        }
        Ok(None)
    }

    /// A drawop came. Answers what became of it.
    fn takes(&mut self, alloc: Global, drawop: &Drawop) -> Result<Option<Reply>, AllocError>
        ensures became { IfOk result (λ reply. (k : Keeping) → IsKeptAt self.old k →
            outcome_in reply ≡ becomes drawop.now k.host) }
        ensures does { OnOk result (DoesQuietly (takes drawop.now) self.old self.new) }
        ensures left { OnErr result (LeavesSome (takes drawop.now) self.old self.new) }
    {
        let name = drawop.name();
        let is_no_news = self.is_no_news(&name);
        let was_asked = self.is_asked(&name);
        let became = self.member.accept(drawop)?;
        if is_no_news {
            return Ok(became);
        }
        self.learned(alloc, &name, was_asked)?;
        Ok(became)
    }

    /// Whether a name is held, or there is no cell for it.
    fn is_no_news(&self, name: &Name) -> bool
        ensures { (k : Keeping) → IsKeptAt self.now k →
            result ≡ (holds (view_of k.host) name.now || is_full (view_of k.host)) }
    {
        self.member.holds(name) || self.member.is_full()
    }

    /// A session message came. If it is another member's, the keeper hears the marks of this member
    /// that are believed, and its echo.
    fn hears_session(
        &mut self,
        alloc: Global,
        sender: u32,
        sent: u64,
        page: PageId,
        marks: &Marks,
        echoes: &Echoes,
    ) -> Result<(), AllocError>
        ensures does { OnOk result (DoesQuietly (of_other sender
            (hears_session sender sent page marks.now echoes.now)) self.old self.new) }
        ensures left { OnErr result
            (LeavesSome (of_other sender (hears_session sender sent page marks.now echoes.now))
            self.old self.new) }
    {
        let (me, now) = (self.member.me(), self.member.moment());
        if sender == me {
            return Ok(());
        }
        let own = own_marks(alloc, me, self.policy.is_listening(now), marks)?;
        let echo = own_echo(alloc, me, echoes)?;
        let delay = echoed_delay(now, echo.as_slice());
        let heard = Datagram::Session {
            sender,
            sent,
            page,
            marks: own,
            echoes: echo,
        };
        self.hear(alloc, &heard)?;
        self.measures(sender, delay)?;
        let told = told_names(alloc, me, page, marks)?;
        self.want_told(alloc, &told)?;
        Ok(())
    }

    /// Records the delay measured from our echo, if there was one.
    fn measures(&mut self, sender: u32, delay: Option<u64>) -> Result<(), AllocError>
        ensures does { OnOk result (DoesQuietly (measures sender delay) self.old self.new) }
        ensures left { OnErr result (LeavesSome (measures sender delay) self.old self.new) }
    {
        let Some(micros) = delay else {
            return Ok(());
        };
        let near = self.policy.measure(micros);
        if near == micros {
            return Ok(());
        }
        self.set_delay(sender, near)?;
        Ok(())
    }

    /// A page state came. If it is another member's, the keeper hears the marks of this member that
    /// are believed, and this member answers no question for pages for a second.
    fn hears_state(
        &mut self,
        alloc: Global,
        sender: u32,
        page: PageId,
        marks: &Marks,
    ) -> Result<(), AllocError>
        ensures does { OnOk result
            (DoesQuietly (of_other sender (hears_state sender page marks.now)) self.old self.new) }
        ensures left { OnErr result
            (LeavesSome (of_other sender (hears_state sender page marks.now)) self.old self.new) }
    {
        let (me, now) = (self.member.me(), self.member.moment());
        if sender == me {
            return Ok(());
        }
        let own = own_marks(alloc, me, self.policy.is_listening(now), marks)?;
        self.policy.hear_state(now);
        self.hears_some(alloc, sender, page, own)?;
        let told = told_names(alloc, me, page, marks)?;
        self.want_told(alloc, &told)?;
        Ok(())
    }

    /// The keeper hears a page state with these marks, if there are some.
    fn hears_some(
        &mut self,
        alloc: Global,
        sender: u32,
        page: PageId,
        marks: Marks,
    ) -> Result<(), AllocError>
        ensures does { OnOk result (DoesQuietly (hears_some sender page marks) self.old self.new) }
        ensures err { OnErr result (self.new ≡ self.old) }
    {
        if marks.as_slice().is_empty() {
            return Ok(());
        }
        let state = Datagram::PageState {
            sender,
            page,
            marks,
        };
        self.hear(alloc, &state)?;
        Ok(())
    }

    /// A request came. If it is another's, the keeper hears it, with the delay to the asker if
    /// the name is held, or else to its source. The usual one is lent, if that is not known.
    fn hears_request(&mut self, alloc: Global, asker: u32, name: Name) -> Result<(), AllocError>
        ensures does { OnOk result
            (DoesQuietly (of_other asker (hears_request asker name)) self.old self.new) }
        ensures left { OnErr result
            (LeavesSome (of_other asker (hears_request asker name)) self.old self.new) }
    {
        if asker == self.member.me() {
            return Ok(());
        }
        let source = self.answered_to(asker, &name);
        let lent = self.lent_to(source);
        let request = Datagram::Request { asker, name };
        self.hear_by(alloc, &request, source, lent)?;
        Ok(())
    }

    /// Whose delay counts for a request: the asker's if the name is held, or else its source's.
    fn answered_to(&self, asker: u32, name: &Name) -> u32
        ensures { (k : Keeping) → IsKeptAt self.now k → result ≡
            (if holds (view_of k.host) name.now then asker else name.now.source) }
    {
        if self.member.holds(name) {
            asker
        } else {
            name.source()
        }
    }

    /// A member asks for pages: another one's question is taken up.
    fn takes_question(&mut self, asker: u32)
        ensures { DoesQuietly (of_other asker takes_question) self.old self.new }
    {
        if asker != self.member.me() {
            let holds_some = !self.member.drawops().is_empty();
            self.policy.take_question(self.member.moment(), holds_some);
        }
    }
}
