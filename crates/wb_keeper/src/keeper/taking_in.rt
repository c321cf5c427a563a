//! What is kept of a datagram. A call that is refused puts back what it changed.

ghost use Rattle.std.specs.Prelude.{◌≡◌, ◌<◌, ◌≤◌, ◌^◌, IsSome, OnOk, OnErr, IfSome, false, length, nat_eq};
ghost use Rattle.std.specs.List.{find};
ghost use Rattle.std.specs.BTreeMap.{get};
ghost use Rattle.std.specs.Ordering.{nat_cmp};
ghost use Rattle.wb_names.specs.Moments.{IsMoment};
ghost use Rattle.wb_recovery.specs.Delays.{IsDelay};
ghost use Rattle.wb_codec.specs.declared.datagram.Datagram.TheVariants.{Request};
ghost use Rattle.wb_keeper.specs.Hearing.{asks_for_held};
ghost use Rattle.wb_keeper.specs.Keeper.{Hear, delay_by, holds, is_own};
ghost use Rattle.wb_keeper.specs.Keeping.{Keeps, marks_at};
ghost use Rattle.wb_keeper.specs.TakingIn.{AreMerged, count_with, delays_with, has_place, heard_with, marks_with, restored};

use crate::keeper::arrivals::is_held;
use crate::keeper::{Heard, Keeper};
use std::alloc::AllocError;
use std::collections::BTreeMap;
use wb_board::Desk;
use wb_codec::Datagram;
use wb_names::{Echo, Echoes, Marks, Name, PageId};
use wb_recovery::distance;

impl Keeper {
    /// The most members whose session messages are remembered: as many as one list of echoes names.
    const MOST_HEARD: usize = Echoes::MAX_LEN;

    /// Takes in a datagram of another member. All growth comes before what a caller sees.
    pub(super) fn take_in(
        &mut self,
        desk: &Desk,
        now: u64,
        datagram: &Datagram,
        word: u64,
        merged: Option<Marks>,
    ) -> Result<(), AllocError>
        requires after { self.old.moment ≤ now }
        requires moment { IsMoment now }
        requires other { is_own self.old.me datagram.now ≡ false }
        requires merged { AreMerged (marks_at self.old.marks) datagram.now merged }
        ensures ok { OnOk result (Keeps (Hear now datagram.now word
            (asks_for_held desk.now.seen datagram.now)) self.old self.new) }
        ensures err { OnErr result (self.new ≡ self.old) }
    {
        match datagram {
            Datagram::Session {
                sender,
                sent,
                page,
                echoes,
                ..
            } => {
                let delay = self.delay_given(echoes, now);
                self.note_session(now, *sender, *sent, delay, *page, merged)
            }
            Datagram::PageState { page, .. } => self.note_marks(now, *page, merged),
            Datagram::Request { asker, name } => {
                self.note_request(desk, now, *asker, *name, word)
            }
            Datagram::AskPages { .. } => Ok(self.go_on(now)),
            Datagram::Draw(_) => Ok(self.go_on(now)),
        }
    }

    /// The delay that the echo of this member tells, if there is one and it tells a delay.
    fn delay_given(&self, echoes: &Echoes, now: u64) -> Option<u64>
        ensures { result ≡ delay_by now (find (λ e. nat_eq e.source self.now.me) echoes.now) }
    {
        let echo = self.echo_of_me(echoes)?;
        distance(echo.sent, echo.held, now)
    }

    /// The echo of this member, by a search: echoes ascend by source.
    fn echo_of_me(&self, echoes: &Echoes) -> Option<Echo>
        ensures { result ≡ find (λ e. nat_eq e.source self.now.me) echoes.now }
    {
        let echoes = echoes.as_slice();
        match echoes.binary_search_by_key(&self.me, |echo| echo.source) {
            Ok(place) => Some(echoes[place]),
            Err(_) => None,
        }
    }

    /// Keeps what a session message tells: the delay to its sender, if it tells one, when it was
    /// heard, and the marks of its page, if they changed.
    fn note_session(
        &mut self,
        now: u64,
        sender: u32,
        sent: u64,
        delay: Option<u64>,
        page: PageId,
        merged: Option<Marks>,
    ) -> Result<(), AllocError>
        requires after { self.old.moment ≤ now }
        requires moment { IsMoment now }
        requires near { IfSome delay IsDelay }
        ensures ok { OnOk result (self.new ≡
            record self.old {
              moment = now;
              delays = delays_with sender delay self.old.delays;
              heard = heard_with sender (record { sent = sent; at = now }) self.old.heard;
              marks = marks_with page merged self.old.marks;
            }) }
        ensures counted { OnOk result (length self.new.heard ≡ count_with sender self.old.heard) }
        ensures err { OnErr result (self.new ≡ self.old) }
    {
        let Some(delay) = delay else {
            return self.note_sender(now, sender, sent, page, merged);
        };
        let Ok(before) = self.delays.insert(sender, delay) else {
            return Err(AllocError);
        };
        if self.note_sender(now, sender, sent, page, merged).is_err() {
            restore(&mut self.delays, sender, before);
            return Err(AllocError);
        }
        Ok(())
    }

    /// Keeps when the session message of a sender was heard, if the sender has a place, and the
    /// marks of its page, if they changed.
    fn note_sender(
        &mut self,
        now: u64,
        sender: u32,
        sent: u64,
        page: PageId,
        merged: Option<Marks>,
    ) -> Result<(), AllocError>
        requires after { self.old.moment ≤ now }
        requires moment { IsMoment now }
        ensures ok { OnOk result (self.new ≡ record self.old {
          moment = now;
          heard = heard_with sender (record { sent = sent; at = now }) self.old.heard;
          marks = marks_with page merged self.old.marks;
        }) }
        ensures counted { OnOk result (length self.new.heard ≡ count_with sender self.old.heard) }
        ensures err { OnErr result (self.new ≡ self.old) }
    {
        if !self.has_place(sender) {
            return self.note_marks(now, page, merged);
        }
        let Ok(before) = self.heard.insert(sender, Heard { sent, at: now }) else {
            return Err(AllocError);
        };
        if self.note_marks(now, page, merged).is_err() {
            restore(&mut self.heard, sender, before);
            return Err(AllocError);
        }
        Ok(())
    }

    /// Whether a sender is remembered, or there is room for it.
    fn has_place(&self, sender: u32) -> bool
        ensures { result ≡ has_place sender self.now.heard }
    {
        self.heard.contains_key(&sender) || self.heard.len() < Keeper::MOST_HEARD
    }

    /// Tells the timers of a request: the delay that counts is that to the asker if the desk holds
    /// the name, and else that to its source.
    fn note_request(
        &mut self,
        desk: &Desk,
        now: u64,
        asker: u32,
        name: Name,
        word: u64,
    ) -> Result<(), AllocError>
        requires after { self.old.moment ≤ now }
        requires moment { IsMoment now }
        requires other { nat_eq asker self.old.me ≡ false }
        ensures ok { OnOk result (Keeps
            (Hear now (Request asker name) word (holds desk.now.seen name)) self.old self.new) }
        ensures err { OnErr result (self.new ≡ self.old) }
    {
        let held = is_held(desk, &name);
        let delay = self.delay(if held { asker } else { name.source() });
        if self.recovery.asked(name, held, now, delay, word).is_err() {
            return Err(AllocError);
        }
        self.moment = now;
        Ok(())
    }

    /// The moment alone changes.
    pub(super) fn go_on(&mut self, now: u64)
        requires after { self.old.moment ≤ now }
        requires moment { IsMoment now }
        ensures { self.new ≡ record self.old { moment = now } }
    {
        self.moment = now;
    }

    /// Keeps the marks of a page, if they changed.
    fn note_marks(
        &mut self,
        now: u64,
        page: PageId,
        merged: Option<Marks>,
    ) -> Result<(), AllocError>
        requires after { self.old.moment ≤ now }
        requires moment { IsMoment now }
        ensures ok { OnOk result (self.new ≡
            record self.old { moment = now; marks = marks_with page merged self.old.marks }) }
        ensures err { OnErr result (self.new ≡ self.old) }
    {
        if let Some(marks) = merged {
            if self.marks.insert(page, marks).is_err() {
                return Err(AllocError);
            }
        }
        self.moment = now;
        Ok(())
    }
}

/// Puts back what stood at a key, at which something stands.
fn restore<V: Drop>(map: &mut BTreeMap<u32, V>, key: u32, before: Option<V>)
    requires { IsSome (get nat_cmp map.old key) }
    ensures { map.new.entries ≡ restored key before map.old.entries }
{
    match before {
        Some(value) => match map.insert(key, value) {
            Ok(_) => {}
            Err(_) => unreachable!(),
        },
        None => {
            map.remove(&key);
        }
    }
}
