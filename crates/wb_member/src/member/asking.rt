//! What a member tells others of a page, and what it asks them for.
ghost use Rattle.std.specs.Prelude.{◌≡◌, length, IfOk, OnErr};
ghost use Rattle.wb_member.specs.Holding.{IsOpenAt};
ghost use Rattle.wb_member.specs.Opened.{Opened, reported, message, looked, wanted_of, may_ask, with_asked, asks_for, with_stopped};

use crate::member::Member;
use std::alloc::{AllocError, Global};
use wb_codec::Datagram;
use wb_keeper::KeepFault;
use wb_names::{Name, PageId};

impl Member {
    /// The session message of a page, to be sent to all others.
    pub fn session(&mut self, alloc: Global, page: PageId) -> Result<Datagram, AllocError>
        ensures message { IfOk result (λ datagram. (host : Opened) → IsOpenAt self.old host →
            (datagram ≡ message page host) × IsOpenAt self.new (reported page host)) }
        ensures err { OnErr result (self.new ≡ self.old) }
    {
        let now = self.keeper.moment();
        match self
            .keeper
            .session(alloc, &self.board, &mut self.desk, now, page)
        {
            Ok(message) => Ok(message),
            Err(KeepFault::Memory) => Err(AllocError),
            Err(_) => unreachable!(),
        }
    }

    /// Looks for what is missing of a page, and begins to miss it. Answers how many drawops it is.
    pub fn look(&mut self, alloc: Global, page: PageId) -> Result<usize, AllocError>
        ensures looked { IfOk result (λ count. (host : Opened) → IsOpenAt self.old host →
            (count ≡ length (wanted_of page host)) × IsOpenAt self.new (looked page host)) }
        ensures err { OnErr result (self.new ≡ self.old) }
    {
        let names = self
            .keeper
            .missing(alloc, &self.board, &mut self.desk, page)?;
        let (words, rest) = self.words.ahead(alloc, names.len())?;
        let now = self.keeper.moment();
        match self.keeper.notice(alloc, now, &names, &words) {
            Ok(()) => {
                self.words = rest;
                Ok(names.len())
            }
            Err(KeepFault::Memory) => Err(AllocError),
            Err(_) => unreachable!(),
        }
    }

    /// Begins to miss a name: its request timer is set with the next random word. If the name is
    /// held or has a timer, nothing changes and the answer is false.
    pub fn ask(&mut self, alloc: Global, name: &Name) -> Result<bool, AllocError>
        ensures asked { IfOk result (λ begun. (host : Opened) → IsOpenAt self.old host →
            (begun ≡ may_ask name.now host) × IsOpenAt self.new (with_asked name.now host)) }
        ensures err { OnErr result (self.new ≡ self.old) }
    {
        if self.holds(name) || self.keeper.is_timed(name) {
            return Ok(false);
        }
        let (word, rest) = self.words.next_ahead()?;
        let now = self.keeper.moment();
        match self.keeper.notice(alloc, now, &[*name], &[word]) {
            Ok(()) => {
                self.words = rest;
                Ok(true)
            }
            Err(KeepFault::Memory) => Err(AllocError),
            Err(_) => unreachable!(),
        }
    }

    /// Gives up asking for a name. Answers whether a request timer stood for it.
    pub fn stop(&mut self, name: &Name) -> bool
        ensures { (host : Opened) → IsOpenAt self.old host →
            (result ≡ asks_for name.now host) × IsOpenAt self.new (with_stopped name.now host) }
    {
        let now = self.keeper.moment();
        match self.keeper.give_up(now, name) {
            Ok(asked) => asked,
            Err(_) => unreachable!(),
        }
    }
}
