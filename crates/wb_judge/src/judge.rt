//! The judge: what it remembers, and what its driver tells it.

ghost use Rattle.std.specs.Prelude.{◌≡◌, ◌<◌, ◌^◌, IfOk, None, Some};
ghost use Rattle.wb_names.specs.Moments.{IsMoment};
ghost use Rattle.wb_judge.specs.Adding.{adding_fault, own_echo};
ghost use Rattle.wb_judge.specs.Answers.{reported};
ghost use Rattle.wb_judge.specs.Days.{time_of_day};
ghost use Rattle.wb_judge.specs.Judge.{after_leaving, after_recall, after_taking, is_another, is_forged, is_full, knows, opened, owner_in, owner_of};
ghost use Rattle.wb_judge.specs.Pages.{rank_of};
ghost use Rattle.wb_judge.specs.Strange.{with_given, without_name};
ghost use Rattle.wb_judge.specs.declared.limits.TheConstants.{TIME_LIMIT};

use crate::aliens::Aliens;
use crate::bucket::Bucket;
use crate::day_clock::DayClock;
use crate::known::Known;
use crate::limits::{FRESH, RESERVE};
use crate::origin::Origin;
use crate::others::{Other, Others};
use crate::own_reports::OwnReports;
use crate::pages::{Rank, rank_of};
use crate::strange::{Given, Strange};
use crate::told::Told;
use std::alloc::{AllocError, Global};
use std::marker::Model;
use wb_names::{Echo, Name};

mod drawops;
mod hushing;
mod judging;
mod questions;
mod reports;

/// Why nothing can be drawn.
#[derive(Clone, Copy, Debug, PartialEq, Eq)]
pub enum AddFault {
    /// Somebody has our number too.
    Twin,
    /// The board has no cell for a drawing.
    Full,
}

/// How a judge begins.
#[derive(Clone, Copy, Debug)]
pub struct Start {
    /// Our number.
    pub me: u32,
    /// The cells of our board.
    pub cells: u32,
    /// The owner of our own origin, if the network keeps origins.
    pub here: Option<u64>,
    /// How many drawops of strangers are taken. If None, as many as the board has for them.
    pub strangers: Option<u16>,
}

/// The judgement of a member: bounded lists and integers, which are allocated when it begins. No
/// later call allocates.
#[derive(Drop)]
pub struct Judge {
    me: u32,
    cells: u32,
    here: Option<u64>,
    clock: DayClock,
    own: OwnReports,
    known: Known,
    others: Others,
    strange: Strange,
    told: Told,
    aliens: Aliens,
    hearing: Bucket,
    answering: Bucket,
    asked: Bucket,
    repairs: Bucket,
    served: Option<Origin>,
    fetch_at: u64,
    has_twin: bool,
}

impl Model for Judge {
    ghost use Rattle.wb_judge.specs.Judge.{Judge as JudgeValue};

    ghost Value = { JudgeValue };

    ghost view = { λ j. record {
      me = j.me;
      cells = j.cells;
      here = j.here;
      clock = j.clock;
      own = j.own;
      known = j.known;
      others = j.others;
      strange = j.strange;
      told = j.told;
      aliens = j.aliens;
      hearing = j.hearing.paid;
      answering = j.answering.paid;
      asked = j.asked.paid;
      repairs = j.repairs.paid;
      served = j.served;
      fetch_at = j.fetch_at;
      has_twin = j.has_twin;
    } };
}

impl Judge {
    /// Begins at a moment, at this time of day.
    pub fn new(alloc: Global, start: &Start, now: u64, wall: u64) -> Result<Judge, AllocError>
        requires { wall < TIME_LIMIT }
        ensures { IfOk result (λ j. j ≡ opened start.now.me start.now.cells now wall start.now.here start.now.strangers) }
    {
        let Start {
            me,
            cells,
            here,
            strangers,
        } = *start;
        Ok(Judge {
            me,
            cells,
            here,
            clock: DayClock::told(now, wall),
            own: OwnReports::new(alloc)?,
            known: Known::new(alloc)?,
            others: Others::new(alloc)?,
            strange: Strange::new(alloc, cells, strangers)?,
            told: Told::new(alloc)?,
            aliens: Aliens::new(alloc)?,
            hearing: Bucket::WHOLE,
            answering: Bucket::WHOLE,
            asked: Bucket::WHOLE,
            repairs: Bucket::WHOLE,
            served: None,
            fetch_at: 0,
            has_twin: false,
        })
    }

    /// The driver names the time of day at a moment.
    pub fn tell_time(&mut self, now: u64, wall: u64)
        requires { wall < TIME_LIMIT }
        ensures { self.new ≡ record self.old { clock = record { wall = wall; at = now } } }
    {
        self.clock = DayClock::told(now, wall);
    }

    /// A report of ours has this moment.
    pub fn reported(&mut self, sent: u64)
        ensures { self.new ≡ record self.old { own = reported sent self.old.own } }
    {
        self.own.put(sent);
    }

    /// The board has taken in a drawop that is new, and that came from there.
    pub fn took(&mut self, origin: Origin, name: Name, now: u64)
        ensures { self.new ≡ after_taking (record { name = name; origin = Some origin }) origin now self.old }
    {
        if !self.knows(origin, now) {
            self.strange.put(Given {
                name,
                origin: Some(origin),
            });
        }
    }

    /// The record says that no known origin gave a drawop that is held.
    pub fn remember(&mut self, name: Name)
        ensures { self.new ≡ record self.old { strange = with_given (record { name = name; origin = None }) self.old.strange } }
    {
        self.strange.put(Given { name, origin: None });
    }

    /// The record says that we or a member gave a drawop: if it was strange, it is so no more.
    pub fn forget(&mut self, name: &Name)
        ensures { self.new ≡ record self.old { strange = without_name name.now self.old.strange } }
    {
        if self.strange.has(name) {
            self.strange.remove(name);
        }
    }

    /// The record says that a number answered from there once: that owner has it, unless somebody
    /// has answered under it since this judge began.
    pub fn recall(&mut self, number: u32, origin: Origin)
        ensures { self.new ≡ after_recall number origin self.old }
    {
        if number != self.me {
            self.others.recall(number, origin);
        }
    }

    /// The network says that whoever spoke from there is gone.
    pub fn leave(&mut self, origin: Origin)
        ensures { self.new ≡ after_leaving origin self.old }
    {
        self.known.remove(origin);
        self.others.remove(origin);
    }

    /// The time of day.
    pub fn time_of_day(&self, now: u64) -> u64
        requires { IsMoment now }
        ensures { result ≡ time_of_day self.now.clock now }
    {
        self.clock.time_of_day(now)
    }

    /// Whether an origin is known.
    pub fn knows(&self, origin: Origin, now: u64) -> bool
        ensures { result ≡ knows origin now self.now }
    {
        self.known.has(origin, now)
    }

    /// The numbers that were heard.
    pub fn others(&self) -> &Others
        ensures { result.now ≡ self.now.others }
    {
        &self.others
    }

    /// What is held that no known origin gave.
    pub fn strange(&self) -> &Strange
        ensures { result.now ≡ self.now.strange }
    {
        &self.strange
    }

    /// Whose drawops a page has, of which these names are held.
    pub fn rank(&self, names: &[Name]) -> Rank
        ensures { result ≡ rank_of self.now.me self.now.strange.given names.now }
    {
        rank_of(self.me, &self.strange, names)
    }

    /// Whether no cell is left for a drawing, if `held` drawops are held.
    pub fn is_full(&self, held: u32) -> bool
        ensures { result ≡ is_full held self.now }
    {
        held >= self.cells - self.cells / RESERVE
    }

    /// Whether a number is another owner's, if the network keeps origins.
    fn is_forged(&self, number: u32, origin: Origin) -> bool
        ensures { result ≡ is_forged number origin self.now }
    {
        is_another(origin.owner, self.owner_of(number))
    }

    /// Who owns a number, if somebody does: of another, who has answered under it.
    pub fn owner_of(&self, number: u32) -> Option<u64>
        ensures { result ≡ owner_of number self.now }
    {
        if number == self.me {
            return self.here;
        }
        match self.others.get(number) {
            None => None,
            Some(other) => owner_in(&other),
        }
    }

    /// What a report of ours that leaves now echoes besides, under our own number: whoever has our
    /// number too hears from it that we have heard them. Those of eight origins have their turns. To
    /// all others the report says the same.
    pub fn own_echo(&self, now: u64) -> Option<Echo>
        ensures { result ≡ own_echo now self.now }
    {
        match self.aliens.at(now) {
            None => None,
            Some(alien) => {
                let held = now.saturating_sub(alien.at);
                if held > FRESH {
                    return None;
                }
                Some(Echo {
                    source: self.me,
                    sent: alien.sent,
                    held,
                })
            }
        }
    }

    /// Why nothing can be drawn, if so: a drawing, or a delete or a restore.
    pub fn adding_fault(&self, is_drawing: bool, held: u32) -> Option<AddFault>
        ensures { result ≡ adding_fault is_drawing held self.now }
    {
        if self.has_twin {
            return Some(AddFault::Twin);
        }
        if is_drawing && self.is_full(held) {
            return Some(AddFault::Full);
        }
        None
    }
}

/// Who owns where a number has answered from.
fn owner_in(other: &Other) -> Option<u64>
    ensures { result ≡ owner_in (Some other.now) }
{
    if other.answered.is_some() {
        other.origin.owner
    } else {
        None
    }
}

/// Whether an owner is another than the owner of a number.
fn is_another(owner: Option<u64>, other: Option<u64>) -> bool
    ensures { result ≡ is_another owner other }
{
    match (owner, other) {
        (Some(owner), Some(other)) => owner != other,
        _ => false,
    }
}
