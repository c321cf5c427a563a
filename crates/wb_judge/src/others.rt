//! The numbers that were heard.

ghost use Rattle.std.specs.Prelude.{◌≡◌, ◌≤◌, ◌<◌, [], IfOk, IfSome, is_none, length, position};
ghost use Rattle.wb_judge.specs.Firm.{is_present, present};
ghost use Rattle.wb_judge.specs.Others.{first_to_go, gone_from, was_answered, has_speaker, heard_lately, is_bound_elsewhere, other_of, other_with, recalled, spoken, without};

use crate::limits::{MOST_OTHERS, PATIENCE};
use crate::origin::Origin;
use std::alloc::{AllocError, Global};
use std::marker::Model;

/// A number that was heard: from where, when last, when it last answered us, and when a stream of
/// it began.
#[derive(Clone, Copy, Debug)]
pub struct Other {
    pub number: u32,
    pub origin: Origin,
    pub at: u64,
    pub answered: Option<u64>,
    pub fetched: Option<u64>,
}

/// At most 1,024 numbers: at the end is the one that was heard last.
#[derive(Drop)]
pub struct Others {
    items: Vec<Other>,
}

impl Model for Others {
    ghost use Rattle.std.specs.Prelude.{List, length, ◌≤◌, vec_capacity};
    ghost use Rattle.wb_judge.specs.declared.others.Other.{Other};

    ghost Value = { List Other };

    ghost view = { λ o. o.items.items };

    ghost invariant = { λ o. (length o.items.items ≤ 1024) × (1024 ≤ vec_capacity o.items) };
}

impl Others {
    /// Nobody was heard yet.
    pub(crate) fn new(alloc: Global) -> Result<Others, AllocError>
        ensures { IfOk result (λ o. o ≡ []) }
    {
        let items = Vec::with_capacity(alloc, MOST_OTHERS)?;
        Ok(Others { items })
    }

    /// A number, if it is remembered.
    pub fn get(&self, number: u32) -> Option<Other>
        ensures { result ≡ other_of number self.now }
    {
        other_of(&self.items, number)
    }

    /// Those that were heard within 192 s, the one that was heard last at the end.
    pub fn heard_lately(&self, alloc: Global, now: u64) -> Result<Vec<Other>, AllocError>
        ensures { IfOk result (λ others. others.items ≡ heard_lately now self.now) }
    {
        let here = self
            .items
            .iter()
            .filter(|other| now.saturating_sub(other.at) <= PATIENCE);
        here.copied().collect(alloc)
    }

    /// Whether some number speaks from there.
    pub(crate) fn has_speaker(&self, origin: Origin) -> bool
        ensures { result ≡ has_speaker origin self.now }
    {
        self.items.iter().any(|other| other.origin.is(&origin))
    }

    /// Whether it is that of a member that has answered us and speaks from another origin: it was
    /// heard there lately, or has an owner.
    #[tactic(auto, unfolding(crate::specs::Others::is_bound_elsewhere))]
    pub(crate) fn is_bound_elsewhere(&self, number: u32, origin: Origin, now: u64) -> bool
        ensures { result ≡ is_bound_elsewhere number origin now self.now }
    {
        match self.get(number) {
            None => false,
            Some(other) => {
                !other.origin.is(&origin)
                    && other.answered.is_some()
                    && (now.saturating_sub(other.at) <= PATIENCE || other.origin.owner.is_some())
            }
        }
    }

    /// How many have answered us and were heard lately.
    pub fn present(&self, now: u64) -> usize
        ensures { result ≡ present now self.now }
    {
        self.items
            .iter()
            .filter(|other| is_present(other, now))
            .count()
    }

    /// What is remembered of a number that speaks from there.
    #[tactic(auto, unfolding(crate::specs::Others::spoken))]
    pub(crate) fn spoken(&self, number: u32, origin: Origin, now: u64) -> Other
        ensures { result ≡ spoken number origin now self.now }
    {
        let new = Other {
            number,
            origin,
            at: now,
            answered: None,
            fetched: None,
        };
        match self.get(number) {
            None => new,
            Some(before) => {
                if before.origin.is(&origin) {
                    Other { at: now, ..before }
                } else {
                    new
                }
            }
        }
    }

    /// Remembers what a number that was heard has become.
    #[tactic(auto, unfolding(crate::specs::Others::other_with))]
    pub(crate) fn put(&mut self, other: Other)
        ensures { self.new ≡ other_with other self.old }
    {
        self.forget(other.number);
        if self.items.len() >= MOST_OTHERS {
            let first = self.first_to_go();
            let _gone = self.items.remove(first);
        }
        self.items.push_reserved(other);
    }

    /// Remembers that a number answered from there once, unless somebody has answered under it.
    #[tactic(auto, unfolding(crate::specs::Others::recalled))]
    pub(crate) fn recall(&mut self, number: u32, origin: Origin)
        ensures { self.new ≡ recalled number origin self.old }
    {
        if was_answered(self.get(number)) {
            return;
        }
        self.put(Other {
            number,
            origin,
            at: 0,
            answered: Some(0),
            fetched: None,
        });
    }

    /// The first that has not answered us, else the first.
    fn first_to_go(&self) -> usize
        requires { 0 < length self.now }
        ensures place { result ≡ first_to_go self.now }
        ensures within { result < length self.now }
    {
        unanswered(&self.items).unwrap_or(0)
    }

    fn forget(&mut self, number: u32)
        ensures { self.new ≡ without number self.old }
    {
        self.items.retain(|other| other.number != number);
    }

    /// Whoever spoke from there is gone.
    pub(crate) fn remove(&mut self, origin: Origin)
        ensures { self.new ≡ gone_from origin self.old }
    {
        self.items.retain(|other| !other.origin.is(&origin));
    }
}

/// A number, if it is among some.
fn other_of(others: &[Other], number: u32) -> Option<Other>
    ensures { result ≡ other_of number others.now }
{
    others.iter().find(|other| other.number == number).copied()
}

/// Whether somebody has answered under a number.
fn was_answered(other: Option<Other>) -> bool
    ensures { result ≡ was_answered other }
{
    match other {
        None => false,
        Some(other) => other.answered.is_some(),
    }
}

/// Whether a number has answered us and was heard lately.
fn is_present(other: &Other, now: u64) -> bool
    ensures { result ≡ is_present now other.now }
{
    other.answered.is_some() && now.saturating_sub(other.at) <= PATIENCE
}

/// The place of the first that has not answered us, if there is one.
fn unanswered(others: &[Other]) -> Option<usize>
    ensures place { result ≡ position (λ x. is_none x.answered) others.now }
    ensures within { IfSome result (λ place. place < length others.now) }
{
    others.iter().position(|other| other.answered.is_none())
}
