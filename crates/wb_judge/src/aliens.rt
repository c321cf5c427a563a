//! Reports under our number that are not ours.

ghost use Rattle.std.specs.Prelude.{◌≡◌, [], IfOk, filter};
ghost use Rattle.wb_judge.specs.Aliens.{alien_at, beside, with_alien};

use crate::limits::{FRESH, MOST_ALIENS};
use crate::origin::Origin;
use std::alloc::{AllocError, Global};
use std::marker::Model;

/// The last report under our number that came from an origin and is not ours: its moment, and the
/// moment at which it came.
#[derive(Clone, Copy, Debug)]
pub struct Alien {
    pub origin: Origin,
    pub sent: u64,
    pub at: u64,
}

/// At most eight, each of another origin. While it is fresh, none pushes out another.
#[derive(Drop)]
pub struct Aliens {
    items: Vec<Alien>,
}

impl Model for Aliens {
    ghost use Rattle.std.specs.Prelude.{List, length, ◌≤◌, vec_capacity};
    ghost use Rattle.wb_judge.specs.declared.aliens.Alien.{Alien};

    ghost Value = { List Alien };

    ghost view = { λ a. a.items.items };

    ghost invariant = { λ a. (length a.items.items ≤ 8) × (8 ≤ vec_capacity a.items) };
}

impl Aliens {
    /// None came yet.
    pub(crate) fn new(alloc: Global) -> Result<Aliens, AllocError>
        ensures { IfOk result (λ a. a ≡ []) }
    {
        let items = Vec::with_capacity(alloc, MOST_ALIENS)?;
        Ok(Aliens { items })
    }

    /// One came. It is remembered if there is room beside those of other origins that are fresh.
    pub(crate) fn put(&mut self, alien: Alien)
        ensures { self.new ≡ with_alien alien self.old }
    {
        self.forget(alien);
        if self.items.len() < MOST_ALIENS {
            self.items.push_reserved(alien);
        }
    }

    /// The one before of its origin goes, and those that are old.
    fn forget(&mut self, alien: Alien)
        ensures { self.new ≡ filter (beside alien) self.old }
    {
        self.items.retain(|other| is_beside(other, &alien));
    }

    /// The one that is echoed at a moment: each has its turns.
    pub(crate) fn at(&self, now: u64) -> Option<Alien>
        ensures { result ≡ alien_at now self.now }
    {
        alien_at(&self.items, now)
    }
}

/// Whether one stays when another came: it is of another origin, and fresh.
fn is_beside(other: &Alien, alien: &Alien) -> bool
    ensures { result ≡ beside alien.now other.now }
{
    !other.origin.is(&alien.origin) && alien.at.saturating_sub(other.at) <= FRESH
}

/// The one whose turn it is.
fn alien_at(aliens: &[Alien], now: u64) -> Option<Alien>
    ensures { result ≡ alien_at now aliens.now }
{
    if aliens.is_empty() {
        return None;
    }
    aliens.get(now as usize % aliens.len()).copied()
}
