//! Origins that are known: a member answered us from there.

ghost use Rattle.std.specs.Prelude.{◌≡◌, [], IfOk};
ghost use Rattle.wb_judge.specs.Known.{is_known, known_from, left, renewed};

use crate::limits::{MOST_KNOWN, SILENCE};
use crate::origin::Origin;
use std::alloc::{AllocError, Global};
use std::marker::Model;

/// An origin, and the moment at which something last came from there.
#[derive(Clone, Copy, Debug)]
pub struct KnownOrigin {
    pub origin: Origin,
    pub at: u64,
}

/// At most 1,024 origins: at the end is the one from which something came last.
#[derive(Drop)]
pub struct Known {
    items: Vec<KnownOrigin>,
}

impl Model for Known {
    ghost use Rattle.std.specs.Prelude.{List, length, ◌≤◌, vec_capacity};
    ghost use Rattle.wb_judge.specs.declared.known.KnownOrigin.{KnownOrigin};

    ghost Value = { List KnownOrigin };

    ghost view = { λ k. k.items.items };

    ghost invariant = { λ k. (length k.items.items ≤ 1024) × (1024 ≤ vec_capacity k.items) };
}

impl Known {
    /// Nobody is known yet.
    pub(crate) fn new(alloc: Global) -> Result<Known, AllocError>
        ensures { IfOk result (λ k. k ≡ []) }
    {
        let items = Vec::with_capacity(alloc, MOST_KNOWN)?;
        Ok(Known { items })
    }

    /// Whether an origin is known.
    #[tactic(auto, unfolding(crate::specs::Known::is_known))]
    pub(crate) fn has(&self, origin: Origin, now: u64) -> bool
        ensures { result ≡ is_known origin now self.now }
    {
        self.items.iter().any(|known| known.origin.is(&origin)
            && now.saturating_sub(known.at) <= SILENCE)
    }

    /// A member answered from there, or something came from there while it was known.
    #[tactic(auto, unfolding(crate::specs::Known::known_from))]
    pub(crate) fn put(&mut self, origin: Origin, now: u64)
        ensures { self.new ≡ known_from origin now self.old }
    {
        self.remove(origin);
        if self.items.len() >= MOST_KNOWN {
            let _silent = self.items.remove(0);
        }
        self.items.push_reserved(KnownOrigin { origin, at: now });
    }

    /// Something came from there.
    pub(crate) fn renew(&mut self, origin: Origin, now: u64)
        ensures { self.new ≡ renewed origin now self.old }
    {
        if self.has(origin, now) {
            self.put(origin, now);
        }
    }

    /// Whoever spoke from there is gone.
    pub(crate) fn remove(&mut self, origin: Origin)
        ensures { self.new ≡ left origin self.old }
    {
        self.items.retain(|known| !known.origin.is(&origin));
    }
}
