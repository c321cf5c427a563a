//! The drawops of a history that a pass has seen, with an index of their names.
ghost use Rattle.std.specs.Prelude.{◌≡◌, ◌+◌, ◌<◌, ◌≤◌, [], ◌∷◌, ◌++◌, length, IfOk, OnOk, MatchOption};
ghost use mathlib.Core.List.{IsPrefix};
ghost use mathlib.Core.Option.{some};
ghost use lib.ListN.{get_elem?};
ghost use Rattle.wb_names.specs.Values.{DrawopValue};
ghost use Rattle.wb_names.specs.History.{IsHistory, HoldsName};

use indexmap::IndexSet;
use std::alloc::{AllocError, Global};
use std::marker::Model;
use wb_names::{Drawop, Name};

/// Drawops of a history in order of place. Their names stand in an index in the same order, so that
/// one look-up tells a place.
#[derive(Drop)]
pub(crate) struct Seen {
    list: Vec<Drawop>,
    names: IndexSet<Name>,
}

impl Model for Seen {
    ghost use Rattle.wb_history.specs.Indexed.{SeenValue, IsIndexed, seen_of};

    ghost Value = { SeenValue };

    ghost view = { λ m. seen_of m };

    ghost invariant = { λ m. IsIndexed m };
}

impl Seen {
    /// No drawops.
    pub(crate) fn new(alloc: Global) -> Seen
        ensures { result.items ≡ [] }
    {
        Seen {
            list: Vec::new(alloc),
            names: IndexSet::new(alloc),
        }
    }

    /// How many there are.
    #[inline(always)]
    pub(crate) fn len(&self) -> usize
        ensures { result ≡ length self.now.items }
    {
        self.list.len()
    }

    /// All of them in order of place.
    #[inline(always)]
    pub(crate) fn as_slice(&self) -> &[Drawop]
        ensures { result.now ≡ self.now.items }
    {
        self.list.as_slice()
    }

    /// The place of the drawop with this name.
    #[tactic(auto, using(crate::proofs::Names::place_found))]
    pub(crate) fn place_of(&self, name: &Name) -> Option<usize>
        ensures { MatchOption result (¬ HoldsName self.now.items name.now)
            (λ i. (i < length self.now.items) × (d : DrawopValue) ×
            (get_elem? self.now.items i ≡ some d) × (d.name ≡ name.now)) }
    {
        self.names.get_index_of(name)
    }

    /// Makes room for `more` drawops, in the list and in the index.
    pub(crate) fn reserve(&mut self, more: usize) -> Result<(), AllocError>
        ensures items { self.new.items ≡ self.old.items }
        ensures room { OnOk result (more ≤ self.new.room) }
    {
        self.list.reserve(more)?;
        self.names.reserve(more)
    }

    /// Puts a drawop at the end.
    pub(crate) fn put(&mut self, drawop: &Drawop)
        requires room { 0 < self.old.room }
        requires new { ¬ HoldsName self.old.items drawop.now.name }
        ensures items { self.new.items ≡ self.old.items ++ drawop.now ∷ [] }
        ensures room { self.old.room ≤ self.new.room + 1 }
    {
        self.list.push_reserved(*drawop);
        let Ok(_) = self.names.insert(drawop.name()) else {
            unreachable!()
        };
    }

    /// Puts in what a longer list has more, for which there is room.
    #[tactic(auto, using(crate::proofs::Words::none_before, atomic_table::proofs::Lists::at_index))]
    pub(crate) fn extend_to(&mut self, longer: &[Drawop])
        requires front { IsPrefix self.old.items longer.now × IsHistory longer.now }
        requires room { length longer.now ≤ length self.old.items + self.old.room }
        ensures { self.new.items ≡ longer.now }
    {
        for place in self.len()..longer.len() {
            self.put(&longer[place]);
        }
    }

    /// The same drawops again. The copied index keeps the hashes that it has.
    pub(crate) fn copied(&self) -> Result<Seen, AllocError>
        ensures { IfOk result (λ copy. copy.items ≡ self.now.items) }
    {
        Ok(Seen {
            list: self.list.clone()?,
            names: self.names.clone()?,
        })
    }
}
