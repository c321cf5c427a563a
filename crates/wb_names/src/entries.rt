//! Lists of entries that ascend by source: of marks, and of echoes.

ghost use Rattle.std.specs.Prelude.{◌≡◌, ◌<◌, ℕ, MatchResult, MatchBool, All, AllPairs, map};
ghost use Rattle.wb_names.specs.Ascending.{AreEntries, Descends, is_above as above};
ghost use Rattle.wb_names.specs.ListFaults.{IsListFault};

use crate::echo::Echo;
use crate::fault::ListFault;
use crate::mark::Mark;
use std::marker::Model;

/// The most entries that a list can have.
pub const MAX_ENTRIES: usize = 65_535;

/// What a list says about one source. It has at most one entry of each source.
pub trait Entry: Copy + Drop {
    /// The source.
    ghost source: { Self → ℕ };

    /// That its number is at least 1, if it has one.
    ghost IsPositive: { Self → Type 0 };

    /// The source that the entry is of.
    fn source(&self) -> u32
        ensures source { result ≡ source self.now }
        ensures positive { IsPositive self.now };

    /// Whether the source is above that of the entry before, if there is one.
    #[inline(always)]
    fn is_above(&self, before: Option<u32>) -> bool
        ensures { result ≡ above before (source self.now) }
    {
        match before {
            None => true,
            Some(last) => last < self.source(),
        }
    }
}

/// Up to 65,535 entries, strictly ascending by source.
#[derive(Debug, Drop)]
pub struct Entries<E: Entry> {
    items: Vec<E>,
}

/// Up to 65,535 marks, strictly ascending by source.
pub type Marks = Entries<Mark>;

/// Up to 65,535 echoes, strictly ascending by source.
pub type Echoes = Entries<Echo>;

impl<E: Entry> Model for Entries<E> {
    ghost use Rattle.std.specs.Prelude.{List};
    ghost use Rattle.wb_names.specs.Ascending.{AreEntries};

    ghost Value = { List E };

    ghost view = { λ m. m.items.items };

    ghost invariant = { λ m. AreEntries E.source E.IsPositive m.items.items };
}

/// Whether each source is above the one before it.
fn ascend<E: Entry>(entries: &[E]) -> bool
    ensures { MatchBool result (AllPairs (λ a b. E.source a < E.source b) entries.now ×
        All E.IsPositive entries.now) (Descends (map E.source entries.now)) }
{
    for (place, entry) in entries.iter().enumerate() {
        let source = entry.source();
        if place > 0 && source <= entries[place - 1].source() {
            return false;
        }
    }
    true
}

// A constant of each list by itself, since contracts see the value of no other.

impl Entries<Mark> {
    /// The most marks that a list can have.
    pub const MAX_LEN: usize = MAX_ENTRIES;
}

impl Entries<Echo> {
    /// The most echoes that a list can have.
    pub const MAX_LEN: usize = MAX_ENTRIES;
}

impl<E: Entry> Entries<E> {
    /// The list of these entries. It comes back with `TooMany` if there are over 65,535, else with
    /// `Order` if the sources are not strictly ascending.
    pub fn new(entries: Vec<E>) -> Result<Entries<E>, (ListFault, Vec<E>)>
        ensures list { MatchResult result (λ m. m ≡ entries.items)
            (λ e. e.1.items ≡ entries.items) }
        ensures fault { MatchResult result (AreEntries E.source E.IsPositive)
            (λ e. IsListFault (map E.source entries.items) e.0) }
    {
        if entries.len() > MAX_ENTRIES {
            return Err((ListFault::TooMany, entries));
        }
        if !ascend(entries.as_slice()) {
            return Err((ListFault::Order, entries));
        }
        Ok(Entries { items: entries })
    }

    /// The list of these entries, which are known to be one: nothing is looked at.
    #[inline(always)]
    pub fn from_ascending(entries: Vec<E>) -> Entries<E>
        requires { AreEntries E.source E.IsPositive entries.items }
        ensures { result ≡ entries.items }
    {
        Entries { items: entries }
    }

    /// The entries.
    pub fn as_slice(&self) -> &[E]
        ensures entries { result.now ≡ self.now }
        ensures lawful { AreEntries E.source E.IsPositive self.now }
    {
        self.items.as_slice()
    }

    /// The entries, as the list that they were made from.
    pub fn into_vec(self) -> Vec<E>
        ensures entries { result.items ≡ self }
        ensures lawful { AreEntries E.source E.IsPositive self }
    {
        self.items
    }
}
