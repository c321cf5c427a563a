//! Names of pages and of drawops.

ghost use Rattle.std.specs.Prelude.{◌≡◌, ◌≤◌};
ghost use Rattle.wb_names.specs.Faults.{value_unless};
ghost use Rattle.wb_names.specs.Drawing.{seq_fault};

use crate::fault::FieldFault;
use std::marker::Model;

/// A member takes numbers of its own from this one on for forged, if it does not hold them.
pub const FIRST_FORGED: u32 = 1 << 31;

/// A page, named by the source of its creator and a number that is the creator's own. Pages are
/// ordered by creator, then by number.
#[derive(Clone, Copy, Debug, PartialEq, Eq, PartialOrd, Ord, Hash)]
pub struct PageId {
    pub creator: u32,
    pub number: u32,
}

/// The name of a drawop: the source that made it, the page it is drawn on, and its sequence number
/// there, from 1. Names are ordered by source, then by page, then by number.
#[derive(Clone, Copy, Debug, PartialEq, Eq, PartialOrd, Ord, Hash)]
pub struct Name {
    source: u32,
    page: PageId,
    seq: u32,
}

impl Model for Name {
    ghost use Rattle.std.specs.Prelude.{◌≤◌};
    ghost use Rattle.wb_names.specs.Values.{NameValue};

    ghost Value = { NameValue };

    ghost view = { λ n. record { source = n.source; page = n.page; seq = n.seq } };

    ghost invariant = { λ n. 1 ≤ n.seq };

    ghost inverse = { λ v. record { source = v.source; page = v.page; seq = v.seq } };
}

impl Name {
    /// The name with these fields. The sequence number 0 is refused with `SeqZero`.
    #[inline(always)]
    pub fn new(source: u32, page: PageId, seq: u32) -> Result<Name, FieldFault>
        ensures { result ≡
            value_unless (seq_fault seq) (record { source = source; page = page; seq = seq }) }
    {
        if seq == 0 {
            return Err(FieldFault::SeqZero);
        }
        Ok(Name { source, page, seq })
    }

    /// The source that made the drawop.
    #[inline(always)]
    pub fn source(&self) -> u32
        ensures { result ≡ self.now.source }
    {
        self.source
    }

    /// The page that it is drawn on.
    #[inline(always)]
    pub fn page(&self) -> PageId
        ensures { result ≡ self.now.page }
    {
        self.page
    }

    /// Its sequence number within the source and the page, at least 1.
    #[inline(always)]
    pub fn seq(&self) -> u32
        ensures seq { result ≡ self.now.seq }
        ensures positive { 1 ≤ result }
    {
        self.seq
    }
}
