//! Marks: what is known of the sources on a page.

ghost use Rattle.std.specs.Prelude.{◌≡◌, ◌≤◌};
ghost use Rattle.wb_names.specs.Faults.{value_unless};
ghost use Rattle.wb_names.specs.Drawing.{seq_fault};

use crate::entries::Entry;
use crate::fault::FieldFault;
use std::marker::Model;

/// A source with the greatest sequence number that is known of it on some page, as session
/// messages report it.
#[derive(Clone, Copy, Debug, PartialEq, Eq)]
pub struct Mark {
    source: u32,
    high: u32,
}

impl Model for Mark {
    ghost use Rattle.std.specs.Prelude.{◌≤◌};
    ghost use Rattle.wb_names.specs.Values.{MarkValue};

    ghost Value = { MarkValue };

    ghost view = { λ m. record { source = m.source; high = m.high } };

    ghost invariant = { λ m. 1 ≤ m.high };

    ghost inverse = { λ v. record { source = v.source; high = v.high } };
}

impl Mark {
    /// The mark with these fields. The number 0 is refused with `SeqZero`.
    #[inline(always)]
    pub fn new(source: u32, high: u32) -> Result<Mark, FieldFault>
        ensures { result ≡ value_unless (seq_fault high) (record { source = source; high = high }) }
    {
        if high == 0 {
            return Err(FieldFault::SeqZero);
        }
        Ok(Mark { source, high })
    }

    /// The source.
    #[inline(always)]
    pub fn source(&self) -> u32
        ensures { result ≡ self.now.source }
    {
        self.source
    }

    /// The greatest sequence number that is known of it, at least 1.
    #[inline(always)]
    pub fn high(&self) -> u32
        ensures high { result ≡ self.now.high }
        ensures positive { 1 ≤ result }
    {
        self.high
    }
}

impl Entry for Mark {
    ghost use Rattle.std.specs.Prelude.{◌≤◌};

    ghost source = { λ m. m.source };

    ghost IsPositive = { λ m. 1 ≤ m.high };

    #[inline(always)]
    fn source(&self) -> u32 {
        self.source
    }
}
