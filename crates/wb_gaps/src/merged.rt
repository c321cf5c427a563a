//! What two members report, together.

ghost use Rattle.std.specs.Prelude.{◌≡◌, ◌≤◌, IfOk, MatchResult};
ghost use Rattle.wb_names.specs.Marks.{IsMerge};
ghost use Rattle.wb_names.specs.declared.entries.TheConstants.{MAX_ENTRIES};
ghost use Rattle.wb_gaps.specs.Merging.{source_count};
ghost use Rattle.wb_gaps.specs.MergeFaults.{IsMergeFault};

use crate::joined::{count_sources, join};
use std::alloc::Global;
use thiserror::Error;
use wb_names::Marks;

/// Why two lists of marks are not merged.
#[derive(Clone, Copy, Debug, PartialEq, Eq, Error)]
pub enum MergeFault {
    /// The two have over 65,535 sources together, more than a list of marks can have.
    #[error("over 65535 sources together")]
    TooMany,
    /// Memory was refused.
    #[error("out of memory")]
    Memory,
}

impl MergeFault {
    ghost use Rattle.wb_gaps.specs.MergeFaults.{merge_code};

    /// The number of the fault, from 1.
    pub fn code(&self) -> u32
        ensures { result ≡ merge_code self.now }
    {
        match self {
            MergeFault::TooMany => 1,
            MergeFault::Memory => 2,
        }
    }
}

/// Each source of either list, ascending, with the greater of its two numbers. It is refused with
/// `TooMany` if the two have over 65,535 sources together, which is decided before any memory is
/// asked for, and with `Memory` if an allocation fails.
pub fn merge_marks(alloc: Global, first: &Marks, second: &Marks) -> Result<Marks, MergeFault>
    ensures merge { IfOk result (λ marks. IsMerge first.now second.now marks) }
    ensures fault { MatchResult result (λ _. source_count first.now second.now ≤ MAX_ENTRIES)
        (IsMergeFault first.now second.now) }
{
    let first = first.as_slice();
    let second = second.as_slice();
    let count = count_sources(first, second);
    if count > Marks::MAX_LEN {
        return Err(MergeFault::TooMany);
    }
    let Ok(marks) = join(alloc, first, second, count) else {
        return Err(MergeFault::Memory);
    };
    Ok(Marks::from_ascending(marks))
}
