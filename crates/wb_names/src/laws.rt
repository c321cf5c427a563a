//! Laws of the orders of pages and names, of arrivals, and of the limits. Each function does nothing: its contract
//! is a law, for callers to cite.

ghost use Rattle.std.specs.Prelude.{◌≡◌, ◌^◌, ◌-◌, ℕ, List};
ghost use Rattle.std.specs.Cmp.{IsTotalOrder};
ghost use Rattle.std.specs.declared.cmp.Ordering.TheVariants.{Equal};
ghost use Rattle.wb_names.specs.Values.{NameValue, DrawopValue};
ghost use Rattle.wb_names.specs.History.{IsHistory};
ghost use Rattle.wb_names.specs.Arrivals.{Outcome, IsTaken, outcome_of, outcomes_of, history_after, Counts, counts_of, IsBatch};
ghost use Rattle.wb_names.specs.Orders.{page_cmp, name_cmp};
ghost use Rattle.wb_names.specs.declared.name.PageId.{PageId as PageValue};
ghost use Rattle.wb_names.specs.declared.entries.TheConstants.{MAX_ENTRIES};
ghost use Rattle.wb_names.specs.declared.moment.TheConstants.{MOMENT_LIMIT, MAX_MOMENT};
ghost use Rattle.wb_names.specs.declared.name.TheConstants.{FIRST_FORGED};
ghost use Rattle.wb_names.specs.declared.shape.TheConstants.{MAX_COORDINATE};
ghost use Rattle.wb_names.specs.declared.text.TheConstants.Text.{MAX_LEN};

use crate::name::{Name, PageId};

/// Pages compare by creator, then by number. No two pages tie.
#[tactic(auto, using(crate::proofs::Orders::page_total))]
pub fn pages_are_ordered()
    ensures by { (p q : PageValue) → ⟦<PageId as Ord>⟧.cmp p q ≡ page_cmp p q }
    ensures total { IsTotalOrder page_cmp }
    ensures ties { (p q : PageValue) → page_cmp p q ≡ Equal → p ≡ q }
{}

/// Names compare by source, then by page, then by sequence number. No two names tie.
#[tactic(auto, using(crate::proofs::Orders::name_total))]
pub fn names_are_ordered()
    ensures by { (m n : NameValue) → ⟦<Name as Ord>⟧.cmp m n ≡ name_cmp m n }
    ensures total { IsTotalOrder name_cmp }
    ensures ties { (m n : NameValue) → name_cmp m n ≡ Equal → m ≡ n }
{}

/// One thread has one answer to arrivals, whatever they are: the outcome of each, the history after
/// them, and how many came to what.
#[tactic(auto, using(crate::proofs::Arrivals::outcome_is))]
pub fn arrivals_have_one_answer()
    ensures outcome { (cells : ℕ) (history : List DrawopValue) (d : DrawopValue) (o : Outcome) →
        IsHistory history → IsTaken cells history d o → o ≡ outcome_of cells history d }
    ensures batch { (cells : ℕ) (history arrivals after : List DrawopValue) (n : Counts) →
        IsHistory history → IsBatch cells history arrivals after n →
        (after ≡ history_after cells history arrivals) ×
        (n ≡ counts_of (outcomes_of cells history arrivals)) }
{}

/// The limits: of entries in a list, of moments in microseconds, of coordinates, of the bytes of a
/// text, and of numbers that are not forged.
pub fn limits()
    ensures entries { MAX_ENTRIES ≡ 65535 }
    ensures moments { (MOMENT_LIMIT ≡ 2 ^ 48) × (MAX_MOMENT ≡ 2 ^ 48 - 1) }
    ensures coordinates { MAX_COORDINATE ≡ 4095 }
    ensures text { MAX_LEN ≡ 64 }
    ensures forged { FIRST_FORGED ≡ 2 ^ 31 }
{}
