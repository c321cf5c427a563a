//! What a page shows, from a whole list of drawops.

ghost use Rattle.std.specs.Prelude.{◌≡◌, ◌↔◌, IfOk, IsTrue, take};
ghost use Rattle.wb_names.specs.History.{IsHistory};
ghost use Rattle.wb_display.specs.Display.{IsView};
ghost use Rattle.wb_display.specs.LastWords.{AreLastWords};

use crate::last_words::LastWords;
use indexmap::IndexSet;
use std::alloc::{AllocError, Global};
use wb_names::{Drawop, PageId, display_order};

/// The last words of a list on a page.
fn last_words_in(alloc: Global, list: &[Drawop], page: PageId) -> Result<LastWords, AllocError>
    ensures words { IfOk result (AreLastWords list.now) }
    ensures page { IfOk result (λ words. words.page ≡ page) }
{
    let mut words = LastWords::new(alloc, page);
    for drawop in list {
        words.update(drawop)?;
    }
    Ok(words)
}

/// The drawops that a page shows, in the order of display: by time, then by source, then by number.
/// The list holds no name twice, and may stand in any order and hold drawops of other pages.
pub fn order(alloc: Global, list: &[Drawop], page: PageId) -> Result<Vec<Drawop>, AllocError>
    requires { IsHistory list.now }
    ensures { IfOk result (λ shown. IsView list.now page shown.items) }
{
    let words = last_words_in(alloc, list, page)?;
    let mut shown = Vec::new(alloc);
    for drawop in list {
        if words.is_shown(drawop) {
            shown.push(*drawop)?;
        }
    }
    shown.sort_unstable_by(|a, b| display_order(a, b));
    Ok(shown)
}

/// Whether no name stands twice in a list, as `order` asks. It takes an index of the names; a layer
/// takes a list of any names.
pub fn is_history(alloc: Global, list: &[Drawop]) -> Result<bool, AllocError>
    ensures { IfOk result (λ once. IsTrue once ↔ IsHistory list.now) }
{
    let mut names = IndexSet::with_capacity(alloc, list.len())?;
    for drawop in list {
        if !names.insert(drawop.name())? {
            return Ok(false);
        }
    }
    Ok(true)
}
