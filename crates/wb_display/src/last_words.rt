//! The last word on each drawop of a page: the latest of the deletes and restores that name it,
//! whether it is held or not.

ghost use Rattle.std.specs.Prelude.{◌≡◌, ◌<◌, ◌≤◌, ◌+◌, ◌++◌, ◌∷◌, [], List, Option, Some, None, OnOk, OnErr, IsOk, if◌then◌else◌};
ghost use Rattle.std.specs.HashMap.{spare};
ghost use Rattle.std.specs.Ordering.{is_lt};
ghost use Rattle.wb_names.specs.Values.{DrawopValue};
ghost use Rattle.wb_names.specs.Orders.{same_page};
ghost use Rattle.wb_display.specs.Display.{is_drawing as is_drawing_op, is_delete as is_delete_op};
ghost use Rattle.wb_display.specs.LastWord.{own_target, aimed_target, affected_target, word_of, word_cmp, later_word as later_word_of, hides, is_shown_by};
ghost use Rattle.wb_names.specs.declared.parts.Target.{Target};
ghost use Rattle.wb_display.specs.LastWords.{AreLastWords, word_on};

use std::alloc::{AllocError, Global};
use std::collections::HashMap;
use wb_names::{Change, Drawop, Op, PageId, Target};

/// What names a drawop on its page.
#[inline(always)]
pub(crate) fn naming(drawop: &Drawop) -> Target
    ensures { result ≡ own_target drawop.now }
{
    Target {
        source: drawop.name().source(),
        seq: drawop.name().seq(),
    }
}

/// What a delete or a restore says, and when it was said.
#[derive(Clone, Copy)]
pub(crate) struct LastWord {
    time: u64,
    source: u32,
    seq: u32,
    hides: bool,
}

impl LastWord {
    /// What a drawop says of its target.
    #[inline(always)]
    fn of(drawop: &Drawop) -> LastWord
        ensures { result ≡ word_of drawop.now }
    {
        LastWord {
            time: drawop.time(),
            source: drawop.name().source(),
            seq: drawop.name().seq(),
            hides: is_delete(drawop.op()),
        }
    }

    /// Whether it was said before the other.
    #[inline(always)]
    fn is_before(&self, other: &LastWord) -> bool
        ensures { result ≡ is_lt (word_cmp self.now other.now) }
    {
        self.time
            .cmp(&other.time)
            .then(self.source.cmp(&other.source))
            .then(self.seq.cmp(&other.seq))
            .is_lt()
    }
}

#[inline(always)]
fn is_delete(op: &Op) -> bool
    ensures { result ≡ is_delete_op op.now }
{
    matches!(op, Op::Aimed(Change::Delete, _))
}

/// Whether an operation puts glyphs on its page.
#[inline(always)]
pub(crate) fn is_drawing(op: &Op) -> bool
    ensures { result ≡ is_drawing_op op.now }
{
    matches!(op, Op::Drawn(..) | Op::Text { .. })
}

/// The target of a delete or a restore.
#[inline(always)]
fn aimed_at(op: &Op) -> Option<Target>
    ensures { result ≡ aimed_target op.now }
{
    match *op {
        Op::Aimed(_, target) => Some(target),
        _ => None,
    }
}

/// The one drawop whose showing may change when this one is put on its page: its target, or itself
/// if it has none.
#[inline(always)]
pub(crate) fn affected_by(drawop: &Drawop) -> Target
    ensures { result ≡ affected_target drawop.now }
{
    match aimed_at(drawop.op()) {
        Some(target) => target,
        None => naming(drawop),
    }
}

/// The last words of a page.
#[derive(Drop)]
pub(crate) struct LastWords {
    pub page: PageId,
    latest: HashMap<Target, LastWord>,
}

impl LastWords {
    /// No drawop of the page has a last word.
    pub fn new(alloc: Global, page: PageId) -> LastWords
        ensures page { result.page ≡ page }
        ensures none { AreLastWords [] result }
    {
        LastWords {
            page,
            latest: HashMap::new(alloc),
        }
    }

    /// Makes room for `count` words more.
    pub fn reserve(&mut self, count: usize) -> Result<(), AllocError>
        ensures page { self.new.page ≡ self.old.page }
        ensures words { (target : Target) → word_on self.new target ≡ word_on self.old target }
        ensures room { OnOk result (count ≤ spare self.new.latest) }
    {
        self.latest.reserve(count)
    }

    /// Takes in a drawop: if it is a delete or a restore on the page, and later than the last word
    /// on its target so far, it is the last word on that.
    pub fn update(&mut self, drawop: &Drawop) -> Result<(), AllocError>
        ensures page { self.new.page ≡ self.old.page }
        ensures ok { OnOk result ((history : List DrawopValue) → AreLastWords history self.old →
            AreLastWords (history ++ drawop.now ∷ []) self.new) }
        ensures err { OnErr result ((target : Target) →
            word_on self.new target ≡ word_on self.old target) }
        ensures succeeds { 1 ≤ spare self.old.latest → IsOk result }
        ensures room { spare self.old.latest ≤ spare self.new.latest + 1 }
    {
        if !self.is_on_page(drawop) {
            return Ok(());
        }
        let Some(target) = aimed_at(drawop.op()) else {
            return Ok(());
        };
        let word = self.later_word(target, LastWord::of(drawop));
        self.latest.insert(target, word)?;
        Ok(())
    }

    /// The later of the last word on a drawop so far and one word more.
    #[inline(always)]
    fn later_word(&self, target: Target, word: LastWord) -> LastWord
        ensures { result ≡ later_word_of (word_on self.now target) word }
    {
        match self.latest.get(&target) {
            Some(before) if !before.is_before(&word) => *before,
            _ => word,
        }
    }

    /// Whether a drawop is of the page.
    #[inline(always)]
    pub fn is_on_page(&self, drawop: &Drawop) -> bool
        ensures { result ≡ same_page drawop.now.name.page self.now.page }
    {
        drawop.name().page() == self.page
    }

    /// Whether a drawop is shown on the page, by the last word on it.
    #[inline(always)]
    pub fn is_shown(&self, drawop: &Drawop) -> bool
        ensures { result ≡
            is_shown_by self.now.page drawop.now (word_on self.now (own_target drawop.now)) }
    {
        self.is_on_page(drawop) && is_drawing(drawop.op()) && !self.is_hidden(naming(drawop))
    }

    #[inline(always)]
    fn is_hidden(&self, target: Target) -> bool
        ensures { result ≡ hides (word_on self.now target) }
    {
        match self.latest.get(&target) {
            Some(word) => word.hides,
            None => false,
        }
    }
}
