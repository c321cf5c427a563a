//! A layer: what a page shows, kept while drawops are put on it one by one, in any order.
//!
//! A delete waits for its target, and a target finds the words on it that came before. A drawop
//! that is hidden is kept, since a restore may show it again.

ghost use Rattle.std.specs.Prelude.{◌≡◌, ◌≤◌, ◌<◌, ◌+◌, [], OnOk, OnErr, IsOk, All, false, vec_len, vec_capacity};
ghost use Rattle.indexmap.specs.IndexMap.{spare};
ghost use Rattle.wb_display.specs.TakingIn.{AreHeld, HoldsToo, IsKeyed, TakesIn, Touches};
ghost use Rattle.wb_display.specs.LastWord.{affected_target};
ghost use Rattle.wb_names.specs.Same.{same_target};
ghost use Rattle.std.specs.Map.{lookup};
ghost use Rattle.wb_display.specs.Display.{IsView};
ghost use Rattle.wb_display.specs.Layer.{held_of, held_with, held_with_all, is_news as is_news_of, news_count};

use crate::display_list::set_shown;
use crate::last_words::{LastWords, affected_by, naming};
use crate::merging::show_all;
use indexmap::IndexMap;
use std::alloc::{AllocError, Global};
use std::marker::Model;
use wb_names::{Drawop, PageId, Target};

/// A page, with the drawops that were put on it.
#[derive(Drop)]
pub struct Layer {
    words: LastWords,
    drawops: IndexMap<Target, Drawop>,
    shown: Vec<Drawop>,
}

impl Model for Layer {
    ghost use Rattle.wb_display.specs.Layer.{LayerValue, held_of};

    ghost Value = { LayerValue };

    ghost use Rattle.wb_display.specs.TakingIn.{AreKept};

    ghost view = { λ l. record { page = l.words.page; held = held_of l.drawops.entries } };

    ghost invariant = { λ l. AreKept l.words l.drawops.entries l.shown.items };
}

impl Layer {
    /// A layer of the page, on which nothing was put.
    pub fn new(alloc: Global, page: PageId) -> Layer
        ensures { result ≡ record { page = page; held = [] } }
    {
        Layer {
            words: LastWords::new(alloc, page),
            drawops: IndexMap::new(alloc),
            shown: Vec::new(alloc),
        }
    }

    /// Puts a drawop. One of another page, or whose name was put before, changes nothing, whatever
    /// it holds. All memory is asked for before anything is changed.
    pub fn put(&mut self, drawop: &Drawop) -> Result<(), AllocError>
        ensures ok { OnOk result (self.new ≡
            record self.old { held = held_with self.old.page self.old.held drawop.now }) }
        ensures err { OnErr result (self.new ≡ self.old) }
        ensures known { is_news_of self.old.page self.old.held drawop.now ≡ false → IsOk result }
    {
        if !self.is_news(drawop) {
            return Ok(());
        }
        self.words.reserve(1)?;
        self.drawops.reserve(1)?;
        self.shown.reserve(1)?;
        take_in(&mut self.words, &mut self.drawops, &mut self.shown, drawop);
        Ok(())
    }

    /// Puts each drawop of a list, in its order, as that many calls of `put` would. All memory is
    /// asked for before anything is changed: if an allocation fails, none was put.
    #[tactic(auto, using(crate::proofs::Layers::news_none))]
    pub fn put_all(&mut self, drawops: &[Drawop]) -> Result<(), AllocError>
        ensures ok { OnOk result (self.new ≡
            record self.old { held = held_with_all self.old.page self.old.held drawops.now }) }
        ensures err { OnErr result (self.new ≡ self.old) }
        ensures known { All (λ d. is_news_of self.old.page self.old.held d ≡ false) drawops.now →
            IsOk result }
    {
        let count = self.count_news(drawops);
        if count == 0 {
            return Ok(());
        }
        let mut touched = Vec::with_capacity(*self.shown.allocator(), count)?;
        self.words.reserve(count)?;
        self.drawops.reserve(count)?;
        self.shown.reserve(count)?;
        take_in_all(&mut self.words, &mut self.drawops, &mut touched, drawops);
        show_all(&self.words, &mut self.shown, touched);
        Ok(())
    }

    /// How many of a list are news, a name that stands twice counted twice.
    fn count_news(&self, drawops: &[Drawop]) -> usize
        ensures { result ≡ news_count self.now.page self.now.held drawops.now }
    {
        drawops.iter().filter(|drawop| self.is_news(drawop)).count()
    }

    fn is_news(&self, drawop: &Drawop) -> bool
        ensures { result ≡ is_news_of self.now.page self.now.held drawop.now }
    {
        is_news(&self.words, &self.drawops, drawop)
    }

    /// What the page shows of the drawops put so far, in the order of display.
    pub fn shown(&self) -> &[Drawop]
        ensures { IsView self.now.held self.now.page result.now }
    {
        &self.shown
    }
}

/// Whether a drawop is of the page and its name was not put before.
#[inline(always)]
fn is_news(words: &LastWords, drawops: &IndexMap<Target, Drawop>, drawop: &Drawop) -> bool
    ensures { All (IsKeyed words.now.page) drawops.now.entries →
        result ≡ is_news_of words.now.page (held_of drawops.now.entries) drawop.now }
{
    words.is_on_page(drawop) && !drawops.contains_key(&naming(drawop))
}

/// Takes in what is news in a list, one drawop after another, and lists what is held of those whose
/// showing that may change. There is room for all of it.
fn take_in_all(
    words: &mut LastWords,
    drawops: &mut IndexMap<Target, Drawop>,
    touched: &mut Vec<Drawop>,
    list: &[Drawop],
)
    requires held { AreHeld words.old drawops.old.entries }
    requires none { touched.old.items ≡ [] }
    requires words { news_count words.old.page (held_of drawops.old.entries) list.now ≤
        spare words.old.latest }
    requires drawops { news_count words.old.page (held_of drawops.old.entries) list.now ≤
        spare drawops.old }
    requires touched { news_count words.old.page (held_of drawops.old.entries) list.now ≤
        vec_capacity touched.old }
    ensures page { words.new.page ≡ words.old.page }
    ensures held { AreHeld words.new drawops.new.entries }
    ensures all { held_of drawops.new.entries ≡
        held_with_all words.old.page (held_of drawops.old.entries) list.now }
    ensures touched { Touches words.old.page (held_of drawops.old.entries)
        (held_of drawops.new.entries) touched.new.items }
    ensures count { vec_len touched.new ≤
        news_count words.old.page (held_of drawops.old.entries) list.now }
{
    for drawop in list {
        if is_news(words, drawops, drawop) {
            if let Some(affected) = hold(words, drawops, drawop) {
                touched.push(affected).unwrap();
            }
        }
    }
}

/// Takes in a new drawop of the page, and whether the one that it affects is shown from now on.
/// There is room for all three.
fn take_in(
    words: &mut LastWords,
    drawops: &mut IndexMap<Target, Drawop>,
    shown: &mut Vec<Drawop>,
    drawop: &Drawop,
)
    requires words { 1 ≤ spare words.old.latest }
    requires drawops { 1 ≤ spare drawops.old }
    requires shown { vec_len shown.old < vec_capacity shown.old }
    ensures page { words.new.page ≡ words.old.page }
    ensures kept { TakesIn words.old drawops.old.entries shown.old.items drawop.now words.new
        drawops.new.entries shown.new.items }
{
    if let Some(affected) = hold(words, drawops, drawop) {
        set_shown(shown, &affected, words.is_shown(&affected));
    }
}

/// Takes in what a new drawop of the page says, and the drawop itself. Gives the one that it
/// affects, if that is held.
#[inline(always)]
fn hold(
    words: &mut LastWords,
    drawops: &mut IndexMap<Target, Drawop>,
    drawop: &Drawop,
) -> Option<Drawop>
    requires words { 1 ≤ spare words.old.latest }
    requires drawops { 1 ≤ spare drawops.old }
    ensures page { words.new.page ≡ words.old.page }
    ensures held { HoldsToo words.old drawops.old.entries drawop.now words.new drawops.new.entries }
    ensures affected { result ≡
        lookup (same_target (affected_target drawop.now)) drawops.new.entries }
    ensures words_room { spare words.old.latest ≤ spare words.new.latest + 1 }
    ensures drawops_room { spare drawops.old ≤ spare drawops.new + 1 }
{
    words.update(drawop).unwrap();
    drawops.insert(naming(drawop), *drawop).unwrap();
    drawops.get(&affected_by(drawop)).copied()
}
