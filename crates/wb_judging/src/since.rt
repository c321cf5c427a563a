//! What a page shows otherwise than it did when fewer drawops were held.
//!
//! What came since then can change the showing of its own drawings, and of the targets of its
//! deletes and restores, and of nothing else. So no view of then is made: these are taken off, and
//! those of them that are shown now are put in.
ghost use Rattle.std.specs.Prelude.{◌≡◌, ◌+◌, ◌&&◌, ◌++◌, ◌≤◌, IfOk, OnOk, drop, filter, length, map, take};
ghost use Rattle.std.specs.HashSet.{contains};
ghost use Rattle.std.specs.List.{list_any};
ghost use Rattle.wb_names.specs.Orders.{same_page};
ghost use Rattle.wb_names.specs.Same.{same_target};
ghost use Rattle.wb_names.specs.Values.{DrawopValue};
ghost use Rattle.wb_names.specs.declared.parts.Target.{Target};
ghost use Rattle.wb_display.specs.Display.{is_drawing};
ghost use Rattle.wb_display.specs.LastWord.{affected_target, own_target};
ghost use Rattle.wb_judging.specs.Since.{IsSince, is_among, is_touched, placed_from, placed_if, touched_by};
ghost use Rattle.wb_board.specs.Counts.{MAX_CELLS};
ghost use Rattle.wb_member.specs.Queries.{view_of};

use crate::telling::gained;
use std::alloc::{AllocError, Global};
use std::collections::HashSet;
use wb_names::{Drawop, Op, PageId, Target};

/// A drawop that a page shows, and its place in the order of display, from 0.
#[derive(Clone, Copy, Debug)]
pub struct ShownAt {
    pub place: usize,
    pub drawop: Drawop,
}

/// What a page shows otherwise than it did: first these are taken off, if they are shown, and then
/// those are put in, one after another.
#[derive(Debug, Drop)]
pub struct Since {
    /// How many drawops are held now.
    pub held: u32,
    /// What names those that were held and may be shown no more, in the order in which they came.
    pub hidden: Vec<Target>,
    /// Those that are shown and may not have been, by place.
    pub shown: Vec<ShownAt>,
}

/// What names a drawop on its page.
fn own_target(drawop: &Drawop) -> Target
    ensures { result ≡ own_target drawop.now }
{
    Target {
        source: drawop.name().source(),
        seq: drawop.name().seq(),
    }
}

/// The one drawing whose showing a drawop may have changed.
fn affected_target(drawop: &Drawop) -> Target
    ensures { result ≡ affected_target drawop.now }
{
    match *drawop.op() {
        Op::Aimed(_, target) => target,
        _ => own_target(drawop),
    }
}

/// The drawings on a page whose showing some drawops may have changed, by what names them.
#[derive(Drop)]
struct Touched {
    page: PageId,
    names: HashSet<Target>,
}

/// What names the drawings on a page whose showing these drawops may have changed.
fn touched_by(alloc: Global, page: PageId, news: &[Drawop]) -> Result<Vec<Target>, AllocError>
    ensures { IfOk result (λ names. names.items ≡ touched_by page news.now) }
{
    let here = news.iter().filter(|drawop| drawop.name().page() == page);
    here.map(|drawop| affected_target(drawop)).collect(alloc)
}

/// The set of these.
fn set_of(alloc: Global, targets: &[Target]) -> Result<HashSet<Target>, AllocError>
    ensures { IfOk result (λ set. (t : Target) →
        contains same_target set t ≡ list_any (same_target t) targets.now) }
{
    let mut set = HashSet::new(alloc);
    for target in targets {
        set.insert(*target)?;
    }
    Ok(set)
}

impl Touched {
    /// Those of a page whose showing these drawops may have changed.
    pub fn new(alloc: Global, page: PageId, news: &[Drawop]) -> Result<Touched, AllocError>
        ensures { IfOk result (λ touched. is_among touched ≡ is_touched page news.now) }
    {
        let targets = touched_by(alloc, page, news)?;
        let names = set_of(alloc, targets.as_slice())?;
        Ok(Touched { page, names })
    }

    /// Whether a drawop is one of them.
    fn has(&self, drawop: &Drawop) -> bool
        ensures { result ≡ is_among self.now drawop.now }
    {
        drawop.name().page() == self.page
            && is_drawing(drawop.op())
            && self.names.contains(&own_target(drawop))
    }

    /// What names those of these that it has.
    pub fn named(&self, alloc: Global, drawops: &[Drawop]) -> Result<Vec<Target>, AllocError>
        ensures { IfOk result (λ names. names.items ≡
            map own_target (filter (is_among self.now) drawops.now)) }
    {
        let those = drawops.iter().filter(|drawop| self.has(drawop));
        those.map(|drawop| own_target(drawop)).collect(alloc)
    }

    /// Those of these that it has, each with its place.
    pub fn placed(&self, alloc: Global, drawops: &[Drawop]) -> Result<Vec<ShownAt>, AllocError>
        ensures { IfOk result (λ placed. placed.items ≡
            placed_from (is_among self.now) 0 drawops.now) }
    {
        let mut placed = Vec::new(alloc);
        for (place, drawop) in drawops.iter().enumerate() {
            add_if(&mut placed, self.has(drawop), place, drawop)?;
        }
        Ok(placed)
    }
}

/// Adds a drawop with its place, if it is to be.
fn add_if(
    placed: &mut Vec<ShownAt>,
    wanted: bool,
    place: usize,
    drawop: &Drawop,
) -> Result<(), AllocError>
    ensures { OnOk result (placed.new.items ≡
        placed.old.items ++ placed_if wanted place drawop.now) }
{
    if wanted {
        placed.push(ShownAt {
            place,
            drawop: *drawop,
        })?;
    }
    Ok(())
}

/// Whether an operation puts glyphs on its page.
fn is_drawing(op: &Op) -> bool
    ensures { result ≡ is_drawing op.now }
{
    matches!(op, Op::Drawn(..) | Op::Text { .. })
}

/// The first of some drawops.
#[tactic(auto, using(crate::proofs::Kept::take_first))]
fn first(drawops: &[Drawop], count: u32) -> &[Drawop]
    ensures { result.now ≡ take count drawops.now }
{
    let end = drawops.len().min(count as usize);
    &drawops[..end]
}

/// What a page shows otherwise than when the first `count` of these drawops were held, if it shows
/// this view now.
pub(crate) fn compare(
    alloc: Global,
    page: PageId,
    count: u32,
    drawops: &[Drawop],
    view: &[Drawop],
) -> Result<Since, AllocError>
    requires { length drawops.now ≤ MAX_CELLS }
    ensures { IfOk result (λ since. view.now ≡ view_of drawops.now page →
        IsSince page count drawops.now since) }
{
    let before = first(drawops, count);
    let news = gained(drawops, count);
    let touched = Touched::new(alloc, page, news)?;
    let hidden = touched.named(alloc, before)?;
    let shown = touched.placed(alloc, view)?;
    let held = drawops.len() as u32;
    Ok(Since {
        held,
        hidden,
        shown,
    })
}
