//! Which pages are drawn on, as they are listed.
ghost use Rattle.std.specs.Prelude.{◌≡◌, ◌≤◌, IfOk, length, map};
ghost use Rattle.wb_gaps.specs.Answers.{pages_of};
ghost use Rattle.wb_board.specs.Counts.{MAX_CELLS};
ghost use Rattle.wb_keeping.specs.Performing.{IsKeptAt, Keeping};
ghost use Rattle.wb_judging.specs.Asking.{AreListed, last_on, listed, names_on};
ghost use Rattle.wb_judging.specs.Judged.{Judged};
ghost use Rattle.wb_judging.specs.Performing.{IsJudgedAt};

use crate::judged_member::JudgedMember;
use std::alloc::{AllocError, Global};
use wb_judge::{Judge, Listed, put_in_order};
use wb_keeping::KeptMember;
use wb_member::{Answer, Query};
use wb_names::{Drawop, Name, PageId};

impl JudgedMember {
    /// The first `most` of the pages that are drawn on: first those with drawings of ours, then
    /// those of members, then those of strangers alone, and of each kind first the one that was
    /// drawn on last.
    pub fn list(&mut self, alloc: Global, most: usize) -> Result<Vec<Listed>, AllocError>
        ensures same { self.new ≡ self.old }
        ensures list { IfOk result (λ pages. (h : Judged) → IsJudgedAt self.old h →
            AreListed most h pages.items) }
    {
        let pages = pages_of(&mut self.kept, alloc)?;
        let mut all = listed(alloc, &self.judge, self.kept.member().drawops(), &pages)?;
        put_in_order(&mut all);
        all.truncate(most);
        Ok(all)
    }
}

/// The pages that a kept member draws on, ascending.
fn pages_of(kept: &mut KeptMember, alloc: Global) -> Result<Vec<PageId>, AllocError>
    ensures same { kept.new ≡ kept.old }
    ensures pages { IfOk result (λ pages. (k : Keeping) → IsKeptAt kept.old k →
        pages.items ≡ pages_of k.host.is.held) }
{
    match kept.answer(alloc, Query::Pages)? {
        Answer::Pages(pages) => Ok(pages),
        _ => Ok(Vec::new(alloc)),
    }
}

/// What is listed of some pages, of which these drawops are held.
fn listed(
    alloc: Global,
    judge: &Judge,
    drawops: &[Drawop],
    pages: &[PageId],
) -> Result<Vec<Listed>, AllocError>
    requires { length drawops.now ≤ MAX_CELLS }
    ensures { IfOk result (λ all. all.items ≡
        map (listed judge.now.me judge.now.strange.given drawops.now) pages.now) }
{
    let mut all = Vec::new(alloc);
    for page in pages {
        let one = listed_page(alloc, judge, drawops, *page)?;
        all.push(one)?;
    }
    Ok(all)
}

/// What is listed of a page.
fn listed_page(
    alloc: Global,
    judge: &Judge,
    drawops: &[Drawop],
    page: PageId,
) -> Result<Listed, AllocError>
    requires { length drawops.now ≤ MAX_CELLS }
    ensures { IfOk result (λ one. one ≡
        listed judge.now.me judge.now.strange.given drawops.now page) }
{
    let names = names_on(alloc, page, drawops)?;
    Ok(Listed {
        page,
        rank: judge.rank(&names),
        last: last_on(page, drawops),
        count: names.len() as u32,
    })
}

/// The names of the drawops of a page.
fn names_on(alloc: Global, page: PageId, drawops: &[Drawop]) -> Result<Vec<Name>, AllocError>
    ensures { IfOk result (λ names. names.items ≡ names_on page drawops.now) }
{
    let here = drawops.iter().filter(|drawop| drawop.name().page() == page);
    here.map(|drawop| drawop.name()).collect(alloc)
}

/// At which place among these the last drawop of a page stands.
fn last_on(page: PageId, drawops: &[Drawop]) -> u32
    requires { length drawops.now ≤ MAX_CELLS }
    ensures { result ≡ last_on page drawops.now }
{
    let mut last = 0;
    for (place, drawop) in drawops.iter().enumerate() {
        if drawop.name().page() == page {
            last = place as u32;
        }
    }
    last
}
