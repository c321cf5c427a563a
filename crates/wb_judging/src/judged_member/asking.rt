//! What a judged member is asked.
ghost use Rattle.std.specs.Prelude.{◌≡◌, IfOk};
ghost use Rattle.wb_judging.specs.Judged.{Judged};
ghost use Rattle.wb_judging.specs.Performing.{IsJudgedAt};
ghost use Rattle.wb_judging.specs.Since.{IsSince};
ghost use Rattle.wb_judging.specs.Missing.{missing_on};
ghost use Rattle.wb_member.specs.Opened.{gaps_at, shown};
ghost use Rattle.wb_member.specs.Questions.{IsAnswerable, answer_to, told};

use crate::judged_member::JudgedMember;
use crate::missing::missing_of;
use crate::since::{Since, compare};
use std::alloc::{AllocError, Global};
use wb_member::{Answer, Query};
use wb_names::{Drawop, Gap, PageId};

impl JudgedMember {
    /// Answers a question, as its kept member does.
    pub fn answer(&mut self, alloc: Global, query: Query) -> Result<Answer, AllocError>
        requires size { IsAnswerable query }
        ensures same { self.new ≡ self.old }
        ensures answer { IfOk result (λ answer. (h : Judged) → IsJudgedAt self.old h →
            told answer ≡ answer_to query h.kept.host) }
    {
        self.kept.answer(alloc, query)
    }

    /// What a page shows otherwise than when the member held the first `count` drawops that came,
    /// counted over all pages.
    pub fn since(&mut self, alloc: Global, page: PageId, count: u32) -> Result<Since, AllocError>
        ensures same { self.new ≡ self.old }
        ensures since { IfOk result (λ since. (h : Judged) → IsJudgedAt self.old h →
            IsSince page count h.kept.host.is.held since) }
    {
        let view = self.view(alloc, page)?;
        let drawops = self.kept.member().drawops();
        compare(alloc, page, count, drawops, view.as_slice())
    }

    /// What a page shows, in the order of display.
    fn view(&mut self, alloc: Global, page: PageId) -> Result<Vec<Drawop>, AllocError>
        ensures same { self.new ≡ self.old }
        ensures view { IfOk result (λ view. (h : Judged) → IsJudgedAt self.old h →
            view.items ≡ shown page h.kept.host) }
    {
        match self.answer(alloc, Query::View(page))? {
            Answer::View(view) => Ok(view),
            _ => Ok(Vec::new(alloc)),
        }
    }

    /// How many numbers of a page are missing up to the greatest that are held or were heard of, and
    /// how many drawops above these it requests: at most 2^64 - 1.
    pub fn lacks(&mut self, alloc: Global, page: PageId) -> Result<u64, AllocError>
        ensures same { self.new ≡ self.old }
        ensures lacks { IfOk result (λ count. (h : Judged) → IsJudgedAt self.old h →
            count ≡ missing_on page h.kept.host) }
    {
        let gaps = self.gaps(alloc, page)?;
        let asked = self.kept.member().asked_names(alloc)?;
        Ok(missing_of(page, gaps.as_slice(), asked.as_slice()))
    }

    /// The missing ranges of a page, up to the greatest numbers that are held or were heard of.
    fn gaps(&mut self, alloc: Global, page: PageId) -> Result<Vec<Gap>, AllocError>
        ensures same { self.new ≡ self.old }
        ensures gaps { IfOk result (λ gaps. (h : Judged) → IsJudgedAt self.old h →
            gaps.items ≡ gaps_at page h.kept.host) }
    {
        match self.answer(alloc, Query::Gaps(page))? {
            Answer::Gaps(gaps) => Ok(gaps),
            _ => Ok(Vec::new(alloc)),
        }
    }
}
