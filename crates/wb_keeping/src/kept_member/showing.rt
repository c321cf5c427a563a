//! What a self-managing member answers. That changes nothing, and needs no moment.
ghost use Rattle.std.specs.Prelude.{◌≡◌, IfOk, nat_lt};
ghost use Rattle.wb_member.specs.Judged.{highest};
ghost use Rattle.wb_member.specs.Questions.{IsAnswerable, answer_to, told};
ghost use Rattle.wb_keeping.specs.Performing.{IsKeptAt, Keeping};

use crate::kept_member::KeptMember;
use std::alloc::{AllocError, Global};
use wb_member::{Answer, Member, Query};
use wb_names::PageId;

impl KeptMember {
    /// Answers a question, as its member does.
    pub fn answer(&mut self, alloc: Global, query: Query) -> Result<Answer, AllocError>
        requires size { IsAnswerable query }
        ensures same { self.new ≡ self.old }
        ensures answer { IfOk result (λ answer. (k : Keeping) → IsKeptAt self.old k →
            told answer ≡ answer_to query k.host) }
    {
        self.member.answer(alloc, query)
    }

    /// The member, without its policy.
    pub fn member(&self) -> &Member
        ensures { result.now ≡ self.now.member }
    {
        &self.member
    }
    /// Whether it listens at a moment, and adds nothing yet.
    pub fn is_listening(&self, now: u64) -> bool
        ensures { (k : Keeping) → IsKeptAt self.now k → result ≡ nat_lt now k.policy.ready }
    {
        self.policy.is_listening(now)
    }

    /// The greatest number of a source on a page that is held, or 0.
    pub fn highest(&mut self, page: PageId, source: u32) -> Result<u32, AllocError>
        ensures same { self.new ≡ self.old }
        ensures number { IfOk result (λ number. (k : Keeping) → IsKeptAt self.old k →
            number ≡ highest page source k.host) }
    {
        self.member.highest(page, source)
    }
}
