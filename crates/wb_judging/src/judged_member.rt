//! A judged member: what it is, and how it begins.
ghost use Rattle.std.specs.Prelude.{◌≡◌, ◌≤◌, ◌<◌, ◌^◌, IfOk};
ghost use Rattle.wb_judge.specs.declared.limits.TheConstants.{TIME_LIMIT};
ghost use Rattle.wb_member.specs.Holding.{IsOpenAt};
ghost use Rattle.wb_member.specs.Opened.{Opened};
ghost use Rattle.wb_keeping.specs.Performing.{due};
ghost use Rattle.wb_judging.specs.Asking.{members_of};
ghost use Rattle.wb_judging.specs.Judged.{Judged};
ghost use Rattle.wb_judging.specs.Opening.{opened};
ghost use Rattle.wb_judging.specs.Performing.{IsJudgedAt};

mod asking;
mod calls;
mod doing;
mod listing;

use std::alloc::{AllocError, Global};
use std::marker::Model;
use wb_judge::{Judge, Other, Start};
use wb_keeping::KeptMember;
use wb_member::Member;

/// How a judged member begins, besides the member that it is.
#[derive(Clone, Copy, Debug)]
pub struct Opening {
    /// The cells of its board.
    pub cells: u32,
    /// The time of day at its present moment, in microseconds since 1970, below 2^62.
    pub wall: u64,
    /// The owner of our own origin, if the network keeps origins.
    pub here: Option<u64>,
    /// How many drawops of strangers are taken. If None, as many as the board has for them.
    pub strangers: Option<u16>,
    /// How many bytes a second the reports of all members together may take, at least 1.
    pub rate: u64,
    /// For how many microseconds nothing is drawn, below 2^32.
    pub listen: u64,
    /// The seed of the member's random words.
    pub seed: u64,
}

/// A kept member, and the judge in front of it.
///
/// The contracts speak of each judged member at which the code may be, as those of `KeptMember` do.
/// If an allocation fails, nothing is promised: the member is to be given up then.
#[derive(Drop)]
pub struct JudgedMember {
    kept: KeptMember,
    judge: Judge,
}

impl Model for JudgedMember {
    ghost use Rattle.wb_judging.specs.Performing.{JudgedValue};

    ghost Value = { JudgedValue };

    ghost view = { λ m. record { kept = m.kept; judge = m.judge } };
}

impl JudgedMember {
    /// From its present moment on a member manages itself, and is judged. The moment is the one to
    /// which it was last ticked.
    pub fn begin(
        alloc: Global,
        member: Member,
        opening: &Opening,
    ) -> Result<JudgedMember, AllocError>
        requires wall { opening.now.wall < TIME_LIMIT }
        requires rate { 1 ≤ opening.now.rate }
        requires listen { opening.now.listen < 2 ^ 32 }
        ensures { IfOk result (λ m. (host : Opened) → IsOpenAt member host →
            IsJudgedAt m (opened opening.now host)) }
    {
        let start = Start {
            me: member.me(),
            cells: opening.cells,
            here: opening.here,
            strangers: opening.strangers,
        };
        let judge = Judge::new(alloc, &start, member.moment(), opening.wall)?;
        let kept = KeptMember::keep(member, opening.rate, opening.listen, opening.seed);
        Ok(JudgedMember { kept, judge })
    }

    /// Its kept member and its judge, for calls of the kept member alone. `of_parts` puts them
    /// together again.
    pub fn into_parts(self) -> (KeptMember, Judge)
        ensures kept { result.0 ≡ self.kept }
        ensures judge { result.1 ≡ self.judge }
    {
        (self.kept, self.judge)
    }

    /// The judged member of these parts.
    pub fn of_parts(kept: KeptMember, judge: Judge) -> JudgedMember
        ensures { result ≡ record { kept = kept; judge = judge } }
    {
        JudgedMember { kept, judge }
    }

    /// When it has something to do: the next tick.
    pub fn next_due(&self) -> u64
        ensures { (h : Judged) → IsJudgedAt self.now h → result ≡ due h.kept }
    {
        self.kept.next_due()
    }

    /// The numbers that were heard within 192 s, and from where: the one heard last at the end.
    pub fn members(&self, alloc: Global) -> Result<Vec<Other>, AllocError>
        ensures { IfOk result (λ members. (h : Judged) → IsJudgedAt self.now h →
            members.items ≡ members_of h) }
    {
        self.judge
            .others()
            .heard_lately(alloc, self.kept.member().moment())
    }

    /// The kept member.
    pub fn kept(&self) -> &KeptMember
        ensures { result.now ≡ self.now.kept }
    {
        &self.kept
    }

    /// The judge.
    pub fn judge(&self) -> &Judge
        ensures { result.now ≡ self.now.judge }
    {
        &self.judge
    }
}
