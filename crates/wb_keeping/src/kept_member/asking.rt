//! What a self-managing member asks for.
ghost use Rattle.std.specs.Prelude.{◌≡◌, ◌≤◌, ◌<◌, ◌^◌, ◌∷◌, [], IfOk, OnErr, OnOk, IfSome, length, if◌then◌else◌};
ghost use Rattle.wb_recovery.specs.Delays.{IsDelay};
ghost use Rattle.wb_keeping.specs.Kept.{end, ends_full, is_begun, is_unasked, leap, leaps_on, learned, paid_for, stops_one, turn, turn_if, turns_due, turns_on, turns_past, want, want_near, want_told};
ghost use Rattle.wb_recovery.specs.Events.{timers_of};
ghost use Rattle.wb_member.specs.Opened.{events};
ghost use Rattle.wb_keeping.specs.Performing.{Begins, DoesQuietly, IsKeptAt, Keeping, LeavesSome, asked_with, sees, view_of};
ghost use Rattle.wb_keeping.specs.Views.{holds, is_asked, is_full, is_known, level};
ghost use Rattle.wb_policy.specs.Wanting.{giving_way};
ghost use Rattle.wb_policy.specs.Policy.{after_drawing};
ghost use Rattle.wb_keeping.specs.Steps.{AreNear, leap_again, leap_in, lent_at, lowest_near, makes_room, performs_all, turn_again, want_in};

use crate::kept_member::KeptMember;
use std::alloc::{AllocError, Global};
use wb_gaps::Hole;
use wb_names::Name;
use wb_policy::limits::REACH;
use wb_policy::{AskedName, Candidate, Turns, giving_way, near_names, young_count};
use wb_recovery::{MOST_TIMERS, UNKNOWN_DELAY};

impl KeptMember {
    /// A name is wanted. Its timer may start anew if somebody says that they hold it, or if it has
    /// its turn. Answers whether the member begins to ask for it.
    pub(super) fn want(
        &mut self,
        alloc: Global,
        name: &Name,
        may_start_anew: bool,
    ) -> Result<bool, AllocError>
        ensures begun { IfOk result (λ begun. (k : Keeping) → IsKeptAt self.old k →
            begun ≡ is_begun (want name.now may_start_anew (sees k.host) k.policy)) }
        ensures does { OnOk result (DoesQuietly (want name.now may_start_anew) self.old self.new) }
        ensures left { OnErr result (LeavesSome (want name.now may_start_anew) self.old self.new) }
    {
        let now = self.member.moment();
        let candidate = self.candidate(name);
        let lent = self.lent_to(name.source());
        let is_covered = self.policy.is_covered(candidate.asks, now);
        if !self.policy.want(&candidate, may_start_anew, now) {
            return Ok(false);
        }
        self.make_room(alloc, name, is_covered)?;
        self.ask_by(alloc, name, lent)?;
        Ok(true)
    }

    /// What the policy sees of a name that might be asked for.
    fn candidate(&self, name: &Name) -> Candidate
        ensures held { (k : Keeping) → IsKeptAt self.now k →
            result.is_held ≡ holds (view_of k.host) name.now }
        ensures full { (k : Keeping) → IsKeptAt self.now k →
            result.is_full ≡ is_full (view_of k.host) }
        ensures known { (k : Keeping) → IsKeptAt self.now k →
            result.is_known ≡ is_known (view_of k.host) name.now.source }
        ensures level { (k : Keeping) → IsKeptAt self.now k →
            result.level ≡ level (view_of k.host) name.now }
        ensures asks { (k : Keeping) → IsKeptAt self.now k →
            result.asks ≡ length (view_of k.host).asked }
    {
        Candidate {
            is_held: self.member.holds(name),
            is_full: self.member.is_full(),
            is_known: self.is_known(name.source()),
            level: self.level(name),
            asks: self.asks(),
        }
    }

    /// How many request timers stand.
    fn asks(&self) -> usize
        ensures { (k : Keeping) → IsKeptAt self.now k → result ≡ length (view_of k.host).asked }
    {
        self.member.asks()
    }

    /// Whether the delay to a source is known.
    pub(super) fn is_known(&self, source: u32) -> bool
        ensures { (k : Keeping) → IsKeptAt self.now k →
            result ≡ is_known (view_of k.host) source }
    {
        self.member.delay(source) != UNKNOWN_DELAY
    }

    /// How often the timer of a name was backed off, if one stands.
    fn level(&self, name: &Name) -> Option<u32>
        ensures { (k : Keeping) → IsKeptAt self.now k → result ≡ level (view_of k.host) name.now }
    {
        self.member.level(name)
    }

    /// Whether a timer stands for a name.
    pub(super) fn is_asked(&self, name: &Name) -> bool
        ensures { (k : Keeping) → IsKeptAt self.now k →
            result ≡ is_asked (view_of k.host) name.now }
    {
        self.level(name).is_some()
    }

    /// The usual delay, if that to a source is not known.
    pub(super) fn lent_to(&self, source: u32) -> Option<u64>
        ensures lent { (k : Keeping) → IsKeptAt self.now k →
            result ≡ lent_at ((view_of k.host).delay source) k.policy.usual }
        ensures near { IfSome result IsDelay }
    {
        if self.member.delay(source) == UNKNOWN_DELAY {
            Some(self.policy.usual())
        } else {
            None
        }
    }

    /// Stops the timer of a name, if it has one, or else the timer that gives way to another, if
    /// less is owed than stands asked or not.
    fn make_room(&mut self, alloc: Global, name: &Name, is_covered: bool) -> Result<(), AllocError>
        ensures does { OnOk result (DoesQuietly (makes_room name.now is_covered) self.old self.new) }
        ensures err { OnErr result (self.new ≡ self.old) }
    {
        if self.is_asked(name) {
            self.stop(name);
            return Ok(());
        }
        let asked = self.asked(alloc)?;
        self.stop_one(is_covered, &asked);
        Ok(())
    }

    /// Stops the one of some timers that gives way to another, if one does.
    fn stop_one(&mut self, is_covered: bool, asked: &[AskedName])
        ensures { DoesQuietly (performs_all (stops_one (giving_way is_covered asked.now))) self.old self.new }
    {
        if let Some(old) = giving_way(is_covered, asked) {
            self.stop(&old.name);
        }
    }

    /// The names that it asks for, ascending, and how often the timer of each was backed off.
    fn asked(&self, alloc: Global) -> Result<Vec<AskedName>, AllocError>
        ensures { IfOk result (λ asked. (k : Keeping) → IsKeptAt self.now k →
            asked.items ≡ (view_of k.host).asked) }
    {
        let names = self.member.asked_names(alloc)?;
        let asked = self.asked_of(alloc, &names)?;
        Ok(asked)
    }

    /// Those of these names that it asks for, and how often the timer of each was backed off.
    fn asked_of(&self, alloc: Global, names: &[Name]) -> Result<Vec<AskedName>, AllocError>
        ensures { IfOk result (λ asked. (k : Keeping) → IsKeptAt self.now k →
            asked.items ≡ asked_with (timers_of k.host.is.constants (events k.host)) names.now) }
    {
        let mut asked = Vec::new(alloc);
        for name in names {
            let Some(level) = self.member.level(name) else {
                continue;
            };
            asked.push(AskedName { name: *name, level })?;
        }
        Ok(asked)
    }

    /// Names that others say that they hold are wanted.
    pub(super) fn want_told(&mut self, alloc: Global, names: &[Name]) -> Result<(), AllocError>
        ensures does { OnOk result (DoesQuietly (want_told names.now) self.old self.new) }
        ensures left { OnErr result (LeavesSome (want_told names.now) self.old self.new) }
    {
        for name in names {
            self.want(alloc, name, true)?;
        }
        Ok(())
    }

    /// A drawop is new: its missing neighbours are wanted. If it had been asked for, a name far from
    /// others is wanted too, and names have their turn.
    pub(super) fn learned(
        &mut self,
        alloc: Global,
        name: &Name,
        was_asked: bool,
    ) -> Result<(), AllocError>
        ensures does { OnOk result (DoesQuietly (learned name.now was_asked) self.old self.new) }
        ensures left { OnErr result (LeavesSome (learned name.now was_asked) self.old self.new) }
    {
        if self.member.is_full() {
            self.end(alloc)?;
            return Ok(());
        }
        let near = self.near(alloc, name)?;
        self.pay(was_asked);
        self.want_near(alloc, &near)?;
        self.turn_if(alloc, was_asked)?;
        Ok(())
    }

    /// A name of another hole is wanted and one has its turn, if a name that was asked for came.
    fn turn_if(&mut self, alloc: Global, was_asked: bool) -> Result<(), AllocError>
        ensures does { OnOk result (DoesQuietly (turn_if was_asked) self.old self.new) }
        ensures left { OnErr result (LeavesSome (turn_if was_asked) self.old self.new) }
    {
        if !was_asked {
            return Ok(());
        }
        self.leaps_on(alloc, MOST_TIMERS + 1)?;
        self.turns_past(alloc)?;
        Ok(())
    }

    /// It leaps up to the first name that it begins to ask for, at most `most` times.
    fn leaps_on(&mut self, alloc: Global, most: usize) -> Result<(), AllocError>
        ensures does { OnOk result (DoesQuietly (leaps_on most) self.old self.new) }
        ensures left { OnErr result (LeavesSome (leaps_on most) self.old self.new) }
    {
        if most == 0 {
            return Ok(());
        }
        let begun = self.leap(alloc)?;
        if begun {
            return Ok(());
        }
        self.leaps_on(alloc, most - 1)?;
        Ok(())
    }

    /// Turns pass over what is asked for, if a place of the credit is left and few timers that are
    /// not old stand.
    fn turns_past(&mut self, alloc: Global) -> Result<(), AllocError>
        ensures does { OnOk result (DoesQuietly turns_past self.old self.new) }
        ensures left { OnErr result (LeavesSome turns_past self.old self.new) }
    {
        let now = self.member.moment();
        let asked = self.asked(alloc)?;
        if !self.policy.passes_on(young_count(&asked), now) {
            return Ok(());
        }
        self.turns_on(alloc, MOST_TIMERS + 1)?;
        Ok(())
    }

    /// Names have their turn up to the first that it begins to ask for, at most `most`.
    fn turns_on(&mut self, alloc: Global, most: usize) -> Result<(), AllocError>
        ensures does { OnOk result (DoesQuietly (turns_on most) self.old self.new) }
        ensures left { OnErr result (LeavesSome (turns_on most) self.old self.new) }
    {
        if most == 0 {
            return Ok(());
        }
        let begun = self.turn(alloc)?;
        if begun {
            return Ok(());
        }
        self.turns_on(alloc, most - 1)?;
        Ok(())
    }

    /// A name of the next hole is wanted, far from those before, or one of the first hole in another
    /// round. Answers whether the member begins to ask for it.
    fn leap(&mut self, alloc: Global) -> Result<bool, AllocError>
        ensures { Begins leap self.old self.new result }
    {
        let leaps = self.policy.leaps();
        let next = self
            .member
            .hole_after(leaps.page, leaps.source, leaps.number)?;
        match next {
            Some(hole) => self.leap_in(alloc, hole),
            None => self.leap_again(alloc),
        }
    }

    /// Another round of these begins with the first hole, if there is one.
    fn leap_again(&mut self, alloc: Global) -> Result<bool, AllocError>
        ensures { Begins leap_again self.old self.new result }
    {
        self.policy.leap_again();
        let first = self.member.hole_after(Turns::START.page, 0, 0)?;
        match first {
            Some(hole) => self.leap_in(alloc, hole),
            None => Ok(false),
        }
    }

    /// One of the names of a hole is wanted. A hole is never empty.
    fn leap_in(&mut self, alloc: Global, hole: Hole) -> Result<bool, AllocError>
        ensures { 1 ≤ hole.gap.first → hole.gap.first ≤ hole.gap.last →
            Begins (leap_in hole) self.old self.new result }
    {
        if hole.gap.first == 0 || hole.gap.last < hole.gap.first {
            return Ok(false);
        }
        let name = self.policy.leap(hole);
        self.want(alloc, &name, true)
    }

    /// The names near one, which may be left out if all of them are held. Mostly one look-up shows
    /// that they are: from the least of them on nothing is missing.
    fn near(&mut self, alloc: Global, name: &Name) -> Result<Vec<Name>, AllocError>
        ensures same { self.new ≡ self.old }
        ensures near { IfOk result (λ near. (k : Keeping) → IsKeptAt self.old k →
            AreNear (view_of k.host) name.now near.items) }
    {
        let whole_from = self.member.whole_from(name.page(), name.source())?;
        if whole_from <= lowest_near(name) {
            return Ok(Vec::new(alloc));
        }
        let top = self.member.highest(name.page(), name.source())?;
        near_names(alloc, name, top)
    }

    /// Refunds the credit of a request that was answered.
    fn pay(&mut self, was_asked: bool)
        ensures member { self.new.member ≡ self.old.member }
        ensures policy { self.new.policy ≡ paid_for was_asked self.old.policy }
    {
        if was_asked {
            self.policy.came();
        }
    }

    /// A drawing pays as what came, if it was asked for.
    pub(super) fn pay_drawing(&mut self, was_asked: bool)
        ensures member { self.new.member ≡ self.old.member }
        ensures policy { self.new.policy ≡
            (if was_asked then after_drawing self.old.policy else self.old.policy) }
    {
        if was_asked {
            self.policy.drew();
        }
    }

    /// Whether a name is neither held nor asked for.
    fn is_unasked(&self, name: &Name) -> bool
        ensures { (k : Keeping) → IsKeptAt self.now k →
            result ≡ is_unasked (view_of k.host) name.now }
    {
        let is_known = self.member.holds(name) || self.is_asked(name);
        !is_known
    }

    /// Names that are neither held nor asked for are wanted, up to the first that `want` refuses.
    fn want_near(&mut self, alloc: Global, names: &[Name]) -> Result<(), AllocError>
        ensures does { OnOk result (DoesQuietly (want_near names.now) self.old self.new) }
        ensures left { OnErr result (LeavesSome (want_near names.now) self.old self.new) }
    {
        for name in names {
            if !self.is_unasked(name) {
                continue;
            }
            let begun = self.want(alloc, name, false)?;
            if !begun {
                return Ok(());
            }
        }
        Ok(())
    }

    /// The next hole has its turn, if one is due by the clock.
    pub(super) fn turns_due(&mut self, alloc: Global) -> Result<(), AllocError>
        ensures does { OnOk result (DoesQuietly turns_due self.old self.new) }
        ensures left { OnErr result (LeavesSome turns_due self.old self.new) }
    {
        let now = self.member.moment();
        if !self.policy.is_turn(now) {
            return Ok(());
        }
        self.policy.beat(now);
        self.turn(alloc)?;
        Ok(())
    }

    /// The next hole has its turn, or the first one in another round. Answers whether the member
    /// begins to ask for a name of it.
    fn turn(&mut self, alloc: Global) -> Result<bool, AllocError>
        ensures { Begins turn self.old self.new result }
    {
        let turns = self.policy.turns();
        let next = self
            .member
            .hole_after(turns.page, turns.source, turns.number)?;
        match next {
            Some(hole) => self.want_in(alloc, hole),
            None => self.turn_again(alloc),
        }
    }

    /// Another round begins, and the first hole has its turn, if there is one.
    fn turn_again(&mut self, alloc: Global) -> Result<bool, AllocError>
        ensures { Begins turn_again self.old self.new result }
    {
        self.policy.begin_round();
        let first = self.member.hole_after(Turns::START.page, 0, 0)?;
        match first {
            Some(hole) => self.want_in(alloc, hole),
            None => Ok(false),
        }
    }

    /// A hole has its turn: one of its names is wanted. A hole is never empty.
    fn want_in(&mut self, alloc: Global, hole: Hole) -> Result<bool, AllocError>
        ensures { 1 ≤ hole.gap.first → hole.gap.first ≤ hole.gap.last →
            Begins (want_in hole) self.old self.new result }
    {
        if hole.gap.first == 0 || hole.gap.last < hole.gap.first {
            return Ok(false);
        }
        let name = self.policy.take_turn(hole);
        self.want(alloc, &name, true)
    }

    /// If the board is full, the member stops all of its request timers.
    pub(super) fn end_where_full(&mut self, alloc: Global) -> Result<(), AllocError>
        ensures does { OnOk result (DoesQuietly ends_full self.old self.new) }
        ensures err { OnErr result (self.new ≡ self.old) }
    {
        if self.member.is_full() {
            self.end(alloc)?;
        }
        Ok(())
    }

    /// The member stops all of its request timers.
    fn end(&mut self, alloc: Global) -> Result<(), AllocError>
        ensures does { OnOk result (DoesQuietly end self.old self.new) }
        ensures err { OnErr result (self.new ≡ self.old) }
    {
        let names = self.member.asked_names(alloc)?;
        self.stop_all(&names);
        Ok(())
    }
}

/// The least number near a name: 64 below it, and at least 1.
fn lowest_near(name: &Name) -> u32
    ensures { result ≡ lowest_near name.now }
{
    name.seq().saturating_sub(REACH).max(1)
}
