//! A host as a handler of the lines of a driver: each line has its block.
ghost use Rattle.std.specs.Prelude.{◌≡◌, None, Some, true, is_some};
ghost use Rattle.wb_recovery.specs.Timing.{are_constants};
ghost use Rattle.wb_keeping.specs.Performing.{KeptValue};
ghost use Rattle.wb_judging.specs.Performing.{JudgedValue};
ghost use Rattle.wb_dialog.specs.Kinds.{Kind, due_of, rejects, response_by, response_to};
ghost use Rattle.wb_dialog.specs.Lines.{IsSaidWithin, IsWithin};
ghost use Rattle.wb_dialog.specs.Hosting.{reply_to};
ghost use Rattle.wb_dialog.specs.Doing.{Adds, BlocksAt, DoesReply, IsKindAt, LeadsFrom, judged_in, kept_in, with_kept, with_member};

use crate::blocks::{print_block, refused_line};
use crate::board::Board;
use crate::fault::{Refusal, Unanswered};
use crate::line::DriverLine;
use crate::opened::Host;
use crate::parsing::read_line;
use crate::said::Said;
use crate::told::Told;
use std::alloc::{AllocError, Global};
use std::convert::Infallible;
use std::marker::Model;
use wb_commands::{Command, LineFault};
use wb_judging::JudgedMember;
use wb_keeping::KeptMember;
use wb_lines::{Handler, Output, Stop, without_end};
use wb_recovery::Tuning;

/// A host that answers the lines of a driver, one at a time. What its keeper holds stands for the
/// calls that it accepted, so the contracts speak of each host at which it may be.
#[derive(Drop)]
pub struct Dialog {
    tuning: Tuning,
    /// None if no board is open.
    host: Option<Host>,
}

impl Model for Dialog {
    ghost use Rattle.std.specs.Prelude.{◌≡◌, true};
    ghost use Rattle.wb_recovery.specs.Timing.{are_constants};
    ghost use Rattle.wb_dialog.specs.Doing.{DialogValue};

    ghost Value = { DialogValue };

    ghost view = { λ d. record { tuning = d.tuning; host = d.host } };

    ghost invariant = { λ d. are_constants d.tuning ≡ true };
}

impl Dialog {
    /// No board is open. The timers of the one that will be have these constants, each from 1 to
    /// 16.
    pub fn new(tuning: Tuning) -> Self
        requires { are_constants tuning ≡ true }
        ensures { result ≡ record { tuning = tuning; host = None } }
    {
        Dialog { tuning, host: None }
    }

    /// The next moment at which the host has something to do, in microseconds. None if there is
    /// none.
    #[tactic(auto, using(crate::proofs::EachKind::due_closed))]
    pub fn next_due(&self) -> Option<u64>
        ensures { (s : Kind) → IsKindAt self.now.host s → result ≡ due_of s }
    {
        match &self.host {
            Some(host) => host.next_due(),
            None => None,
        }
    }

    /// Whether it is judged.
    pub fn is_judged(&self) -> bool
        ensures { result ≡ is_some (judged_in self.now.host) }
    {
        matches!(self.host, Some(Host::Judged(_)))
    }

    /// Takes the member out of a self-managing host that is not judged, for calls of its own. It is
    /// put back by `put_kept` before this dialog gets another line, which would find no board open.
    /// None if the host is another.
    pub fn take_kept(&mut self) -> Option<KeptMember>
        ensures kept { result ≡ kept_in self.old.host }
        ensures some { (kept : KeptValue) → result ≡ Some kept →
            with_kept kept self.new ≡ self.old }
        ensures none { result ≡ None → self.new ≡ self.old }
    {
        match self.host.take() {
            Some(Host::Kept(kept)) => Some(kept),
            Some(Host::Driven { member, board }) => {
                self.put(Host::Driven { member, board });
                None
            }
            Some(Host::Judged(member)) => {
                self.put(Host::Judged(member));
                None
            }
            None => None,
        }
    }

    /// From now on this is the host. What was there is dropped here alone.
    fn put(&mut self, host: Host)
        ensures { self.new ≡ record { tuning = self.old.tuning; host = Some host } }
    {
        self.host = Some(host);
    }

    /// From now on this self-managing member is the host.
    pub fn put_kept(&mut self, kept: KeptMember)
        ensures { self.new ≡ with_kept kept self.old }
    {
        self.put(Host::Kept(kept));
    }

    /// Takes the member out of a judged host, for calls of its own. It is put back by `put_member`
    /// before this dialog gets another line, which would find no board open. None if the host is
    /// not judged.
    pub fn take_member(&mut self) -> Option<JudgedMember>
        ensures member { result ≡ judged_in self.old.host }
        ensures some { (m : JudgedValue) → result ≡ Some m → with_member m self.new ≡ self.old }
        ensures none { result ≡ None → self.new ≡ self.old }
    {
        match self.host.take() {
            Some(Host::Judged(member)) => Some(member),
            Some(Host::Driven { member, board }) => {
                self.put(Host::Driven { member, board });
                None
            }
            Some(Host::Kept(kept)) => {
                self.put(Host::Kept(kept));
                None
            }
            None => None,
        }
    }

    /// From now on this judged member is the host.
    pub fn put_member(&mut self, member: JudgedMember)
        ensures { self.new ≡ with_member member self.old }
    {
        self.put(Host::Judged(member));
    }

    /// What a line does before a board is open.
    fn begin(&mut self, alloc: Global, line: &DriverLine) -> Result<Told, Unanswered>
        requires line { IsWithin line.now }
        requires closed { self.old.host ≡ None }
        ensures does { DoesReply None self.new.host result
            (reply_to self.old.tuning None line.now) }
        ensures tuning { self.new.tuning ≡ self.old.tuning }
    {
        match line {
            DriverLine::Script(Command::Skip) => Ok(Told::Nothing),
            DriverLine::Script(
                Command::Board {
                    member,
                    cells,
                    seed,
                    ..
                },
            ) => {
                let board = Board::new(*member, *cells, *seed);
                let host = Host::open(alloc, board, self.tuning)?;
                self.put(host);
                Ok(Told::Nothing)
            }
            DriverLine::Version => Ok(Told::Version),
            _ => Err(Unanswered::Refused(Refusal::Line(LineFault::NoBoard))),
        }
    }

    /// The same, by what it says. Nothing is judged before a board is open.
    fn take_first(&mut self, alloc: Global, said: Said) -> Result<Told, Unanswered>
        requires line { IsSaidWithin said }
        requires closed { self.old.host ≡ None }
        ensures does { LeadsFrom None self.new.host result
            (λ s. response_by self.old.tuning s said) }
        ensures tuning { self.new.tuning ≡ self.old.tuning }
    {
        match said {
            Said::Judge(_) => Err(Unanswered::Refused(Refusal::Line(LineFault::NoBoard))),
            said => {
                let line = said.unjudged()?;
                self.begin(alloc, &line)
            }
        }
    }

    /// What a line does, and what it comes to. If an allocation fails, nothing is promised of what
    /// is left: the host is given up.
    #[tactic(auto, using(crate::proofs::EachKind::reads))]
    fn act(&mut self, alloc: Global, content: &[u8]) -> Result<Told, Unanswered>
        ensures does { LeadsFrom self.old.host self.new.host result
            (λ s. response_to self.old.tuning s content.now) }
        ensures tuning { self.new.tuning ≡ self.old.tuning }
    {
        let said = read_line(alloc, content)?;
        let Some(host) = self.host.take() else {
            return self.take_first(alloc, said);
        };
        let (next, result) = host.take(alloc, self.tuning, said);
        self.put(next);
        result
    }

    /// Prints the block of a line, which stands without its end: what it prints, and `ok DUE`; or,
    /// if the line is refused, `refused FAULT`, and nothing changes. If an allocation fails, nothing
    /// is promised of what is left: the host is given up. A front of the block is printed then.
    pub fn answer(
        &mut self,
        alloc: Global,
        content: &[u8],
        output: &mut Output,
    ) -> Result<(), AllocError>
        ensures text { Adds output.old output.new (λ written.
            BlocksAt self.old.host self.new.host written result
            (λ s. response_to self.old.tuning s content.now)) }
        ensures tuning { self.new.tuning ≡ self.old.tuning }
    {
        match self.act(alloc, content) {
            Ok(told) => print_block(alloc, &told, self.next_due(), output),
            Err(Unanswered::Refused(refusal)) => self.refuse(alloc, refusal, output),
            Err(Unanswered::Memory) => Err(AllocError),
        }
    }

    /// Prints the block of a line that is refused.
    pub fn refuse(
        &mut self,
        alloc: Global,
        refusal: Refusal,
        output: &mut Output,
    ) -> Result<(), AllocError>
        ensures same { self.new ≡ self.old }
        ensures text { Adds output.old output.new (λ written.
            BlocksAt self.old.host self.new.host written result (λ s. rejects refusal)) }
    {
        let text = refused_line(alloc, refusal)?;
        output.add(text.as_bytes())
    }
}

/// No line stops a dialog: each is answered, also one that is too long.
impl Handler for Dialog {
    type Fault = Infallible;

    ghost use Rattle.wb_dialog.specs.Kinds.{Standing, step};
    ghost use Rattle.wb_dialog.specs.Doing.{IsAt};

    ghost State = { Standing };

    ghost is_at = { IsAt };

    ghost step = { step };

    #[tactic(auto, unfolding(crate::specs::Kinds::step))]
    fn take(
        &mut self,
        alloc: Global,
        _number: u64,
        line: &[u8],
        ended: bool,
        output: &mut Output,
    ) -> Result<(), Stop<Infallible>> {
        self.answer(alloc, without_end(line, ended), output)?;
        Ok(())
    }

    #[tactic(auto, unfolding(crate::specs::Kinds::step))]
    fn take_too_long(
        &mut self,
        alloc: Global,
        _number: u64,
        output: &mut Output,
    ) -> Result<(), Stop<Infallible>> {
        self.refuse(alloc, Refusal::Endless, output)?;
        Ok(())
    }
}
