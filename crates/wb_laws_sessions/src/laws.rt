//! Laws of sessions of members. Each function does nothing: its contract is a law, for proofs to cite.

ghost use Rattle.wb_laws_machines.specs.Laws.{HeldOnce, HeldWasDrawn, NamesMeanOne, NoneClashes, NumbersCount, ReportsTellAgreement, WholeBoardsAgree};
ghost use Rattle.wb_laws_sessions.specs.Drawn.{SentWasHeld, StepsAreHonest};
ghost use Rattle.wb_laws_sessions.specs.Examples.{Clashes, IsRepaired};
ghost use Rattle.wb_laws_sessions.specs.Members.{member};
ghost use Rattle.wb_laws_sessions.specs.Timers.{AnswersAreOfHeld, NoneHeldIsAskedFor};

/// Nothing is invented or changed: each drawop that a member holds, or held, was drawn by its source,
/// in every field, through every start anew, each name means one drawop, and none stands twice on a
/// board. What is sent was held. So no clash comes up. It is so of each page alone, whatever is forged
/// on others.
pub fn nothing_is_invented()
    ensures held { HeldWasDrawn member }
    ensures names { NamesMeanOne member }
    ensures numbers { NumbersCount member }
    ensures once { HeldOnce member }
    ensures sent { SentWasHeld }
    ensures clashes { NoneClashes member }
{}

/// Two members that have one report of a page, and no gaps there, hold and show the same there, at
/// any two moments of a session, whatever is forged on other pages.
pub fn reports_tell_agreement()
    ensures { ReportsTellAgreement member }
{}

/// Two members that hold all that was drawn on a page hold and show the same there.
pub fn whole_boards_agree()
    ensures { WholeBoardsAgree member }
{}

/// Steps that keep to the stricter terms of `AreHonest` keep to those of these laws.
pub fn steps_are_honest()
    ensures { StepsAreHonest }
{}

/// No request timer stands for what a member holds, and a repair timer only for what it holds.
pub fn timers_tell_holdings()
    ensures requests { NoneHeldIsAskedFor }
    ensures answers { AnswersAreOfHeld }
{}

/// Of three members one loses a drawop, and gets it again from another than the one that drew it.
pub fn a_loss_is_repaired()
    ensures { IsRepaired }
{}

/// A program that starts anew under its old number, and does not know what it drew, can clash.
pub fn forgotten_numbers_clash()
    ensures { Clashes }
{}
