//! Laws of self-managing members. Each function does nothing: its contract is a law, for proofs to
//! cite.

ghost use Rattle.wb_laws_machines.specs.Maps.{IsMap};
ghost use Rattle.wb_laws_sessions.specs.Members.{member};
ghost use Rattle.wb_laws_kept.specs.Kept.{kept, kept_map};
ghost use Rattle.wb_laws_kept.specs.Examples.{Forgets, Listens, Restarts};
ghost use Rattle.wb_laws_kept.specs.Listening.{ListeningTells};
ghost use Rattle.wb_laws_kept.specs.Restarts.{KeptAreHonest, KeptNeverClash, KeptReportsTellAgreement, MarksWereDrawn, RecordedReportsTellAgreement, WholeRecordsTell};
ghost use Rattle.wb_laws_kept.specs.Sessions.{KeptIsSession};

/// Self-managing members are members of a session: in each call they do what some deeds of a member do.
/// What they do keeps to its terms, if what comes was held before, and if they know their own numbers.
pub fn kept_members_are_members()
    ensures map { IsMap kept member kept_map }
    ensures same { KeptIsSession }
    ensures honest { KeptAreHonest }
{}

/// Two of them that have one report of a page, and no gaps there, hold and show the same there, at
/// any two moments, through every start, if each record has what its member drew, or if members
/// know their own numbers all the same.
pub fn kept_reports_tell_agreement()
    ensures recorded { RecordedReportsTellAgreement }
    ensures known { KeptReportsTellAgreement }
{}

/// A drawop that some member held clashes with nothing that another holds, at whatever moments.
pub fn kept_never_clash()
    ensures { KeptNeverClash }
{}

/// Members whose programs start with all that they drew in their records know their own numbers. So
/// each number is used once, over all starts.
pub fn whole_records_tell()
    ensures { WholeRecordsTell }
{}

/// What a member hears of its own number while it listens, it knows until its program starts anew.
pub fn listening_tells()
    ensures { ListeningTells }
{}

/// Each mark that a member reports is of a drawop that its source drew.
pub fn marks_were_drawn()
    ensures { MarksWereDrawn }
{}

/// An example: a program that starts with its drawing in its record draws under the next number.
pub fn a_restart_goes_on()
    ensures { Restarts }
{}

/// One that starts without it, and without time to listen, draws under its old number.
pub fn a_lost_record_repeats()
    ensures { Forgets }
{}

/// One whose record lost its last drawing, and that hears of it while it listens, goes on after it.
pub fn a_lost_tail_is_told()
    ensures { Listens }
{}
