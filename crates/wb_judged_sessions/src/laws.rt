//! Laws of sessions of judged members. Each function does nothing: its contract is a law, for
//! proofs to cite.

ghost use Rattle.std.specs.Prelude.{◌≡◌};
ghost use Rattle.wb_judge.specs.declared.limits.TheConstants.{FETCH_AGAIN, FETCH_PAUSE, FORGED_ABOVE, LACKING, NEW_AHEAD, NEW_OF_ONE, NEW_PAUSE};
ghost use Rattle.wb_laws_machines.specs.Maps.{IsMap};
ghost use Rattle.wb_laws_kept.specs.Kept.{kept};
ghost use Rattle.wb_judged_sessions.specs.Judged.{judged, judged_map};
ghost use Rattle.wb_judged_sessions.specs.Answering.{AnswersAreHandedIn, AnswersMakeKnown, FewAreEchoed, KnownAreHandedIn, KnownGoOn, LastTakenIsEchoed, ReportsAreRemembered, TheyComeToKnow};
ghost use Rattle.wb_judged_sessions.specs.Examples.{IsShared};
ghost use Rattle.wb_judged_sessions.specs.Days.{HeldIsNear, OursAreInOrder, OursLieAbove};
ghost use Rattle.wb_judged_sessions.specs.Known.{JudgedStayKnown, KnownBecomeWhole};
ghost use Rattle.wb_judged_sessions.specs.Knowing.{StaysKnown};
ghost use Rattle.wb_judged_sessions.specs.Laws.{BoardsAreFiles, FilesAreWhole, HeldOnce, HeldWasDrawn, JudgedKeepKeptTerms, ListeningTells, MarksWereDrawn, NamesMeanOne, RecordsTell, SendsAsKept};
ghost use Rattle.wb_judged_sessions.specs.Meeting.{HaveMet};
ghost use Rattle.wb_judged_sessions.specs.Acquainted.{IsAnswered, TwinsHaveMet};
ghost use Rattle.wb_judged_sessions.specs.Sessions.{DrawsAsKept, JudgedIsKept, PlainIsTheSame};
ghost use Rattle.wb_judged_sessions.specs.SetBack.{IsGivenAhead, IsSetBack, IsSetBackTooFar};
ghost use Rattle.wb_judged_sessions.specs.Soon.{JudgedBecomeWholeAnyway, JudgedBecomeWholeSoon};
ghost use Rattle.wb_judged_sessions.specs.Timely.{JudgedAgree, JudgedAlwaysShort, JudgedBecomeWhole, JudgedBecomeWholeByRounds, JudgedBecomeWholeInCrowds, JudgedFillHoles, JudgedIsTimely};
ghost use Rattle.wb_judged_sessions.specs.Twins.{AnswersShowTwins, TwinsAreRemembered, TwinsSee, TwinsStay};
ghost use Rattle.wb_judged_sessions.specs.Hushing.{RepairsAllTheSame, RequestsAllTheSame};
ghost use Rattle.wb_judged_sessions.specs.Unhushed.{FirmForItsTurn, RepairsAreSent, RequestsAreSent, TurnsAreFirm};

/// A session of judged members is one of self-managing members, in which the network lost what the
/// judges dropped. Each judged member is the self-managing one at its place, and draws the same. It
/// sends the same, but for an echo under its own number, for which no member does anything.
pub fn judged_sessions_are_kept()
    ensures map { IsMap judged kept judged_map }
    ensures same { JudgedIsKept }
    ensures drawn { DrawsAsKept }
    ensures sent { SendsAsKept }
    ensures echo { PlainIsTheSame }
    ensures terms { JudgedKeepKeptTerms }
{}

/// Nothing is invented or changed: each drawop that a judged member holds or has a mark of was drawn by
/// its source, through every start anew, each name means one drawop, and none stands twice on a board.
/// wb_host_sessions has what holds of hosts of any kind: that those with one report of a page agree.
pub fn judged_boards_are_true()
    ensures held { HeldWasDrawn }
    ensures names { NamesMeanOne }
    ensures once { HeldOnce }
    ensures marks { MarksWereDrawn }
{}

/// Judged members whose programs start with all that they drew know their own numbers, so each
/// number is used once, over all starts. A file has all of that, since a board is what its file
/// has.
pub fn judged_records_tell()
    ensures records { RecordsTell }
    ensures files { FilesAreWhole }
    ensures boards { BoardsAreFiles }
{}

/// What a judged member hears of its own number while it listens, and its judge lets in, it knows
/// until its program starts anew.
pub fn judged_listening_tells()
    ensures { ListeningTells }
{}

/// An example: a drawing comes to a member that does not know its origin, and is still there when
/// that member has started anew from its file.
pub fn two_judged_members_share()
    ensures { IsShared }
{}

/// If from some time on nobody draws or starts, nothing is lost, drivers tick in time, and each two
/// members that go on know each other, a session of judged members keeps to times as one of
/// self-managing members, whoever started anew before. Of delays it is enough that none is above the
/// bound since the last starts.
pub fn judged_sessions_keep_to_times()
    ensures timely { JudgedIsTimely }
    ensures short { JudgedAlwaysShort }
{}

/// So it becomes whole: each member that goes on comes to hold, by the time of the law
/// `sessions_become_whole` of self-managing members, what one of them held. After it any two of them
/// report, list and show the same.
pub fn judged_sessions_become_whole()
    ensures whole { JudgedBecomeWhole }
    ensures rounds { JudgedBecomeWholeByRounds }
    ensures crowded { JudgedBecomeWholeInCrowds }
    ensures holes { JudgedFillHoles }
    ensures soon { JudgedBecomeWholeSoon }
    ensures anyway { JudgedBecomeWholeAnyway }
    ensures agree { JudgedAgree }
{}

/// Members that know each other once nothing is lost any more go on to do so, whatever others send
/// that the judges drop: each reports within 96 seconds, and what came from it stands for 192. So of
/// what one sends, all comes to each other one as a member's, and the session becomes whole.
pub fn judged_members_stay_known()
    ensures stays { StaysKnown }
    ensures known { JudgedStayKnown }
    ensures whole { KnownBecomeWhole }
{}

/// An example: two members meet. Each reports, and hears a report of the other that answers it. Then
/// each knows the other, and the session keeps to all that `judged_members_stay_known` asks.
pub fn two_judged_members_meet()
    ensures { HaveMet }
{}

/// What a user draws has a greater time than each drawop that its page held there, whatever came and
/// however often programs started, if each program starts with its file, and each time of day that a
/// driver tells is less than a day, less 65,535 microseconds, before those that the member had. So
/// what it draws on a page has ascending times, through every start. For what a member holds is
/// ahead of the latest time of day that it had by a day at most, and a microsecond for each drawop
/// that it holds.
pub fn ours_lie_above()
    ensures above { OursLieAbove }
    ensures order { OursAreInOrder }
    ensures near { HeldIsNear }
{}

/// An example: a clock is set back by almost 17 hours while a program does not run. The program
/// starts with its file, and what its user draws still has a greater time than what he drew before.
/// If the clock is set back by more than two days, it has not. Nor has it if a new member gets that
/// record, with a clock that shows as little: so the runs that wrote a record count too.
pub fn clocks_are_set_back()
    ensures less { IsSetBack }
    ensures more { IsSetBackTooFar }
    ensures given { IsGivenAhead }
{}

/// The numbers of a judge that wb_judge has no law for: how many numbers a member lacks that takes a
/// stream, and how long, in microseconds, it waits for the next one, and for the next one of the
/// same member; how far ahead new numbers are paid for, those of origins that have one, and what one
/// costs, in microseconds; and how far above what is held marks of ours are forged.
pub fn numbers_of_a_judge()
    ensures streams { (LACKING ≡ 500) × (FETCH_PAUSE ≡ 10000000) × (FETCH_AGAIN ≡ 60000000) }
    ensures ahead { (NEW_AHEAD ≡ 255000000) × (NEW_OF_ONE ≡ 127000000) × (NEW_PAUSE ≡ 1000000) }
    ensures forged { FORGED_ABOVE ≡ 65536 }
{}

/// Two members come to know each other by two reports: one takes in a report of the other, and what
/// it reports after that, with an echo of the other, comes there within 256 seconds. So its number
/// is known there, at the origin from which that came. Whatever a judge is, a report that answers
/// makes known, if there is room for its number. What a member echoes of another is the last report
/// of it that it took in, and it echoes all, if it remembers 32 senders at most. Its own reports it
/// remembers for 256 seconds. From then on each datagram of the other is handed in that is fit, as
/// long as no 192 seconds pass without a report of it.
pub fn judged_members_come_to_know()
    ensures lets { AnswersAreHandedIn }
    ensures known { AnswersMakeKnown }
    ensures echoed { LastTakenIsEchoed }
    ensures few { FewAreEchoed }
    ensures remembered { ReportsAreRemembered }
    ensures two { TheyComeToKnow }
    ensures stays { KnownGoOn }
    ensures handed { KnownAreHandedIn }
{}

/// Two members of one number see that: one remembers a report of the other, and its own next one,
/// within 256 seconds, echoes that under their number. Whoever gets an answer under its own number
/// has a twin, until its program starts anew.
pub fn judged_twins_see()
    ensures remembered { TwinsAreRemembered }
    ensures shown { AnswersShowTwins }
    ensures see { TwinsSee }
    ensures stays { TwinsStay }
{}

/// Examples: the two members that meet keep to all that is asked for the one to know the other, and
/// two members of one number to all that is asked for each to see the other.
pub fn two_judged_members_answer()
    ensures members { IsAnswered }
    ensures twins { TwinsHaveMet }
{}

/// What is firm is not hushed, whatever others send. If a member holds a drawop, and its timer stands
/// to repair it, it sends the drawop at the first call at the moment of the timer or later, if all
/// that comes until then comes while the name is firm. If it lacks one, and its timer stands to
/// request it, it sends the request so, unless the drawop comes before, or it gives the name up
/// itself. Each name is firm in its turn, for two seconds and to the end of it, while the number of
/// others stays.
pub fn what_is_firm_is_not_hushed()
    ensures repair { RepairsAreSent }
    ensures request { RequestsAreSent }
    ensures turns { TurnsAreFirm }
    ensures turn { FirmForItsTurn }
{}

/// Examples: one of the two members that meet sends a copy of what the other is to repair, and a
/// request for what the other is to request. Each meets all that `what_is_firm_is_not_hushed` asks,
/// and the other repairs and requests all the same.
pub fn nobody_hushes_two_judged_members()
    ensures repair { RepairsAllTheSame }
    ensures request { RequestsAllTheSame }
{}
