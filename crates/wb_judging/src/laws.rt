//! What follows for a judged member, proved for whatever comes in. The functions do nothing: each
//! stands here for its clause.

ghost use Rattle.wb_judging.specs.Since.{SincePatches};
ghost use Rattle.wb_judging.specs.Laws.{ItBeginsAgain, JudgedMembersAreKept, MembersAreHandedIn, RecordLinesAreTaken, NobodyMovesOurTime, OnlyAnswersMakeKnown, OthersHearTheSame, OwnersAreRecorded, OwnersOutliveStarts, RecordsComeFirst, SendsAsKept, StrangersHushNobody, StrangersLeaveNoHoles, TheNetworkRefusesNothing, TheRecordIsTheBoard, TheSameOrATick};
ghost use Rattle.wb_judging.specs.Members.{EachKindIsHandedIn, MembersAreKnownAgain, MembersStay, NeededIsHandedIn, OthersDrawopsAreFit, ReportsAreFit};

/// A judged member is a kept member that was handed one line in the place of each: the same line,
/// or a tick. It sends what that sends, where a report has one echo besides.
pub fn judged_members_are_kept()
    ensures kept { JudgedMembersAreKept }
    ensures lines { TheSameOrATick }
    ensures sends { SendsAsKept }
{}

/// To all members of other numbers a report says the same with the echo under our own number as
/// without it.
pub fn others_hear_the_same()
    ensures { OthersHearTheSame }
{}

/// Nothing that comes is refused, unless its moment is before the present one.
pub fn the_network_refuses_nothing()
    ensures { TheNetworkRefusesNothing }
{}

/// What a board holds is what it held and what was recorded since, in order, each name once. A call
/// tells all that is to be recorded before all that is to be sent.
pub fn the_record_is_the_board()
    ensures board { TheRecordIsTheBoard }
    ensures first { RecordsComeFirst }
{}

/// A member that begins anew and is handed the record of another holds the same in the same order,
/// and the same is strange. If it has the same number, it refuses no line of that record.
pub fn it_begins_again()
    ensures alike { ItBeginsAgain }
    ensures taken { RecordLinesAreTaken }
{}

/// Whose report gives a number an owner that had none is recorded as that owner, and a member that
/// begins anew and is handed a record knows of each number the first owner that it names, if there
/// are 1,024 at most. So nobody else speaks under that number, also if it answers first.
pub fn owners_outlive_starts()
    ensures recorded { OwnersAreRecorded }
    ensures known { OwnersOutliveStarts }
{}

/// A member's drawop is handed in if it is not ours, is no more than a day ahead, and has a cell.
/// But a copy of what is held is not handed in while its name is firm.
///
/// So is each other datagram of a member whose number speaks from there: a request that is not one
/// of too many, a question, and a report or a page state without a forged mark of ours, as each is
/// once we listen no more. But a request for what is not held is not handed in while its name is
/// firm. So nothing is dropped that the kept member needs: a drawop that it lacks, a request for
/// what it holds, a report.
pub fn members_are_handed_in()
    ensures drawops { MembersAreHandedIn }
    ensures kinds { EachKindIsHandedIn }
    ensures needed { NeededIsHandedIn }
    ensures drawops_fit { OthersDrawopsAreFit }
    ensures reports_fit { ReportsAreFit }
{}

/// A member stays one while only members speak and it is not gone: for ten minutes from what came
/// from it last.
pub fn members_stay()
    ensures stays { MembersStay }
    ensures again { MembersAreKnownAgain }
{}

/// A stranger puts off no repair of ours.
pub fn strangers_hush_nobody()
    ensures { StrangersHushNobody }
{}

/// What a stranger gives leaves no number missing that was not missing before, unless a member told
/// a number as high of its source on its page.
pub fn strangers_leave_no_holes()
    ensures { StrangersLeaveNoHoles }
{}

/// An origin becomes known by an answer that came from there, and by nothing else.
pub fn only_answers_make_known()
    ensures { OnlyAnswersMakeKnown }
{}

/// The driver alone tells the time of day, from which our drawings get their times.
pub fn nobody_moves_our_time()
    ensures { NobodyMovesOurTime }
{}

/// What a page showed when fewer drawops were held, with what `since` takes off and puts in, is
/// what it shows now.
pub fn since_patches()
    ensures { SincePatches }
{}
