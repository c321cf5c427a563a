//! Laws of progress of self-managing hosts. Each function does nothing: its contract is a law, for
//! proofs to cite.

ghost use Rattle.wb_kept_progress.specs.Agreement.{SessionsAgree};
ghost use Rattle.wb_kept_progress.specs.Bytes.{DrawopsAreShort, FewBytesAreSent, ReportsAreReckoned, RequestsAreShort};
ghost use Rattle.wb_kept_progress.specs.Crowded.{SessionsBecomeWholeInCrowds};
ghost use Rattle.wb_kept_progress.specs.Examples.{LivelyMeets, PatientMeets};
ghost use Rattle.wb_kept_progress.specs.Filling.{HolesAreFilled, SameReportsLeaveHoles};
ghost use Rattle.wb_kept_progress.specs.Holed.{HoledMeets};
ghost use Rattle.wb_kept_progress.specs.OnceFar.{OnceFarMeets};
ghost use Rattle.wb_kept_progress.specs.Judged.{JudgedDrawopsAreShort, JudgedMembersSendFewBytes, JudgedMembersSendFewDrawops};
ghost use Rattle.wb_kept_progress.specs.LeadsOn.{AskedLeadsOn, NeighboursAreAskedFor};
ghost use Rattle.wb_kept_progress.specs.Promises.{Promises, PromisesSuffice};
ghost use Rattle.wb_kept_progress.specs.Repairs.{AskedCanCome, MarksComeToBeTold, MissingCanCome, MissingIsAsked, MissingIsAskedInTurn, MissingIsAskedSoon, TurnsAsk};
ghost use Rattle.wb_kept_progress.specs.Rounds.{SessionsBecomeWholeByRounds};
ghost use Rattle.wb_kept_progress.specs.Since.{AlwaysShortSince, RestartedBecomeWhole, RestartedBecomeWholeByRounds, RestartedBecomeWholeInCrowds, RestartedFillHoles, SinceIsSame, SinceIsTimely};
ghost use Rattle.wb_kept_progress.specs.SoonSince.{RestartedBecomeWholeAnyway, RestartedBecomeWholeSoon};
ghost use Rattle.wb_kept_progress.specs.Starts.{NoStateIsADeadEnd};
ghost use Rattle.wb_kept_progress.specs.Telling.{EachMarkIsToldOfGrowing, HeldNumbersAreTold, LastNumbersAreTold};
ghost use Rattle.wb_kept_progress.specs.Timed.{KeptGoByShort, KeptIsPerformed, KeptKeepsMoments, KeptRequestIsAnswered, KeptTimerLeadsOrIsGivenUp, RequestIsAnswered, TimerLeadsOrIsGivenUp};
ghost use Rattle.wb_kept_progress.specs.Topped.{SessionsBecomeWholeAnyway, SessionsBecomeWholeSoon, TopsAreHeldAnyway, TopsAreHeldSoon};
ghost use Rattle.wb_kept_progress.specs.Traffic.{DrawopsAreCalledFor, FewRequestsAreSent, LittleIsSent, NoAnswerStands};
ghost use Rattle.wb_kept_progress.specs.Whole.{AllAreSoon, AllAreSoonByRates, AlwaysShort, LiveHostsAreCounted, ReportsAreDue, ReportsGoByRates, SessionsBecomeWhole};

/// Whatever came in before, a drawop that one host asks for, and that another holds, comes by six
/// more lines of the two. None of them is refused, and none hands in what was not sent.
pub fn what_is_asked_for_can_come()
    ensures { AskedCanCome }
{}

/// A number that is missing below the greatest that a host holds of its source comes to be asked
/// for, by ticks alone, if the board has a free cell: how soon depends on its own hole and on how
/// many there are, or on the most numbers of one. So a drawop of such a number can come from
/// one that holds it.
pub fn what_is_missing_can_come()
    ensures asked { MissingIsAsked }
    ensures turn { MissingIsAskedInTurn }
    ensures soon { MissingIsAskedSoon }
    ensures comes { MissingCanCome }
{}

/// While there is a hole, each turn is of a missing number, and a request timer for that stands
/// after the turn, if the board has a free cell and a place of the credit is left. It is so of each
/// host that answers for what it holds alone, as every host does.
pub fn turns_ask()
    ensures { TurnsAsk }
{}

/// No state is a dead end. A host comes to report each mark of its board, by its ticks alone. So,
/// whatever came in before, and whoever started anew, a drawop that one member lacks and another
/// holds comes by some lines, of which none is refused, and each hands in only what these lines
/// sent.
pub fn what_is_lost_can_come()
    ensures told { MarksComeToBeTold }
    ensures comes { NoStateIsADeadEnd }
{}

/// Whatever came in before: when a drawop comes that a host lacked, and its board has a free cell
/// afterwards, each missing number of that source up to 64 away is asked for by then, unless more
/// than 47 names are owed. If the drawop was asked for, and a number is missing afterwards, some
/// missing number is asked for. So what was asked for ends no requests by coming while numbers are
/// missing.
pub fn what_comes_leads_on()
    ensures near { NeighboursAreAskedFor }
    ensures asked { AskedLeadsOn }
{}

/// If hosts, drivers and the network keep to stated times, whatever hosts ask for, give up and
/// report: a request for what a live host held is answered to all of them, and a request timer
/// leads to one, or its own host gives the name up first. So of a name that is not given up each
/// timer leads to where all hold it. So it is with self-managing hosts.
pub fn what_is_asked_for_comes_in_time()
    ensures answered { RequestIsAnswered }
    ensures leads { TimerLeadsOrIsGivenUp }
    ensures kept_answered { KeptRequestIsAnswered }
    ensures kept_leads { KeptTimerLeadsOrIsGivenUp }
{}

/// A host that is self-managing after the moments of its opening is the host that performed the
/// lines of its policy, each call at a time. If each call says a moment that the clock of its place
/// may show then, a tick to that moment stands before all else that is performed in it. No line
/// goes by a delay above a second, whatever echoes tell. If none goes by one above a bound, what
/// stands when nothing is lost any more ends as soon as the bound says.
pub fn kept_hosts_perform_lines()
    ensures same { KeptIsPerformed }
    ensures moments { KeptKeepsMoments }
    ensures delays { KeptGoByShort }
    ensures short { AlwaysShort }
{}

/// A session of self-managing hosts becomes whole. If from some time on nobody draws, nothing is
/// lost, and drivers tick in time, each live host comes to hold, by a stated time, what one of them
/// held. How soon they report, take turns and get what they ask for are letters of that time, which
/// have greatest values, and less than that where reports go by rates. After it any two of them report, list and show the same, if no name means
/// two drawops. None does if each drawop that comes was sent by one of the hosts, and no two of these have one
/// number.
pub fn sessions_become_whole()
    ensures whole { SessionsBecomeWhole }
    ensures always { AllAreSoon }
    ensures by_rates { AllAreSoonByRates }
    ensures agree { SessionsAgree }
{}

/// It becomes whole by rounds while live hosts keep places filled. If they give up no name before
/// its timer was backed off, each round brings as many names as there are places, to each of them at
/// once. If they do, 64 names were asked for shortly before, and credit pays for few such crowds.
pub fn filled_places_bring_rounds()
    ensures whole { SessionsBecomeWholeByRounds }
    ensures crowded { SessionsBecomeWholeInCrowds }
{}

/// Once live hosts lack nothing but numbers below one that they hold, and another holds each of
/// these, a session becomes whole by a stated time, whatever hosts ask for: each of them asks for a
/// missing number within three turns, and what was asked for and came leads on to another one. They
/// lack nothing else once any two of them report the same.
pub fn holes_are_filled()
    ensures whole { HolesAreFilled }
    ensures reports { SameReportsLeaveHoles }
{}

/// Each live host holds the last number of each source by a stated time, and then the session becomes
/// whole as `holes_are_filled` says. The time goes by how often a host asks for a name. There is
/// another for whatever hosts ask for, if one of them holds each missing number.
pub fn sessions_become_whole_soon()
    ensures tops { TopsAreHeldSoon }
    ensures whole { SessionsBecomeWholeSoon }
    ensures tops_anyway { TopsAreHeldAnyway }
    ensures whole_anyway { SessionsBecomeWholeAnyway }
    ensures restarted { RestartedBecomeWholeSoon }
    ensures restarted_anyway { RestartedBecomeWholeAnyway }
{}

/// What `sessions_become_whole` takes of the policy of self-managing hosts. They promise that, while nothing
/// new comes, a host that lacks what another holds asks for something by a time, and that it gives
/// up such a name early only for another. From these promises alone the law follows.
pub fn policies_keep_promises()
    ensures kept { Promises }
    ensures suffice { PromisesSuffice }
{}

/// Three examples of such a session, line by line. Two hosts keep to the terms, and meet all
/// premises of the laws: what is lost is asked for, and repaired. In one each host is called within
/// 10 milliseconds. In another within 55 seconds, and it goes on until after two laws say that it
/// is whole. In the third one of them holds the last of three drawings alone, and it goes on until
/// after the law of holes says that both hold all. A fourth keeps to the times with a smaller bound of
/// delays than one that it went by before.
pub fn terms_can_be_kept()
    ensures lively { LivelyMeets }
    ensures patient { PatientMeets }
    ensures holed { HoledMeets }
    ensures once_far { OnceFarMeets }
{}

/// How often live hosts report. The next report of each is due within 96 seconds, whatever comes
/// in. Once they hear live hosts alone, each counts no more members than these are, and its next
/// report is due within one and a half of the mean time that the rate gives for so many.
pub fn reports_follow_one_another()
    ensures always { ReportsAreDue }
    ensures counted { LiveHostsAreCounted }
    ensures by_rates { ReportsGoByRates }
{}

/// Reports while boards grow. Four times as many reports as a board has slices by then tell each mark
/// that it had at first, whatever has come meanwhile: the telling of a page ends at the source that
/// was its last when it began. So what a live host holds it tells in time, or a greater number of
/// its source; and that number, if it stays the last.
pub fn last_numbers_are_told()
    ensures growing { EachMarkIsToldOfGrowing }
    ensures held { HeldNumbersAreTold }
    ensures told { LastNumbersAreTold }
{}

/// Whatever comes in, a self-managing host sends few reports, page states and questions, by the
/// time between two of them, and few requests, by how many names it may ask for. It sends a drawop
/// only as its user draws, or once for a request for what it holds. A judge lets few of these in.
/// Of bytes, reports take at most 1,184 and as many again each second, page states 34,176 and as
/// many again each second, and questions for pages 12 and 24 more each second. n requests have 28n
/// bytes, and n drawops at most 102n, if no text is longer than 64. A judge may add an echo to a
/// report, so those of a judged member take 1,204.
pub fn little_is_sent()
    ensures said { LittleIsSent }
    ensures requests { FewRequestsAreSent }
    ensures drawops { DrawopsAreCalledFor }
    ensures first { NoAnswerStands }
    ensures judged { JudgedMembersSendFewDrawops }
    ensures bytes { FewBytesAreSent }
    ensures reckoned { ReportsAreReckoned }
    ensures requested { RequestsAreShort }
    ensures drawn { DrawopsAreShort }
    ensures judged_bytes { JudgedMembersSendFewBytes }
    ensures judged_drawn { JudgedDrawopsAreShort }
{}

/// Of a session in which programs start, and start anew, what came since the last start of each
/// member is such a session of hosts: they are the members, and it keeps to times if the last
/// starts came before nothing is lost any more. So it becomes whole, whoever started anew before.
pub fn starts_begin_sessions()
    ensures same { SinceIsSame }
    ensures timely { SinceIsTimely }
    ensures short { AlwaysShortSince }
    ensures whole { RestartedBecomeWhole }
    ensures rounds { RestartedBecomeWholeByRounds }
    ensures crowded { RestartedBecomeWholeInCrowds }
    ensures holes { RestartedFillHoles }
{}
