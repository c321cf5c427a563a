//! What follows from a policy, proved for all that is handed to it, and its numbers. The functions
//! do nothing: each stands here for its clause.

ghost use Rattle.std.specs.Prelude.{◌≡◌, ◌^◌};
ghost use Rattle.wb_policy.specs.Fairness.{EachHoleHasItsTurn, EachMarkIsTold, EachNumberHasItsTurn, EachNumberHasItsTurnSoon, NewestIsTold, TellingsRise};
ghost use Rattle.wb_policy.specs.Laws.{AnswersAreEchoed, FewAreAsked, IdleTurnsAreRare, NearIsAmong, NumbersAreNear, ReportsAreSmall, SlicesAreShort, SuccessHurries, TurnsArePaced, TurnsReachEach};
ghost use Rattle.wb_policy.specs.declared.limits.TheConstants.{ANSWER, COST, ECHO_BYTES, FIRST_DELAY, FIRST_QUESTION, FIRST_REPORT, FIRST_WAIT, HEAD_BYTES, HEARD, LEAST_DELAY, LISTEN_LIMIT, LONGEST_GAP, LONGEST_MEAN, LONGEST_PAUSE, MARK_BYTES, MAX_RATE, MEMBERS, MOST_BYTES, MOST_DELAY, MOST_ECHOES, MOST_FIRSTS, MOST_MARKS, MOST_PAGES, MOST_REPORT_BYTES, MOST_WAIT, OLD_LEVEL, PAYS, PLACES, PLACES_OF_LAST, QUIET, REACH, ROUND_LIMIT, SECOND, SHORTEST_GAP, SHORTEST_MEAN, SHORTEST_PAUSE, STATE_BYTES, STEADINESS, STREAM, STRIDE, TIMERS_BEFORE_TURNS, WINDOW};

/// From one moment to another at most 64 names are asked for, one more for each quarter of a
/// second, and two more for each that was asked for and came.
pub fn few_are_asked()
    ensures few { FewAreAsked }
{}

/// The neighbours of a number: those up to so far away, below the greatest that is held, and each
/// of these is among them.
pub fn neighbours_are_near()
    ensures near { NumbersAreNear }
    ensures among { NearIsAmong }
{}

/// A report or a page state has at most 64 marks, whatever is held. A report has at most 32 echoes
/// besides, whoever was heard, and so at most 1,184 bytes.
pub fn slices_are_short()
    ensures marks { SlicesAreShort }
    ensures bytes { ReportsAreSmall }
{}

/// Whoever has answered and was heard within 192 seconds is echoed in each report, if at most 24 such
/// members are there. Everybody else who was heard has his turn: a report that does not echo him
/// brings turns nearer to his number, whoever is heard beside him.
pub fn echoes_are_fair()
    ensures answered { AnswersAreEchoed }
    ensures reached { TurnsReachEach }
{}

/// While what is held stays as it is, each of R holes has its turn among each 64 R turns. A number
/// of a hole that has n of them is wanted after at most 64 R turns for each 64 of these n or part
/// of them, however many another hole has. If none has more than n, it is wanted among each 2 n R
/// turns.
pub fn turns_are_fair()
    ensures holes { EachHoleHasItsTurn }
    ensures numbers { EachNumberHasItsTurn }
    ensures soon { EachNumberHasItsTurnSoon }
{}

/// Turns come by the clock, 1 to 16 seconds after one another: after 513 that brought nothing, 16
/// seconds. Once something that was asked for came, the next turn but one comes a second after the
/// next.
pub fn turns_keep_a_pace()
    ensures paced { TurnsArePaced }
    ensures hurried { SuccessHurries }
    ensures rare { IdleTurnsAreRare }
{}

/// While what is held stays as it is, each mark of a board of S slices is reported within twice S
/// reports, and twice as many more as the page of the last report in turn has slices. Whatever comes
/// in while the telling of a page goes on, each report in turn has sources of it above those before,
/// 64 or all that there are: so sources that come keep a telling from its end for as many reports in
/// turn as they fill.
pub fn each_mark_is_told()
    ensures marks { EachMarkIsTold }
    ensures rise { TellingsRise }
{}

/// Of two reports in a row one tells the page that changed last, however many pages there are: it
/// has the greatest number of the source of the newest drawop that is held.
pub fn what_changed_last_is_told()
    ensures newest { NewestIsTold }
{}

/// The limits: of rounds; of delays; of reports, their parts and bytes; of questions for pages;
/// and of the time in which a member listens.
pub fn limits()
    ensures rounds { ROUND_LIMIT ≡ 2 ^ 32 }
    ensures delays { (FIRST_DELAY ≡ 20000) × (MOST_DELAY ≡ 1000000) }
    ensures reports { (FIRST_REPORT ≡ 1000000) × (MOST_MARKS ≡ 64) × (MOST_ECHOES ≡ 32) × (MOST_FIRSTS ≡ 24) }
    ensures bytes { (MOST_BYTES ≡ 2000000) × (MOST_REPORT_BYTES ≡ 1184) × (MAX_RATE ≡ 1000000) }
    ensures questions { (FIRST_QUESTION ≡ 200000) × (FIRST_WAIT ≡ 1000000) }
    ensures answers { (MOST_WAIT ≡ 64000000) × (MOST_PAGES ≡ 64) × (STATE_BYTES ≡ 534) }
    ensures listens { LISTEN_LIMIT ≡ 2 ^ 32 }
{}

/// The other numbers: what a name costs and pays, and how many are asked for at once; when a timer
/// is old, how far neighbours reach, and beside how many timers turns pass over what is asked for; the times between turns; delays; the times between
/// reports, and for how long a member counts; the bytes of a report; the times of answers; and the
/// stream of the words.
pub fn numbers()
    ensures credit { (COST ≡ 250000) × (PAYS ≡ 2) × (PLACES ≡ 64) × (PLACES_OF_LAST ≡ 48) }
    ensures wanting { (OLD_LEVEL ≡ 4) × (REACH ≡ 64) × (STRIDE ≡ 19) × (WINDOW ≡ 64) }
    ensures passing { TIMERS_BEFORE_TURNS ≡ 56 }
    ensures turns { (SHORTEST_GAP ≡ 1000000) × (LONGEST_GAP ≡ 16000000) × (STEADINESS ≡ 128) }
    ensures delays { LEAST_DELAY ≡ 10000 }
    ensures means { (SHORTEST_MEAN ≡ 2000000) × (LONGEST_MEAN ≡ 64000000) }
    ensures pauses { (SHORTEST_PAUSE ≡ 1000000) × (LONGEST_PAUSE ≡ 96000000) }
    ensures members { (HEARD ≡ 192000000) × (MEMBERS ≡ 65536) }
    ensures bytes { (HEAD_BYTES ≡ 32) × (MARK_BYTES ≡ 8) × (ECHO_BYTES ≡ 20) }
    ensures questions { (ANSWER ≡ 500000) × (QUIET ≡ 1000000) × (SECOND ≡ 1000000) }
    ensures words { STREAM ≡ 55 }
{}
