//! Laws of what scripts print, proved for all scripts and histories. The functions do nothing: each
//! stands here for its clauses.

ghost use Rattle.wb_gaps.specs.Laws.{GapsOfPage, OnlyGaps, ReportOfPage, OnlyReport, PagesOfHistory, OnlyPages};
ghost use Rattle.wb_member.specs.Queries.{ViewOfPage, OnlyView};
ghost use Rattle.wb_script.specs.Laws.{AnswersAreFree, BatchesAreToldAsSaid, BatchesAreOne, ArrivalsAreFree, PrintsAreFree};
ghost use Rattle.wb_script.specs.Reordering.{WorkersAreOneThread, EachReorderingIsOutcome};
ghost use Rattle.wb_script.specs.Shows.{ShowsArrivals, ShowsAreFree};
ghost use Rattle.wb_script.specs.ScriptLaws.{RefusedScriptStays, PrintedStays, SkippedPrintsNothing, CountsAddUp, HeldStays, OneThreadIsOutcome, OneWorkerIsOneThread, OneThreadIsFree};
ghost use Rattle.wb_script.specs.FreeWorkers.{OrdersAreFree, WorkersAreFree};

/// What is printed is the view of a page, its missing ranges, its report, and the list of pages.
pub fn queries_are_answered()
    ensures view { ViewOfPage }
    ensures gaps { GapsOfPage }
    ensures report { ReportOfPage }
    ensures pages { PagesOfHistory }
{}

/// There is no other view of a page, no other list of its missing ranges, no other report of it,
/// and no other list of pages.
pub fn answers_are_one()
    ensures view { OnlyView }
    ensures gaps { OnlyGaps }
    ensures report { OnlyReport }
    ensures pages { OnlyPages }
{}

/// Boards that hold the same drawops, whatever the order in which they came, print the same for
/// each question, character for character, if the same marks were heard.
pub fn order_is_free()
    ensures { AnswersAreFree }
{}

/// Arrivals that do not clash, with a cell for each of their names, lead to the same drawops in
/// every order and in whatever batches, so that each question then prints the same, character for
/// character.
pub fn arrivals_are_free()
    ensures batches { BatchesAreOne }
    ensures held { ArrivalsAreFree }
    ensures prints { PrintsAreFree }
{}

/// A batch is one act of the member that a host is: it takes the batch in the order of its workers,
/// and tells its keeper the names in the order of the script. The host of a run holds the same
/// then, and whatever follows prints the same.
pub fn batches_are_told_as_said()
    ensures { BatchesAreToldAsSaid }
{}

/// A script that shows a page at its end prints the canvas of all its arrivals, of whatever
/// batches. Two such scripts whose arrivals are rearrangements of one another and do not clash,
/// with cells for all names, end with the same canvas.
pub fn shows_are_free()
    ensures arrivals { ShowsArrivals }
    ensures free { ShowsAreFree }
{}

/// What whole lines printed stays, whatever follows them: nothing of a refused script changes, and
/// if no arrival waits, each longer script's text begins with theirs.
pub fn printed_text_stays()
    ensures refused { RefusedScriptStays }
    ensures printed { PrintedStays }
{}

/// A blank line or a comment prints nothing and ends no batch, wherever it stands.
pub fn skipped_lines_print_nothing()
    ensures { SkippedPrintsNothing }
{}

/// The counts of a batch add up to its arrivals. What was held stays, and the new come after it.
pub fn batches_add_up()
    ensures counts { CountsAddUp }
    ensures held { HeldStays }
{}

/// What one thread prints for a script, which takes each batch as it came, is an outcome by any
/// number of workers, and by one worker the only one. It does not depend on the number that is
/// handed in.
pub fn one_worker_is_one_thread()
    ensures some { OneThreadIsOutcome }
    ensures only { OneWorkerIsOneThread }
    ensures free { OneThreadIsFree }
{}

/// Whatever workers print for a script, one thread prints for a script with the arrivals reordered
/// inside their batches: the contents of the arrivals of one batch change places, and all other
/// lines and the line feeds stay. If a line feed ends each line, whole lines change places. What
/// one thread prints for each script that is reordered so is an outcome by two workers or more.
pub fn workers_are_one_thread()
    ensures scripts { WorkersAreOneThread }
    ensures each { EachReorderingIsOutcome }
{}

/// If no arrivals clash and the board has a cell for each of their names, a script has one outcome,
/// whatever the number of workers and in whatever order they take each batch: what one thread
/// prints.
pub fn workers_are_free()
    ensures orders { OrdersAreFree }
    ensures workers { WorkersAreFree }
{}
