//! Laws of gaps, reports, page lists and merges, proved for all lists. The functions do nothing:
//! each stands here for its clause.

ghost use Rattle.wb_gaps.specs.Laws.{OneGaps, OneReport, OneReports, OnePages, OneMerge};
ghost use Rattle.wb_gaps.specs.Laws.{GapsOfRearranged, ReportOfRearranged, PagesOfRearranged};
ghost use Rattle.wb_gaps.specs.Laws.{ReportsGreatest, KnownIsReached, MergesGreater, MergesAllSources};
ghost use Rattle.wb_gaps.specs.Laws.{HoldsUpToReport, HoldTheSame};
ghost use Rattle.wb_gaps.specs.Laws.{GapsOfPage, ReportOfPage, PagesOfHistory, ReportsOfPages};
ghost use Rattle.wb_gaps.specs.Laws.{OnlyGaps, OnlyReport, OnlyPages, OnlyReports};

/// There is one list of gaps, one report, one list of pages and one list of the reports of all
/// pages of a list of drawops, and one merge of two lists of marks, whichever of the two comes
/// first.
pub fn answers_are_one()
    ensures gaps { OneGaps }
    ensures report { OneReport }
    ensures pages { OnePages }
    ensures reports { OneReports }
    ensures merge { OneMerge }
{}

/// The gaps, the report, the pages and the reports of all pages of a list of drawops are the values
/// of functions of it, and are nothing else.
pub fn functions_answer()
    ensures gaps { GapsOfPage }
    ensures report { ReportOfPage }
    ensures pages { PagesOfHistory }
    ensures reports { ReportsOfPages }
    ensures only_gaps { OnlyGaps }
    ensures only_report { OnlyReport }
    ensures only_pages { OnlyPages }
    ensures only_reports { OnlyReports }
{}

/// A rearranged list of drawops has the same gaps, report and pages.
pub fn order_is_free()
    ensures gaps { GapsOfRearranged }
    ensures report { ReportOfRearranged }
    ensures pages { PagesOfRearranged }
{}

/// The number that a report has for a source is the greatest that the page holds of it, and a
/// number is known of exactly if one at least as great is held or reported. The number that a merge
/// has for a source is the greater of the two, and it has as many marks as the two have sources
/// together.
pub fn marks_are_greatest()
    ensures report { ReportsGreatest }
    ensures known { KnownIsReached }
    ensures merge { MergesGreater }
    ensures count { MergesAllSources }
{}

/// What a report means: a list that has no gaps below its own report holds each number up to the
/// mark of its source, and no other. So two lists that have one report of a page, and no gaps below
/// it, hold the same numbers there.
pub fn reports_tell()
    ensures one { HoldsUpToReport }
    ensures two { HoldTheSame }
{}
