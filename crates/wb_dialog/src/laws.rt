//! Laws of the transcripts of a host, proved for all inputs. The functions do nothing: each stands
//! here for its clause.
ghost use Rattle.std.specs.Prelude.{◌≡◌};
ghost use Rattle.wb_dialog.specs.declared.line.TheConstants.{LINES_VERSION};
ghost use Rattle.wb_dialog.specs.JudgedLaws.{JudgedIsKept, RecordBeforeSend};
ghost use Rattle.wb_dialog.specs.KeptLaws.{AddIsNotTooMany, KeptIsDriven};
ghost use Rattle.wb_dialog.specs.Laws.{RefusedStays, EachIsAnswered, FrontsAreFronts, AcceptedAlone, DrivenAsBefore, NextIsNew, SaidIsRead, ScriptLinesAreRead, UnjudgedAsBefore, VersionIsTold};
ghost use Rattle.wb_dialog.specs.RecordLaws.{RecordsAreRead};

/// A refused line leaves the host as it was.
pub fn refused_lines_change_nothing()
    ensures { RefusedStays }
{}

/// Every line is answered by exactly one block, which one line closes: `ok DUE` or `refused FAULT`.
pub fn each_line_is_answered()
    ensures { EachIsAnswered }
{}

/// The transcript of a front of an input is a front of the transcript.
pub fn transcripts_grow()
    ensures { FrontsAreFronts }
{}

/// The accepted lines alone give the same transcript, without the refused blocks.
pub fn accepted_lines_suffice()
    ensures { AcceptedAlone }
{}

/// What is written for lines of which none says `judge` is what a host writes that knows no judge.
pub fn unjudged_hosts_stay()
    ensures { UnjudgedAsBefore }
{}

/// What such a host writes for lines of which none says `keep` is what a host writes that its
/// driver drives.
pub fn driven_hosts_stay()
    ensures { DrivenAsBefore }
{}

/// A self-managing host is a host whose driver hands in the lines of its policy: it comes to the
/// same hosts, and sends the same. So what is proved of hosts holds of it.
pub fn kept_hosts_are_driven()
    ensures { KeptIsDriven }
{}

/// A self-managing host refuses no drawing as too many, whatever was handed in before: a number is
/// left for each.
pub fn adds_are_not_too_many()
    ensures { AddIsNotTooMany }
{}

/// The number for our next drawop on a page is above all that are held or were heard of from us.
pub fn next_numbers_are_new()
    ensures { NextIsNew }
{}

/// What is said is read back as what was said.
pub fn said_is_read()
    ensures { SaidIsRead }
{}

/// `version` is answered at every host, before a board is open too, and changes nothing.
pub fn version_is_told()
    ensures { VersionIsTold }
{}

/// The number of the lines.
pub fn lines_version()
    ensures { LINES_VERSION ≡ 1 }
{}

/// A line that a script takes is read the same by a host.
pub fn script_lines_are_read()
    ensures { ScriptLinesAreRead }
{}

/// In each block of a judged host all that is to be recorded stands before all that is to be sent.
pub fn records_stand_before_sends()
    ensures { RecordBeforeSend }
{}

/// A judged host is a self-managing host that is handed one line in the place of each: the same, or
/// a tick. It comes to the same, and sends the same, but for an echo that a report has besides.
pub fn judged_hosts_are_kept()
    ensures { JudgedIsKept }
{}

/// What is printed after the word `record` is, after the word `held`, read as the same line of the
/// record.
pub fn records_are_read()
    ensures { RecordsAreRead }
{}
