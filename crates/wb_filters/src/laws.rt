//! Laws of the two filters, proved for all datagrams and scripts. The functions do nothing: each
//! stands here for its clauses.

ghost use Rattle.wb_filters.specs.Laws.{WordsAreTurned, DigitsAreTurned, OtherLinesStay, WordsComeBack, DigitsComeBack, NoLineIsRefused};

/// Each datagram that comes in or is sent has one line in words and one in digits, and each filter
/// turns the one into the other.
pub fn filters_undo_one_another()
    ensures hex { WordsAreTurned }
    ensures words { DigitsAreTurned }
{}

/// A line whose first word begins no datagram, in words or in digits, is left by both filters.
pub fn other_lines_stay()
    ensures { OtherLinesStay }
{}

/// A script in words comes back from `wb hex` and then `wb words`, byte for byte, and one as `wb`
/// prints it from `wb words` and then `wb hex`, while no line is over the limits on the way.
pub fn scripts_come_back()
    ensures words { WordsComeBack }
    ensures digits { DigitsComeBack }
{}

/// A filter that keeps going ends at no line that can't be turned.
pub fn kept_filters_refuse_no_line()
    ensures { NoLineIsRefused }
{}
