//! Laws of the readable form, proved for all lines and datagrams. The functions do nothing: each
//! stands here for its clauses.

ghost use Rattle.wb_words.specs.Laws.{WordsAreRead, OneLine};

/// The line of each datagram is read as that datagram, so that writing and reading undo one
/// another; and two datagrams never have one line.
pub fn words_are_one_form()
    ensures again { WordsAreRead }
    ensures one { OneLine }
{}
