//! Laws of lines, proved for all datagrams. The functions do nothing: each stands here for its
//! clause.
ghost use Rattle.wb_commands.specs.SentLines.{SentIsTaken};

/// Another member takes what is printed as sent: the digits of a drawop after the word `arrive`,
/// those of every other datagram after `hear`, and those of each after `datagram`, or its words.
pub fn sent_is_taken()
    ensures { SentIsTaken }
{}
