//! Laws of sessions of hosts. Each function does nothing: its contract is a law, for proofs to
//! cite.

ghost use Rattle.wb_laws_hosts.specs.Drivers.{HonestReportsTellShows, LinesAreHonestSteps};
ghost use Rattle.wb_laws_hosts.specs.Laws.{BatchesCountNoClash, BlocksAreTranscripts, BoardsAreInRange, BytesTellDrawops, HeldWasSaid, LinesCarryBytes, ReportsTellShows, SentOnce, SentWasSaid};
ghost use Rattle.wb_laws_hosts.specs.Telling.{TextsTellSends};
ghost use Rattle.wb_laws_hosts.specs.Texts.{TextsAreSessions};

/// A session of texts is one of members: the host at each place is the member there, whether its
/// driver drives it or it is self-managing, through every start of its process. So what holds of
/// sessions of members holds of hosts. It keeps to the terms of these, if each drawop that is
/// handed in was on some board, and a member draws above all its own numbers.
pub fn texts_are_sessions()
    ensures same { TextsAreSessions }
    ensures honest { LinesAreHonestSteps }
{}

/// What a host of either kind holds has all its fields in range, whatever the lines.
pub fn boards_are_in_range()
    ensures { BoardsAreInRange }
{}

/// The blocks of a process are the transcript of the input whose lines are handed in.
pub fn blocks_are_transcripts()
    ensures { BlocksAreTranscripts }
{}

/// What a host prints for a line is a `send` line of each datagram that it sends, and then what
/// else it prints.
pub fn texts_tell_sends()
    ensures { TextsTellSends }
{}

/// What a line hands in, it says in words or by the digits of its bytes. A line that hands in a
/// drawop of which a `send` line was printed hands in one that some member held.
pub fn bytes_tell_drawops()
    ensures bytes { LinesCarryBytes }
    ensures one { BytesTellDrawops }
{}

/// No line that hands in a drawop, or says one, prints a batch that counts a clash.
pub fn batches_count_no_clash()
    ensures { BatchesCountNoClash }
{}

/// What anyone sends, as a repair or at once, and what anyone holds, is in every byte what its
/// source said and sent, and of each name one drawop is ever sent.
pub fn repairs_are_what_was_said()
    ensures said { SentWasSaid }
    ensures held { HeldWasSaid }
    ensures once { SentOnce }
{}

/// Two hosts that would print one answer to `report C N`, and `gaps 0` for `gaps C N`, print one
/// answer to `show C N W H` and to `view C N`, byte for byte: each at a point of its own, whether
/// they are self-managing or not, and whichever process started anew between.
pub fn reports_tell_shows()
    ensures lines { HonestReportsTellShows }
    ensures steps { ReportsTellShows }
{}
