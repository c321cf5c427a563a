//! A law of the calls, proved for all inputs. The function does nothing: it stands here for its
//! clause.
ghost use Rattle.wb_c.specs.Laws.{BlocksAreATranscript};

/// The blocks of lines are, one after another, what the host of a program writes for these lines.
pub fn blocks_are_a_transcript()
    ensures { BlocksAreATranscript }
{}
