//! The lines of a driver.
use wb_codec::Datagram;
use wb_commands::Command;
use wb_words::Adding;

/// The number of the lines that a driver writes and a host prints. It changes only with a line that
/// a driver of the number before would no longer write, or read, as it did.
pub const LINES_VERSION: u32 = 1;

/// A line of a driver, with its words as fields.
#[derive(Debug, Drop)]
pub enum DriverLine {
    /// A line of a script, or a question or a call that no script has: `next C N`, the number of
    /// our next drawop on a page; `view C N`, the drawops that a page shows; `known`, the pages that
    /// were heard of; `ask C N SOURCE NUMBER` begins to miss a drawop, and `stop C N SOURCE NUMBER`
    /// gives up asking for one.
    Script(Command),
    /// `say WORDS`: a datagram of ours is to go out.
    Say(Datagram),
    /// `keep RATE LISTEN`: from now on the host is self-managing. The reports of all members
    /// together take RATE bytes a second, and for LISTEN microseconds nothing is added.
    Keep { rate: u32, listen: u32 },
    /// `came NOW HEX`: a datagram came in at a moment, in microseconds.
    Came { now: u64, datagram: Datagram },
    /// `add NOW TIME C/N OPERATION`: the user draws.
    Add(Adding),
    /// `version` asks for the number of these lines. It needs no board.
    Version,
}
