//! Where a block ends. The function does nothing: its contract is a law, for proofs to cite.

ghost use Rattle.wb_laws_hosts.specs.Closings.{BlocksCloseOnce, InputsCloseOnce, SessionsCloseOnce};

/// No line but `show` prints a line that begins with `ok ` or `refused `, after any lines, whether
/// the host is self-managing or not. So a driver that reads its block line by line knows the end of
/// it, whoever draws what.
pub fn blocks_close_once()
    ensures block { BlocksCloseOnce }
    ensures input { InputsCloseOnce }
    ensures session { SessionsCloseOnce }
{}
