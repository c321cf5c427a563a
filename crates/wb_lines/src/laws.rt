//! The limit of lines. The function does nothing: its contract is a law, for proofs to cite.

ghost use Rattle.std.specs.Prelude.{◌≡◌};
ghost use Rattle.wb_lines.specs.declared.line_reader.TheConstants.{MAX_LINE_LEN};

/// The most bytes that a line has before its line feed.
pub fn limits()
    ensures { MAX_LINE_LEN ≡ 65536 }
{}
