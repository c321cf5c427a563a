//! A line without what ends it.
ghost use Rattle.std.specs.Prelude.{◌≡◌};
ghost use Rattle.std.specs.Str.Lines.{strip_carriage_return};
ghost use Rattle.wb_lines.specs.Input.{content};

/// A line without the one carriage return at its end.
pub fn without_carriage_return(line: &[u8]) -> &[u8]
    ensures { result.now ≡ strip_carriage_return line.now }
{
    match line {
        [front @ .., b'\r'] => front,
        _ => line,
    }
}

/// A line without its end. If a line feed ends it, a carriage return before that is a part of the
/// end.
pub fn without_end(line: &[u8], ended: bool) -> &[u8]
    ensures { result.now ≡ content (record { bytes = line.now; ended = ended }) }
{
    if ended {
        without_carriage_return(line)
    } else {
        line
    }
}
