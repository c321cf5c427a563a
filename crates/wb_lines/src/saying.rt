//! What lines say to a caller who takes them.
ghost use Rattle.std.specs.Prelude.{◌≡◌, ℕ, IfOk};
ghost use Rattle.wb_lines.specs.Input.{InputLine};
ghost use Rattle.wb_lines.specs.Items.{Grouping};

use std::alloc::{AllocError, Global};

/// What a line says. Each line is read once, when it is looked at.
pub trait Saying: Drop {
    /// That a line says it.
    ghost says: { InputLine → Self → Type 0 };

    /// Which lines have others join them, and which join those.
    ghost by: { Grouping };

    /// The most lines that are taken.
    ghost at_most: { ℕ };

    /// Reads a line without its line feed, of which one may be the end.
    fn read(alloc: Global, line: &[u8], ended: bool) -> Result<Self, AllocError>
        ensures { IfOk result (λ said. says (record { bytes = line.now; ended = ended }) said) };

    /// Whether the line joins those before it, if the first of them has others join it.
    fn joins(&self) -> bool
        ensures { (line : InputLine) → says line self.now → result ≡ by.joins line };
}
