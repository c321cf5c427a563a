//! What a line is to a batch.
ghost use Rattle.std.specs.Prelude.{◌≡◌};
ghost use Rattle.wb_script.specs.Inside.Parts.{IsPart, joins};
ghost use Rattle.wb_script.specs.Script.{part_of};

use wb_commands::{Command, LineFault};
use wb_names::Drawop;

/// What a line is to the batch before it.
#[derive(Drop)]
pub enum Part {
    Skipped,
    Arrival(Drawop),
    /// The batch ends before it.
    Other,
}

impl Part {
    /// Whether a line that is this joins the batch before it.
    pub fn joins(&self) -> bool
        ensures { result ≡ joins self.now }
    {
        match self {
            Part::Skipped | Part::Arrival(_) => true,
            Part::Other => false,
        }
    }
}

/// What a line that says this is to a batch.
pub fn part_of(said: &Result<Command, LineFault>) -> Part
    ensures { IsPart result (part_of said.now) }
{
    match said {
        Ok(command) => match command {
            Command::Skip => Part::Skipped,
            Command::Arrive(drawop) => Part::Arrival(*drawop),
            _ => Part::Other,
        },
        Err(_) => Part::Other,
    }
}
