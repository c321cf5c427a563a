//! What a line of a script says.
ghost use Rattle.wb_script.specs.Script.{part_of};
ghost use Rattle.wb_script.specs.Inside.Parts.{IsPart};

use crate::part::{Part, part_of};
use std::alloc::{AllocError, Global};
use wb_commands::{Command, LineFault, Untaken, parse_line};
use wb_lines::{Saying, without_end};

/// The most lines of a script.
pub const MAX_LINES: u32 = 1 << 20;

/// What a line of a script says. Each line is parsed once, when it is looked at.
#[derive(Drop)]
pub struct Said {
    pub said: Result<Command, LineFault>,
}

impl Saying for Said {
    ghost use Rattle.wb_script.specs.Script.{most_lines};
    ghost use Rattle.wb_script.specs.Inside.Parts.{LineSays, by_batches};

    ghost says = { LineSays };

    ghost by = { by_batches };

    ghost at_most = { most_lines };

    fn read(alloc: Global, line: &[u8], ended: bool) -> Result<Self, AllocError> {
        match parse_line(alloc, without_end(line, ended)) {
            Ok(command) => Ok(Said { said: Ok(command) }),
            Err(Untaken::Line(fault)) => Ok(Said { said: Err(fault) }),
            Err(Untaken::Memory) => Err(AllocError),
        }
    }

    fn joins(&self) -> bool {
        self.part().joins()
    }
}

impl Said {
    /// What the line is to the batch before it.
    pub fn part(&self) -> Part
        ensures { IsPart result (part_of self.now.said) }
    {
        part_of(&self.said)
    }
}
