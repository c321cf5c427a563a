//! What a line of a driver says, and which hosts have it.
ghost use Rattle.std.specs.Prelude.{◌≡◌, IfOk};
ghost use Rattle.wb_dialog.specs.Lines.{IsSaidWithin, IsWithin, unjudged_line};

use crate::judged_line::{JudgeLine, JudgedLine};
use crate::line::DriverLine;
use wb_commands::LineFault;

/// What a line says, or its first fault. If only some hosts have such a line, a second fault is why
/// the others refuse it.
#[derive(Debug, Drop)]
pub enum Said {
    /// A line of any host.
    Common(Result<DriverLine, LineFault>),
    /// A line that begins to judge.
    Judge(JudgeLine),
    /// A line of a judged host.
    Own(Result<JudgedLine, LineFault>, LineFault),
    /// A line of a host without a judge.
    Unjudged(Result<DriverLine, LineFault>, LineFault),
}

impl Said {
    /// What it says to a host without a judge, or why that refuses it. How one begins to judge, it
    /// does not say.
    pub(crate) fn unjudged(self) -> Result<DriverLine, LineFault>
        requires { IsSaidWithin self }
        ensures line { result ≡ unjudged_line self }
        ensures within { IfOk result IsWithin }
    {
        match self {
            Said::Common(read) => read,
            Said::Unjudged(read, _) => read,
            Said::Own(_, other) => Err(other),
            Said::Judge(_) => Err(LineFault::Unknown),
        }
    }
}
