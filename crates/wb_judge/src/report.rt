//! What is judged of a report.

ghost use Rattle.std.specs.Prelude.{◌≡◌, []};
ghost use Rattle.wb_judge.specs.Reports.{echo_to, mark_in, mark_of, report_of};

use wb_names::{Echo, Mark};

/// What is judged of a report: who speaks, the echo of us, if it has one, and the mark of us, or 0.
#[derive(Clone, Copy, Debug)]
pub struct Report {
    pub speaker: u32,
    pub echo: Option<Echo>,
    pub own_mark: u32,
}

impl Report {
    /// What is judged of a session message.
    pub fn of_session(me: u32, speaker: u32, marks: &[Mark], echoes: &[Echo]) -> Report
        ensures { result ≡ report_of me speaker marks.now echoes.now }
    {
        Report {
            speaker,
            echo: echo_to(me, echoes),
            own_mark: mark_of(me, marks),
        }
    }

    /// What is judged of a page state, which has no echoes.
    pub fn of_page(me: u32, speaker: u32, marks: &[Mark]) -> Report
        ensures { result ≡ report_of me speaker marks.now [] }
    {
        Report {
            speaker,
            echo: None,
            own_mark: mark_of(me, marks),
        }
    }
}

/// The echo of a member, if there is one.
fn echo_to(me: u32, echoes: &[Echo]) -> Option<Echo>
    ensures { result ≡ echo_to me echoes.now }
{
    echoes.iter().find(|echo| echo.source == me).copied()
}

/// The mark of a source, or 0.
fn mark_of(me: u32, marks: &[Mark]) -> u32
    ensures { result ≡ mark_of me marks.now }
{
    match mark_in(me, marks) {
        None => 0,
        Some(mark) => mark.high(),
    }
}

/// The mark of a source, if there is one.
fn mark_in(me: u32, marks: &[Mark]) -> Option<Mark>
    ensures { result ≡ mark_in me marks.now }
{
    marks.iter().find(|mark| mark.source() == me).copied()
}
