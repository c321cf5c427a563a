//! What is recorded, so that a member that ends can begin again.
ghost use Rattle.std.specs.Prelude.{◌≡◌, ◌++◌, OnOk, map};
ghost use Rattle.wb_judging.specs.Recording.{gain_lines, line_of};
ghost use Rattle.wb_judging.specs.declared.record.RecordLine.TheVariants.{Said};

use std::alloc::AllocError;
use wb_judge::Strange;
use wb_names::{Drawop, Mark, PageId};

/// A line of the record.
#[derive(Clone, Copy, Debug)]
pub enum RecordLine {
    /// The lines after it are of this moment.
    Tick(u64),
    /// The user drew it.
    Said(Drawop),
    /// A member gave it.
    Known(Drawop),
    /// No known origin gave it.
    Strange(Drawop),
    /// While we listened, a report had this mark of our own number.
    Mark {
        speaker: u32,
        page: PageId,
        mark: Mark,
    },
    /// A number has this owner, who answered under it first, from this place.
    Owner {
        number: u32,
        place: u64,
        owner: u64,
    },
}

/// Who gives what a board gains by a call.
#[derive(Clone, Copy, Debug, PartialEq, Eq)]
pub(crate) enum Giver {
    /// The user, who draws.
    User,
    /// Whoever sends datagrams.
    Others,
    /// The record, which has it already.
    Past,
}

/// Adds the lines of what a board gained.
pub(crate) fn add_gain_lines(
    lines: &mut Vec<RecordLine>,
    giver: Giver,
    strange: &Strange,
    gained: &[Drawop],
) -> Result<(), AllocError>
    ensures { OnOk result (lines.new.items ≡
        lines.old.items ++ gain_lines giver strange.now.given gained.now) }
{
    match giver {
        Giver::User => add_said(lines, gained),
        Giver::Others => add_given(lines, strange, gained),
        Giver::Past => Ok(()),
    }
}

/// Adds the lines of what the user drew.
fn add_said(lines: &mut Vec<RecordLine>, gained: &[Drawop]) -> Result<(), AllocError>
    ensures { OnOk result (lines.new.items ≡ lines.old.items ++ map Said gained.now) }
{
    for drawop in gained {
        lines.push(RecordLine::Said(*drawop))?;
    }
    Ok(())
}

/// Adds the lines of what others gave.
fn add_given(
    lines: &mut Vec<RecordLine>,
    strange: &Strange,
    gained: &[Drawop],
) -> Result<(), AllocError>
    ensures { OnOk result (lines.new.items ≡
        lines.old.items ++ map (line_of strange.now.given) gained.now) }
{
    for drawop in gained {
        lines.push(line_of(strange, drawop))?;
    }
    Ok(())
}

/// The line of a drawop that others gave.
fn line_of(strange: &Strange, drawop: &Drawop) -> RecordLine
    ensures { result ≡ line_of strange.now.given drawop.now }
{
    if strange.has(&drawop.name()) {
        return RecordLine::Strange(*drawop);
    }
    RecordLine::Known(*drawop)
}
