//! Who owns the number under which a report speaks, before it is judged and after that.
ghost use Rattle.std.specs.Prelude.{◌≡◌, ◌++◌, OnOk, option_to_list};
ghost use Rattle.wb_judge.specs.Laws.{speaker_in};
ghost use Rattle.wb_judging.specs.Recording.{new_owner, owner_by};

use crate::record::RecordLine;
use std::alloc::AllocError;
use wb_codec::Datagram;
use wb_judge::Judge;

/// Who speaks in a report.
pub(crate) fn speaker_in(datagram: &Datagram) -> Option<u32>
    ensures { result ≡ speaker_in datagram.now }
{
    match datagram {
        Datagram::Session { sender, .. } => Some(*sender),
        Datagram::PageState { sender, .. } => Some(*sender),
        _ => None,
    }
}

/// Who owns the number of a speaker, if there is one.
pub(crate) fn owner_by(judge: &Judge, speaker: Option<u32>) -> Option<u64>
    ensures { result ≡ owner_by speaker judge.now }
{
    match speaker {
        None => None,
        Some(number) => judge.owner_of(number),
    }
}

/// Adds the owner of a number that had none before.
pub(crate) fn add_owner(
    lines: &mut Vec<RecordLine>,
    speaker: Option<u32>,
    place: u64,
    before: Option<u64>,
    after: Option<u64>,
) -> Result<(), AllocError>
    ensures { OnOk result (lines.new.items ≡
        lines.old.items ++ option_to_list (new_owner speaker place before after)) }
{
    if let Some(line) = new_owner(speaker, place, before, after) {
        lines.push(line)?;
    }
    Ok(())
}

/// The owner of a number that had none before, if it has one now.
fn new_owner(
    speaker: Option<u32>,
    place: u64,
    before: Option<u64>,
    after: Option<u64>,
) -> Option<RecordLine>
    ensures { result ≡ new_owner speaker place before after }
{
    match (speaker, before, after) {
        (Some(number), None, Some(owner)) => Some(RecordLine::Owner {
            number,
            place,
            owner,
        }),
        _ => None,
    }
}
