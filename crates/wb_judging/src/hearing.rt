//! What a judge hears of what its kept member did.
ghost use Rattle.std.specs.Prelude.{◌≡◌};
ghost use Rattle.wb_judging.specs.Events.{is_new};
ghost use Rattle.wb_judging.specs.Hearing.{after_fate, after_recalling, after_sending, after_sends, owned_at};

use crate::event::Fate;
use crate::record::RecordLine;
use wb_codec::Datagram;
use wb_judge::{Judge, Origin};

/// Which reports of ours were sent.
pub(crate) fn hear_sent(judge: &mut Judge, sent: &[Datagram])
    ensures { judge.new ≡ after_sends sent.now judge.old }
{
    for datagram in sent {
        hear_one(judge, datagram);
    }
}

/// A datagram was sent.
fn hear_one(judge: &mut Judge, datagram: &Datagram)
    ensures { judge.new ≡ after_sending datagram.now judge.old }
{
    if let Datagram::Session { sent, .. } = datagram {
        judge.reported(*sent);
    }
}

/// What became of a datagram that came from an origin.
pub(crate) fn hear_fate(
    judge: &mut Judge,
    now: u64,
    origin: Origin,
    datagram: &Datagram,
    fate: Option<Fate>,
)
    ensures { judge.new ≡ after_fate now origin datagram.now fate judge.old }
{
    if !is_new(fate) {
        return;
    }
    if let Datagram::Draw(drawop) = datagram {
        judge.took(origin, drawop.name(), now);
    }
}

/// What a line of the record says, and what became of its drawop.
pub(crate) fn hear_recalled(judge: &mut Judge, line: &RecordLine, fate: Option<Fate>)
    ensures { judge.new ≡ after_recalling line.now fate judge.old }
{
    match line {
        RecordLine::Tick(_) | RecordLine::Mark { .. } => {}
        RecordLine::Said(drawop) | RecordLine::Known(drawop) => judge.forget(&drawop.name()),
        RecordLine::Strange(drawop) => {
            if is_new(fate) {
                judge.remember(drawop.name());
            }
        }
        RecordLine::Owner {
            number,
            place,
            owner,
        } => judge.recall(*number, owned_at(*place, *owner)),
    }
}

/// A place that this owner has.
fn owned_at(place: u64, owner: u64) -> Origin
    ensures { result ≡ owned_at place owner }
{
    Origin {
        place,
        owner: Some(owner),
    }
}

/// Whether a drawop is new.
fn is_new(fate: Option<Fate>) -> bool
    ensures { result ≡ is_new fate }
{
    matches!(fate, Some(Fate::New))
}
