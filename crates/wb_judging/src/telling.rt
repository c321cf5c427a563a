//! The events of a call.
ghost use Rattle.std.specs.Prelude.{◌≡◌, ◌++◌, ◌∷◌, [], drop, map, IfOk, OnOk};
ghost use Rattle.wb_judging.specs.Events.{advice, became_events, drew_event, dropped_events, fetch_events, gain_events, send_event, warn_events};
ghost use Rattle.wb_judging.specs.declared.event.Event.TheVariants.{NoDatagram, Record};

use crate::echoing::echoing;
use crate::event::{Event, Fate};
use crate::record::RecordLine;
use std::alloc::{AllocError, Global};
use wb_codec::Datagram;
use wb_judge::{Origin, Verdict, Warning, Why};
use wb_names::{Drawop, Echo};

/// Adds an event.
fn add(events: &mut Vec<Event>, event: Event) -> Result<(), AllocError>
    ensures { OnOk result (events.new.items ≡ events.old.items ++ event ∷ []) }
{
    events.push(event)?;
    Ok(())
}

/// The event of what came that is not a datagram.
pub(crate) fn no_datagram(alloc: Global) -> Result<Vec<Event>, AllocError>
    ensures { IfOk result (λ events. events.items ≡ NoDatagram ∷ []) }
{
    let mut events = Vec::new(alloc);
    add(&mut events, Event::NoDatagram)?;
    Ok(events)
}

/// Adds why a datagram is dropped, if it is.
pub(crate) fn add_dropped(events: &mut Vec<Event>, why: Option<Why>) -> Result<(), AllocError>
    ensures { OnOk result (events.new.items ≡ events.old.items ++ dropped_events why) }
{
    match why {
        None => Ok(()),
        Some(why) => add(events, Event::Dropped(why)),
    }
}

/// Adds the moment and these lines, if there are any, and the names that the board gained.
pub(crate) fn add_gain(
    events: &mut Vec<Event>,
    now: u64,
    lines: &[RecordLine],
    gained: &[Drawop],
) -> Result<(), AllocError>
    ensures { OnOk result (events.new.items ≡
        events.old.items ++ gain_events now lines.now gained.now) }
{
    if !lines.is_empty() {
        add(events, Event::Record(RecordLine::Tick(now)))?;
        add_records(events, lines)?;
    }
    add_drew(events, gained)
}

/// Adds lines of the record.
fn add_records(events: &mut Vec<Event>, lines: &[RecordLine]) -> Result<(), AllocError>
    ensures { OnOk result (events.new.items ≡ events.old.items ++ map Record lines.now) }
{
    for line in lines {
        add(events, Event::Record(*line))?;
    }
    Ok(())
}

/// Adds the names of some drawops.
fn add_drew(events: &mut Vec<Event>, gained: &[Drawop]) -> Result<(), AllocError>
    ensures { OnOk result (events.new.items ≡ events.old.items ++ map drew_event gained.now) }
{
    for drawop in gained {
        add(events, Event::Drew(drawop.name()))?;
    }
    Ok(())
}

/// The drawops after the first `held`.
pub(crate) fn gained(drawops: &[Drawop], held: u32) -> &[Drawop]
    ensures { result.now ≡ drop held drawops.now }
{
    let first = drawops.len().min(held as usize);
    &drawops[first..]
}

/// Adds what is to be sent, where a report has this echo besides.
pub(crate) fn add_sent(
    events: &mut Vec<Event>,
    alloc: Global,
    echo: Option<Echo>,
    sent: Vec<Datagram>,
) -> Result<(), AllocError>
    ensures { OnOk result (events.new.items ≡
        events.old.items ++ map (send_event echo) sent.items) }
{
    for datagram in sent {
        add(events, Event::Send(echoing(alloc, echo, datagram)?))?;
    }
    Ok(())
}

/// Adds what became of a drawop, if there is one.
pub(crate) fn add_became(events: &mut Vec<Event>, fate: Option<Fate>) -> Result<(), AllocError>
    ensures { OnOk result (events.new.items ≡ events.old.items ++ became_events fate) }
{
    match fate {
        None => Ok(()),
        Some(fate) => add(events, Event::Became(fate)),
    }
}

/// Adds from where a stream is to be taken, and what people are to be warned of.
pub(crate) fn add_advice(
    events: &mut Vec<Event>,
    verdict: &Verdict,
    lacking: u64,
) -> Result<(), AllocError>
    ensures { OnOk result (events.new.items ≡ events.old.items ++ advice verdict.now lacking) }
{
    add_fetch(events, verdict.fetch, lacking)?;
    add_warning(events, verdict.warning)
}

/// Adds from where a stream is to be taken, if one is.
fn add_fetch(events: &mut Vec<Event>, fetch: Option<Origin>, lacking: u64) -> Result<(), AllocError>
    ensures { OnOk result (events.new.items ≡ events.old.items ++ fetch_events fetch lacking) }
{
    match fetch {
        None => Ok(()),
        Some(origin) => add(events, Event::Fetch { origin, lacking }),
    }
}

/// Adds what people are to be warned of, if anything.
fn add_warning(events: &mut Vec<Event>, warning: Option<Warning>) -> Result<(), AllocError>
    ensures { OnOk result (events.new.items ≡ events.old.items ++ warn_events warning) }
{
    match warning {
        None => Ok(()),
        Some(warning) => add(events, Event::Warn(warning)),
    }
}
