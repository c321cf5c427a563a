//! The events of an answer, one for each of its items.
ghost use Rattle.std.specs.Prelude.{◌≡◌, ◌++◌, ◌∷◌, [], map, OnOk};
ghost use Rattle.wb_member.specs.Questions.{told};
ghost use Rattle.wb_c.specs.Events.{told_events};
ghost use Rattle.wb_c.specs.declared.event.Event.{Event as EventValue};

use crate::event::Event;
use std::alloc::AllocError;
use std::collections::VecDeque;
use wb_codec::Datagram;
use wb_judging::Event as JudgedEvent;
use wb_member::Answer;
use wb_names::{Drawop, Gap, Mark, PageId};

/// What has an event of its own in an answer.
trait Told {
    /// Its event.
    ghost told: { Self → EventValue };

    /// Its event.
    fn event(&self) -> Event
        ensures { result ≡ told self.now };
}

impl Told for Gap {
    ghost use Rattle.wb_c.specs.declared.event.Event.TheVariants.{Missing};

    ghost told = { Missing };

    fn event(&self) -> Event {
        Event::Missing(*self)
    }
}

impl Told for Mark {
    ghost use Rattle.wb_c.specs.declared.event.Event.TheVariants.{Greatest};

    ghost told = { Greatest };

    fn event(&self) -> Event {
        Event::Greatest(*self)
    }
}

impl Told for PageId {
    ghost use Rattle.wb_c.specs.declared.event.Event.TheVariants.{Page};

    ghost told = { Page };

    fn event(&self) -> Event {
        Event::Page(*self)
    }
}

impl Told for Drawop {
    ghost use Rattle.wb_c.specs.declared.event.Event.TheVariants.{Shown};

    ghost told = { Shown };

    fn event(&self) -> Event {
        Event::Shown(*self)
    }
}

/// Adds an event.
pub(crate) fn add(events: &mut VecDeque<Event>, event: Event) -> Result<(), AllocError>
    ensures { OnOk result (events.new.items ≡ events.old.items ++ event ∷ []) }
{
    match events.push_back(event) {
        Ok(()) => Ok(()),
        Err(_) => Err(AllocError),
    }
}

/// Adds the event of each item, in their order.
fn add_all<T: Told>(events: &mut VecDeque<Event>, items: &[T]) -> Result<(), AllocError>
    ensures { OnOk result (events.new.items ≡ events.old.items ++ map T.told items.now) }
{
    for item in items {
        add(events, item.event())?;
    }
    Ok(())
}

/// Adds an event for each datagram that is sent, in their order.
pub(crate) fn add_sent(events: &mut VecDeque<Event>, sent: Vec<Datagram>) -> Result<(), AllocError>
    ensures { OnOk result (events.new.items ≡ events.old.items ++ map Event.Sent sent.items) }
{
    for datagram in sent {
        add(events, Event::Sent(datagram))?;
    }
    Ok(())
}

/// Adds an event for each that a judged member gives, in their order.
pub(crate) fn add_judged(
    events: &mut VecDeque<Event>,
    given: Vec<JudgedEvent>,
) -> Result<(), AllocError>
    ensures { OnOk result (events.new.items ≡ events.old.items ++ map Event.Judged given.items) }
{
    for event in given {
        add(events, Event::Judged(event))?;
    }
    Ok(())
}

/// Adds the events of an answer.
pub(crate) fn add_answer(events: &mut VecDeque<Event>, answer: Answer) -> Result<(), AllocError>
    ensures { OnOk result (events.new.items ≡ events.old.items ++ told_events (told answer)) }
{
    match answer {
        Answer::Canvas(canvas) => add(events, Event::Painted(canvas)),
        Answer::Gaps(gaps) => add_all(events, gaps.as_slice()),
        Answer::Report(marks) => add_all(events, marks.as_slice()),
        Answer::Pages(pages) => add_all(events, pages.as_slice()),
        Answer::View(drawops) => add_all(events, drawops.as_slice()),
        Answer::Known(pages) => add_all(events, pages.as_slice()),
        Answer::Next(Some(number)) => add(events, Event::Next(number)),
        Answer::Next(None) => Ok(()),
        Answer::Digest(digest) => add(events, Event::Digest(digest)),
    }
}
