//! The news that a judge hears as time goes on.
ghost use Rattle.std.specs.Prelude.{◌≡◌, IfOk};
ghost use Rattle.wb_judging.specs.News.{IsTellable, after_news, news_events};

use crate::event::Event;
use crate::telling::no_datagram;
use std::alloc::{AllocError, Global};
use wb_judge::{Judge, Origin};

/// What the judge hears first, when time goes on to a moment.
#[derive(Debug, Drop)]
pub enum News {
    /// Nothing.
    Nothing,
    /// What came in is not a datagram.
    Garbled,
    /// The time of day is this, in microseconds since 1970, below 2^62.
    Day { wall: u64 },
    /// The network says that whoever spoke from this origin is gone.
    Gone(Origin),
}

/// Tells the judge some news at a moment, and answers with the events that it gives.
pub(crate) fn tell_news(
    judge: &mut Judge,
    alloc: Global,
    now: u64,
    news: &News,
) -> Result<Vec<Event>, AllocError>
    requires { IsTellable news.now }
    ensures judge { judge.new ≡ after_news now news.now judge.old }
    ensures events { IfOk result (λ events. events.items ≡ news_events news.now) }
{
    match news {
        News::Nothing => {}
        News::Garbled => return no_datagram(alloc),
        News::Day { wall } => judge.tell_time(now, *wall),
        News::Gone(origin) => judge.leave(*origin),
    }
    Ok(Vec::new(alloc))
}
