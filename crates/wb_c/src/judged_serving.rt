//! Calls by bytes at a host that is judged.
ghost use Rattle.std.specs.Prelude.{◌≡◌, IfOk};
ghost use Rattle.wb_names.specs.Moments.{IsMoment};
ghost use Rattle.wb_codec.specs.Reading.{reading};
ghost use Rattle.wb_judging.specs.Calling.{IsWithin};
ghost use Rattle.wb_c.specs.Serving.{AtJudged, CameFromBy, GoneBy, WallBy, arrival};

use crate::judging::perform;
use crate::room::Room;
use crate::serving::datagram_of;
use crate::status::{NO_MOMENT, NO_TIME, NOT_JUDGED};
use std::alloc::{AllocError, Global};
use wb_judge::{Origin, TIME_LIMIT};
use wb_judging::{Call, News};
use wb_names::MOMENT_LIMIT;

/// What came in from an origin.
fn arrival(alloc: Global, now: u64, origin: Origin, bytes: &[u8]) -> Result<Call, AllocError>
    requires { IsMoment now }
    ensures call { IfOk result (λ call. call ≡ arrival now origin (reading bytes.now)) }
    ensures within { IfOk result IsWithin }
{
    match datagram_of(alloc, bytes)? {
        Ok(datagram) => Ok(Call::CameFrom {
            now,
            origin,
            datagram,
        }),
        Err(_) => Ok(Call::Passed {
            now,
            news: News::Garbled,
        }),
    }
}

impl Room {
    /// This happens to its judged member, if it has one.
    pub(crate) fn judge(&mut self, alloc: Global, call: &Call) -> Result<u32, AllocError>
        requires { IsWithin call.now }
        ensures { IfOk result (AtJudged call.now self.old self.new) }
    {
        let Some(mut member) = self.dialog.take_member() else {
            return Ok(NOT_JUDGED);
        };
        let status = perform(alloc, &mut member, call, &mut self.events);
        self.dialog.put_member(member);
        status
    }

    /// Bytes came in from an origin, at a moment.
    pub(crate) fn came_from(
        &mut self,
        alloc: Global,
        now: u64,
        origin: Origin,
        bytes: &[u8],
    ) -> Result<u32, AllocError>
        ensures { IfOk result (CameFromBy now origin (reading bytes.now) self.old self.new) }
    {
        if now >= MOMENT_LIMIT {
            return Ok(NO_MOMENT);
        }
        let call = arrival(alloc, now, origin, bytes)?;
        self.judge(alloc, &call)
    }

    /// The time of day at a moment, in microseconds since 1970.
    pub(crate) fn wall(&mut self, alloc: Global, now: u64, wall: u64) -> Result<u32, AllocError>
        ensures { IfOk result (WallBy now wall self.old self.new) }
    {
        if now >= MOMENT_LIMIT {
            return Ok(NO_MOMENT);
        }
        if wall >= TIME_LIMIT {
            return Ok(NO_TIME);
        }
        let news = News::Day { wall };
        self.judge(alloc, &Call::Passed { now, news })
    }

    /// The network says that whoever spoke from an origin is gone.
    pub(crate) fn gone(
        &mut self,
        alloc: Global,
        now: u64,
        origin: Origin,
    ) -> Result<u32, AllocError>
        ensures { IfOk result (GoneBy now origin self.old self.new) }
    {
        if now >= MOMENT_LIMIT {
            return Ok(NO_MOMENT);
        }
        let news = News::Gone(origin);
        self.judge(alloc, &Call::Passed { now, news })
    }
}
