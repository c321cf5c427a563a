//! The calls by bytes, as `include/wb.h` declares them.
ghost use Rattle.std.specs.Prelude.{◌≡◌, Option};
ghost use Rattle.wb_codec.specs.Reading.{reading};
ghost use Rattle.wb_c.specs.Serving.{AddsBy, Asks, CameBy, CameFromBy, FetchesEvent, GoneBy, IsDue, Serves, TicksBy, WallBy, origin_of};

use crate::held::Host;
use crate::status::{CLOSED, MEMORY};
use std::alloc::Global;
use wb_judge::Origin;
use wb_names::PageId;

/// What `wb_due` answers if there is no moment at which a tick is due.
const NEVER: u64 = u64::MAX;

/// A datagram came in at a moment, in microseconds. The events that follow wait behind those that
/// wait already.
#[unsafe(no_mangle)]
pub extern "C" fn wb_came(alloc: Global, host: &mut Host, now: u64, datagram: &[u8]) -> u32
    ensures { Serves (CameBy now (reading datagram.now)) host.old.held.room host.new.held.room result }
{
    let Some(mut room) = host.take(alloc) else {
        return CLOSED;
    };
    match room.came(alloc, now, datagram) {
        Ok(status) => {
            host.put(room);
            status
        }
        Err(_) => MEMORY,
    }
}

/// The origin of a place, and of its owner if it has one.
fn origin_of(place: u64, owner: u64, has_owner: bool) -> Origin
    ensures { result ≡ origin_of place owner has_owner }
{
    let owner = if has_owner { Some(owner) } else { None };
    Origin { place, owner }
}

/// Bytes came in from an origin at a moment, at a judged host.
#[unsafe(no_mangle)]
pub extern "C" fn wb_came_from(
    alloc: Global,
    host: &mut Host,
    now: u64,
    place: u64,
    owner: u64,
    has_owner: bool,
    datagram: &[u8],
) -> u32
    ensures { Serves (CameFromBy now (origin_of place owner has_owner) (reading datagram.now))
        host.old.held.room host.new.held.room result }
{
    let Some(mut room) = host.take(alloc) else {
        return CLOSED;
    };
    match room.came_from(alloc, now, origin_of(place, owner, has_owner), datagram) {
        Ok(status) => {
            host.put(room);
            status
        }
        Err(_) => MEMORY,
    }
}

/// The time of day at a moment, in microseconds since 1970, at a judged host.
#[unsafe(no_mangle)]
pub extern "C" fn wb_wall(alloc: Global, host: &mut Host, now: u64, wall: u64) -> u32
    ensures { Serves (WallBy now wall) host.old.held.room host.new.held.room result }
{
    let Some(mut room) = host.take(alloc) else {
        return CLOSED;
    };
    match room.wall(alloc, now, wall) {
        Ok(status) => {
            host.put(room);
            status
        }
        Err(_) => MEMORY,
    }
}

/// The network says that whoever spoke from an origin is gone, at a judged host.
#[unsafe(no_mangle)]
pub extern "C" fn wb_gone(
    alloc: Global,
    host: &mut Host,
    now: u64,
    place: u64,
    owner: u64,
    has_owner: bool,
) -> u32
    ensures { Serves (GoneBy now (origin_of place owner has_owner))
        host.old.held.room host.new.held.room result }
{
    let Some(mut room) = host.take(alloc) else {
        return CLOSED;
    };
    match room.gone(alloc, now, origin_of(place, owner, has_owner)) {
        Ok(status) => {
            host.put(room);
            status
        }
        Err(_) => MEMORY,
    }
}

/// Time goes on to a moment.
#[unsafe(no_mangle)]
pub extern "C" fn wb_tick(alloc: Global, host: &mut Host, now: u64) -> u32
    ensures { Serves (TicksBy now) host.old.held.room host.new.held.room result }
{
    let Some(mut room) = host.take(alloc) else {
        return CLOSED;
    };
    match room.tick(alloc, now) {
        Ok(status) => {
            host.put(room);
            status
        }
        Err(_) => MEMORY,
    }
}

/// The user draws what the drawop of these bytes does, on its page and at its time; it gets a name
/// of its own.
#[unsafe(no_mangle)]
pub extern "C" fn wb_add(alloc: Global, host: &mut Host, now: u64, drawop: &[u8]) -> u32
    ensures { Serves (AddsBy now (reading drawop.now)) host.old.held.room host.new.held.room result }
{
    let Some(mut room) = host.take(alloc) else {
        return CLOSED;
    };
    match room.add(alloc, now, drawop) {
        Ok(status) => {
            host.put(room);
            status
        }
        Err(_) => MEMORY,
    }
}

/// The member is asked a question, by its number. The answer is events, one for each item.
#[unsafe(no_mangle)]
pub extern "C" fn wb_ask(
    alloc: Global,
    host: &mut Host,
    question: u32,
    creator: u32,
    number: u32,
    width: u32,
    height: u32,
) -> u32
    ensures { Serves (Asks question (record { creator = creator; number = number }) width height)
        host.old.held.room host.new.held.room result }
{
    let page = PageId { creator, number };
    let Some(mut room) = host.take(alloc) else {
        return CLOSED;
    };
    match room.ask(alloc, question, page, width, height) {
        Ok(status) => {
            host.put(room);
            status
        }
        Err(_) => MEMORY,
    }
}

/// Fetches the next event: its kind, and its bytes if the buffer has room for them.
#[unsafe(no_mangle)]
pub extern "C" fn wb_event(
    alloc: Global,
    host: &mut Host,
    kind: &mut u32,
    buffer: &mut [u8],
    size: &mut usize,
) -> u32
    ensures { FetchesEvent host.old.held.room host.new.held.room
        buffer.old buffer.new kind.new size.new result }
{
    *kind = 0;
    *size = 0;
    let Some(mut room) = host.take(alloc) else {
        return CLOSED;
    };
    match room.next_event(alloc, kind, buffer, size) {
        Ok(status) => {
            host.put(room);
            status
        }
        Err(_) => MEMORY,
    }
}

/// The next moment at which a tick is due.
#[unsafe(no_mangle)]
pub extern "C" fn wb_due(alloc: Global, host: &mut Host) -> u64
    ensures same { host.new.held.room ≡ host.old.held.room }
    ensures due { IsDue host.old.held.room result }
{
    let Some(room) = host.take(alloc) else {
        return NEVER;
    };
    let due = room.dialog.next_due();
    host.put(room);
    due.unwrap_or(NEVER)
}
