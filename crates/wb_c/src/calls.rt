//! The calls by lines, as `include/wb.h` declares them.
ghost use Rattle.std.specs.Prelude.{◌≡◌, IfSome, None};
ghost use Rattle.wb_c.specs.Calls.{Fetches, FetchesFrom, LineAt, Nothing, Opens, TakesLine};

use crate::held::Host;
use crate::room::Room;
use crate::status::{CLOSED, DONE, MEMORY, NOT_DONE, OPEN, WAITS};
use std::alloc::Global;

/// Hands over the block that waits, and says how large it is.
fn fetch(room: &mut Room, buffer: &mut [u8], size: &mut usize) -> u32
    ensures { Fetches room.old room.new buffer.old buffer.new size.new result }
{
    *size = room.block.len();
    if room.hand_over(buffer) { DONE } else { WAITS }
}

/// Takes a line and hands over its block, if no block waits. None if an allocation fails: the host
/// is to be given up then.
fn serve(
    room: &mut Room,
    alloc: Global,
    line: &[u8],
    buffer: &mut [u8],
    size: &mut usize,
) -> Option<u32>
    ensures told { IfSome result (λ status. LineAt room.old.block.items room.old room.new line.now
        buffer.old buffer.new size.new status) }
    ensures none { result ≡ None → Nothing buffer.old buffer.new size.new }
{
    *size = room.block.len();
    if *size > 0 {
        return Some(NOT_DONE);
    }
    match room.answer(alloc, line) {
        Ok(()) => Some(fetch(room, buffer, size)),
        Err(_) => None,
    }
}

/// Opens a host that is closed. No board is open in it, and the timers of the one that will be have
/// the constants 2, 2, 1, 1.
#[unsafe(no_mangle)]
pub extern "C" fn wb_open(alloc: Global, host: &mut Host) -> u32
    ensures { Opens host.old.held.room host.new.held.room result }
{
    if host.is_open() {
        return OPEN;
    }
    match Box::new(alloc, Room::new(alloc)) {
        Ok(room) => {
            host.put(room);
            DONE
        }
        Err(_) => MEMORY,
    }
}

/// Takes a line, which stands without its line feed. Its block goes into the buffer, or waits if
/// that has no room for it; `size` says how large it is. If the block of an earlier line waits,
/// this line is not taken.
#[unsafe(no_mangle)]
pub extern "C" fn wb_line(
    alloc: Global,
    host: &mut Host,
    line: &[u8],
    buffer: &mut [u8],
    size: &mut usize,
) -> u32
    ensures { TakesLine host.old.held.room host.new.held.room line.now
        buffer.old buffer.new size.new result }
{
    *size = 0;
    let Some(mut room) = host.take(alloc) else {
        return CLOSED;
    };
    match serve(&mut room, alloc, line, buffer, size) {
        Some(status) => {
            host.put(room);
            status
        }
        None => MEMORY,
    }
}

/// Fetches the block that waits. If none does, it is empty.
#[unsafe(no_mangle)]
pub extern "C" fn wb_block(
    alloc: Global,
    host: &mut Host,
    buffer: &mut [u8],
    size: &mut usize,
) -> u32
    ensures { FetchesFrom host.old.held.room host.new.held.room
        buffer.old buffer.new size.new result }
{
    *size = 0;
    let Some(mut room) = host.take(alloc) else {
        return CLOSED;
    };
    let status = fetch(&mut room, buffer, size);
    host.put(room);
    status
}

/// Closes a host, and frees what it has. One that is closed stays so.
#[unsafe(no_mangle)]
pub extern "C" fn wb_close(alloc: Global, host: &mut Host)
    ensures { host.new.held.room ≡ None }
{
    host.take(alloc);
}
