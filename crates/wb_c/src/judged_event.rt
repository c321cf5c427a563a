//! The kinds and the bytes of what a judged member gives.
ghost use Rattle.std.specs.Prelude.{◌≡◌, ◌++◌, IfOk};
ghost use Rattle.std.specs.Int.{w32, to_be_bytes};
ghost use Rattle.wb_codec.specs.Spelling.{name_bytes};
ghost use Rattle.wb_c.specs.JudgedEvents.{bytes_of, fate_kind, fetch_bytes, kind_of, owner_bytes, warning_bytes, warning_number, why_number};

use std::alloc::{AllocError, Global};
use wb_codec::write;
use wb_dialog::write_record;
use wb_judge::{Origin, Warning, Why};
use wb_judging::{Event, Fate};
use wb_names::Name;

/// Why what came is dropped if it is not a datagram, as `include/wb.h` numbers it.
const NO_DATAGRAM: u32 = 1;

/// Why a datagram is dropped, as `include/wb.h` numbers it.
fn why_number(why: Why) -> u32
    ensures { result ≡ why_number why }
{
    match why {
        Why::Own => 2,
        Why::Speaks => 3,
        Why::Crowd => 4,
        Why::Mark => 5,
        Why::Stranger => 6,
        Why::Flood => 7,
        Why::Again => 8,
        Why::Ahead => 9,
        Why::Full => 10,
        Why::Share => 11,
        Why::Pages => 12,
        Why::Holes => 13,
    }
}

/// What people are warned of, as `include/wb.h` numbers it.
fn warning_number(warning: Warning) -> u32
    ensures { result ≡ warning_number warning }
{
    match warning {
        Warning::Impostor(_) => 1,
        Warning::ForgedMark => 2,
        Warning::Twin => 3,
        Warning::NoCell => 4,
        Warning::NoShare => 5,
    }
}

/// The kind of what became of a drawop.
fn fate_kind(fate: Fate) -> u32
    ensures { result ≡ fate_kind fate }
{
    match fate {
        Fate::New => 2,
        Fate::Again => 3,
        Fate::Clash => 4,
        Fate::Left => 5,
    }
}

/// The number of the kind of an event.
pub(crate) fn kind_of(event: &Event) -> u32
    ensures { result ≡ kind_of event.now }
{
    match event {
        Event::Send(_) => 1,
        Event::Became(fate) => fate_kind(*fate),
        Event::NoDatagram => 12,
        Event::Dropped(_) => 12,
        Event::Record(_) => 13,
        Event::Drew(_) => 14,
        Event::Fetch { .. } => 15,
        Event::Warn(_) => 16,
    }
}

/// A name: its source, its page and its number.
fn name_bytes(name: Name) -> [u8; 16]
    ensures { result ≡ name_bytes name }
{
    let [a0, a1, a2, a3] = name.source().to_be_bytes();
    let [b0, b1, b2, b3] = name.page().creator.to_be_bytes();
    let [c0, c1, c2, c3] = name.page().number.to_be_bytes();
    let [d0, d1, d2, d3] = name.seq().to_be_bytes();
    [
        a0, a1, a2, a3, b0, b1, b2, b3, c0, c1, c2, c3, d0, d1, d2, d3,
    ]
}

/// The owner of an origin, if it has one.
fn owner_bytes(alloc: Global, owner: Option<u64>) -> Result<Vec<u8>, AllocError>
    ensures { IfOk result (λ bytes. bytes.items ≡ owner_bytes owner) }
{
    match owner {
        None => Ok(Vec::new(alloc)),
        Some(owner) => Vec::from_slice(alloc, &owner.to_be_bytes()),
    }
}

/// The place of an origin, how many numbers are missing, and the owner if the origin has one.
fn fetch_bytes(alloc: Global, origin: Origin, lacking: u64) -> Result<Vec<u8>, AllocError>
    ensures { IfOk result (λ bytes. bytes.items ≡ fetch_bytes origin lacking) }
{
    let Origin { place, owner } = origin;
    let mut bytes = Vec::from_slice(alloc, &place.to_be_bytes())?;
    bytes.extend_from_slice(&lacking.to_be_bytes())?;
    bytes.extend_from_slice(owner_bytes(alloc, owner)?.as_slice())?;
    Ok(bytes)
}

/// The number of a warning, and that of the member whom another speaks for.
fn warning_bytes(alloc: Global, warning: Warning) -> Result<Vec<u8>, AllocError>
    ensures { IfOk result (λ bytes. bytes.items ≡ warning_bytes warning) }
{
    let mut bytes = Vec::from_slice(alloc, &warning_number(warning).to_be_bytes())?;
    if let Warning::Impostor(number) = warning {
        bytes.extend_from_slice(&number.to_be_bytes())?;
    }
    Ok(bytes)
}

/// The bytes of an event. A line of the record is a text without its end.
pub(crate) fn bytes_of(alloc: Global, event: &Event) -> Result<Vec<u8>, AllocError>
    ensures { IfOk result (λ bytes. bytes.items ≡ bytes_of event.now) }
{
    match event {
        Event::Send(datagram) => write(alloc, datagram),
        Event::Became(_) => Ok(Vec::new(alloc)),
        Event::NoDatagram => Vec::from_slice(alloc, &NO_DATAGRAM.to_be_bytes()),
        Event::Dropped(why) => Vec::from_slice(alloc, &why_number(*why).to_be_bytes()),
        Event::Record(line) => write_record(alloc, line),
        Event::Drew(name) => Vec::from_slice(alloc, &name_bytes(*name)),
        Event::Fetch { origin, lacking } => fetch_bytes(alloc, *origin, *lacking),
        Event::Warn(warning) => warning_bytes(alloc, *warning),
    }
}
