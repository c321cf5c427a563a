//! Lines that tell what a host sends, and what it finds.
ghost use Rattle.std.specs.Prelude.{◌≡◌, IfOk};
ghost use Rattle.std.specs.String.{string_bytes};
ghost use Rattle.wb_commands.specs.SentLines.{ask_line, done_text, found_text, send_line, sends_text, stop_line};

use std::alloc::{AllocError, Global};
use wb_codec::{Datagram, write};
use wb_member::{Done, Found};

/// The line of a datagram that is sent, with its bytes in hexadecimal.
pub fn send_line(alloc: Global, datagram: &Datagram) -> Result<String, AllocError>
    ensures { IfOk result (λ text. string_bytes text ≡ send_line datagram.now) }
{
    let bytes = write(alloc, datagram)?;
    let digits = hex::encode(alloc, bytes)?;
    format!(in alloc; "send {digits}\n")
}

/// The datagrams that are sent, a line each, with their bytes in hexadecimal.
pub fn sends_text(alloc: Global, sent: &[Datagram]) -> Result<String, AllocError>
    ensures { IfOk result (λ text. string_bytes text ≡ sends_text sent.now) }
{
    let mut text = String::new(alloc);
    for datagram in sent {
        text.push_str(send_line(alloc, datagram)?.as_str())?;
    }
    Ok(text)
}

/// Whether it begins to miss a name.
fn ask_line(begun: bool) -> &'static str
    ensures { result.now ≡ ask_line begun }
{
    if begun { "ask 1\n" } else { "ask 0\n" }
}

/// Whether it gave up asking for a name.
fn stop_line(asked: bool) -> &'static str
    ensures { result.now ≡ stop_line asked }
{
    if asked { "stop 1\n" } else { "stop 0\n" }
}

/// The line of what a member finds, if it looks for something.
fn found_text(alloc: Global, found: Found) -> Result<String, AllocError>
    ensures { IfOk result (λ text. string_bytes text ≡ found_text found) }
{
    match found {
        Found::Nothing => Ok(String::new(alloc)),
        Found::Missing(count) => format!(in alloc; "look {count}\n"),
        Found::MayAsk(begun) => String::from_str(alloc, ask_line(begun)),
        Found::WasAsked(asked) => String::from_str(alloc, stop_line(asked)),
    }
}

/// What a call of a member answers: what is sent, and what it finds.
pub(crate) fn done_text(alloc: Global, done: &Done) -> Result<String, AllocError>
    ensures { IfOk result (λ text.
        string_bytes text ≡ done_text done.now.sent.items done.now.found) }
{
    let mut text = sends_text(alloc, &done.sent)?;
    text.push_str(found_text(alloc, done.found)?.as_str())?;
    Ok(text)
}
