//! Lines whose datagram stands in words, turned into lines with its bytes.

ghost use Rattle.std.specs.Prelude.{◌≡◌, IfOk, option_map};
ghost use Rattle.wb_words.specs.Words.{split_once};
ghost use Rattle.wb_filters.specs.Turning.{MayTurn, sent_part, digits_line, hexed};

use crate::carrier::{Carrier, carrier_for, front};
use crate::fault::{LineFault, TurnFault};
use crate::line::copy;
use std::alloc::{AllocError, Global};
use wb_codec::{Datagram, write};
use wb_words::{WordsFault, read_words, split_once};

/// The line that carries the bytes of a datagram.
fn digits_line(alloc: Global, carrier: Carrier, datagram: &Datagram) -> Result<Vec<u8>, AllocError>
    ensures { IfOk result (λ line. line.items ≡ digits_line carrier datagram.now) }
{
    let bytes = write(alloc, datagram)?;
    let digits = hex::encode(alloc, bytes)?;
    let mut line = Vec::new(alloc);
    line.extend_from_slice(front(carrier))?;
    line.extend_from_slice(digits.as_bytes())?;
    Ok(line)
}

/// What follows the word `send`, if a line begins with it.
fn sent_part(line: &[u8]) -> Option<&[u8]>
    ensures { option_map (λ x. x.now) result ≡ sent_part (split_once 32 line.now) }
{
    match split_once(line, b' ') {
        Some((word, rest)) => {
            if word == b"send".as_slice() {
                Some(rest)
            } else {
                None
            }
        }
        None => None,
    }
}

/// A line of a script, which stands without its end, as a whiteboard takes it: a datagram in words,
/// or one after the word `send`, as the line with its bytes in hexadecimal; any other line as it
/// is. Or the first word from the left that is wrong, of those of a datagram.
pub fn hex_line(alloc: Global, line: &[u8]) -> Result<Vec<u8>, TurnFault>
    ensures { MayTurn (λ text. text.items) result (hexed line.now) }
{
    let (sent, words) = match sent_part(line) {
        Some(rest) => (true, rest),
        None => (false, line),
    };
    match read_words(alloc, words) {
        Ok(datagram) => {
            let carrier = if sent {
                Carrier::Send
            } else {
                carrier_for(&datagram)
            };
            Ok(digits_line(alloc, carrier, &datagram)?)
        }
        Err(WordsFault::Word(wrong)) => {
            if wrong.place == 1 {
                return Ok(copy(alloc, line)?);
            }
            Err(TurnFault::Line(LineFault::Word(wrong)))
        }
        Err(WordsFault::Memory) => Err(TurnFault::Memory),
    }
}
