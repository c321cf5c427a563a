//! Lines that carry the bytes of a datagram, turned into lines with its words.

ghost use Rattle.std.specs.Prelude.{◌≡◌, IfOk};
ghost use Rattle.wb_codec.specs.Reading.{reading};
ghost use Rattle.wb_filters.specs.Turning.{MayTurn, carried_words, worded_as, without_digits, worded};

use crate::carrier::{Carrier, carrier_of, takes};
use crate::fault::{LineFault, TurnFault};
use crate::line::copy;
use std::alloc::{AllocError, Global};
use wb_codec::{Datagram, ReadFault, read};
use wb_lines::unhex;
use wb_words::{DigitsFault, split_once, write_words};

/// The words of a datagram, after `send` if it is sent.
fn words_behind(alloc: Global, carrier: Carrier, datagram: &Datagram) -> Result<Vec<u8>, AllocError>
    ensures { IfOk result (λ line. line.items ≡ carried_words carrier datagram.now) }
{
    let words = write_words(alloc, datagram)?;
    match carrier {
        Carrier::Send => {
            let mut line = Vec::new(alloc);
            line.extend_from_slice(b"send ")?;
            line.extend_from_slice(words.as_slice())?;
            Ok(line)
        }
        _ => Ok(words),
    }
}

/// What the bytes that a line carries say.
fn told(alloc: Global, carrier: Carrier, bytes: &[u8]) -> Result<Vec<u8>, TurnFault>
    ensures { MayTurn (λ text. text.items) result (worded_as carrier (reading bytes.now)) }
{
    match read(alloc, bytes) {
        Ok(datagram) => {
            if !takes(carrier, &datagram) {
                return Err(TurnFault::Line(LineFault::Digits(DigitsFault::Kind)));
            }
            Ok(words_behind(alloc, carrier, &datagram)?)
        }
        Err(ReadFault::Memory) => Err(TurnFault::Memory),
        Err(fault) => Err(TurnFault::Line(LineFault::Digits(DigitsFault::Datagram(fault)))),
    }
}

/// A line of `arrive`, `hear` or `send`, whose rest after the space is not an even number of
/// digits: if that is one word, it is wrong; a line of more words stays as it is.
fn without_digits(alloc: Global, line: &[u8], rest: &[u8]) -> Result<Vec<u8>, TurnFault>
    ensures { MayTurn (λ text. text.items) result (without_digits line.now rest.now) }
{
    if split_once(rest, b' ').is_none() {
        return Err(TurnFault::Line(LineFault::Digits(DigitsFault::Hex)));
    }
    Ok(copy(alloc, line)?)
}

/// A line that a whiteboard takes or prints, which stands without its end, in words: `arrive`,
/// `hear` or `send`, a space and an even number of hexadecimal digits are the words of the
/// datagram, after `send` if it is sent. Or what is wrong with the digits or the bytes: one word
/// after the space has to be digits. Any other line stays as it is.
pub fn words_line(alloc: Global, line: &[u8]) -> Result<Vec<u8>, TurnFault>
    ensures { MayTurn (λ text. text.items) result (worded line.now) }
{
    let Some((word, rest)) = split_once(line, b' ') else {
        return Ok(copy(alloc, line)?);
    };
    let Some(carrier) = carrier_of(word) else {
        return Ok(copy(alloc, line)?);
    };
    match unhex(alloc, rest)? {
        Some(bytes) => told(alloc, carrier, &bytes),
        None => without_digits(alloc, line, rest),
    }
}
