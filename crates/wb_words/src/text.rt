//! Texts in quotes.

ghost use Rattle.std.specs.Prelude.{◌≡◌, IfOk, option_map};
ghost use Rattle.wb_words.specs.Words.{text_in, is_special};

use std::alloc::{AllocError, Global};

/// Whether a backslash stands before this byte in a text in quotes.
pub(crate) fn is_special(byte: u8) -> bool
    ensures { result ≡ is_special byte }
{
    byte == b'"' || byte == b'\\'
}

/// The text that stands in quotes, and `None` if the bytes are not a text in quotes.
pub(crate) fn text_in(alloc: Global, bytes: &[u8]) -> Result<Option<Vec<u8>>, AllocError>
    ensures { IfOk result (λ text. option_map (λ t. t.items) text ≡ text_in bytes.now) }
{
    let [b'"', quoted @ ..] = bytes else {
        return Ok(None);
    };
    let mut text = Vec::new(alloc);
    let mut escaped = false;
    for (place, byte) in quoted.iter().enumerate() {
        if escaped {
            if !is_special(*byte) {
                return Ok(None);
            }
            text.push(*byte)?;
            escaped = false;
        } else if *byte == b'"' {
            return Ok(if place + 1 == quoted.len() {
                Some(text)
            } else {
                None
            });
        } else if *byte == b'\\' {
            escaped = true;
        } else {
            text.push(*byte)?;
        }
    }
    Ok(None)
}
