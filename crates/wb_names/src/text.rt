//! Texts, kept in place.

ghost use Rattle.std.specs.Prelude.{◌≡◌, ◌≤◌, length, take, ◌++◌, replicate};
ghost use Rattle.wb_names.specs.declared.text.TheConstants.Text.{MAX_LEN};

use std::marker::Model;

/// The bytes of a text drawop, up to 64 of them, kept in place so that drawops can be copied.
#[derive(Clone, Copy, Debug, PartialEq, Eq)]
pub struct Text {
    len: u8,
    buffer: [u8; 64],
}

impl Model for Text {
    ghost use Rattle.std.specs.Prelude.{List, ℕ, take, length};
    ghost use Rattle.wb_names.specs.TextFields.{text_inverse_ok, IsTextFields, padded};

    ghost Value = { List ℕ };

    ghost view = { λ t. take t.len t.buffer };

    ghost invariant = { λ t. IsTextFields t.len t.buffer };

    ghost inverse = { λ bytes. record { len = length bytes; buffer = padded bytes } };

    ghost inverse_ok = { λ t h. text_inverse_ok t h };
}

impl Text {
    /// The most bytes that a text can have.
    pub const MAX_LEN: usize = 64;

    /// The text with these bytes.
    #[inline(always)]
    pub fn new(bytes: &[u8]) -> Text
        requires { length bytes.now ≤ MAX_LEN }
        ensures { result ≡ bytes.now }
    {
        let mut buffer = [0; 64];
        buffer[..bytes.len()].copy_from_slice(bytes);
        Text {
            len: bytes.len() as u8,
            buffer,
        }
    }

    /// The bytes of the text.
    #[inline(always)]
    pub fn as_slice(&self) -> &[u8]
        ensures { result.now ≡ self.now }
    {
        &self.buffer[..self.len as usize]
    }
}
