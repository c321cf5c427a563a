//! Words of hexadecimal digits.
ghost use Rattle.std.specs.Prelude.{◌≡◌, ◌<◌, true, false, IfOk, OnErr, MatchOption};
ghost use Rattle.std.specs.List.{list_all};
ghost use Rattle.hex.specs.Hex.{decode_of, is_hex_digit};
ghost use Rattle.wb_lines.specs.Words.{digit_of, is_hex};

use std::alloc::{AllocError, Global};

fn is_hex_digit(byte: u8) -> bool
    ensures { result ≡ is_hex_digit byte }
{
    byte.is_ascii_hexdigit()
}

fn are_hex_digits(word: &[u8]) -> bool
    ensures { result ≡ list_all is_hex_digit word.now }
{
    word.iter().all(|byte| is_hex_digit(*byte))
}

/// Whether a word is an even number of hexadecimal digits, of either case.
fn is_hex(word: &[u8]) -> bool
    ensures { result ≡ is_hex word.now }
{
    word.len() % 2 == 0 && are_hex_digits(word)
}

/// The value of a hexadecimal digit, without a branch: its last four bits, and nine more for a
/// letter. Of another byte it is some number below 16.
fn digit_value(byte: u8) -> u8
    ensures value { result ≡ digit_of byte }
    ensures bound { result < 16 }
{
    (byte % 16 + 9 * (byte / 64)) % 16
}

/// The bytes that a word stands for, if it is an even number of hexadecimal digits, of either case.
/// It is gone through once; only if an allocation fails are the digits looked at alone.
pub fn unhex(alloc: Global, word: &[u8]) -> Result<Option<Vec<u8>>, AllocError>
    ensures bytes { IfOk result (λ found. MatchOption found (is_hex word.now ≡ false)
        (λ bytes. (is_hex word.now ≡ true) × (decode_of word.now ≡ Ok bytes.items))) }
    ensures memory { OnErr result (is_hex word.now ≡ true) }
{
    if word.len() % 2 != 0 {
        return Ok(None);
    }
    let count = word.len() / 2;
    let mut bytes = match Vec::with_capacity(alloc, count) {
        Ok(bytes) => bytes,
        Err(refused) if is_hex(word) => return Err(refused),
        Err(_) => return Ok(None),
    };
    let mut are_digits = true;
    for i in 0..count {
        let high = word[2 * i];
        let low = word[2 * i + 1];
        are_digits = are_digits & is_hex_digit(high) & is_hex_digit(low);
        bytes.push_reserved(digit_value(high) * 16 + digit_value(low));
    }
    Ok(if are_digits { Some(bytes) } else { None })
}
