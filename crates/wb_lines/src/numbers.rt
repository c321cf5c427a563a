//! Words of decimal digits.
ghost use Rattle.std.specs.Prelude.{◌≡◌, ◌≤◌, IfSome};
ghost use Rattle.wb_lines.specs.Words.{is_digit, number_of};

/// The number that a word of decimal digits stands for, if it is from `low` to `high`.
pub fn number(word: &[u8], low: u64, high: u64) -> Option<u64>
    ensures value { result ≡ number_of low high word.now }
    ensures bound { IfSome result (λ n. (low ≤ n) × (n ≤ high)) }
{
    if word.is_empty() {
        return None;
    }
    let mut value = 0u64;
    for byte in word {
        if !byte.is_ascii_digit() {
            return None;
        }
        value = value.checked_mul(10)?.checked_add(u64::from(*byte - b'0'))?;
    }
    if low <= value && value <= high {
        Some(value)
    } else {
        None
    }
}
