//! The delay to another member, from an exchange of session messages.
ghost use Rattle.std.specs.Prelude.{◌≡◌};
ghost use Rattle.wb_recovery.specs.RoundTrip.{delay_from};

use crate::fault::DELAY_LIMIT;

/// The delay to another member, in microseconds, from an echo of one's own session message: it was
/// sent at `sent`, lay with the other member for `held`, and its echo is heard at `now`. It is half
/// of the time on the way. None if the times do not fit together, or the delay would not be below
/// 2^24.
pub fn distance(sent: u64, held: u64, now: u64) -> Option<u64>
    ensures { result ≡ delay_from sent held now }
{
    let left = sent.checked_add(held)?;
    let delay = now.checked_sub(left)? / 2;
    (delay < DELAY_LIMIT).then_some(delay)
}
