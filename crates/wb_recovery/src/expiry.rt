//! The random moment at which a timer is due.
ghost use Rattle.std.specs.Prelude.{◌≡◌, ◌+◌, ◌*◌, ◌^◌, ◌<◌, ◌≤◌};
ghost use Rattle.wb_names.specs.Moments.{IsMoment};
ghost use Rattle.wb_recovery.specs.Delays.{IsDelay};
ghost use Rattle.wb_recovery.specs.declared.tuning.TheConstants.{MAX_CONSTANT};
ghost use Rattle.wb_recovery.specs.Timing.{expiry as expiry_of};

/// 2^level times a constant times a delay.
fn step(level: u32, constant: u32, delay: u64) -> u64
    requires level { level ≤ 16 }
    requires constant { constant ≤ MAX_CONSTANT }
    requires delay { IsDelay delay }
    ensures step { result ≡ 2 ^ level * constant * delay }
    ensures bounded { result ≤ 2 ^ 44 }
{
    2u64.pow(level) * u64::from(constant) * delay
}

/// The random moment at which a timer is due: `2^level * lead` delays after now, or up to
/// `2^level * spread` delays later.
pub(crate) fn expiry(now: u64, level: u32, lead: u32, spread: u32, delay: u64, word: u64) -> u64
    requires moment { IsMoment now }
    requires level { level ≤ 16 }
    requires lead { lead ≤ MAX_CONSTANT }
    requires spread { spread ≤ MAX_CONSTANT }
    requires delay { IsDelay delay }
    ensures moment { result ≡ expiry_of now level lead spread delay word }
    ensures later { now ≤ result }
    ensures bounded { result < 2 ^ 49 }
{
    let first = now + step(level, lead, delay);
    first + word % (step(level, spread, delay) + 1)
}
