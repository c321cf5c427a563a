//! Echoes: what members tell one another of their clocks.

ghost use Rattle.std.specs.Prelude.{◌≡◌};

use crate::entries::Entry;

/// What a member tells a source that it heard, so that the source can estimate its delay to the
/// member: `sent` is the moment that the source's last session message named, `held` how long ago
/// it was heard, both in microseconds.
#[derive(Clone, Copy, Debug, PartialEq, Eq)]
pub struct Echo {
    pub source: u32,
    pub sent: u64,
    pub held: u64,
}

impl Entry for Echo {
    ghost source = { λ e. e.source };

    ghost IsPositive = { λ e. Unit {0} };

    #[inline(always)]
    fn source(&self) -> u32 {
        self.source
    }
}
