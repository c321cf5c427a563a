//! A limit: some at once, and then one in each pause.

ghost use Rattle.std.specs.Prelude.{◌≡◌, ◌<◌, ◌^◌, if◌then◌else◌};
ghost use Rattle.wb_names.specs.Moments.{IsMoment};
ghost use Rattle.wb_judge.specs.Buckets.{has_room, paid_after};

/// A bucket is paid up to a moment, and each that it takes costs a pause.
#[derive(Clone, Copy, Debug)]
pub struct Bucket {
    pub paid: u64,
}

impl Bucket {
    /// Nothing was taken yet.
    pub const WHOLE: Bucket = Bucket { paid: 0 };

    /// Takes and pays for one more, if `paid` is at most `ahead` after now. Answers whether.
    pub(crate) fn take(&mut self, ahead: u64, pause: u64, now: u64) -> bool
        requires moment { IsMoment now }
        requires ahead { ahead < 2 ^ 32 }
        requires pause { pause < 2 ^ 32 }
        ensures taken { result ≡ has_room ahead self.old.paid now }
        ensures after { self.new.paid ≡ (if result then paid_after pause self.old.paid now else self.old.paid) }
    {
        if self.paid.saturating_sub(now) > ahead {
            return false;
        }
        self.paid = self.paid.max(now) + pause;
        true
    }
}
