//! Names that are missed.

ghost use Rattle.std.specs.Prelude.{◌≡◌, IfOk, OnOk, OnErr, length};
ghost use Rattle.wb_keeper.specs.Keeper.{Miss, missed_of};
ghost use Rattle.wb_keeper.specs.Keeping.{Keeps, delay_at};
ghost use Rattle.wb_keeper.specs.KeepFaults.{moment_fault, IsKeptBy};

use crate::keep_fault::KeepFault;
use crate::keeper::Keeper;
use std::alloc::{AllocError, Global};
use wb_names::Name;
use wb_recovery::Missed;

impl Keeper {
    /// Names are missed: sets a request timer for each of which none stands, with the delay to its
    /// source and the word beside it, so there are as many words as names. All are set or none. The
    /// moment is in microseconds.
    ///
    /// Refused with `BackInTime`, `Range` or `Memory`, in this order.
    pub fn notice(
        &mut self,
        alloc: Global,
        now: u64,
        names: &[Name],
        words: &[u64],
    ) -> Result<(), KeepFault>
        requires { length names.now ≡ length words.now }
        ensures fault { IsKeptBy (moment_fault self.old.moment now) result }
        ensures ok { OnOk result (Keeps (Miss now names.now words.now) self.old self.new) }
        ensures err { OnErr result (self.new ≡ self.old) }
    {
        self.check(now)?;
        let missed = self.missed(alloc, names, words)?;
        if self.recovery.notice_all(alloc, &missed, now).is_err() {
            return Err(KeepFault::Memory);
        }
        self.moment = now;
        Ok(())
    }

    /// The names with the delays to their sources and their words.
    fn missed(
        &self,
        alloc: Global,
        names: &[Name],
        words: &[u64],
    ) -> Result<Vec<Missed>, AllocError>
        ensures { IfOk result
            (λ missed. missed.items ≡ missed_of (delay_at self.now.delays) names.now words.now) }
    {
        let pairs = names.iter().zip(words);
        pairs
            .map(|(name, word)| Missed {
                name: *name,
                delay: self.delay(name.source()),
                word: *word,
            })
            .collect(alloc)
    }
}
