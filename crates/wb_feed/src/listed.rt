//! A source that gives the drawops of a list.
ghost use Rattle.std.specs.Prelude.{◌≡◌, ◌++◌, ◌-◌, drop, length, refl, take};
ghost use Rattle.std.proofs.Common.{sym, ap, ◌∙◌, append_assoc};
ghost use Rattle.std.proofs.Math.Seq.{take-append_seam};

use crate::arrivals::{Arrivals, KnownArrivals};
use wb_names::Drawop;

/// The drawops of a list, in order, of which some may be taken already. It gives at most
/// 4,294,967,295 of them.
#[derive(Drop)]
pub struct Listed {
    all: Vec<Drawop>,
    next: u32,
    end: u32,
    ended: bool,
}

impl Listed {
    /// All of the list is still to come.
    pub fn new(all: Vec<Drawop>) -> Listed
        ensures { (result.all ≡ all) × (result.next ≡ 0) }
    {
        let end = u32::try_from(all.len()).unwrap_or(u32::MAX);
        Listed {
            all,
            next: 0,
            end,
            ended: false,
        }
    }
}

impl Arrivals for Listed {
    ghost gives = { λ a ds b. drop a.next a.all.items ≡ ds ++ drop b.next b.all.items };

    ghost has_ended = { λ s. s.ended };

    ghost most_to_come = { λ s. s.end - s.next };

    ghost gives_none = { λ s. refl };

    ghost gives_on = { λ a b c ds es p q. p ∙ ap
        (λ l. ds ++ l) q ∙ sym (append_assoc ds es (drop c.next c.all.items)) };

    fn next(&mut self) -> Option<Drawop> {
        let at = self.next as usize;
        if self.next < self.end && at < self.all.len() {
            self.next += 1;
            return Some(self.all[at]);
        }
        self.ended = true;
        None
    }

    fn most(&self) -> u32 {
        self.end.saturating_sub(self.next)
    }
}

impl KnownArrivals for Listed {
    ghost one_list = { λ a b c ds es p q same. sym (take-append_seam ds (drop b.next b.all.items)) ∙
        (ap (λ l. take (length ds) l) (sym p ∙ q) ∙ (ap (λ n. take n
        (es ++ drop c.next c.all.items)) same ∙ take-append_seam es (drop c.next c.all.items))) };
}
