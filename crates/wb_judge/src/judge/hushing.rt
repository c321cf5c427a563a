//! What may hush us: an answer of ours, or a request.

ghost use Rattle.std.specs.Prelude.{◌≡◌};
ghost use Rattle.wb_names.specs.Moments.{IsMoment};
ghost use Rattle.wb_judge.specs.Judge.{hushes, is_firm};

use super::Judge;
use crate::firm::is_firm;
use crate::origin::Origin;
use wb_names::Name;

impl Judge {
    /// Whether what came from there of a name may hush us: a member's, while the name is not firm.
    pub(super) fn hushes(&self, origin: Origin, name: &Name, now: u64) -> bool
        requires { IsMoment now }
        ensures { result ≡ hushes origin name.now now self.now }
    {
        self.knows(origin, now) && !self.is_firm(name, now)
    }

    /// Whether a name is firm, beside the members that are here.
    fn is_firm(&self, name: &Name, now: u64) -> bool
        requires { IsMoment now }
        ensures { result ≡ is_firm name.now now self.now }
    {
        is_firm(self.others.present(now), self.me, name, now)
    }
}
