//! Firm names: nothing that others send of them hushes us.

ghost use Rattle.std.specs.Prelude.{◌≡◌, ◌<◌};
ghost use Rattle.wb_names.specs.Moments.{IsMoment};
ghost use Rattle.wb_judge.specs.Firm.{is_firm_beside, turns};

use crate::limits::{FIRM_TIME, MOST_SHARING};
use wb_names::Name;

/// How many turns of two seconds there are beside a number of others. A name is firm in one.
fn turns(others: usize) -> u64
    ensures turns { result ≡ turns others }
    ensures some { 0 < result }
{
    let sharing = others.saturating_sub(1).min(MOST_SHARING);
    4 * sharing as u64 + 1
}

/// Whether a name is firm at a moment, at a member of number `me`, beside a number of others.
#[tactic(auto, unfolding(crate::specs::Firm::is_firm_beside))]
pub(crate) fn is_firm(others: usize, me: u32, name: &Name, now: u64) -> bool
    requires { IsMoment now }
    ensures { result ≡ is_firm_beside others me name.now now }
{
    let sum = name.source() as u64 + name.seq() as u64 + me as u64 + now / FIRM_TIME;
    sum % turns(others) == 0
}
