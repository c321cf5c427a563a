//! The order in which drawops are displayed.

ghost use Rattle.std.specs.Prelude.{◌≡◌, ◌↔◌, IsTrue};
ghost use Rattle.wb_names.specs.Orders.{display_cmp, IsBefore};

use crate::drawop::Drawop;
use std::cmp::Ordering;

/// The order in which drawops are displayed: by time, then by source, then by sequence number. On
/// one page two drawops tie only if they have one name.
#[inline(always)]
pub fn display_order(a: &Drawop, b: &Drawop) -> Ordering
    ensures { result ≡ display_cmp a.now b.now }
{
    a.time()
        .cmp(&b.time())
        .then(a.name().source().cmp(&b.name().source()))
        .then(a.name().seq().cmp(&b.name().seq()))
}

/// Whether `a` is displayed before `b`, so that on a canvas `b` covers it.
#[inline(always)]
pub fn before(a: &Drawop, b: &Drawop) -> bool
    ensures { IsTrue result ↔ IsBefore a.now b.now }
{
    display_order(a, b).is_lt()
}
