//! Drawops: each has a name, a time and an operation.

ghost use Rattle.std.specs.Prelude.{◌≡◌};
ghost use Rattle.wb_names.specs.Drawing.{IsLawful};

use crate::name::Name;
use crate::parts::Op;
use std::marker::Model;

/// One named step of a drawing. Its fields never change.
#[derive(Clone, Copy, Debug)]
pub struct Drawop {
    name: Name,
    time: u64,
    op: Op,
}

impl Model for Drawop {
    ghost use Rattle.wb_names.specs.Values.{DrawopValue};
    ghost use Rattle.wb_names.specs.Drawing.{IsLawful};

    ghost Value = { DrawopValue };

    ghost view = { λ d. record { name = d.name; time = d.time; op = d.op } };

    ghost invariant = { λ d. IsLawful d.name d.op };

    ghost inverse = { λ v. record { name = v.name; time = v.time; op = v.op } };
}

impl Drawop {
    /// The drawop with these parts.
    #[inline(always)]
    pub(crate) fn from_parts(name: Name, time: u64, op: Op) -> Drawop
        requires { IsLawful name op }
        ensures { result ≡ record { name = name; time = time; op = op } }
    {
        Drawop { name, time, op }
    }

    /// Its name.
    #[inline(always)]
    pub fn name(&self) -> Name
        ensures { result ≡ self.now.name }
    {
        self.name
    }

    /// Its timestamp, which decides in which order drawops are displayed: any number of the
    /// sender's clock.
    #[inline(always)]
    pub fn time(&self) -> u64
        ensures { result ≡ self.now.time }
    {
        self.time
    }

    /// What it does.
    #[inline(always)]
    pub fn op(&self) -> &Op
        ensures op { result.now ≡ self.now.op }
        ensures lawful { IsLawful self.now.name result.now }
    {
        &self.op
    }
}
