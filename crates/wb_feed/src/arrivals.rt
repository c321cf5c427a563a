//! Where the drawops of a batch come from.
ghost use Rattle.std.specs.Prelude.{◌≡◌, ℕ, ◌+◌, ◌<◌, ◌≤◌, ◌^◌, [], ◌∷◌, ◌++◌, length, List, Bool, true, IfSome, IfNone};
ghost use Rattle.wb_feed.specs.Inside.Arriving.{NextArrives};

use std::alloc::AllocError;
use wb_names::Drawop;

/// A source of drawops. It may end before all that it has to give is taken.
pub trait Arrivals {
    ghost use Rattle.wb_names.specs.Values.{DrawopValue};

    /// That a source gives these drawops, in order, and is then the other. By it the caller knows
    /// its source again after a batch. It need not be a function of the source and of how many
    /// came: of a script that is being read nobody knows what comes. A batch is proved for each
    /// relation that a source may have, so for the least one too, which has what `next` answered
    /// and nothing else. So a source that says little here only makes its own caller know little.
    ghost gives: { Self → List DrawopValue → Self → Type 0 };

    /// Whether `next` has answered None.
    ghost has_ended: { Self → Bool };

    /// What `most` answers.
    ghost most_to_come: { Self → ℕ };

    /// The next drawop, or None at the end or earlier.
    fn next(&mut self) -> Option<Drawop>
        ensures first { IfSome result (λ d. gives self.old (d ∷ []) self.new) }
        ensures nearer { IfSome result (λ d. most_to_come self.new < most_to_come self.old) }
        ensures rest { IfNone result (gives self.old [] self.new) }
        ensures no_more { IfNone result (most_to_come self.new ≤ most_to_come self.old) }
        ensures ended { IfNone result (has_ended self.new ≡ true) };

    /// A bound on how many drawops are still given. It falls with each of them.
    fn most(&self) -> u32
        ensures { result ≡ most_to_come self.now };

    ghost gives_none: { (s : Self) → gives s [] s };

    ghost gives_on: { (a b c : Self) (ds es : List DrawopValue) → gives a ds b → gives b es c →
        gives a (ds ++ es) c };
}

/// A source whose drawops are known before they are taken: the next N of them are one list, for
/// each N.
pub trait KnownArrivals: Arrivals {
    ghost use Rattle.wb_names.specs.Values.{DrawopValue};

    ghost one_list: { (a b c : Self) (ds es : List DrawopValue) → Self.Arrivals.gives a ds b →
        Self.Arrivals.gives a es c → length ds ≡ length es → ds ≡ es };
}

/// Takes one arrival, once there is room for it, and notes it. Answers its position, from 0, and
/// it.
pub(crate) fn note_next<S: Arrivals>(
    arrivals: &mut S,
    arrived: &mut Vec<Drawop>,
) -> Result<Option<(u32, Drawop)>, AllocError>
    requires { length arrived.old.items + S.most_to_come arrivals.old < 2 ^ 32 }
    ensures { NextArrives S.gives S.most_to_come S.has_ended arrivals.old arrived.old.items
        arrivals.new arrived.new.items result }
{
    arrived.reserve(1)?;
    let position = arrived.len() as u32;
    let Some(drawop) = arrivals.next() else {
        return Ok(None);
    };
    arrived.push_reserved(drawop);
    Ok(Some((position, drawop)))
}
