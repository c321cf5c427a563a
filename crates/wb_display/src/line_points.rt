//! The points of a line, one after another. Along its longer distance a line goes on by one each
//! step; along the other by a running error, an addition and a test for each point. No division but
//! those that find the steps at which the line is on the canvas. Each point is proved to be the one
//! that the division gives.

ghost use Rattle.std.specs.Prelude.{◌≡◌, ℕ, ◌<◌, ◌≤◌, ◌+◌};
ghost use Rattle.wb_display.specs.Canvas.{distance as distance_of, line_at, share};

use std::marker::Model;

/// One coordinate of a point that goes from one number to another in equal steps, each position to
/// the nearest.
#[derive(Drop)]
pub(crate) struct Walk {
    from: u16,
    to: u16,
    steps: u16,
    gone: u16,
    at: u16,
    /// What the division by twice the steps leaves, from 0.
    error: u32,
}

impl Model for Walk {
    ghost use Rattle.wb_display.specs.Walking.{Progress};

    ghost Value = { Progress };

    ghost use Rattle.wb_display.specs.Walks.{IsWalk};

    ghost view = { λ w. record { from = w.from; to = w.to; steps = w.steps; gone = w.gone } };

    ghost invariant = { IsWalk };
}

impl Walk {
    /// A coordinate at `from`, on its way to `to` in `steps` steps.
    #[inline(always)]
    #[tactic(auto, using(crate::proofs::Lines::start))]
    fn new(from: u16, to: u16, steps: u16) -> Walk
        requires { distance_of from to ≤ steps }
        ensures { result ≡ record { from = from; to = to; steps = steps; gone = 0 } }
    {
        Walk {
            from,
            to,
            steps,
            gone: 0,
            at: from,
            error: u32::from(steps),
        }
    }

    /// A coordinate on its way from `from` to `to` in `steps` steps, of which it has gone `gone`.
    pub fn after(from: u16, to: u16, steps: u16, gone: u16) -> Walk
        requires reach { distance_of from to ≤ steps }
        requires within { gone ≤ steps }
        ensures { result ≡ record { from = from; to = to; steps = steps; gone = gone } }
    {
        if gone == 0 {
            return Walk::new(from, to, steps);
        }
        let way = 2 * usize::from(gone) * usize::from(from.abs_diff(to)) + usize::from(steps);
        let whole = 2 * usize::from(steps);
        let moved = (way / whole) as u16;
        let error = (way % whole) as u32;
        let at = if from <= to {
            from + moved
        } else {
            from - moved
        };
        Walk {
            from,
            to,
            steps,
            gone,
            at,
            error,
        }
    }

    /// Where it is.
    #[inline(always)]
    pub fn at(&self) -> u16
        ensures { result ≡ line_at self.now.from self.now.to self.now.steps self.now.gone }
    {
        self.at
    }

    /// Goes one step. The position moves when the error has grown to a whole.
    #[inline(always)]
    pub fn step(&mut self)
        requires { self.old.gone < self.old.steps }
        ensures { self.new ≡ record self.old { gone = self.old.gone + 1 } }
    {
        self.error += 2 * u32::from(self.from.abs_diff(self.to));
        self.gone += 1;
        let whole = 2 * u32::from(self.steps);
        if self.error >= whole {
            self.error -= whole;
            if self.from <= self.to {
                self.at += 1;
            } else {
                self.at -= 1;
            }
        }
    }
}

/// Where a coordinate is that moves by one each step.
#[inline(always)]
#[tactic(auto, using(crate::proofs::Lines::back_by_one))]
pub(crate) fn along(from: u16, to: u16, gone: usize) -> usize
    requires { gone ≤ distance_of from to }
    ensures { result ≡ line_at from to (distance_of from to) gone }
{
    if from <= to {
        usize::from(from) + gone
    } else {
        usize::from(from) - gone
    }
}

/// Steps of a line: from the first one up to the end, which is none of them.
#[derive(Clone, Copy)]
pub(crate) struct Steps {
    pub first: usize,
    pub end: usize,
}

/// The step at which a coordinate has moved so far, of those that take it over the distance.
fn step_moved(distance: u16, steps: u16, moved: usize) -> usize
    requires some { 0 < moved }
    requires fits { moved ≤ distance }
    requires reach { distance ≤ steps }
    ensures before { (k : ℕ) → k < result → share distance k steps < moved }
    ensures after { (k : ℕ) → result ≤ k → moved ≤ share distance k steps }
    ensures within { result ≤ steps }
{
    ((2 * moved - 1) * usize::from(steps)).div_ceil(2 * usize::from(distance))
}

/// The steps at which a coordinate on its way from `from` to `to` is before `end`, in cells.
#[tactic(auto, using(crate::proofs::Lines::steps_inside))]
pub(crate) fn steps_inside(from: u16, to: u16, steps: u16, end: usize) -> Steps
    requires { distance_of from to ≤ steps }
    ensures before { (k : ℕ) → k < result.first → end ≤ line_at from to steps k }
    ensures inside { (k : ℕ) → result.first ≤ k → k < result.end → line_at from to steps k < end }
    ensures after { (k : ℕ) → result.end ≤ k → k ≤ steps → end ≤ line_at from to steps k }
    ensures within { result.end ≤ steps + 1 }
{
    let all = usize::from(steps) + 1;
    if usize::from(from.max(to)) < end {
        return Steps { first: 0, end: all };
    }
    if end <= usize::from(from.min(to)) {
        return Steps { first: 0, end: 0 };
    }
    if from < to {
        let gone = step_moved(to - from, steps, end - usize::from(from));
        return Steps {
            first: 0,
            end: gone,
        };
    }
    let gone = step_moved(from - to, steps, usize::from(from) - end + 1);
    Steps {
        first: gone,
        end: all,
    }
}
