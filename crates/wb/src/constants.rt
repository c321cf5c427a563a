//! The constants of the timers, as a word of the command line.
ghost use Rattle.std.specs.Prelude.{◌≡◌, ℕ, true, MatchResult};
ghost use Rattle.wb_recovery.specs.Timing.{are_constants};
ghost use Rattle.wb.specs.CommandLine.{HasComma, IsConstant, before_comma, behind_comma};

use std::marker::Model;
use std::str::FromStr;
use wb_recovery::Tuning;

/// The constants of the timers, each from 1 to 16.
#[derive(Drop)]
pub struct Constants {
    tuning: Tuning,
}

impl Model for Constants {
    ghost use Rattle.std.specs.Prelude.{◌≡◌, true};
    ghost use Rattle.wb_recovery.specs.Timing.{are_constants};
    ghost use Rattle.wb_recovery.specs.declared.tuning.Tuning.{Tuning};

    ghost Value = { Tuning };

    ghost view = { λ c. c.tuning };

    ghost invariant = { λ c. are_constants c.tuning ≡ true };
}

/// A word that is not four numbers from 1 to 16 with commas between them.
#[derive(Clone, Copy, Debug, PartialEq, Eq, Drop)]
pub struct WrongConstants;

impl Constants {
    pub fn tuning(self) -> Tuning
        ensures value { result ≡ self }
        ensures range { are_constants result ≡ true }
    {
        self.tuning
    }
}

impl Default for Constants {
    ghost use Rattle.std.specs.Prelude.{◌≡◌};

    ghost is_default = { λ t. t ≡ record { c1 = 2; c2 = 2; d1 = 1; d2 = 1 } };

    /// Those of a script.
    fn default() -> Constants {
        Constants {
            tuning: Tuning::default(),
        }
    }
}

/// Reads one of the constants, which is digits alone.
fn constant(word: &str) -> Result<u32, WrongConstants>
    ensures { MatchResult result (λ n. IsConstant word.now n)
        (λ _. (n : ℕ) → IsConstant word.now n → ⊥) }
{
    if word.starts_with('+') {
        return Err(WrongConstants);
    }
    match word.parse() {
        Ok(number) => Ok(number),
        Err(_) => Err(WrongConstants),
    }
}

/// What stands before the first comma, and after it.
fn at_comma(text: &str) -> Result<(&str, &str), WrongConstants>
    ensures { MatchResult result (λ parts. HasComma text.now
        × (parts.0.now ≡ before_comma text.now) × (parts.1.now ≡ behind_comma text.now))
        (λ _. ¬ (HasComma text.now)) }
{
    match text.split_once(',') {
        Some(parts) => Ok(parts),
        None => Err(WrongConstants),
    }
}

/// Reads `C1,C2,D1,D2`.
impl FromStr for Constants {
    type Err = WrongConstants;

    ghost use Rattle.std.specs.Prelude.{MatchResult};
    ghost use Rattle.wb.specs.CommandLine.{SaysTuning};
    ghost use Rattle.wb_recovery.specs.declared.tuning.Tuning.{Tuning};

    ghost from_str_gives = { λ text r. MatchResult r (SaysTuning text)
        (λ _. (t : Tuning) → SaysTuning text t → ⊥) };

    fn from_str(text: &str) -> Result<Constants, WrongConstants> {
        let front = at_comma(text)?;
        let middle = at_comma(front.1)?;
        let back = at_comma(middle.1)?;
        let c1 = constant(front.0)?;
        let c2 = constant(middle.0)?;
        let d1 = constant(back.0)?;
        let d2 = constant(back.1)?;
        let tuning = Tuning { c1, c2, d1, d2 };
        if tuning.is_in_range() {
            Ok(Constants { tuning })
        } else {
            Err(WrongConstants)
        }
    }
}
