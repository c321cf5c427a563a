//! The law of the limit. The function does nothing: its contract is the law, for callers to cite.

ghost use Rattle.std.specs.Prelude.{◌≡◌};
ghost use Rattle.wb_history.specs.declared.history.TheConstants.{MAX_CELLS};

/// The most cells of a history.
pub fn limits()
    ensures { MAX_CELLS ≡ 65535 }
{}
