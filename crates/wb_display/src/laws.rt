//! Laws of what a page shows, and of the size of a canvas. Each function does nothing: its contract is a law, for proofs to
//! cite.

ghost use Rattle.std.specs.Prelude.{◌≡◌};
ghost use Rattle.wb_display.specs.declared.canvas.TheConstants.Canvas.{MAX_WIDTH, MAX_HEIGHT};
ghost use Rattle.wb_display.specs.Laws.{Converges, StaysAView, KeepsTheFirst, PaintsAlike, AgreesWithOlderRule, PutsShow, StandsAlone, HoldsItsPage, HoldsAHistory, LinesStepByOne};

/// Histories that hold the same drawops, in any order, show the same list on every page.
pub fn order_is_free()
    ensures { Converges }
{}

/// A view of a history is a view of each history that holds the same drawops, in any order.
pub fn view_is_free()
    ensures { StaysAView }
{}

/// Histories that hold the same drawops, in any order, paint the same canvas of every page and
/// size.
pub fn canvas_is_free()
    ensures { PaintsAlike }
{}

/// If nothing is restored, what is shown is what the older rule showed: it hid a drawop if some
/// delete names it.
pub fn older_rule()
    ensures { AgreesWithOlderRule }
{}

/// What one more drawop changes of what a page shows: a drawing enters unless it is hidden, a
/// delete takes its target out and a restore brings it back, unless a later one names that.
pub fn put_shows()
    ensures { PutsShow }
{}

/// The drawops of other pages change nothing of what a page shows.
pub fn page_stands_alone()
    ensures { StandsAlone }
{}

/// A layer that was given a history holds what the history has of its page, in the same order.
#[tactic(auto, using(crate::proofs::Pages::holds_its_page))]
pub fn layer_holds_its_page()
    ensures { HoldsItsPage }
{}

/// Whatever is put on a layer, it holds no name twice.
#[tactic(auto, using(crate::proofs::Pages::holds_a_history))]
pub fn layer_holds_a_history()
    ensures { HoldsAHistory }
{}

/// Of two drawops of one name a layer keeps the one that was put first.
pub fn layer_keeps_the_first()
    ensures { KeepsTheFirst }
{}

/// Each point of a line is one step on along the longer distance, and a line with equal ends is one
/// point.
pub fn line_steps()
    ensures { LinesStepByOne }
{}

/// The most columns and rows of a canvas.
pub fn limits()
    ensures { (MAX_WIDTH ≡ 200) × (MAX_HEIGHT ≡ 100) }
{}
