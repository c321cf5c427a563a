//! A list in the order of display, which drawops enter and leave.

ghost use Rattle.std.specs.Prelude.{◌≡◌, ◌<◌, ◌≤◌, vec_len, vec_capacity};
ghost use Rattle.std.specs.List.Sorted.{IsStrictlySortedBy};
ghost use Rattle.wb_names.specs.Orders.{display_cmp};
ghost use Rattle.wb_display.specs.DisplayList.{IsPlaceOf, SetsShown, TiesAlone, ties_with};

use wb_names::{Drawop, before, display_order};

/// Where a drawop stands in the list, or where it would: at the end in constant time, else by
/// search.
fn place_in(list: &[Drawop], drawop: &Drawop) -> Result<usize, usize>
    ensures { IsPlaceOf list.now drawop.now result }
{
    match list.last() {
        None => Err(0),
        Some(last) if before(last, drawop) => Err(list.len()),
        Some(_) => list.binary_search_by(|other| display_order(other, drawop)),
    }
}

/// Puts a drawop into the list if it is to be shown, and takes it out if it is not. The list has
/// room for one more.
pub(crate) fn set_shown(list: &mut Vec<Drawop>, drawop: &Drawop, shows: bool)
    requires { vec_len list.old < vec_capacity list.old }
    ensures { IsStrictlySortedBy display_cmp list.old.items → TiesAlone list.old.items drawop.now →
        SetsShown drawop.now shows list.old.items list.new.items }
{
    match place_in(list, drawop) {
        Ok(place) => {
            if !shows {
                list.remove(place);
            }
        }
        Err(place) => {
            if shows {
                list.insert(place, *drawop).unwrap();
            }
        }
    }
}

/// Whether the list holds what ties with a drawop.
#[tactic(auto, using(crate::proofs::ShowingAll::placed_is))]
pub(crate) fn is_placed(list: &[Drawop], drawop: &Drawop) -> bool
    ensures { IsStrictlySortedBy display_cmp list.now → result ≡ ties_with list.now drawop.now }
{
    place_in(list, drawop).is_ok()
}
