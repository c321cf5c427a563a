//! Many drawops that enter a list in the order of display at once.

ghost use Rattle.std.specs.Prelude.{◌≡◌, ◌+◌, ◌≤◌, ◌⊎◌, ◌↔◌, All, Contains, IsTrue, filter, length, take, true, vec_len, vec_capacity};
ghost use Rattle.std.specs.List.Sorted.{IsStrictlySortedBy};
ghost use Rattle.wb_names.specs.Orders.{display_cmp};
ghost use Rattle.wb_names.specs.Listing.{Lists};
ghost use Rattle.wb_display.specs.DisplayList.{AreApart, Enters, ShowsOthers, TieOnce};
ghost use Rattle.wb_display.specs.LastWords.{is_shown_now};

use crate::display_list::is_placed;
use crate::last_words::LastWords;
use wb_names::{Drawop, before, display_order};

/// Merges what enters into the front of a list, from the back: nothing moves that stands before all
/// of it. Behind the front there is a place for each drawop that enters.
fn merge(list: &mut [Drawop], front: usize, entering: &[Drawop])
    requires places { length list.old ≡ front + length entering.now }
    requires front { IsStrictlySortedBy display_cmp (take front list.old) }
    requires entering { IsStrictlySortedBy display_cmp entering.now }
    requires apart { AreApart (take front list.old) entering.now }
    ensures { Lists display_cmp (λ x. Contains (take front list.old) x ⊎
        Contains entering.now x) list.new }
{
    let mut left = front;
    let mut right = entering.len();
    while right > 0 {
        let next = entering[right - 1];
        if left > 0 && before(&next, &list[left - 1]) {
            list[left + right - 1] = list[left - 1];
            left -= 1;
        } else {
            list[left + right - 1] = next;
            right -= 1;
        }
    }
}

/// Puts what enters into its place, in one walk. There is room for it.
fn enter(list: &mut Vec<Drawop>, entering: &[Drawop])
    requires room { vec_len list.old + length entering.now ≤ vec_capacity list.old }
    requires list { IsStrictlySortedBy display_cmp list.old.items }
    requires entering { IsStrictlySortedBy display_cmp entering.now }
    requires apart { AreApart list.old.items entering.now }
    ensures { Lists display_cmp (λ x. Contains list.old.items x ⊎
        Contains entering.now x) list.new.items }
{
    let front = list.len();
    list.extend_from_slice(entering).unwrap();
    merge(list, front, entering);
}

/// Takes out what the last words hide, in one walk, if they hide any of what was touched. They show
/// all else in the list.
fn hide(words: &LastWords, shown: &mut Vec<Drawop>, touched: &[Drawop])
    requires { ShowsOthers (is_shown_now words.now) shown.old.items touched.now }
    ensures items { shown.new.items ≡ filter (is_shown_now words.now) shown.old.items }
    ensures len { vec_len shown.new ≤ vec_len shown.old }
    ensures capacity { vec_capacity shown.new ≡ vec_capacity shown.old }
{
    if !all_shown(words, touched) {
        shown.retain(|drawop| words.is_shown(drawop));
    }
}

/// Whether the last words show each drawop of a list.
fn all_shown(words: &LastWords, list: &[Drawop]) -> bool
    ensures { IsTrue result ↔ All (λ d. is_shown_now words.now d ≡ true) list.now }
{
    list.iter().all(|drawop| words.is_shown(drawop))
}

/// Of the drawops that were touched those that are shown now and are not in the list, each once, in
/// the order of display.
fn entering(words: &LastWords, shown: &[Drawop], mut touched: Vec<Drawop>) -> Vec<Drawop>
    requires { IsStrictlySortedBy display_cmp shown.now }
    ensures len { vec_len result ≤ vec_len touched }
    ensures enters { Enters (is_shown_now words.now) shown.now touched.items result.items }
{
    touched.retain(|drawop| words.is_shown(drawop) && !is_placed(shown, drawop));
    touched.sort_unstable_by(|a, b| display_order(a, b));
    touched.dedup_by(|a, b| display_order(a, b).is_eq());
    touched
}

/// Shows what was touched as the last words say: what they hide leaves the list, and what they show
/// enters it. There is room for all of it, and they say of the other drawops of the list what they
/// said before.
pub(crate) fn show_all(words: &LastWords, shown: &mut Vec<Drawop>, touched: Vec<Drawop>)
    requires room { vec_len shown.old + vec_len touched ≤ vec_capacity shown.old }
    requires rising { IsStrictlySortedBy display_cmp shown.old.items }
    requires ties { TieOnce shown.old.items touched.items }
    requires others { ShowsOthers (is_shown_now words.now) shown.old.items touched.items }
    ensures { Lists display_cmp (λ x. (Contains shown.old.items x ⊎ Contains touched.items x) ×
        (is_shown_now words.now x ≡ true)) shown.new.items }
{
    hide(words, shown, &touched);
    let entering = entering(words, shown, touched);
    enter(shown, &entering);
}
