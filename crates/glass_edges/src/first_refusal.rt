//! The law of the words for first refusals.

ghost use Rattle.std.specs.Prelude.{◌≡◌, ℕ, List, Option, Some, None};
ghost use Rattle.glass_edges.specs.Refusals.{first_found, RefusesFirst, RefusesNone};

/// The refusal that `first_found` finds in a list is that of an item such that the test refuses no
/// item before it; where it finds none, the test refuses no item.
pub fn first_found_is_first<A, E>()
    ensures found { (test : ℕ → A → Option E) (xs : List A) (e : E) → first_found test 0 xs ≡ Some e → RefusesFirst test xs e }
    ensures none { (test : ℕ → A → Option E) (xs : List A) → first_found test 0 xs ≡ None → RefusesNone test xs }
{}
