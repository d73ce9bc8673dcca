ghost use Rattle.std.specs.Prelude.{◌≡◌, ◌↔◌, ℕ, List};
ghost use Rattle.std.specs.Cmp.Lexicographic.{slice_cmp};
ghost use Rattle.std.specs.List.{AllPairs};
ghost use Rattle.std.specs.Ordering.{nat_cmp};
ghost use Rattle.conda_base.specs.Texts.{Ascending};

use std::cmp::Ordering;

/// Texts ascend where each comes before every later one by its bytes, so that none stands twice.
pub fn ascending_laws()
    ensures { (texts : List (List ℕ)) →
        Ascending texts ↔ AllPairs (λ a b. slice_cmp nat_cmp a b ≡ Ordering.Less) texts }
{}
