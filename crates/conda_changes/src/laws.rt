ghost use Rattle.std.specs.Prelude.{◌≡◌, ◌≤◌, ◌<◌, ◌^◌, ℕ, List, length};
ghost use Rattle.std.specs.List.{AllByRecursion};
ghost use Rattle.conda_base.specs.Texts.{Ascending};
ghost use Rattle.conda_path.specs.Lanes.{lane_number, trash_path};
ghost use Rattle.conda_lane.specs.Changes.{AreApart};
ghost use Rattle.conda_lane.specs.declared.change.Change.{Change};
ghost use Rattle.conda_changes.specs.Moves.{paths_of};
ghost use Rattle.conda_changes.specs.Shares.{AreShares, changes_in, share_at};
ghost use Rattle.conda_changes.specs.Trash.{HasTrash, IsOfPath, IsOutsideTrash};

use conda_path::trash_laws;

/// A number that leaves what the sum of a path's bytes leaves puts both in one lane, for each count
/// of lanes from 1 to 16, where the path is none of the trash. So the changes of each lane, dealt by
/// their paths, lie in it with both their paths.
pub fn lane_laws()
    ensures path { (path : List ℕ) (number k lanes : ℕ) → number < 2 ^ 64 → k < 2 ^ 64
        → IsOfPath path k → IsOutsideTrash path → 1 ≤ lanes → lanes ≤ 16
        → lane_number (trash_path number k) lanes ≡ lane_number path lanes }
    ensures shares { (trash : List (List ℕ)) (number lanes : ℕ) (changes : List Change)
        (shares : List (List Change)) → number < 2 ^ 64 → 1 ≤ lanes → lanes ≤ 16
        → Ascending (paths_of changes)
        → AllByRecursion (λ change. IsOutsideTrash change.path) changes
        → AllByRecursion (HasTrash trash number changes) changes → length shares ≡ lanes
        → ((lane : ℕ) → share_at shares lane ≡ changes_in changes lanes lane)
        → AreShares lanes shares }
{
    trash_laws();
}

/// The paths in the trash of different numbers differ. No path is named twice by changes that stand
/// by path and have the least unused numbers, where none of their paths is one of the trash.
pub fn apart_laws()
    ensures number { (number k j : ℕ) → number < 2 ^ 64 → k < 2 ^ 64 → j < 2 ^ 64
        → trash_path number k ≡ trash_path number j → k ≡ j }
    ensures apart { (trash : List (List ℕ)) (number : ℕ) (changes : List Change)
        → number < 2 ^ 64 → Ascending (paths_of changes)
        → AllByRecursion (λ change. IsOutsideTrash change.path) changes
        → AllByRecursion (HasTrash trash number changes) changes → AreApart changes }
{
    trash_laws();
}
