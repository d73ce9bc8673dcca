ghost use Rattle.std.specs.Prelude.{◌≡◌, Contains, false, true};
ghost use Rattle.std.specs.List.{AllByRecursion};
ghost use Rattle.std.specs.Str.{bytes_eq};
ghost use Rattle.conda_lane.specs.Changes.{AreApart, AreChanges, AreMovedOut, IsMovedOut, at};
ghost use Rattle.conda_lane.specs.Changes.{IsReady, IsStart, names};
ghost use Rattle.conda_lane.specs.Supplies.{AreGoodsOf, HasGood};
ghost use Rattle.conda_lane.specs.Undo.{CanMoveBack, HasOneNode};

use conda_dev::{Lane, MemLane, Tree};
use conda_lane::Change;
use conda_path::{Good, RelPath};

/// Whether no change names the path.
fn is_free(path: &RelPath, changes: &[Change]) -> bool
    ensures { result ≡ true →
        AllByRecursion (λ name. bytes_eq path.now name ≡ false) (names changes.now) }
{
    match changes {
        [] => true,
        [first, rest @ ..] => *path != first.path && *path != first.trash && is_free(path, rest),
    }
}

/// Whether the two paths of a change differ, and no other change names them.
fn is_apart(change: &Change, others: &[Change]) -> bool
    ensures own { result ≡ true → bytes_eq change.now.path change.now.trash ≡ false }
    ensures path { result ≡ true →
        AllByRecursion (λ name. bytes_eq change.now.path name ≡ false) (names others.now) }
    ensures trash { result ≡ true →
        AllByRecursion (λ name. bytes_eq change.now.trash name ≡ false) (names others.now) }
{
    if change.path == change.trash {
        return false;
    }
    if !is_free(&change.path, others) {
        return false;
    }
    is_free(&change.trash, others)
}

/// Whether no path is named twice.
pub fn are_apart(changes: &[Change]) -> bool
    ensures { result ≡ true → AreApart changes.now }
{
    match changes {
        [] => true,
        [first, rest @ ..] => {
            if !is_apart(first, rest) {
                return false;
            }
            are_apart(rest)
        }
    }
}

/// Whether the change may start in the tree.
fn is_ready(tree: &Tree, change: &Change) -> bool
    ensures { result ≡ true → IsReady tree.now change.now }
{
    tree.contains(&change.path) == change.old && !tree.contains(&change.trash)
}

/// Whether the changes may start in the tree.
pub fn are_ready(tree: &Tree, changes: &[Change]) -> bool
    ensures { result ≡ true → IsStart tree.now changes.now }
{
    match changes {
        [] => true,
        [first, rest @ ..] => is_ready(tree, first) && are_ready(tree, rest),
    }
}

/// Whether the old node of the change is in the trash, and nothing stands at its path.
fn is_moved_out(tree: &Tree, change: &Change) -> bool
    ensures { result ≡ true → IsMovedOut tree.now change.now }
{
    !tree.contains(&change.path) && tree.contains(&change.trash) == change.old
}

/// Whether all old nodes are moved out of the tree.
pub fn are_moved_out(tree: &Tree, changes: &[Change]) -> bool
    ensures { result ≡ true → AreMovedOut tree.now changes.now }
{
    match changes {
        [] => true,
        [first, rest @ ..] => is_moved_out(tree, first) && are_moved_out(tree, rest),
    }
}

/// Whether a change with an old node has none both at its path and in the trash.
fn has_one_node(tree: &Tree, change: &Change) -> bool
    ensures { result ≡ true → HasOneNode change.now.old
        (at tree.now change.now.path) (at tree.now change.now.trash) }
{
    !change.old || !tree.contains(&change.path) || !tree.contains(&change.trash)
}

/// Whether the old nodes of all changes may be moved back.
pub fn can_move_back(tree: &Tree, changes: &[Change]) -> bool
    ensures { result ≡ true → CanMoveBack tree.now changes.now }
{
    match changes {
        [] => true,
        [first, rest @ ..] => has_one_node(tree, first) && can_move_back(tree, rest),
    }
}

/// Whether this is one of the goods.
pub fn has(goods: &[Good], good: &Good) -> bool
    ensures { result ≡ true → Contains goods.now good.now }
{
    match goods {
        [] => false,
        [first, rest @ ..] => *first == *good || has(rest, good),
    }
}

/// Whether the new good of a change, if there is one, is of its path and among these.
fn has_good(goods: &[Good], change: &Change) -> bool
    ensures { result ≡ true → HasGood goods.now change.now.path change.now.new }
{
    match &change.new {
        Some(good) => good.path == change.path && has(goods, good),
        None => true,
    }
}

/// Whether the new goods of all changes are of their paths and among these.
pub fn are_goods_of(goods: &[Good], changes: &[Change]) -> bool
    ensures { result ≡ true → AreGoodsOf goods.now changes.now }
{
    match changes {
        [] => true,
        [first, rest @ ..] => has_good(goods, first) && are_goods_of(goods, rest),
    }
}

/// Changes that are apart lie in the only lane.
pub fn one_lane(lane: &MemLane, changes: &[Change])
    requires number { lane.now.number ≡ 0 }
    requires lanes { lane.now.lanes ≡ 1 }
    requires apart { AreApart changes.now }
    ensures { AreChanges (⟦<MemLane as Lane>⟧.share lane.now) changes.now }
{}
