ghost use Rattle.std.specs.Prelude.{◌≡◌, ◌<◌, ◌↔◌, ℕ, List};
ghost use Rattle.conda_device.specs.Tree.{Tree};
ghost use Rattle.conda_lane.specs.declared.change.Change.{Change};
ghost use Rattle.conda_lane.specs.Changes.{AreApart, Between, IsStart};
ghost use Rattle.conda_lane.specs.Shares.{AreOwn, IsShared, all_changes};
ghost use Rattle.conda_lane.specs.Undo.{IsCleared, IsMovedBack, IsUndone, undone};

/// Undoing gives the start again, from every state between. What it makes of any tree is said at
/// each path, and there is one such tree. Its halves make it together.
pub fn undo_laws()
    ensures start { (kept tree start : Tree) (changes : List Change) → AreApart changes
        → IsStart start changes → Between kept tree start changes → undone tree changes ≡ start }
    ensures exact { (tree : Tree) (changes : List Change) → AreApart changes
        → IsUndone (undone tree changes) tree changes }
    ensures only { (tree now : Tree) (changes : List Change) → AreApart changes
        → IsUndone now tree changes → now ≡ undone tree changes }
    ensures halves { (tree cleared now : Tree) (changes : List Change) → AreApart changes
        → IsCleared cleared tree changes → IsMovedBack now cleared changes
        → now ≡ undone tree changes }
{}

/// A tree is between where each of its shares is: what holds of the lanes of a prefix, each with
/// changes of its own, holds of the whole tree with all changes, and back.
pub fn share_laws()
    ensures { (kept tree start : Tree) (number : List ℕ → ℕ) (n : ℕ) (trees starts : ℕ → Tree)
        (changes : ℕ → List Change) → ((path : List ℕ) → number path < n)
        → IsShared number trees tree → IsShared number starts start → AreOwn number changes
        → Between kept tree start (all_changes n changes)
        ↔ ((share : ℕ) → share < n
        → Between kept (trees share) (starts share) (changes share)) }
{}
