ghost use Rattle.std.specs.Prelude.{◌≡◌, [], IfOk, option_copied};
ghost use Rattle.std.specs.List.{AllByRecursion};
ghost use Rattle.conda_base.specs.Texts.{Ascending};
ghost use Rattle.conda_changes.specs.Counting.{AreFree};
ghost use Rattle.conda_changes.specs.Moves.{AreByPath, AreChangesOf, paths_of};
ghost use Rattle.conda_changes.specs.Trash.{HasTrash};

use crate::moves::{Move, Moves};
use crate::paths::{PathSet, set_of};
use crate::trash::next_trash;
use conda_base::Copied;
use conda_lane::Change;
use conda_path::{Good, RelPath};
use std::alloc::{AllocError, Global};
use std::collections::BTreeMap;

/// What comes, of its own.
fn copied_good(good: Option<&Good>) -> Result<Option<Good>, AllocError>
    ensures { IfOk result (λ made. made ≡ option_copied good.entry) }
{
    match good {
        Some(good) => Ok(Some(good.copy()?)),
        None => Ok(None),
    }
}

/// The change that a move is, with a path in the trash.
fn change_of(one: &Move<'_>, trash: RelPath) -> Result<Change, AllocError>
    ensures { IfOk result (λ change. change ≡ record {
      path = one.now.path.now;
      old = one.now.old;
      new = option_copied one.now.new;
      trash = trash;
    }) }
{
    Ok(Change {
        path: one.path.copy()?,
        old: one.old,
        new: copied_good(one.new)?,
        trash,
    })
}

/// The changes that the moves are, each with the next path in the trash that is free.
fn changes_in_turn(
    alloc: Global,
    moves: &Moves<'_>,
    left: &PathSet<'_>,
    number: u32,
) -> Result<Vec<Change>, AllocError>
    ensures moves { IfOk result (λ changes. AreChangesOf moves.now changes.items) }
    ensures by_path { AreByPath moves.now
        → IfOk result (λ changes. Ascending (paths_of changes.items)) }
    ensures free { IfOk result (λ changes. AreFree left.now number [] changes.items) }
{
    let mut nexts = BTreeMap::new(alloc);
    let mut changes = Vec::new(alloc);
    for one in moves.values() {
        let trash = next_trash(alloc, left, &mut nexts, number, one.path)?;
        changes.push(change_of(one, trash)?)?;
    }
    Ok(changes)
}

/// The changes that the moves are, by path. Each has the least unused number of its path in the
/// trash; those that are left over there are used.
pub fn changes_of(
    alloc: Global,
    moves: &Moves<'_>,
    trash: &[RelPath],
    number: u32,
) -> Result<Vec<Change>, AllocError>
    ensures moves { IfOk result (λ changes. AreChangesOf moves.now changes.items) }
    ensures by_path { AreByPath moves.now
        → IfOk result (λ changes. Ascending (paths_of changes.items)) }
    ensures trash { AreByPath moves.now → IfOk result (λ changes.
        AllByRecursion (HasTrash trash.now number changes.items) changes.items) }
{
    let left = set_of(alloc, trash)?;
    let changes = changes_in_turn(alloc, moves, &left, number)?;
    Ok(changes)
}
