ghost use Rattle.std.specs.Prelude.{◌≡◌, ℕ, IfOk, List, map};
ghost use Rattle.std.specs.BTreeMap.{IsOrdered};
ghost use Rattle.std.specs.Cmp.Lexicographic.{slice_cmp};
ghost use Rattle.std.specs.Ordering.{nat_cmp};
ghost use Rattle.conda_meta.specs.declared.linked.Linked.{Linked};
ghost use Rattle.conda_changes.specs.Moves.{AreByPath};
ghost use Rattle.conda_moves.specs.Coming as coming_spec;
ghost use Rattle.conda_moves.specs.Going as going_spec;
ghost use Rattle.conda_moves.specs.Going.{AreGoing};
ghost use Rattle.conda_moves.specs.Moves.{AreMovesTo};

use crate::filling::{add_files, add_packages, add_parts, moves_of};
use crate::paths::set_of;
use conda_changes::Moves;
use conda_goods::Owned;
use conda_meta::{Linked, Revision};
use conda_path::RelPath;
use std::alloc::{AllocError, Global};

/// That the paths of a map ascend.
fn know_order(moves: &Moves<'_>)
    ensures { IsOrdered (λ x y. slice_cmp nat_cmp x.now y.now) moves.now }
{
    let _count = moves.len();
}

/// What goes and comes at each path with a revision: `going` are the packages that go, `paths` the
/// paths of their meta files, and `files` the new meta files. `others` are the paths that belong to
/// no package, among them those of the `altered` ones at which a node stands.
pub fn moves_to<'a>(
    alloc: Global,
    going: &[&'a Linked],
    paths: &'a [RelPath],
    revision: &'a Revision,
    files: &'a [Owned],
    others: &[RelPath],
    altered: &[RelPath],
) -> Result<Moves<'a>, AllocError>
    requires paths { paths.now ≡ going_spec.file_paths (map (λ r. r.now) going.now) }
    ensures moves { (now : List Linked) (number : ℕ)
        → AreGoing now revision.now (map (λ r. r.now) going.now)
        → files.now ≡ coming_spec.new_files number revision.now
        → IfOk result (AreMovesTo now others.now altered.now number revision.now) }
    ensures by_path { IfOk result (λ moves. AreByPath moves) }
{
    let others = set_of(alloc, others)?;
    let altered = set_of(alloc, altered)?;
    let mut moves = moves_of(alloc, going, &others, &altered)?;
    add_files(&mut moves, paths)?;
    add_packages(&mut moves, revision.linked.as_slice(), &others)?;
    add_parts(&mut moves, files, &others)?;
    know_order(&moves);
    Ok(moves)
}
