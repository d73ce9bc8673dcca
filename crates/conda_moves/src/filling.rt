ghost use Rattle.std.specs.Prelude.{◌≡◌, ◌↔◌, ◌++◌, [], ℕ, IfOk, IsTrue, List, OnOk, map};
ghost use Rattle.std.specs.List.{flat_map};
ghost use Rattle.conda_path.specs.declared.values.Good.{Good};
ghost use Rattle.conda_goods.specs.Conflicts.{goods_of};
ghost use Rattle.conda_goods.specs.Goods.{paths_of};
ghost use Rattle.conda_changes.specs.Paths.{Texts};
ghost use Rattle.conda_moves.specs.Filling.{AreMoves, IsLeft, IsStanding};
ghost use Rattle.conda_moves.specs.Going.{good_paths};

use crate::paths::PathSet;
use conda_changes::{Move, Moves};
use conda_goods::Owned;
use conda_meta::Linked;
use conda_path::{Good, RelPath};
use std::alloc::{AllocError, Global};
use std::collections::BTreeMap;

/// Whether a node stands at the path of a good that goes. It takes no memory.
fn is_left(others: &PathSet<'_>, altered: &PathSet<'_>, path: &str) -> bool
    ensures { IsTrue result ↔ IsLeft others.now altered.now path.now }
{
    !altered.contains(path) || others.contains(path)
}

/// Adds the paths of a package's goods, which go.
fn add_going<'a>(
    moves: &mut Moves<'a>,
    goods: &'a [Good],
    others: &PathSet<'_>,
    altered: &PathSet<'_>,
) -> Result<(), AllocError>
    ensures { (gone : List (List ℕ)) → AreMoves others.now altered.now gone [] [] moves.old
        → OnOk result (AreMoves others.now altered.now
        (gone ++ paths_of goods.now) [] [] moves.new) }
{
    for good in goods {
        let path = &good.path;
        let text = path.as_str();
        let old = is_left(others, altered, text);
        let new = None;
        let _ = moves.insert(text, Move { path, old, new })?;
    }
    Ok(())
}

/// The moves of the goods of packages that go.
pub fn moves_of<'a>(
    alloc: Global,
    going: &[&'a Linked],
    others: &PathSet<'_>,
    altered: &PathSet<'_>,
) -> Result<Moves<'a>, AllocError>
    ensures { IfOk result (AreMoves others.now altered.now
        (good_paths (map (λ r. r.now) going.now)) [] []) }
{
    let mut moves = BTreeMap::new(alloc);
    for one in going {
        add_going(&mut moves, one.goods.list(), others, altered)?;
    }
    Ok(moves)
}

/// Adds the paths of meta files, which go.
pub fn add_files<'a>(moves: &mut Moves<'a>, paths: &'a [RelPath]) -> Result<(), AllocError>
    ensures { (others altered : Texts) (gone : List (List ℕ)) →
        AreMoves others altered gone [] [] moves.old
        → OnOk result (AreMoves others altered gone paths.now [] moves.new) }
{
    for path in paths {
        let text = path.as_str();
        let old = true;
        let new = None;
        let _ = moves.insert(text, Move { path, old, new })?;
    }
    Ok(())
}

/// Whether a node stands at the path of what comes. It takes no memory.
fn is_standing(moves: &Moves<'_>, others: &PathSet<'_>, path: &str) -> bool
    ensures { (altered : Texts) (gone files : List (List ℕ)) (comes : List Good) →
        AreMoves others.now altered gone files comes moves.now
        → IsTrue result ↔ IsStanding others.now altered gone files path.now }
{
    match moves.get(path) {
        Some(going) => going.old,
        None => others.contains(path),
    }
}

/// Adds goods that come.
fn add_goods<'a>(
    moves: &mut Moves<'a>,
    goods: &'a [Good],
    others: &PathSet<'_>,
) -> Result<(), AllocError>
    ensures { (altered : Texts) (gone files : List (List ℕ)) (comes : List Good) →
        AreMoves others.now altered gone files comes moves.old
        → OnOk result (AreMoves others.now altered gone files (comes ++ goods.now) moves.new) }
{
    for good in goods {
        let path = &good.path;
        let text = path.as_str();
        let old = is_standing(moves, others, text);
        let new = Some(good);
        let _ = moves.insert(text, Move { path, old, new })?;
    }
    Ok(())
}

/// Adds the goods of packages that are linked.
pub fn add_packages<'a>(
    moves: &mut Moves<'a>,
    linked: &'a [Linked],
    others: &PathSet<'_>,
) -> Result<(), AllocError>
    ensures { (altered : Texts) (gone files : List (List ℕ)) (comes : List Good) →
        AreMoves others.now altered gone files comes moves.old
        → OnOk result (AreMoves others.now altered gone files
        (comes ++ flat_map (λ one. one.goods) linked.now) moves.new) }
{
    for one in linked {
        add_goods(moves, one.goods.list(), others)?;
    }
    Ok(())
}

/// Adds the meta files that come.
pub fn add_parts<'a>(
    moves: &mut Moves<'a>,
    parts: &'a [Owned],
    others: &PathSet<'_>,
) -> Result<(), AllocError>
    ensures { (altered : Texts) (gone files : List (List ℕ)) (comes : List Good) →
        AreMoves others.now altered gone files comes moves.old
        → OnOk result (AreMoves others.now altered gone files
        (comes ++ goods_of parts.now) moves.new) }
{
    for part in parts {
        add_goods(moves, part.goods.list(), others)?;
    }
    Ok(())
}
