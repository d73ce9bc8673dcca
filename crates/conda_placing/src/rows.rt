ghost use Rattle.std.specs.Prelude.{◌≡◌, ◌+◌, ◌<◌, ◌≤◌, ◌^◌, ◌++◌, ◌↔◌, [], ◌∷◌, IfErr, IfOk, IfSome};
ghost use Rattle.std.specs.Prelude.{IsTrue, List, OnOk, false, length, not, option_copied, ℕ};
ghost use Rattle.std.specs.List.{AllByRecursion, Contains, list_any};
ghost use Rattle.conda_base.specs.Texts.{is_text};
ghost use Rattle.conda_paths.specs.Listings.{HasPaths, is_meta};
ghost use Rattle.conda_link.specs.Places.{IsPython};
ghost use Rattle.conda_placing.specs.Content.{HasOrigin};
ghost use Rattle.conda_placing.specs.Placing as placing;
ghost use Rattle.conda_placing.specs.Placing.{AreAllowed, GivesPlace, IsLinkEntry, IsReadPackage};
ghost use Rattle.conda_placing.specs.Placing.{LacksPython, placings_of, places_of, row_placing};
ghost use Rattle.conda_placing.specs.Placing.{script_placings};
ghost use Rattle.conda_placing.specs.Refusals.{Refuses, RefusesPlacings, RefusesRow, RefusesScript};

use crate::error::PlacingErr;
use crate::package::Package;
use crate::places::{as_able, entry_place, lacks_python, python_for, row_kind, row_place};
use crate::placing::{Origin, Placing};
use conda_base::Copied;
use conda_device::{Abilities, Shown};
use conda_link::EntryPoint;
use conda_path::{Kind, RelPath};
use conda_paths::{ListingWhy, Row};
use std::alloc::{AllocError, Global};
use std::collections::BTreeSet;

/// Whether the set lacks a path, which it then has.
fn is_new(places: &mut BTreeSet<RelPath>, path: &RelPath) -> Result<bool, AllocError>
    ensures new { (before : List (List ℕ)) → HasPaths places.old before →
        IfOk result (λ new. new ≡ not (list_any (is_text path.now) before)) }
    ensures places { (before : List (List ℕ)) → HasPaths places.old before →
        OnOk result (HasPaths places.new (before ++ path.now ∷ [])) }
{
    Ok(places.insert(path.copy()?)?)
}

/// Puts a placing behind others, unless its place is too long or one of them has it.
fn put(
    made: &mut Vec<Placing>,
    places: &mut BTreeSet<RelPath>,
    place: Option<RelPath>,
    kind: Kind,
    from: Origin,
    row: u64,
) -> Result<(), PlacingErr>
    requires { HasPaths places.old (places_of made.old.items) }
    ensures made { (path : List ℕ) → GivesPlace place path → OnOk result (made.new.items
        ≡ made.old.items ++ record { path = path; kind = kind; from = from } ∷ []) }
    ensures short { (path : List ℕ) → GivesPlace place path → OnOk result (length path ≤ 1024) }
    ensures new { (path : List ℕ) → GivesPlace place path →
        OnOk result (¬ Contains (places_of made.old.items) path) }
    ensures places { OnOk result (HasPaths places.new (places_of made.new.items)) }
    ensures refused { (path : List ℕ) → GivesPlace place path → IfErr result (RefusesScript row
        made.old.items (record { path = path; kind = kind; from = from } ∷ [])) }
{
    let Some(path) = place else {
        return Err(PlacingErr::BadListing {
            row,
            why: ListingWhy::Path,
        });
    };
    if !is_new(places, &path)? {
        return Err(PlacingErr::BadListing {
            row,
            why: ListingWhy::Path,
        });
    }
    made.push(Placing { path, kind, from })?;
    Ok(())
}

/// Whether it is a soft link where none can be made. It takes no memory.
fn is_no_link(kind: Kind, abilities: Abilities) -> bool
    ensures { IsTrue result ↔ ((kind ≡ Kind.Soft) × (abilities.soft ≡ false)) }
{
    kind == Kind::Soft && !abilities.soft
}

/// Puts what a row gives behind others.
fn put_row(
    alloc: Global,
    made: &mut Vec<Placing>,
    places: &mut BTreeSet<RelPath>,
    python: Option<&str>,
    abilities: Abilities,
    at: usize,
    row: &Row,
    shown: &Option<Shown>,
) -> Result<(), PlacingErr>
    requires places { HasPaths places.old (places_of made.old.items) }
    requires allowed { AreAllowed abilities made.old.items }
    requires python { IfSome (option_copied python) IsPython }
    ensures made { OnOk result (made.new.items ≡ made.old.items
        ++ row_placing (option_copied python.entry) abilities.exec at row.now shown.now) }
    ensures places { OnOk result (HasPaths places.new (places_of made.new.items)) }
    ensures allowed { OnOk result (AreAllowed abilities made.new.items) }
    ensures refused { IfErr result (RefusesRow abilities at row.now made.old.items
        (row_placing (option_copied python.entry) abilities.exec at row.now shown.now)) }
{
    let Some(kind) = row_kind(row.kind, shown) else {
        return Ok(());
    };
    let kind = as_able(abilities.exec, kind);
    let place = row_place(alloc, python, &row.path)?;
    put(made, places, place, kind, Origin::Row(at), at as u64)?;
    if is_no_link(kind, abilities) {
        return Err(PlacingErr::NoSoftLink {
            path: row.path.copy()?,
        });
    }
    Ok(())
}

/// What the rows of a package give.
fn row_placings(
    alloc: Global,
    places: &mut BTreeSet<RelPath>,
    python: Option<&str>,
    abilities: Abilities,
    pkg: &Package,
) -> Result<Vec<Placing>, PlacingErr>
    requires pkg { IsReadPackage pkg.now }
    requires python { IfSome (option_copied python) IsPython }
    requires places { HasPaths places.old [] }
    ensures made { IfOk result (λ made. made.items ≡ placing.row_placings (option_copied python.entry)
        abilities.exec 0 pkg.now.listing.rows pkg.now.shown) }
    ensures places { IfOk result (λ made. HasPaths places.new (places_of made.items)) }
    ensures allowed { IfOk result (λ made. AreAllowed abilities made.items) }
    ensures refused { IfErr result (Refuses pkg.now abilities (placing.row_placings
        (option_copied python.entry) abilities.exec 0 pkg.now.listing.rows pkg.now.shown)) }
{
    let rows = pkg.listing.rows.as_slice();
    let shown = pkg.shown.as_slice();
    let mut made = Vec::new(alloc);
    for (at, row) in rows.iter().enumerate() {
        put_row(
            alloc, &mut made, places, python, abilities, at, row, &shown[at],
        )?;
    }
    Ok(made)
}

/// Puts the script of an entry point behind others.
fn put_script(
    alloc: Global,
    made: &mut Vec<Placing>,
    places: &mut BTreeSet<RelPath>,
    abilities: Abilities,
    rows: usize,
    at: usize,
    entry: &EntryPoint,
) -> Result<(), PlacingErr>
    requires places { HasPaths places.old (places_of made.old.items) }
    requires allowed { AreAllowed abilities made.old.items }
    requires entry { IsLinkEntry entry.now }
    requires number { rows + at < 2 ^ 64 }
    ensures made { OnOk result (made.new.items
        ≡ made.old.items ++ script_placings abilities.exec at (entry.now ∷ [])) }
    ensures places { OnOk result (HasPaths places.new (places_of made.new.items)) }
    ensures allowed { OnOk result (AreAllowed abilities made.new.items) }
    ensures refused { IfErr result (RefusesScript (rows + at) made.old.items
        (script_placings abilities.exec at (entry.now ∷ []))) }
{
    let place = entry_place(alloc, entry)?;
    let kind = as_able(abilities.exec, Kind::Exec);
    let number = rows as u64 + at as u64;
    put(made, places, place, kind, Origin::Entry(at), number)
}

/// Puts the scripts of entry points behind what the rows give.
fn put_scripts(
    alloc: Global,
    made: &mut Vec<Placing>,
    places: &mut BTreeSet<RelPath>,
    abilities: Abilities,
    pkg: &Package,
) -> Result<(), PlacingErr>
    requires pkg { IsReadPackage pkg.now }
    requires places { HasPaths places.old (places_of made.old.items) }
    requires allowed { AreAllowed abilities made.old.items }
    ensures made { OnOk result (made.new.items ≡ made.old.items
        ++ script_placings abilities.exec 0 pkg.now.link.entries) }
    ensures allowed { OnOk result (AreAllowed abilities made.new.items) }
    ensures refused { IfErr result (Refuses pkg.now abilities (made.old.items
        ++ script_placings abilities.exec 0 pkg.now.link.entries)) }
{
    let rows = pkg.listing.rows.as_slice().len();
    let entries = pkg.link.entries.as_slice();
    for (at, entry) in entries.iter().enumerate() {
        put_script(alloc, made, places, abilities, rows, at, entry)?;
    }
    Ok(())
}

/// What a package gives whose code is for this Python, or for none.
fn placings_for(
    alloc: Global,
    python: Option<&str>,
    abilities: Abilities,
    pkg: &Package,
) -> Result<Vec<Placing>, PlacingErr>
    requires pkg { IsReadPackage pkg.now }
    requires python { IfSome (option_copied python) IsPython }
    ensures made { IfOk result (λ made.
        made.items ≡ placing.placings_for (option_copied python.entry) pkg.now abilities) }
    ensures allowed { IfOk result (λ made. AreAllowed abilities made.items) }
    ensures refused { IfErr result (Refuses pkg.now abilities
        (placing.placings_for (option_copied python.entry) pkg.now abilities)) }
{
    let mut places = BTreeSet::new(alloc);
    let mut made = row_placings(alloc, &mut places, python, abilities, pkg)?;
    if python.is_none() {
        return Ok(made);
    }
    put_scripts(alloc, &mut made, &mut places, abilities, pkg)?;
    Ok(made)
}

/// What a package gives in an environment: in order of its rows and entry points, where each file
/// goes, as what, and whence. Directory rows give nothing. A file has the kind that the channel
/// shows, and `File` where it shows a soft link; a soft link's row gives what the channel shows
/// there. Where `abilities` have no executable bit, `Exec` becomes `File`. Of a package of Python
/// code that fits every Python, `site-packages/..` goes to `lib/pythonX.Y/site-packages/..` and
/// `python-scripts/..` to `bin/..`, and each entry point gives a script in `bin/`. `python` is the
/// environment's X.Y (conda's `path_actions.py` and `common/path.py`).
///
/// `NoPython` comes where such a package has no X.Y. Else the first row or entry point that is
/// refused is named: `BadListing` where the new place is too long or stood before, also where it is
/// a soft link; `NoSoftLink`, with the row's path, where none can be made.
pub fn placings(
    alloc: Global,
    pkg: &Package,
    python: Option<&str>,
    abilities: Abilities,
) -> Result<Vec<Placing>, PlacingErr>
    requires pkg { IsReadPackage pkg.now }
    requires python { IfSome (option_copied python) IsPython }
    ensures placings { IfOk result (λ made.
        made.items ≡ placings_of pkg.now (option_copied python.entry) abilities) }
    ensures python { OnOk result (¬ LacksPython pkg.now.rec.noarch (option_copied python.entry)) }
    ensures allowed { IfOk result (λ made. AreAllowed abilities made.items) }
    ensures outside { IfOk result (λ made.
        AllByRecursion (λ one. is_meta one.path ≡ false) made.items) }
    ensures origins { IfOk result (λ made.
        AllByRecursion (λ one. HasOrigin pkg.now one.from) made.items) }
    ensures refused { IfErr result
        (RefusesPlacings pkg.now (option_copied python.entry) abilities) }
{
    if lacks_python(pkg.rec.noarch, python) {
        return Err(PlacingErr::NoPython {
            dist: pkg.rec.dist.copy()?,
        });
    }
    placings_for(alloc, python_for(pkg.rec.noarch, python), abilities, pkg)
}
