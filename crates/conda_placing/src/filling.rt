ghost use Rattle.std.specs.Prelude.{◌≡◌, ◌≢◌, ◌<◌, ◌⊎◌, IfErr, IfOk, IfSome, IsSome, List, OnErr, OnOk};
ghost use Rattle.std.specs.Prelude.{Err, length, ℕ};
ghost use Rattle.conda_prefix.specs.declared.error.PrefixErr.{PrefixErr};
ghost use Rattle.conda_paths.specs.declared.row.Placeholder.{Placeholder};
ghost use Rattle.conda_paths.specs.declared.row.RowKind.{RowKind};
ghost use Rattle.conda_link.specs.Scripts.{script};
ghost use Rattle.conda_placing.specs.Content as content_spec;
ghost use Rattle.conda_placing.specs.Content.{HasNoRoom, HasOrigin, HasShortPadding, IsFilled};
ghost use Rattle.conda_placing.specs.Content.{IsContent, IsFilledIn, IsNode, IsRowContent};
ghost use Rattle.conda_placing.specs.Content.{IsTooShort};
ghost use Rattle.conda_placing.specs.Placing.{IsListed, IsReadPackage};
ghost use Rattle.conda_placing.specs.Refusals.{RefusesContent, RefusesFilled};
ghost use Rattle.conda_placing.specs.declared.error.PlacingErr.{PlacingErr};

use crate::error::PlacingErr;
use crate::package::Package;
use crate::placing::{Origin, Placing};
use conda_base::{Bytes, Copied};
use conda_device::Shown;
use conda_link::{EntryPoint, script_text};
use conda_path::{Node, Prefix};
use conda_paths::{Placeholder, Row, RowKind};
use conda_prefix::{PrefixErr, replace_binary, replace_text};
use std::alloc::{AllocError, Global};

/// The bytes with the prefix for this placeholder.
fn replaced(
    alloc: Global,
    placeholder: &Placeholder,
    prefix: &[u8],
    bytes: Vec<u8>,
) -> Result<Vec<u8>, PrefixErr>
    requires { 0 < length placeholder.now.text }
    ensures replaced { IfOk result (λ made. IsFilledIn placeholder.now.binary placeholder.now.text
        prefix.now bytes.items made.items) }
    ensures room { OnOk result (¬ HasNoRoom placeholder.now prefix.now bytes.items) }
    ensures short { IfErr result (λ e. (e ≡ PrefixErr.Memory)
        ⊎ ((e ≡ PrefixErr.PaddingShort (length placeholder.now.text) (length prefix.now))
        × HasNoRoom placeholder.now prefix.now bytes.items)) }
{
    let text = placeholder.text.as_str().as_bytes();
    if placeholder.binary {
        return replace_binary(alloc, bytes, text, prefix);
    }
    replace_text(alloc, bytes, text, prefix)
}

/// The file's bytes with the prefix for the placeholder, if there is one.
fn filled(alloc: Global, row: &Row, prefix: &Prefix, bytes: Vec<u8>) -> Result<Vec<u8>, PlacingErr>
    requires row { IsListed row.now }
    requires file { row.now.kind ≡ RowKind.Hard }
    ensures filled { IfOk result (λ made.
        IsFilled row.now.placeholder prefix.now bytes.items made.items) }
    ensures room { OnOk result ((placeholder : Placeholder) →
        ¬ IsTooShort row.now placeholder prefix.now bytes.items) }
    ensures refused { IfErr result (RefusesFilled row.now prefix.now bytes.items) }
{
    let Some(placeholder) = &row.placeholder else {
        return Ok(bytes);
    };
    match replaced(alloc, placeholder, prefix.as_str().as_bytes(), bytes) {
        Ok(made) => Ok(made),
        Err(PrefixErr::PaddingShort { have, need }) => Err(PlacingErr::PaddingShort {
            path: row.path.copy()?,
            have,
            need,
        }),
        Err(PrefixErr::Memory) => Err(PlacingErr::Memory),
    }
}

/// What a soft link's row gives: the target that is shown, or the file's bytes.
fn shown_content(shown: &Shown, bytes: Vec<u8>) -> Result<Bytes, AllocError>
    ensures { IfOk result (λ made. made ≡ content_spec.shown_content shown.now bytes.items) }
{
    match shown {
        Shown::File { exec: _ } => Ok(Bytes::from_vec(bytes)),
        Shown::Soft { target } => target.copy(),
    }
}

/// What a row gives whose file has these bytes.
fn row_content(
    alloc: Global,
    row: &Row,
    shown: &Shown,
    prefix: &Prefix,
    bytes: Vec<u8>,
) -> Result<Bytes, PlacingErr>
    requires row { IsListed row.now }
    requires kind { row.now.kind ≢ RowKind.Folder }
    ensures content { IfOk result (λ made.
        IsRowContent row.now.kind row.now shown.now prefix.now bytes.items made) }
    ensures room { OnOk result ((placeholder : Placeholder) →
        ¬ IsTooShort row.now placeholder prefix.now bytes.items) }
    ensures refused { IfErr result (RefusesFilled row.now prefix.now bytes.items) }
{
    match row.kind {
        RowKind::Hard => Ok(Bytes::from_vec(filled(alloc, row, prefix, bytes)?)),
        RowKind::Soft => Ok(shown_content(shown, bytes)?),
        RowKind::Folder => unreachable!(),
    }
}

/// What the row at this place gives.
fn content_at(
    alloc: Global,
    pkg: &Package,
    at: usize,
    prefix: &Prefix,
    bytes: Vec<u8>,
) -> Result<Bytes, PlacingErr>
    requires pkg { IsReadPackage pkg.now }
    requires row { HasOrigin pkg.now (Origin.Row at) }
    ensures content { IfOk result (IsContent pkg.now prefix.now (Origin.Row at) bytes.items) }
    ensures room { OnOk result ((path : List ℕ) (have need : ℕ) →
        ¬ HasShortPadding pkg.now prefix.now (Origin.Row at) bytes.items path have need) }
    ensures refused { IfErr result (RefusesContent pkg.now prefix.now (Origin.Row at) bytes.items) }
{
    let row = &pkg.listing.rows.as_slice()[at];
    let Some(shown) = &pkg.shown.as_slice()[at] else {
        unreachable!();
    };
    row_content(alloc, row, shown, prefix, bytes)
}

/// The script of an entry point.
fn script_content(alloc: Global, prefix: &Prefix, entry: &EntryPoint) -> Result<Bytes, PlacingErr>
    ensures text { IfOk result (λ made. made ≡ script prefix.now entry.now) }
    ensures err { OnErr result (result ≡ Err PlacingErr.Memory) }
{
    match script_text(alloc, prefix, entry) {
        Ok(text) => Ok(Bytes::from_vec(text)),
        Err(_) => Err(PlacingErr::Memory),
    }
}

/// What stands at the place of one of the package's placings. The file of its row has these bytes;
/// a soft link that is linked as one and an entry point need none. In the bytes of a file that has
/// a placeholder the prefix takes its place (conda's `portability.py`).
///
/// `PaddingShort` comes exactly where the file is binary, has a run of its placeholder and the
/// prefix is longer; it has the row's path and the two lengths in bytes.
pub fn content(
    alloc: Global,
    pkg: &Package,
    placing: &Placing,
    prefix: &Prefix,
    bytes: Vec<u8>,
) -> Result<Node, PlacingErr>
    requires pkg { IsReadPackage pkg.now }
    requires placing { HasOrigin pkg.now placing.now.from }
    ensures node { IfOk result (λ node. IsNode pkg.now prefix.now placing.now bytes.items node) }

    // There is room, or no binary file in which the prefix has to stand.
    ensures room { OnOk result ((path : List ℕ) (have need : ℕ) →
        ¬ HasShortPadding pkg.now prefix.now placing.now.from bytes.items path have need) }
    ensures refused { IfErr result (RefusesContent pkg.now prefix.now placing.now.from bytes.items) }
{
    let made = match placing.from {
        Origin::Row(at) => content_at(alloc, pkg, at, prefix, bytes)?,
        Origin::Entry(at) => script_content(alloc, prefix, &pkg.link.entries.as_slice()[at])?,
    };
    Ok(Node {
        kind: placing.kind,
        bytes: made,
    })
}
