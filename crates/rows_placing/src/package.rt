ghost use Rattle.std.specs.Prelude.{◌≡◌, IfOk, IfSome, IsTrue, None};
ghost use Rattle.std.specs.List.{AllByRecursion};
ghost use Rattle.conda_placing.specs.Placing.{AreShown, IsLinkEntry, IsListed, IsReadPackage};

use conda_base::{Bytes, Rows};
use conda_device::Shown;
use conda_json::parse;
use conda_link::{LinkErr, LinkInfo};
use conda_paths::{Listing, ListingErr, Row, RowKind};
use conda_placing::{Package, package_laws};
use conda_record::{PkgRecord, RecordErr};
use std::alloc::{AllocError, Global};

pub fn record_of(alloc: Global, file: &str, text: &str) -> Result<Option<PkgRecord>, AllocError> {
    let Ok(value) = parse(alloc, text.as_bytes()) else {
        return Ok(None);
    };
    match PkgRecord::read(alloc, &value, file, "desk", "noarch") {
        Ok(rec) => Ok(Some(rec)),
        Err(RecordErr::Memory) => Err(AllocError),
        Err(_) => Ok(None),
    }
}

fn listing_of(alloc: Global, text: &str) -> Result<Option<Listing>, AllocError>
    ensures { IfOk result (λ found. IfSome found (λ listing. AllByRecursion IsListed listing.rows)) }
{
    package_laws();
    match Listing::read(alloc, text.as_bytes()) {
        Ok(listing) => Ok(Some(listing)),
        Err(ListingErr::Memory) => Err(AllocError),
        Err(_) => Ok(None),
    }
}

/// What a link file says; no text is no file.
fn link_of(alloc: Global, text: &str) -> Result<Option<LinkInfo>, AllocError>
    ensures { IfOk result (λ found. IfSome found (λ link. AllByRecursion IsLinkEntry link.entries)) }
{
    package_laws();
    if text.is_empty() {
        return Ok(Some(LinkInfo {
            entries: Rows::new(alloc),
        }));
    }
    match LinkInfo::read(alloc, text.as_bytes()) {
        Ok(link) => Ok(Some(link)),
        Err(LinkErr::Memory) => Err(AllocError),
        Err(_) => Ok(None),
    }
}

/// What a word shows: a file by `f`, an executable one by `x`, a soft link by `s` and its target,
/// nothing by `-`.
fn shown_of(alloc: Global, word: &str) -> Result<Option<Option<Shown>>, AllocError> {
    match word {
        "-" => Ok(Some(None)),
        "f" => Ok(Some(Some(Shown::File { exec: false }))),
        "x" => Ok(Some(Some(Shown::File { exec: true }))),
        word => match word.strip_prefix("s ") {
            Some(target) => {
                let target = Bytes::from_vec(target.as_bytes().to_vec(alloc)?);
                Ok(Some(Some(Shown::Soft { target })))
            }
            None => Ok(None),
        },
    }
}

/// What words with commas between them show.
fn all_shown(alloc: Global, text: &str) -> Result<Option<Rows<Option<Shown>>>, AllocError> {
    let mut shown = Rows::new(alloc);
    if text.is_empty() {
        return Ok(Some(shown));
    }
    for word in text.split(',') {
        match shown_of(alloc, word)? {
            Some(one) => shown.push(one)?,
            None => return Ok(None),
        }
    }
    Ok(Some(shown))
}

/// Whether something is shown at each row but folders.
fn are_shown(rows: &[Row], shown: &[Option<Shown>]) -> bool
    ensures { IsTrue result → AreShown rows.now shown.now }
{
    match (rows, shown) {
        ([], []) => true,
        ([row, rows @ ..], [one, shown @ ..]) => is_shown(row.kind, one) && are_shown(rows, shown),
        _ => false,
    }
}

fn is_shown(kind: RowKind, shown: &Option<Shown>) -> bool
    ensures { IsTrue result → shown.now ≡ None → kind ≡ RowKind.Folder }
{
    match kind {
        RowKind::Folder => true,
        RowKind::Hard | RowKind::Soft => shown.is_some(),
    }
}

/// The package of these parts, where something is shown at each row but folders.
fn joined(
    rec: PkgRecord,
    listing: Listing,
    link: LinkInfo,
    shown: Rows<Option<Shown>>,
) -> Option<Package>
    requires rows { AllByRecursion IsListed listing.rows }
    requires entries { AllByRecursion IsLinkEntry link.entries }
    ensures { IfSome result IsReadPackage }
{
    if are_shown(listing.rows.as_slice(), shown.as_slice()) {
        Some(Package {
            rec,
            listing,
            link,
            shown,
        })
    } else {
        None
    }
}

pub fn package_of(
    alloc: Global,
    rec: PkgRecord,
    listing: &str,
    link: &str,
    shown: &str,
) -> Result<Option<Package>, AllocError>
    ensures { IfOk result (λ found. IfSome found IsReadPackage) }
{
    let listing = listing_of(alloc, listing)?;
    let link = link_of(alloc, link)?;
    let shown = all_shown(alloc, shown)?;
    match (listing, link, shown) {
        (Some(listing), Some(link), Some(shown)) => Ok(joined(rec, listing, link, shown)),
        _ => Ok(None),
    }
}
