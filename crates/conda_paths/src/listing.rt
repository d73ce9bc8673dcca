ghost use Rattle.std.specs.Prelude.{◌≡◌, IfOk, OnOk, List, [], ◌∷◌, ◌++◌, ℕ};
ghost use Rattle.std.specs.Prelude.{not, option_map};
ghost use Rattle.std.specs.List.{list_any};
ghost use Rattle.std.specs.Result.{result_map_both};
ghost use Rattle.serde_json.specs.View.{items_view, view};
ghost use Rattle.conda_base.specs.Reads.{Gives};
ghost use Rattle.conda_base.specs.Texts.{is_text};
ghost use Rattle.conda_json.specs.Fields.{or_fault};
ghost use Rattle.conda_path.specs.Faults.{path_read};
ghost use Rattle.conda_paths.specs.Listings as listings;
ghost use Rattle.conda_paths.specs.Listings.{HasPaths, listing_fault_of, listing_read};
ghost use Rattle.conda_paths.specs.Listings.{row_fault_of};
ghost use Rattle.conda_paths.specs.declared.error.ListingWhy.{ListingWhy};

use crate::error::{ListingErr, ListingWhy};
use crate::fields::{digest_field, kind_field, mode_field, no_link_field, placeholder_field};
use crate::row::{Placeholder, Row, RowKind};
use conda_base::{Copied, Rows, Text};
use conda_json::{JsonErr, Value, list_of, number_of, parse_object, text_of};
use conda_path::{Digest, PathErr, RelPath};
use std::alloc::{AllocError, Global};
use std::collections::BTreeSet;

/// What a package holds, a row a path, in the order of `info/paths.json`.
#[derive(Clone, Debug, PartialEq, Eq, Drop)]
pub struct Listing {
    pub rows: Rows<Row>,
}

impl Copied for Listing {
    fn copy(&self) -> Result<Listing, AllocError> {
        self.clone()
    }
}

/// Why an element is no row, or that memory ran out.
enum RowErr {
    Bad { why: ListingWhy },
    Memory,
}

impl From<AllocError> for RowErr {
    ghost use Rattle.std.specs.Prelude.{◌≡◌};
    ghost use Rattle.conda_paths.specs.declared.listing.RowErr.{RowErr};

    ghost from_gives = { λ _ e. e ≡ RowErr.Memory };

    fn from(_: AllocError) -> RowErr {
        RowErr::Memory
    }
}

impl From<ListingWhy> for RowErr {
    ghost use Rattle.std.specs.Prelude.{◌≡◌};
    ghost use Rattle.conda_paths.specs.declared.listing.RowErr.{RowErr};

    ghost from_gives = { λ why e. e ≡ RowErr.Bad why };

    fn from(why: ListingWhy) -> RowErr {
        RowErr::Bad { why }
    }
}

/// Whether the path lies in `conda-meta`.
fn is_in_meta(path: &str) -> bool
    ensures { result ≡ listings.is_meta path.now }
{
    path.starts_with("conda-meta/")
}

/// The path that a text is.
fn path_of(alloc: Global, text: &str) -> Result<RelPath, RowErr>
    ensures { Gives row_fault_of result (or_fault (path_read text.now) ListingWhy.Path) }
{
    match RelPath::read(alloc, text) {
        Ok(path) => Ok(path),
        Err(PathErr::BadPath { at: _ }) => Err(RowErr::Bad {
            why: ListingWhy::Path,
        }),
        Err(PathErr::Memory) => Err(RowErr::Memory),
    }
}

/// The path that a row names.
fn path_field(alloc: Global, value: &Value) -> Result<RelPath, RowErr>
    ensures { Gives row_fault_of result (listings.named_path (view value.now)) }
{
    let text = match text_of(value, "_path") {
        Ok(text) => text,
        Err(_) => return Err(RowErr::Bad {
            why: ListingWhy::Path,
        }),
    };
    if is_in_meta(text) {
        return Err(RowErr::Bad {
            why: ListingWhy::Path,
        });
    }
    path_of(alloc, text)
}

/// The placeholder of its own.
fn placeholder_of(
    alloc: Global,
    text: Option<&str>,
    binary: bool,
) -> Result<Option<Placeholder>, AllocError>
    ensures { IfOk result (λ made. made
        ≡ option_map (λ text. record { text = text.now; binary = binary }) text.entry) }
{
    match text {
        Some(text) => Ok(Some(Placeholder {
            text: Text::from_str(alloc, text)?,
            binary,
        })),
        None => Ok(None),
    }
}

/// A row that is a file.
fn read_file(alloc: Global, path: RelPath, value: &Value) -> Result<Row, RowErr>
    ensures read { Gives row_fault_of result (listings.file_read path (view value.now)) }
    ensures path { IfOk result (λ row. row.path ≡ path) }
{
    let digest = digest_field(value)?;
    let size = match number_of(value, "size_in_bytes") {
        Ok(size) => size,
        Err(_) => return Err(RowErr::Bad {
            why: ListingWhy::SizeInBytes,
        }),
    };
    let text = placeholder_field(value)?;
    let binary = mode_field(value)?;
    let no_link = no_link_field(value)?;
    let placeholder = placeholder_of(alloc, text, binary)?;
    Ok(Row {
        path,
        kind: RowKind::Hard,
        size,
        digest,
        placeholder,
        no_link,
    })
}

/// A row that is no file: it has nothing but its path.
fn bare(path: RelPath, kind: RowKind) -> Row
    ensures { result ≡ listings.bare_row path kind }
{
    Row {
        path,
        kind,
        size: 0,
        digest: Digest { bytes: [0; 32] },
        placeholder: None,
        no_link: false,
    }
}

/// A row whose path is known.
fn read_kind(alloc: Global, path: RelPath, value: &Value) -> Result<Row, RowErr>
    ensures read { Gives row_fault_of result (listings.kind_row path (view value.now)) }
    ensures path { IfOk result (λ row. row.path ≡ path) }
{
    match kind_field(value)? {
        RowKind::Hard => read_file(alloc, path, value),
        kind => Ok(bare(path, kind)),
    }
}

/// Whether the set lacks a path, which it then has.
fn is_new(alloc: Global, paths: &mut BTreeSet<Text>, path: &RelPath) -> Result<bool, AllocError>
    ensures new { (before : List (List ℕ)) → HasPaths paths.old before →
        IfOk result (λ new. new ≡ not (list_any (is_text path.now) before)) }
    ensures paths { (before : List (List ℕ)) → HasPaths paths.old before →
        OnOk result (HasPaths paths.new (before ++ path.now ∷ [])) }
{
    let text = Text::from_str(alloc, path.as_str())?;
    Ok(paths.insert(text)?)
}

/// A row whose path isn't among those of the rows before, which then has it too.
fn read_row(alloc: Global, value: &Value, paths: &mut BTreeSet<Text>) -> Result<Row, RowErr>
    ensures read { (before : List (List ℕ)) → HasPaths paths.old before →
        Gives row_fault_of result (listings.row_read before (view value.now)) }
    ensures paths { (before : List (List ℕ)) → HasPaths paths.old before →
        IfOk result (λ row. HasPaths paths.new (before ++ row.path ∷ [])) }
{
    let path = path_field(alloc, value)?;
    if !is_new(alloc, paths, &path)? {
        return Err(RowErr::Bad {
            why: ListingWhy::Path,
        });
    }
    read_kind(alloc, path, value)
}

/// The rows of a list.
#[tactic(auto, using(crate::proofs::ListingLemmas::one_more, crate::proofs::ListingLemmas::ended))]
fn read_rows(alloc: Global, elements: &[Value]) -> Result<Rows<Row>, ListingErr>
    ensures { Gives listing_fault_of result (listings.rows_read [] 0 (items_view elements.now)) }
{
    let mut rows = Rows::new(alloc);
    let mut paths = BTreeSet::new(alloc);
    for (at, element) in elements.iter().enumerate() {
        match read_row(alloc, element, &mut paths) {
            Ok(row) => rows.push(row)?,
            Err(RowErr::Bad { why }) => {
                return Err(ListingErr::BadListing {
                    row: at as u64,
                    why,
                });
            }
            Err(RowErr::Memory) => return Err(ListingErr::Memory),
        }
    }
    Ok(rows)
}

/// The elements of the list of rows.
fn elements_of(value: &Value) -> Result<&[Value], ListingErr>
    ensures { Gives listing_fault_of (result_map_both (λ list. items_view list.now) (λ e. e) result)
        (listings.elements_read (view value.now)) }
{
    match number_of(value, "paths_version") {
        Ok(1) => {}
        _ => {
            return Err(ListingErr::BadListing {
                row: 0,
                why: ListingWhy::PathsVersion,
            });
        }
    }
    match list_of(value, "paths") {
        Ok(list) => Ok(list),
        Err(_) => Err(ListingErr::BadListing {
            row: 0,
            why: ListingWhy::Paths,
        }),
    }
}

impl Listing {
    /// Reads a package's `info/paths.json`: the object has `paths_version` 1 and the list `paths`
    /// of rows, whose paths differ. Other fields are passed over.
    ///
    /// `BadListing` has the first bad row, and what is first wrong with it.
    pub fn read(alloc: Global, bytes: &[u8]) -> Result<Listing, ListingErr>
        ensures { Gives listing_fault_of result (listing_read bytes.now) }
    {
        let value = match parse_object(alloc, bytes) {
            Ok(value) => value,
            Err(JsonErr::Memory) => return Err(ListingErr::Memory),
            Err(_) => {
                return Err(ListingErr::BadListing {
                    row: 0,
                    why: ListingWhy::Json,
                });
            }
        };
        let rows = read_rows(alloc, elements_of(&value)?)?;
        Ok(Listing { rows })
    }
}
