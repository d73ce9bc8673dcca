ghost use Rattle.std.specs.Prelude.{◌≡◌, MatchResult, Ok, Err, option_map};
ghost use Rattle.serde_json.specs.View.{view};
ghost use Rattle.conda_paths.specs.Listings.{digest_read, kind_named, kind_read, mode_read};
ghost use Rattle.conda_paths.specs.Listings.{no_link_read, placeholder_read};

use crate::error::ListingWhy;
use crate::row::RowKind;
use conda_json::{Null, Value, optional_text, optional_truth, text_of};
use conda_path::Digest;
use hex::FromHex;

/// The kind that a `path_type` names.
fn kind_of(text: &str) -> Option<RowKind>
    ensures { result ≡ kind_named text.now }
{
    match text {
        "hardlink" => Some(RowKind::Hard),
        "softlink" => Some(RowKind::Soft),
        "directory" => Some(RowKind::Folder),
        _ => None,
    }
}

pub fn kind_field(value: &Value) -> Result<RowKind, ListingWhy>
    ensures { result ≡ kind_read (view value.now) }
{
    match text_of(value, "path_type") {
        Ok(text) => kind_of(text).ok_or(ListingWhy::PathType),
        Err(_) => Err(ListingWhy::PathType),
    }
}

/// The digest in 64 hexadecimal digits of either case.
pub fn digest_field(value: &Value) -> Result<Digest, ListingWhy>
    ensures { result ≡ digest_read (view value.now) }
{
    match text_of(value, "sha256") {
        Ok(text) => match <[u8; 32] as FromHex>::from_hex(text) {
            Ok(bytes) => Ok(Digest { bytes }),
            Err(_) => Err(ListingWhy::Sha256),
        },
        Err(_) => Err(ListingWhy::Sha256),
    }
}

/// The placeholder's text, where there is one.
pub fn placeholder_field(value: &Value) -> Result<Option<&str>, ListingWhy>
    ensures { MatchResult result
        (λ found. placeholder_read (view value.now) ≡ Ok (option_map (λ text. text.now) found))
        (λ why. placeholder_read (view value.now) ≡ Err why) }
{
    match optional_text(value, "prefix_placeholder", Null::Absent) {
        Ok(Some("")) => Err(ListingWhy::PrefixPlaceholder),
        Ok(found) => Ok(found),
        Err(_) => Err(ListingWhy::PrefixPlaceholder),
    }
}

/// Whether the file is binary; it is a text where nothing is said.
pub fn mode_field(value: &Value) -> Result<bool, ListingWhy>
    ensures { result ≡ mode_read (view value.now) }
{
    match optional_text(value, "file_mode", Null::Absent) {
        Ok(None) => Ok(false),
        Ok(Some("text")) => Ok(false),
        Ok(Some("binary")) => Ok(true),
        Ok(Some(_)) => Err(ListingWhy::FileMode),
        Err(_) => Err(ListingWhy::FileMode),
    }
}

/// Whether the file is copied and never linked; it may be linked where nothing is said.
pub fn no_link_field(value: &Value) -> Result<bool, ListingWhy>
    ensures { result ≡ no_link_read (view value.now) }
{
    match optional_truth(value, "no_link", Null::Absent) {
        Ok(found) => Ok(found.unwrap_or(false)),
        Err(_) => Err(ListingWhy::NoLink),
    }
}
