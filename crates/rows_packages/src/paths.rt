use conda_base::{Copied, Text};
use conda_path::Digest;
use conda_paths::{Listing, ListingErr, Row, RowKind, check, digest};
use hex::FromHex;
use std::alloc::{AllocError, Global};

/// The rows of conda_paths.
pub fn answer(alloc: Global, call: &str, arguments: &[Text]) -> Result<Option<String>, AllocError> {
    match (call, arguments) {
        ("listing", [text]) => {
            let read = Listing::read(alloc, text.as_str().as_bytes());
            Ok(Some(shown(alloc, read)?))
        }
        ("digest", [text]) => {
            let found = digest(text.as_str().as_bytes());
            Ok(Some(hex::encode(alloc, found.bytes)?))
        }
        ("check", [text, size, wanted]) => {
            let size = match size.as_str().parse::<u64>() {
                Ok(size) => size,
                Err(_) => return Ok(None),
            };
            let wanted = match <[u8; 32] as FromHex>::from_hex(wanted.as_str()) {
                Ok(bytes) => Digest { bytes },
                Err(_) => return Ok(None),
            };
            let is_listed = check(text.as_str().as_bytes(), size, &wanted);
            Ok(Some(format!(in alloc; "{is_listed}")?))
        }
        _ => Ok(None),
    }
}

/// The rows of a listing, or its fault.
fn shown(alloc: Global, read: Result<Listing, ListingErr>) -> Result<String, AllocError> {
    let listing = match read {
        Ok(listing) => listing.copy()?,
        Err(ListingErr::BadListing { row, why }) => return format!(in alloc; "bad {row} {why}"),
        Err(ListingErr::Memory) => return Err(AllocError),
    };
    let mut text = format!(in alloc; "{} rows", listing.rows.len())?;
    for row in listing.rows.as_slice() {
        text.push_str("; ")?;
        let row = shown_row(alloc, row)?;
        text.push_str(row.as_str())?;
    }
    Ok(text)
}

fn shown_row(alloc: Global, row: &Row) -> Result<String, AllocError> {
    let kind = match row.kind {
        RowKind::Hard => "hard",
        RowKind::Soft => "soft",
        RowKind::Folder => "folder",
    };
    let digest = hex::encode(alloc, row.digest.bytes)?;
    let mut text = format!(in alloc; "{kind} {} {} {digest}", row.path.as_str(), row.size)?;
    if let Some(placeholder) = &row.placeholder {
        text.push_str(if placeholder.binary {
            " binary "
        } else {
            " text "
        })?;
        text.push_str(placeholder.text.as_str())?;
    }
    if row.no_link {
        text.push_str(" no link")?;
    }
    Ok(text)
}
