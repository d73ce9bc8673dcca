//! The rows of the crate that places the files of packages.
#![tactic(auto)]

ghost use Rattle.conda_placing.specs.Placing.{IsReadPackage};

mod content;
mod package;
mod placings;
mod words;

use crate::content::filled;
use crate::package::{package_of, record_of};
use crate::placings::placed;
use conda_base::Text;
use conda_placing::Package;
use conda_record::PkgRecord;
use rows_text::{Table, print_rows};
use std::alloc::{AllocError, Global};
use std::io;

/// A package is five arguments: the name of its file, its record, its listing, its link file, which
/// may be missing, and what the channel shows at each row.
struct PlacingRows;

impl Table for PlacingRows {
    fn answer(
        &self,
        alloc: Global,
        call: &str,
        arguments: &[Text],
    ) -> Result<Option<String>, AllocError> {
        let [file, record, files @ ..] = arguments else {
            return Ok(None);
        };
        match record_of(alloc, file.as_str(), record.as_str())? {
            Some(rec) => answer_for(alloc, call, rec, files),
            None => Ok(None),
        }
    }
}

/// The answer of a row on a package with this record.
fn answer_for(
    alloc: Global,
    call: &str,
    rec: PkgRecord,
    arguments: &[Text],
) -> Result<Option<String>, AllocError> {
    let [listing, link, shown, rest @ ..] = arguments else {
        return Ok(None);
    };
    match package_of(alloc, rec, listing.as_str(), link.as_str(), shown.as_str())? {
        Some(pkg) => answer_of(alloc, call, &pkg, rest),
        None => Ok(None),
    }
}

/// The answer of a row on this package.
fn answer_of(
    alloc: Global,
    call: &str,
    pkg: &Package,
    arguments: &[Text],
) -> Result<Option<String>, AllocError>
    requires { IsReadPackage pkg.now }
{
    match (call, arguments) {
        ("placings", [python, abilities]) => {
            placed(alloc, pkg, python.as_str(), abilities.as_str())
        }
        ("content", [place, prefix, text]) => filled(
            alloc,
            pkg,
            place.as_str(),
            prefix.as_str(),
            text.as_str().as_bytes().to_vec(alloc)?,
        ),
        _ => Ok(None),
    }
}

fn main(rt: HostRuntime) -> io::Result<()> {
    print_rows(&rt, &PlacingRows)
}
