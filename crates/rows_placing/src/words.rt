use conda_path::Kind;
use conda_placing::PlacingErr;
use std::alloc::{AllocError, Global};

pub fn kind_word(kind: Kind) -> &'static str {
    match kind {
        Kind::File => "file",
        Kind::Exec => "exec",
        Kind::Soft => "soft",
    }
}

/// The kind that a word names.
pub fn kind_of(word: &str) -> Option<Kind> {
    match word {
        "file" => Some(Kind::File),
        "exec" => Some(Kind::Exec),
        "soft" => Some(Kind::Soft),
        _ => None,
    }
}

pub fn refusal(alloc: Global, error: &PlacingErr) -> Result<String, AllocError> {
    match error {
        PlacingErr::NoPython { dist } => format!(in alloc; "no python for {}", dist.text()),
        PlacingErr::BadListing { row, why } => format!(in alloc; "bad {row} {why}"),
        PlacingErr::NoSoftLink { path } => format!(in alloc; "no soft link {}", path.as_str()),
        PlacingErr::PaddingShort { path, have, need } => {
            format!(in alloc; "{}: room for {have}, {need} wanted", path.as_str())
        }
        PlacingErr::Memory => Err(AllocError),
    }
}
