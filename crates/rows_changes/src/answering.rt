use crate::moving::{Moved, all_moved, moves_of, paths_of};
use crate::showing::shown_shares;
use conda_base::Text;
use conda_changes::{changes_of, shares_of};
use conda_path::RelPath;
use std::alloc::{AllocError, Global};

/// The rows of conda_changes. A move is `PATH goes`, `PATH comes` or `PATH changes`; moves, and the
/// paths that are left over in the trash, are parted by `;`.
pub fn answer(alloc: Global, call: &str, arguments: &[Text]) -> Result<Option<String>, AllocError> {
    match (call, arguments) {
        ("changes", [number, lanes, left, moves]) => {
            let (number, lanes) = (number.as_str(), lanes.as_str());
            changes(alloc, number, lanes, left.as_str(), moves.as_str())
        }
        _ => Ok(None),
    }
}

fn changes(
    alloc: Global,
    number: &str,
    lanes: &str,
    left: &str,
    moves: &str,
) -> Result<Option<String>, AllocError> {
    let (Ok(number), Ok(lanes)) = (number.parse::<u32>(), lanes.parse::<u32>()) else {
        return Ok(None);
    };
    let (Some(left), Some(all)) = (paths_of(alloc, left)?, all_moved(alloc, moves)?) else {
        return Ok(None);
    };
    dealt(alloc, number, lanes, left.as_slice(), all.as_slice())
}

/// The changes, dealt to the lanes, of which there is one at least.
fn dealt(
    alloc: Global,
    number: u32,
    lanes: u32,
    left: &[RelPath],
    all: &[Moved],
) -> Result<Option<String>, AllocError> {
    if lanes == 0 {
        return Ok(None);
    }
    let moves = moves_of(alloc, all)?;
    let changes = changes_of(alloc, &moves, left, number)?;
    let shares = shares_of(alloc, changes, lanes)?;
    Ok(Some(shown_shares(alloc, shares.as_slice())?))
}
