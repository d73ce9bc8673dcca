use conda_changes::{Move, Moves};
use conda_path::{Digest, Good, Kind, PathErr, RelPath};
use std::alloc::{AllocError, Global};
use std::collections::BTreeMap;

/// What goes and comes at a path.
#[derive(Drop)]
pub struct Moved {
    path: RelPath,
    old: bool,
    new: Option<Good>,
}

/// The path of a text, if it is one.
fn path_of(alloc: Global, text: &str) -> Result<Option<RelPath>, AllocError> {
    match RelPath::read(alloc, text) {
        Ok(path) => Ok(Some(path)),
        Err(PathErr::BadPath { .. }) => Ok(None),
        Err(PathErr::Memory) => Err(AllocError),
    }
}

/// Some file that comes at a path.
fn good_at(path: &RelPath) -> Result<Good, AllocError> {
    Ok(Good {
        path: path.clone()?,
        kind: Kind::File,
        size: 0,
        digest: Digest { bytes: [0; 32] },
    })
}

/// What `PATH goes`, `PATH comes` or `PATH changes` says.
fn moved_of(alloc: Global, text: &str) -> Result<Option<Moved>, AllocError> {
    let Some((path, word)) = text.split_once(' ') else {
        return Ok(None);
    };
    let Some(path) = path_of(alloc, path)? else {
        return Ok(None);
    };
    let new = match word {
        "goes" => None,
        _ => Some(good_at(&path)?),
    };
    let old = word != "comes";
    Ok(Some(Moved { path, old, new }))
}

/// What texts parted by `;` say; None where one isn't of the form.
pub fn all_moved(alloc: Global, texts: &str) -> Result<Option<Vec<Moved>>, AllocError> {
    let mut all = Vec::new(alloc);
    for text in texts.split_terminator(';') {
        match moved_of(alloc, text.trim())? {
            Some(moved) => all.push(moved)?,
            None => return Ok(None),
        }
    }
    Ok(Some(all))
}

/// The map of what goes and comes.
pub fn moves_of(alloc: Global, all: &[Moved]) -> Result<Moves<'_>, AllocError> {
    let mut moves = BTreeMap::new(alloc);
    for moved in all {
        let one = Move {
            path: &moved.path,
            old: moved.old,
            new: moved.new.as_ref(),
        };
        let _ = moves.insert(moved.path.as_str(), one)?;
    }
    Ok(moves)
}

/// Paths parted by `;`; None where one isn't a path.
pub fn paths_of(alloc: Global, texts: &str) -> Result<Option<Vec<RelPath>>, AllocError> {
    let mut paths = Vec::new(alloc);
    for text in texts.split_terminator(';') {
        match path_of(alloc, text.trim())? {
            Some(path) => paths.push(path)?,
            None => return Ok(None),
        }
    }
    Ok(Some(paths))
}
