use crate::nodes::kind_word;
use conda_base::Text;
use conda_dev::{Abilities, Seen};
use conda_path::{Dist, Node, RelPath, SlotKey, StorePath};
use std::alloc::{AllocError, Global};

/// The word of a call that was done or failed.
pub fn word<E: Drop>(done: Result<(), E>) -> &'static str {
    match done {
        Ok(()) => "ok",
        Err(_) => "failed",
    }
}

/// The path of a text, if it is one.
pub fn path_of(alloc: Global, text: &str) -> Option<RelPath> {
    RelPath::read(alloc, text).ok()
}

/// A file of the cache with this path in its package.
pub fn cached(alloc: Global, path: &RelPath) -> Result<Option<StorePath>, AllocError> {
    let Ok(dist) = Dist::read(alloc, "a-1.0-0") else {
        return Ok(None);
    };
    let channel = Text::from_str(alloc, "main")?;
    let subdir = Text::from_str(alloc, "noarch")?;
    let key = SlotKey {
        channel,
        subdir,
        dist,
    };
    let path = path.clone()?;
    Ok(Some(StorePath { key, path }))
}

/// What a call that gives paths came to.
pub fn shown_paths<E: Drop>(
    alloc: Global,
    paths: Result<Vec<RelPath>, E>,
) -> Result<String, AllocError> {
    let Ok(paths) = paths else {
        return String::from_str(alloc, "failed");
    };
    let mut made = String::new(alloc);
    for path in paths.iter() {
        if !made.is_empty() {
            made.push(' ')?;
        }
        made.push_str(path.as_str())?;
    }
    Ok(made)
}

/// What a look came to.
pub fn shown_seen<E: Drop>(
    alloc: Global,
    seen: Result<Option<Seen>, E>,
) -> Result<String, AllocError> {
    match seen {
        Ok(Some(seen)) => {
            let kind = kind_word(seen.kind);
            let size = seen.size;
            format!(in alloc; "{kind} {size}")
        }
        Ok(None) => String::from_str(alloc, "none"),
        Err(_) => String::from_str(alloc, "failed"),
    }
}

/// What a read came to.
pub fn shown_node<E: Drop>(
    alloc: Global,
    read: Result<Option<Node>, E>,
) -> Result<String, AllocError> {
    match read {
        Ok(Some(node)) => {
            let kind = kind_word(node.kind);
            let text = str::from_utf8(node.bytes.as_slice()).unwrap_or("?");
            format!(in alloc; "{kind} {text}")
        }
        Ok(None) => String::from_str(alloc, "none"),
        Err(_) => String::from_str(alloc, "failed"),
    }
}

/// What a lane can do.
pub fn shown_abilities(alloc: Global, can: Abilities) -> Result<String, AllocError> {
    let hard = if can.hard { "hard" } else { "no hard" };
    let soft = if can.soft { "soft" } else { "no soft" };
    let exec = if can.exec { "exec" } else { "no exec" };
    format!(in alloc; "{hard} {soft} {exec}")
}
