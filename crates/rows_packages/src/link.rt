use conda_base::{Copied, Text};
use conda_link::{EntryPoint, LinkErr, LinkInfo, place, python_of, script_text};
use conda_path::{Prefix, RelPath};
use conda_version::Version;
use std::alloc::{AllocError, Global};

/// The rows of conda_link.
pub fn answer(alloc: Global, call: &str, arguments: &[Text]) -> Result<Option<String>, AllocError> {
    match (call, arguments) {
        ("link", [text]) => {
            let read = LinkInfo::read(alloc, text.as_str().as_bytes());
            Ok(Some(shown(alloc, read)?))
        }
        ("place", [path, python]) => placed(alloc, path.as_str(), python.as_str()),
        ("python", [version]) => python(alloc, version.as_str()),
        ("script", [prefix, command, source, func]) => {
            let entry = EntryPoint {
                command: command.copy()?,
                module: source.copy()?,
                func: func.copy()?,
            };
            script(alloc, prefix.as_str(), &entry)
        }
        _ => Ok(None),
    }
}

/// The entry points of a link file, or its fault.
fn shown(alloc: Global, read: Result<LinkInfo, LinkErr>) -> Result<String, AllocError> {
    let info = match read {
        Ok(info) => info.copy()?,
        Err(LinkErr::BadLink { entry }) => return format!(in alloc; "bad {entry}"),
        Err(_) => return Err(AllocError),
    };
    let mut text = format!(in alloc; "{} entries", info.entries.len())?;
    for entry in info.entries.as_slice() {
        let EntryPoint {
            command,
            module,
            func,
        } = entry;
        let shown = format!(in alloc;
            "; <{}> <{}> <{}>",
            command.as_str(),
            module.as_str(),
            func.as_str()
        )?;
        text.push_str(shown.as_str())?;
    }
    Ok(text)
}

fn placed(alloc: Global, path: &str, python: &str) -> Result<Option<String>, AllocError> {
    let Ok(path) = RelPath::read(alloc, path) else {
        return Ok(None);
    };
    match place(alloc, &path, python) {
        Ok(path) => Ok(Some(String::from_str(alloc, path.as_str())?)),
        Err(LinkErr::Memory) => Err(AllocError),
        Err(_) => Ok(Some(String::from_str(alloc, "bad path")?)),
    }
}

fn python(alloc: Global, version: &str) -> Result<Option<String>, AllocError> {
    let Ok(version) = Version::read(alloc, version) else {
        return Ok(None);
    };
    let python = python_of(&version).unwrap_or("none");
    Ok(Some(String::from_str(alloc, python)?))
}

fn script(alloc: Global, prefix: &str, entry: &EntryPoint) -> Result<Option<String>, AllocError> {
    let Ok(prefix) = Prefix::read(alloc, prefix) else {
        return Ok(None);
    };
    let bytes = match script_text(alloc, &prefix, entry) {
        Ok(bytes) => bytes,
        Err(_) => return Err(AllocError),
    };
    match String::from_utf8(bytes) {
        Ok(text) => Ok(Some(rows_text::shown(alloc, text.as_str())?)),
        Err(_) => Ok(None),
    }
}
