use std::alloc::{AllocError, Global};
use std::fs::{self, Permissions};
use std::io;
use std::os::unix::fs::{PermissionsExt, symlink};
use std::rt::Files;

/// Makes what a text says below a folder, parted by `;`: `folder PATH`, `file PATH TEXT`, `exec
/// PATH TEXT` or `soft PATH TARGET`. Folders on the way are made.
pub fn make_things(alloc: Global, rt: &impl Files, top: &str, things: &str) -> io::Result<()> {
    fs::create_dir_all(rt, top)?;
    for thing in things.split(';') {
        let (kind, rest) = match thing.trim().split_once(' ') {
            Some(cut) => cut,
            None => continue,
        };
        let (path, text) = match rest.split_once(' ') {
            Some(cut) => cut,
            None => (rest, ""),
        };
        make_thing(alloc, rt, top, kind, path, text)?;
    }
    Ok(())
}

fn make_thing(
    alloc: Global,
    rt: &impl Files,
    top: &str,
    kind: &str,
    path: &str,
    text: &str,
) -> io::Result<()> {
    let place = format!(in alloc; "{top}/{path}")?;
    let place = place.as_str();
    if let Some((folder, _)) = place.rsplit_once('/') {
        fs::create_dir_all(rt, folder)?;
    }
    match kind {
        "folder" => fs::create_dir_all(rt, place),
        "soft" => symlink(rt, text, place),
        "exec" => {
            fs::write(rt, place, text)?;
            fs::set_permissions(rt, place, Permissions::from_mode(0o755))
        }
        _ => fs::write(rt, place, text),
    }
}

/// All that lies below a folder, in the order of names: a folder ends with `/`, an executable file
/// with `*`, and a soft link is followed by `>`. A control character is shown as `?`.
pub fn listing<R: Files + AllocGlobal + Clone + Drop>(
    alloc: Global,
    rt: &R,
    top: &str,
) -> io::Result<String> {
    let mut lines = Vec::new(alloc);
    let mut folders = Vec::new(alloc);
    folders.push(String::new(alloc))?;
    for _ in 0..1_000_000_u64 {
        let Some(folder) = folders.pop() else {
            break;
        };
        list_folder(alloc, rt, top, folder.as_str(), &mut folders, &mut lines)?;
    }
    lines.sort()?;
    Ok(joined(alloc, lines.as_slice())?)
}

fn joined(alloc: Global, lines: &[String]) -> Result<String, AllocError> {
    let mut made = String::new(alloc);
    for line in lines {
        if !made.is_empty() {
            made.push(' ')?;
        }
        made.push_str(line.as_str())?;
    }
    Ok(made)
}

fn list_folder<R: Files + AllocGlobal + Clone + Drop>(
    alloc: Global,
    rt: &R,
    top: &str,
    folder: &str,
    folders: &mut Vec<String>,
    lines: &mut Vec<String>,
) -> io::Result<()> {
    let place = format!(in alloc; "{top}{folder}")?;
    for entry in fs::read_dir(rt, place.as_str())? {
        let entry = entry?;
        let name = entry.file_name();
        let below = format!(in alloc; "{folder}/{name}")?;
        let data = entry.metadata()?;
        let mut line = shown_name(alloc, below.as_str())?;
        if data.is_dir() {
            line.push('/')?;
            folders.push(below)?;
        } else if data.is_symlink() {
            line.push('>')?;
        } else if data.permissions().mode() & 0o111 != 0 {
            line.push('*')?;
        }
        lines.push(line)?;
    }
    Ok(())
}

/// A path without the slash in front, a control character as `?`.
fn shown_name(alloc: Global, below: &str) -> Result<String, AllocError> {
    let mut made = String::new(alloc);
    let name = below.strip_prefix("/").unwrap_or(below);
    for c in name.chars() {
        made.push(if c.is_control() { '?' } else { c })?;
    }
    Ok(made)
}
