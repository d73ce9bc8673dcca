use crate::chan::{shown_bytes, shown_list};
use conda_base::{Rows, Text};
use conda_dev::{Counted, Got, Host, MemHost, MemStore, Store, Touch, Touched};
use conda_path::{Digest, Dist, Node, RelPath, SlotKey};
use rows_plan::{node_of, path_of, plan_of, stop_at, word};
use std::alloc::{AllocError, Global};
use std::sync::Wait;

/// The rows of handles on the cache. `store.run PLAN|CACHED|HANDLES|CALLS`.
pub fn answer<R: Wait + Sync>(
    rt: &R,
    alloc: Global,
    call: &str,
    arguments: &[Text],
) -> Result<Option<String>, AllocError> {
    match (call, arguments) {
        ("store.run", [plan, cached, handles, calls]) => run_stores(
            rt,
            alloc,
            plan.as_str(),
            cached.as_str(),
            handles.as_str(),
            calls.as_str(),
        ),
        _ => Ok(None),
    }
}

/// The key of a text `CHANNEL/SUBDIR/DIST`.
fn key_of(alloc: Global, text: &str) -> Result<Option<SlotKey>, AllocError> {
    let Some((channel, rest)) = text.split_once('/') else {
        return Ok(None);
    };
    let Some((subdir, dist)) = rest.split_once('/') else {
        return Ok(None);
    };
    let Ok(dist) = Dist::read(alloc, dist) else {
        return Ok(None);
    };
    let channel = Text::from_str(alloc, channel)?;
    let subdir = Text::from_str(alloc, subdir)?;
    Ok(Some(SlotKey {
        channel,
        subdir,
        dist,
    }))
}

/// The folders of a text `KEY PATH KIND TEXT`, parted by `;`, each with one file.
fn cached_of(
    alloc: Global,
    text: &str,
) -> Result<Vec<(SlotKey, Rows<(RelPath, Node)>)>, AllocError> {
    let mut cached = Vec::new(alloc);
    for entry in text.split(';') {
        let Some((key, file)) = entry.trim().split_once(' ') else {
            continue;
        };
        if let (Some(key), Some(file)) = (key_of(alloc, key)?, node_of(alloc, file)?) {
            let mut files = Rows::new(alloc);
            files.push(file)?;
            cached.push((key, files))?;
        }
    }
    Ok(cached)
}

/// The text of a key.
fn key_text(alloc: Global, key: &SlotKey) -> Result<String, AllocError> {
    let channel = key.channel.as_str();
    let subdir = key.subdir.as_str();
    let dist = key.dist.text();
    format!(in alloc; "{channel}/{subdir}/{dist}")
}

/// The first bytes of a digest in hexadecimal digits.
fn digest_text(alloc: Global, digest: &Digest) -> Result<String, AllocError> {
    let [a, b, c, ..] = digest.bytes;
    format!(in alloc; "{a:02x}{b:02x}{c:02x}")
}

/// What a handle was asked to change.
fn touched_text(alloc: Global, touched: &Touched) -> Result<String, AllocError> {
    let key = key_text(alloc, &touched.key)?;
    let key = key.as_str();
    match &touched.touch {
        Touch::Write { path, size, digest } => {
            let path = path.as_str();
            let digest = digest_text(alloc, digest)?;
            let digest = digest.as_str();
            format!(in alloc; "write {key} {path} {size} {digest}")
        }
        Touch::Mark => format!(in alloc; "mark {key}"),
        Touch::Erase => format!(in alloc; "erase {key}"),
    }
}

/// What a handle read last.
fn got_text(alloc: Global, got: Option<&Got>) -> Result<String, AllocError> {
    let Some(got) = got else {
        return String::from_str(alloc, "nothing");
    };
    let key = key_text(alloc, &got.key)?;
    let key = key.as_str();
    let path = got.path.as_str();
    let max = got.max;
    match &got.found {
        Some((size, digest)) => {
            let digest = digest_text(alloc, digest)?;
            let digest = digest.as_str();
            format!(in alloc; "{key} {path} {max}: {size} {digest}")
        }
        None => format!(in alloc; "{key} {path} {max}: none"),
    }
}

/// Writes a file: `KEY PATH KIND TEXT`.
fn write<S: Store>(alloc: Global, store: &mut S, rest: &str) -> Result<&'static str, AllocError> {
    let Some((key, file)) = rest.split_once(' ') else {
        return Ok("?");
    };
    let (Some(key), Some((path, node))) = (key_of(alloc, key)?, node_of(alloc, file)?) else {
        return Ok("?");
    };
    let exec = node.kind == conda_path::Kind::Exec;
    Ok(word(store.write(&key, &path, node.bytes.as_slice(), exec)))
}

/// Reads a file: `KEY PATH MAX`.
fn read<S: Store>(alloc: Global, store: &mut S, rest: &str) -> Result<String, AllocError> {
    let Some((key, file)) = rest.split_once(' ') else {
        return String::from_str(alloc, "?");
    };
    let Some((path, max)) = file.split_once(' ') else {
        return String::from_str(alloc, "?");
    };
    let (Some(key), Some(path)) = (key_of(alloc, key)?, path_of(alloc, path)) else {
        return String::from_str(alloc, "?");
    };
    let max = max.parse::<u64>().unwrap_or(0);
    shown_bytes(alloc, store.read(alloc, &key, &path, max))
}

/// Makes one call: `list`, `read KEY PATH MAX`, `write KEY PATH KIND TEXT`, `mark KEY` or `erase
/// KEY`.
fn answer_of<S: Store>(alloc: Global, store: &mut S, call: &str) -> Result<String, AllocError> {
    let (verb, rest) = match call.split_once(' ') {
        Some(cut) => cut,
        None => (call, ""),
    };
    let answer = match verb {
        "list" => return shown_list(alloc, store.list(alloc)),
        "read" => return read(alloc, store, rest),
        "write" => write(alloc, store, rest)?,
        "mark" => match key_of(alloc, rest)? {
            Some(key) => word(store.mark(&key)),
            None => "?",
        },
        "erase" => match key_of(alloc, rest)? {
            Some(key) => word(store.erase(&key)),
            None => "?",
        },
        _ => "?",
    };
    String::from_str(alloc, answer)
}

/// Makes the calls of a text, parted by `;`, each of the handle of the number in front of it.
fn run_all<S: Store>(alloc: Global, stores: &mut [S], calls: &str) -> Result<String, AllocError> {
    let mut made = String::new(alloc);
    for call in calls.split(';') {
        let Some((number, call)) = call.trim().split_once(' ') else {
            continue;
        };
        let Ok(number) = number.parse::<usize>() else {
            continue;
        };
        if let Some(store) = stores.get_mut(number) {
            let answer = answer_of(alloc, store, call)?;
            made.push_str(answer.as_str())?;
            made.push_str("; ")?;
        }
    }
    Ok(made)
}

/// The count of faults of each handle, what it was asked to change, and what it read last.
fn told_by<R: Wait + Send + Drop>(
    alloc: Global,
    made: &mut String,
    stores: &[MemStore<R>],
) -> Result<(), AllocError> {
    for (place, store) in stores.iter().enumerate() {
        if place > 0 {
            made.push_str("; ")?;
        }
        let faults = store.faults();
        made.push_str(format!(in alloc; "{faults} faults, touched (")?.as_str())?;
        for (number, touched) in store.touched().iter().enumerate() {
            if number > 0 {
                made.push_str(", ")?;
            }
            made.push_str(touched_text(alloc, touched)?.as_str())?;
        }
        let got = got_text(alloc, store.got())?;
        let got = got.as_str();
        made.push_str(format!(in alloc; "), got {got}")?.as_str())?;
    }
    Ok(())
}

/// So many handles on the cache with these folders, or None where the host fails. The plan may also
/// be a target that fails from a call on.
pub fn opened<R: Wait + Clone + Send + Drop>(
    rt: R,
    alloc: Global,
    plan: &str,
    cached: Vec<(SlotKey, Rows<(RelPath, Node)>)>,
    count: u32,
) -> Result<Option<Vec<MemStore<R>>>, AllocError> {
    let fails = plan_of(alloc, plan)?;
    let mut host = MemHost::make(rt, alloc, Vec::new(alloc), Vec::new(alloc), cached, fails)?;
    stop_at(alloc, &mut host, plan)?;
    let mut stores = Vec::new(alloc);
    for _ in 0..count {
        match host.store(alloc, "/pkgs") {
            Ok(store) => stores.push(store)?,
            Err(_) => return Ok(None),
        }
    }
    Ok(Some(stores))
}

/// Makes calls of so many handles on the cache, and tells of each its faults, what it was asked to
/// change, and what it read last.
fn run_stores<R: Wait + Clone + Send + Drop>(
    rt: R,
    alloc: Global,
    plan: &str,
    cached: &str,
    handles: &str,
    calls: &str,
) -> Result<Option<String>, AllocError> {
    let cached = cached_of(alloc, cached)?;
    let count = handles.parse::<u32>().unwrap_or(0);
    let Some(mut stores) = opened(rt, alloc, plan, cached, count)? else {
        return Ok(Some(String::from_str(alloc, "no handle")?));
    };
    let mut made = run_all(alloc, stores.as_mut_slice(), calls)?;
    told_by(alloc, &mut made, stores.as_slice())?;
    Ok(Some(made))
}
