use crate::chan::opened;
use crate::store;
use conda_base::{Rows, Text};
use conda_checked::{CheckErr, Checked, Lack};
use conda_dev::{Chan, Store};
use conda_path::{Digest, Node, RelPath, SlotKey};
use hex::FromHex;
use rows_plan::{first_word, key_of, node_of, shown_bytes, shown_look};
use std::alloc::{AllocError, Global};
use std::sync::Wait;

/// The rows of conda_checked. The first argument is a plan of failing calls, the second the nodes
/// `PATH KIND TEXT` of the channel `main` or of the package `main/noarch/a-1.0-0` in the cache, the
/// third calls of the handles 0 and 1, all parted by `;`: `HANDLE need PATH MAX`, `HANDLE maybe PATH
/// MAX`, `HANDLE shown PATH`, `HANDLE good PATH SIZE DIGEST`.
pub fn answer<R: Wait + Sync>(
    rt: &R,
    alloc: Global,
    call: &str,
    arguments: &[Text],
) -> Result<Option<String>, AllocError> {
    match (call, arguments) {
        ("check.chan", [plan, files, calls]) => {
            over_channel(rt, alloc, plan.as_str(), files.as_str(), calls.as_str())
        }
        ("check.store", [plan, files, calls]) => {
            over_cache(rt, alloc, plan.as_str(), files.as_str(), calls.as_str())
        }
        _ => Ok(None),
    }
}

/// The nodes of a text, parted by `;`.
fn nodes_of(alloc: Global, text: &str) -> Result<Vec<(RelPath, Node)>, AllocError> {
    let mut nodes = Vec::new(alloc);
    for entry in text.split(';') {
        if let Some(node) = node_of(alloc, entry.trim())? {
            nodes.push(node)?;
        }
    }
    Ok(nodes)
}

fn over_channel<R: Wait + Sync>(
    rt: &R,
    alloc: Global,
    plan: &str,
    files: &str,
    calls: &str,
) -> Result<Option<String>, AllocError> {
    let Some(chans) = opened(rt, alloc, plan, files, "main main")? else {
        return Ok(None);
    };
    let mut checked = Vec::new(alloc);
    for chan in chans {
        checked.push(Checked::make(chan))?;
    }
    Ok(Some(check_all(alloc, checked.as_mut_slice(), calls)?))
}

/// Makes the calls of a text, parted by `;`, each of the handle of the number in front of it, and
/// tells what each handle counts.
fn check_all<C: Chan>(
    alloc: Global,
    chans: &mut [Checked<C>],
    calls: &str,
) -> Result<String, AllocError> {
    let mut made = String::new(alloc);
    for call in calls.split(';') {
        let (number, call) = first_word(call.trim());
        let Ok(number) = number.parse::<usize>() else {
            continue;
        };
        if let Some(chan) = chans.get_mut(number) {
            made.push_str(call_chan(alloc, chan, call)?.as_str())?;
            made.push_str("; ")?;
        }
    }
    for (place, chan) in chans.iter().enumerate() {
        if place > 0 {
            made.push_str("; ")?;
        }
        push_chan(&mut made, alloc, chan)?;
    }
    Ok(made)
}

fn call_chan<C: Chan>(
    alloc: Global,
    chan: &mut Checked<C>,
    call: &str,
) -> Result<String, AllocError> {
    let (verb, rest) = first_word(call);
    let (path, rest) = first_word(rest);
    let (size, digest) = first_word(rest);
    let size = size.parse::<u64>().unwrap_or(0);
    match verb {
        "need" => shown_check(alloc, chan.need(alloc, path, size)),
        "maybe" => shown_bytes(alloc, chan.maybe(alloc, path, size)),
        "shown" => match chan.shown(alloc, path) {
            Ok(shown) => shown_look::<CheckErr>(alloc, Ok(Some(shown))),
            Err(e) => shown_err(alloc, e),
        },
        "good" => match digest_of(digest) {
            Some(digest) => shown_check(alloc, chan.good(alloc, path, size, &digest)),
            None => String::from_str(alloc, "?"),
        },
        _ => String::from_str(alloc, "?"),
    }
}

fn over_cache<R: Wait + Sync>(
    rt: &R,
    alloc: Global,
    plan: &str,
    files: &str,
    calls: &str,
) -> Result<Option<String>, AllocError> {
    let Some(key) = key_of(alloc, "main/noarch/a-1.0-0")? else {
        return Ok(None);
    };
    let mut cached = Vec::new(alloc);
    cached.push((key.clone()?, Rows::from_vec(nodes_of(alloc, files)?)))?;
    let Some(mut stores) = store::opened(rt, alloc, plan, cached, 1)? else {
        return Ok(None);
    };
    match stores.pop() {
        Some(store) => Ok(Some(check_store(alloc, store, &key, calls)?)),
        None => Ok(None),
    }
}

/// Makes the calls of a text, parted by `;`, and tells what the handle counts.
fn check_store<S: Store>(
    alloc: Global,
    store: S,
    key: &SlotKey,
    calls: &str,
) -> Result<String, AllocError> {
    let mut store = Checked::make(store);
    let mut made = String::new(alloc);
    for call in calls.split(';') {
        made.push_str(call_store(alloc, &mut store, key, call.trim())?.as_str())?;
        made.push_str("; ")?;
    }
    let faults = store.faults();
    push_counts(
        &mut made,
        alloc,
        store.absents(),
        store.mismatches(),
        faults,
    )?;
    push_lack(&mut made, alloc, store.last())?;
    Ok(made)
}

fn call_store<S: Store>(
    alloc: Global,
    store: &mut Checked<S>,
    key: &SlotKey,
    call: &str,
) -> Result<String, AllocError> {
    let (verb, rest) = first_word(call);
    let (path, rest) = first_word(rest);
    let (size, digest) = first_word(rest);
    let size = size.parse::<u64>().unwrap_or(0);
    match (verb, RelPath::read(alloc, path), digest_of(digest)) {
        ("good", Ok(path), Some(digest)) => {
            shown_check(alloc, store.good_at(alloc, key, &path, size, &digest))
        }
        _ => String::from_str(alloc, "?"),
    }
}

/// The digest of 64 hexadecimal digits.
fn digest_of(text: &str) -> Option<Digest> {
    match <[u8; 32]>::from_hex(text) {
        Ok(bytes) => Some(Digest { bytes }),
        Err(_) => None,
    }
}

/// The first eight hexadecimal digits of a digest.
fn push_digest(made: &mut String, alloc: Global, digest: &Digest) -> Result<(), AllocError> {
    let text = hex::encode(alloc, digest.bytes.as_slice())?;
    made.push_str(text.as_str().get(..8).unwrap_or("?"))
}

/// What a read of a file that has to be there came to.
fn shown_check(alloc: Global, read: Result<Vec<u8>, CheckErr>) -> Result<String, AllocError> {
    match read {
        Ok(bytes) => shown_bytes::<CheckErr>(alloc, Ok(Some(bytes))),
        Err(e) => shown_err(alloc, e),
    }
}

fn shown_err(alloc: Global, error: CheckErr) -> Result<String, AllocError> {
    match error {
        CheckErr::Failed => String::from_str(alloc, "failed"),
        CheckErr::Absent => String::from_str(alloc, "absent"),
        CheckErr::Memory => String::from_str(alloc, "memory"),
        CheckErr::Mismatch { want, found } => {
            let mut made = String::from_str(alloc, "want ")?;
            push_digest(&mut made, alloc, &want)?;
            made.push_str(" found ")?;
            push_digest(&mut made, alloc, &found)?;
            Ok(made)
        }
    }
}

fn push_chan<C: Chan>(
    made: &mut String,
    alloc: Global,
    chan: &Checked<C>,
) -> Result<(), AllocError> {
    push_counts(
        made,
        alloc,
        chan.absents(),
        chan.mismatches(),
        chan.faults(),
    )?;
    push_lack(made, alloc, chan.last())
}

fn push_counts(
    made: &mut String,
    alloc: Global,
    absents: u64,
    mismatches: u64,
    faults: u64,
) -> Result<(), AllocError> {
    let text = format!(in alloc; "{absents} absent {mismatches} differ {faults} faults last ")?;
    made.push_str(text.as_str())
}

/// The last lack: its path, the size and digest that were asked for, and the digest found.
fn push_lack(made: &mut String, alloc: Global, lack: Option<&Lack>) -> Result<(), AllocError> {
    let Some(lack) = lack else {
        return made.push_str("none");
    };
    made.push_str(lack.path.as_str())?;
    match &lack.want {
        Some((size, digest)) => {
            let size = *size;
            let text = format!(in alloc; " want {size} ")?;
            made.push_str(text.as_str())?;
            push_digest(made, alloc, digest)?;
        }
        None => made.push_str(" want nothing")?,
    }
    match &lack.found {
        Some(digest) => {
            made.push_str(" found ")?;
            push_digest(made, alloc, digest)
        }
        None => made.push_str(" found nothing"),
    }
}
