use conda_base::Text;
use conda_device::{Chan, Counted, Shown, Store};
use conda_path::{Dist, RelPath, SlotKey};
use std::alloc::{AllocError, Global};

/// Runs calls, parted by `;`, on a handle of a channel: `look PATH`, `read PATH MAX` and `list
/// SUBDIR`. The answers and the count of faults.
pub fn run_chan<C: Chan>(alloc: Global, chan: &mut C, calls: &str) -> Result<String, AllocError> {
    let mut made = String::new(alloc);
    for call in calls.split(';') {
        let answer = chan_answer(alloc, chan, call.trim())?;
        made.push_str(answer.as_str())?;
        made.push_str("; ")?;
    }
    let faults = chan.faults();
    let made = made.as_str();
    format!(in alloc; "{made}{faults} faults")
}

fn chan_answer<C: Chan>(alloc: Global, chan: &mut C, call: &str) -> Result<String, AllocError> {
    let (verb, rest) = first_word(call);
    match verb {
        "look" => shown_look(alloc, chan.look(alloc, rest)),
        "list" => shown_texts(alloc, chan.list(alloc, rest)),
        "read" => {
            let (path, max) = first_word(rest);
            let max = max.parse::<u64>().unwrap_or(0);
            shown_bytes(alloc, chan.read(alloc, path, max))
        }
        _ => String::from_str(alloc, "?"),
    }
}

/// Runs calls, parted by `;`, on a handle of the cache: `list`, `read KEY PATH MAX`, `write KEY PATH
/// TEXT`, `exec KEY PATH TEXT`, `mark KEY` and `erase KEY`, where KEY is `CHANNEL/SUBDIR/DIST`. The
/// answers and the count of faults.
pub fn run_store<S: Store>(
    alloc: Global,
    store: &mut S,
    calls: &str,
) -> Result<String, AllocError> {
    let mut made = String::new(alloc);
    for call in calls.split(';') {
        let answer = store_answer(alloc, store, call.trim())?;
        made.push_str(answer.as_str())?;
        made.push_str("; ")?;
    }
    let faults = store.faults();
    let made = made.as_str();
    format!(in alloc; "{made}{faults} faults")
}

fn store_answer<S: Store>(alloc: Global, store: &mut S, call: &str) -> Result<String, AllocError> {
    let (verb, rest) = first_word(call);
    if verb == "list" {
        return shown_texts(alloc, store.list(alloc));
    }
    let (key, rest) = first_word(rest);
    let Some(key) = key_of(alloc, key)? else {
        return String::from_str(alloc, "?");
    };
    match verb {
        "mark" => return word_of(alloc, store.mark(&key)),
        "erase" => return word_of(alloc, store.erase(&key)),
        _ => {}
    }
    let (path, rest) = first_word(rest);
    let Ok(path) = RelPath::read(alloc, path) else {
        return String::from_str(alloc, "?");
    };
    match verb {
        "read" => {
            let max = rest.parse::<u64>().unwrap_or(0);
            shown_bytes(alloc, store.read(alloc, &key, &path, max))
        }
        "write" => word_of(alloc, store.write(&key, &path, rest.as_bytes(), false)),
        "exec" => word_of(alloc, store.write(&key, &path, rest.as_bytes(), true)),
        _ => String::from_str(alloc, "?"),
    }
}

/// The first word of a text, and what follows.
pub fn first_word(text: &str) -> (&str, &str) {
    match text.split_once(' ') {
        Some(cut) => cut,
        None => (text, ""),
    }
}

/// The key of a text `CHANNEL/SUBDIR/DIST`.
pub fn key_of(alloc: Global, text: &str) -> Result<Option<SlotKey>, AllocError> {
    let Some((front, dist)) = text.rsplit_once('/') else {
        return Ok(None);
    };
    let Some((channel, subdir)) = front.rsplit_once('/') else {
        return Ok(None);
    };
    let Ok(dist) = Dist::read(alloc, dist) else {
        return Ok(None);
    };
    let channel = Text::from_str(alloc, channel)?;
    let subdir = Text::from_str(alloc, subdir)?;
    Ok(Some(SlotKey {
        channel,
        subdir,
        dist,
    }))
}

fn word_of<E: Drop>(alloc: Global, done: Result<(), E>) -> Result<String, AllocError> {
    String::from_str(alloc, if done.is_ok() { "ok" } else { "failed" })
}

/// What a look of a channel came to.
pub fn shown_look<E: Drop>(
    alloc: Global,
    look: Result<Option<Shown>, E>,
) -> Result<String, AllocError> {
    match look {
        Ok(Some(Shown::File { exec: false })) => String::from_str(alloc, "file"),
        Ok(Some(Shown::File { exec: true })) => String::from_str(alloc, "exec"),
        Ok(Some(Shown::Soft { target })) => {
            let target = str::from_utf8(target.as_slice()).unwrap_or("?");
            format!(in alloc; "soft {target}")
        }
        Ok(None) => String::from_str(alloc, "none"),
        Err(_) => String::from_str(alloc, "failed"),
    }
}

/// What a read of a channel or of the cache came to.
pub fn shown_bytes<E: Drop>(
    alloc: Global,
    read: Result<Option<Vec<u8>>, E>,
) -> Result<String, AllocError> {
    match read {
        Ok(Some(bytes)) => {
            let text = str::from_utf8(bytes.as_slice()).unwrap_or("?");
            format!(in alloc; "[{text}]")
        }
        Ok(None) => String::from_str(alloc, "none"),
        Err(_) => String::from_str(alloc, "failed"),
    }
}

/// What a listing came to.
fn shown_texts<E: Drop>(alloc: Global, texts: Result<Vec<Text>, E>) -> Result<String, AllocError> {
    let Ok(texts) = texts else {
        return String::from_str(alloc, "failed");
    };
    let mut made = String::new(alloc);
    for text in texts.iter() {
        if !made.is_empty() {
            made.push(' ')?;
        }
        made.push_str(text.as_str())?;
    }
    Ok(made)
}
