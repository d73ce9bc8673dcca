use conda_base::{Copied, Text};
use conda_history::{Block, History, HistoryErr, Stamp};
use rows_text::shown;
use std::alloc::{AllocError, Global};

/// The most seconds of which a moment is asked.
const MOST_SECONDS: u64 = 250_000_000_000;

/// The rows of conda_history.
pub fn answer(alloc: Global, call: &str, arguments: &[Text]) -> Result<Option<String>, AllocError> {
    match (call, arguments) {
        ("history.left", [text]) => left(alloc, text.as_str().as_bytes()),
        ("history.left_with_byte", [before, byte, after]) => {
            let Ok(byte) = byte.as_str().parse::<u8>() else {
                return Ok(None);
            };
            let mut bytes = Vec::new(alloc);
            bytes.extend_from_slice(before.as_str().as_bytes())?;
            bytes.push(byte)?;
            bytes.extend_from_slice(after.as_str().as_bytes())?;
            left(alloc, bytes.as_slice())
        }
        ("history.blocks", [text]) => blocks(alloc, text.as_str().as_bytes()),
        ("history.text", [text]) => again(alloc, text.as_str().as_bytes()),
        ("history.changes", [text]) => changes(alloc, text.as_str().as_bytes()),
        ("stamp.of", [seconds]) => match seconds.as_str().parse::<u64>() {
            Ok(seconds) if seconds <= MOST_SECONDS => of(alloc, seconds),
            _ => Ok(None),
        },
        _ => Ok(None),
    }
}

/// The dists that the history leaves, or `nothing`.
fn left(alloc: Global, bytes: &[u8]) -> Result<Option<String>, AllocError> {
    let history = match History::read(alloc, bytes) {
        Ok(history) => history,
        Err(error) => return refused(alloc, error),
    };
    let Ok(set) = history.set(alloc) else {
        return Ok(None);
    };
    let mut text = String::new(alloc);
    for dist in set.as_slice() {
        text.push_str(dist.text())?;
        text.push(' ')?;
    }
    if text.is_empty() {
        text.push_str("nothing ")?;
    }
    text.pop();
    Ok(Some(text))
}

/// The moment of each block of a copy, and its dists by their signs.
fn blocks(alloc: Global, bytes: &[u8]) -> Result<Option<String>, AllocError> {
    let history = match History::read(alloc, bytes) {
        Ok(history) => history.copy()?,
        Err(error) => return refused(alloc, error),
    };
    let mut text = String::new(alloc);
    for block in history.blocks.as_slice() {
        push_block(alloc, &mut text, block)?;
    }
    Ok(Some(text))
}

/// The text of what is read, on one line.
fn again(alloc: Global, bytes: &[u8]) -> Result<Option<String>, AllocError> {
    let history = match History::read(alloc, bytes) {
        Ok(history) => history,
        Err(error) => return refused(alloc, error),
    };
    let Ok(text) = history.text(alloc) else {
        return Ok(None);
    };
    match str::from_utf8(text.as_slice()) {
        Ok(text) => Ok(Some(shown(alloc, text)?)),
        Err(_) => Ok(None),
    }
}

/// What each block really changes.
fn changes(alloc: Global, bytes: &[u8]) -> Result<Option<String>, AllocError> {
    let history = match History::read(alloc, bytes) {
        Ok(history) => history,
        Err(error) => return refused(alloc, error),
    };
    let Ok(changes) = history.changes(alloc) else {
        return Ok(None);
    };
    let mut text = String::new(alloc);
    for change in changes.as_slice() {
        push_dists(&mut text, change)?;
        text.push(';')?;
    }
    Ok(Some(text))
}

/// The moment of seconds, of at most 250,000,000,000.
fn of(alloc: Global, seconds: u64) -> Result<Option<String>, AllocError> {
    if seconds > 250_000_000_000 {
        return Ok(None);
    }
    let mut text = String::new(alloc);
    Stamp::of(seconds).push_text(&mut text)?;
    Ok(Some(text))
}

fn push_block(alloc: Global, text: &mut String, block: &Block) -> Result<(), AllocError> {
    let stamp = block.stamp;
    let (year, month, day) = (stamp.year, stamp.month, stamp.day);
    let (hour, minute, second) = (stamp.hour, stamp.minute, stamp.second);
    let date = format!(in alloc; "year {year} month {month} day {day}")?;
    let time = format!(in alloc; " hour {hour} minute {minute} second {second}")?;
    text.push_str(date.as_str())?;
    text.push_str(time.as_str())?;
    push_dists(text, block)?;
    text.push_str(if block.whole { " whole;" } else { ";" })
}

/// The dists of a block by their signs.
fn push_dists(text: &mut String, block: &Block) -> Result<(), AllocError> {
    for dist in block.removed.as_slice() {
        text.push_str(" -")?;
        text.push_str(dist.text())?;
    }
    for dist in block.added.as_slice() {
        text.push_str(" +")?;
        text.push_str(dist.text())?;
    }
    Ok(())
}

fn refused(alloc: Global, error: HistoryErr) -> Result<Option<String>, AllocError> {
    match error {
        HistoryErr::BadHistory { line } => Ok(Some(format!(in alloc; "bad line {line}")?)),
        HistoryErr::Memory => Ok(None),
    }
}
