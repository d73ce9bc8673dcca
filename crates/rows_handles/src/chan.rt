use conda_base::{Rows, Text};
use conda_dev::{Chan, Counted, DeviceErr, Host, MemChan, MemHost, Shown};
use conda_path::Node;
use rows_plan::{named_nodes, plan_of, stop_at};
use std::alloc::{AllocError, Global};
use std::sync::Wait;

/// The rows of handles on a channel. `chan.run PLAN|FILES|NAMES|CALLS`, `chan.watch
/// FILES|PATH|CALLS`.
pub fn answer<R: Wait + Sync>(
    rt: &R,
    alloc: Global,
    call: &str,
    arguments: &[Text],
) -> Result<Option<String>, AllocError> {
    match (call, arguments) {
        ("chan.run", [plan, files, open, calls]) => run_chans(
            rt,
            alloc,
            plan.as_str(),
            files.as_str(),
            open.as_str(),
            calls.as_str(),
        ),
        ("chan.watch", [files, path, calls]) => {
            watch_chans(rt, alloc, files.as_str(), path.as_str(), calls.as_str())
        }
        _ => Ok(None),
    }
}

/// A host whose channel `main` has these files.
pub fn host_of<R: Wait + Clone + Drop>(
    rt: R,
    alloc: Global,
    plan: &str,
    files: &str,
) -> Result<MemHost<R>, AllocError> {
    let mut channels: Vec<(Text, Rows<(Text, Node)>)> = Vec::new(alloc);
    let name = Text::from_str(alloc, "main")?;
    channels.push((name, named_nodes(alloc, files)?))?;
    let plan = plan_of(alloc, plan)?;
    MemHost::make(rt, alloc, Vec::new(alloc), channels, Vec::new(alloc), plan)
}

/// What a channel shows.
fn shown_look(
    alloc: Global,
    shown: Result<Option<Shown>, DeviceErr>,
) -> Result<String, AllocError> {
    match shown {
        Ok(Some(Shown::File { exec: false })) => String::from_str(alloc, "file"),
        Ok(Some(Shown::File { exec: true })) => String::from_str(alloc, "exec"),
        Ok(Some(Shown::Soft { target })) => {
            let target = str::from_utf8(target.as_slice()).unwrap_or("?");
            format!(in alloc; "soft {target}")
        }
        Ok(None) => String::from_str(alloc, "none"),
        Err(_) => String::from_str(alloc, "failed"),
    }
}

/// The bytes that a read gave, in brackets.
pub fn shown_bytes(
    alloc: Global,
    read: Result<Option<Vec<u8>>, DeviceErr>,
) -> Result<String, AllocError> {
    match read {
        Ok(Some(bytes)) => {
            let text = str::from_utf8(bytes.as_slice()).unwrap_or("?");
            format!(in alloc; "[{text}]")
        }
        Ok(None) => String::from_str(alloc, "none"),
        Err(_) => String::from_str(alloc, "failed"),
    }
}

/// Texts, parted by spaces, in parentheses.
pub fn shown_texts(alloc: Global, texts: &[Text]) -> Result<String, AllocError> {
    let mut made = String::from_str(alloc, "(")?;
    for text in texts {
        if made.len() > 1 {
            made.push(' ')?;
        }
        made.push_str(text.as_str())?;
    }
    made.push(')')?;
    Ok(made)
}

/// The texts that a call gave.
pub fn shown_list(alloc: Global, list: Result<Vec<Text>, DeviceErr>) -> Result<String, AllocError> {
    match list {
        Ok(texts) => shown_texts(alloc, texts.as_slice()),
        Err(_) => String::from_str(alloc, "failed"),
    }
}

/// Makes one call: `look PATH`, `read PATH MAX` or `list SUBDIR`.
fn answer_of<C: Chan>(alloc: Global, chan: &mut C, call: &str) -> Result<String, AllocError> {
    let Some((verb, rest)) = call.split_once(' ') else {
        return String::from_str(alloc, "?");
    };
    match verb {
        "look" => shown_look(alloc, chan.look(alloc, rest)),
        "list" => shown_list(alloc, chan.list(alloc, rest)),
        "read" => match rest.split_once(' ') {
            Some((path, max)) => {
                shown_bytes(
                    alloc,
                    chan.read(alloc, path, max.parse::<u64>().unwrap_or(0)),
                )
            }
            None => String::from_str(alloc, "?"),
        },
        _ => String::from_str(alloc, "?"),
    }
}

/// Makes the calls of a text, parted by `;`, each of the handle of the number in front of it.
fn run_all<C: Chan>(alloc: Global, chans: &mut [C], calls: &str) -> Result<String, AllocError> {
    let mut made = String::new(alloc);
    for call in calls.split(';') {
        let Some((number, call)) = call.trim().split_once(' ') else {
            continue;
        };
        let Ok(number) = number.parse::<usize>() else {
            continue;
        };
        if let Some(chan) = chans.get_mut(number) {
            let answer = answer_of(alloc, chan, call)?;
            made.push_str(answer.as_str())?;
            made.push_str("; ")?;
        }
    }
    Ok(made)
}

/// The count of faults of each handle, and the paths that it was asked to read.
fn told_by(alloc: Global, made: &mut String, chans: &[MemChan]) -> Result<(), AllocError> {
    for (place, chan) in chans.iter().enumerate() {
        if place > 0 {
            made.push_str("; ")?;
        }
        let faults = chan.faults();
        let asked = shown_texts(alloc, chan.asked())?;
        let asked = asked.as_str();
        made.push_str(format!(in alloc; "{faults} faults, asked {asked}")?.as_str())?;
    }
    Ok(())
}

/// Handles on the channels of these names, or None where the host fails. The plan may also be a
/// target that fails from a call on.
pub fn opened<R: Wait + Clone + Send + Drop>(
    rt: R,
    alloc: Global,
    plan: &str,
    files: &str,
    names: &str,
) -> Result<Option<Vec<MemChan>>, AllocError> {
    let mut host = host_of(rt, alloc, plan, files)?;
    stop_at(alloc, &mut host, plan)?;
    let mut chans = Vec::new(alloc);
    for name in names.split_whitespace() {
        match host.chan(alloc, "/channels", name) {
            Ok(chan) => chans.push(chan)?,
            Err(_) => return Ok(None),
        }
    }
    Ok(Some(chans))
}

/// Makes calls of handles on these channels, and tells of each its faults and what it was asked to
/// read.
fn run_chans<R: Wait + Clone + Send + Drop>(
    rt: R,
    alloc: Global,
    plan: &str,
    files: &str,
    names: &str,
    calls: &str,
) -> Result<Option<String>, AllocError> {
    let Some(mut chans) = opened(rt, alloc, plan, files, names)? else {
        return Ok(Some(String::from_str(alloc, "no handle")?));
    };
    let mut made = run_all(alloc, chans.as_mut_slice(), calls)?;
    told_by(alloc, &mut made, chans.as_slice())?;
    Ok(Some(made))
}

/// How many reads of one path there were, over all handles.
fn watch_chans<R: Wait + Clone + Send + Drop>(
    rt: R,
    alloc: Global,
    files: &str,
    path: &str,
    calls: &str,
) -> Result<Option<String>, AllocError> {
    let mut host = host_of(rt, alloc, "", files)?;
    host.watch(alloc, path)?;
    let mut chans = Vec::new(alloc);
    for _ in 0..2 {
        if let Ok(chan) = host.chan(alloc, "/channels", "main") {
            chans.push(chan)?;
        }
    }
    let _ = run_all(alloc, chans.as_mut_slice(), calls)?;
    let reads = host.reads();
    Ok(Some(format!(in alloc; "{reads}")?))
}
