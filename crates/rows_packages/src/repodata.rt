use conda_base::{Copied, Text};
use conda_repodata::{Repodata, RepodataErr};
use std::alloc::{AllocError, Global};
use std::thread::Threads;

/// The rows of conda_repodata.
pub fn answer<R: Threads + Sync>(
    rt: &R,
    alloc: Global,
    call: &str,
    arguments: &[Text],
) -> Result<Option<String>, AllocError> {
    match (call, arguments) {
        ("repodata", [channel, subdir, text]) => {
            let bytes = text.as_str().as_bytes();
            let read = Repodata::read(rt, alloc, bytes, channel.as_str(), subdir.as_str());
            Ok(Some(shown(alloc, read)?))
        }
        _ => Ok(None),
    }
}

/// Of each record its key, build number and timestamp, and of each entry that is set aside the file
/// and the field; or the fault of the text.
fn shown(alloc: Global, read: Result<Repodata, RepodataErr>) -> Result<String, AllocError> {
    let repodata = match read {
        Ok(repodata) => repodata.copy()?,
        Err(RepodataErr::Memory) => return Err(AllocError),
        Err(error) => return format!(in alloc; "{error}"),
    };
    let mut text = format!(in alloc; "{} records", repodata.recs.len())?;
    for pkg in repodata.recs.as_slice() {
        let shown = format!(in alloc;
            "; {}/{}/{} {} {}",
            pkg.channel.as_str(),
            pkg.subdir.as_str(),
            pkg.dist.text(),
            pkg.build_number,
            pkg.timestamp
        )?;
        text.push_str(shown.as_str())?;
    }
    let count = format!(in alloc; "; {} aside", repodata.aside.len())?;
    text.push_str(count.as_str())?;
    for aside in repodata.aside.as_slice() {
        let shown = format!(in alloc; "; {} {}", aside.file.as_str(), aside.field)?;
        text.push_str(shown.as_str())?;
    }
    Ok(text)
}
