use conda_base::Rows;
use conda_lane::Change;
use std::alloc::{AllocError, Global};

/// Whether something goes or comes.
fn word(change: &Change) -> &'static str {
    match (change.old, change.new.is_some()) {
        (true, true) => "changes",
        (true, false) => "goes",
        (false, true) => "comes",
        (false, false) => "stays away",
    }
}

/// The changes of a lane, each behind a `;`.
fn push_share(
    alloc: Global,
    shown: &mut String,
    lane: usize,
    share: &[Change],
) -> Result<(), AllocError> {
    for change in share {
        let (path, trash) = (change.path.as_str(), change.trash.as_str());
        let word = word(change);
        shown.push_str(format!(in alloc; "; {lane} {path} {word} {trash}")?.as_str())?;
    }
    Ok(())
}

/// How many lists there are, and then each change with the number of its list, its path, what
/// happens there and its path in the trash.
pub fn shown_shares(alloc: Global, shares: &[Rows<Change>]) -> Result<String, AllocError> {
    let count = shares.len();
    let mut shown = format!(in alloc; "{count} lists")?;
    for (lane, share) in shares.iter().enumerate() {
        push_share(alloc, &mut shown, lane, share.as_slice())?;
    }
    Ok(shown)
}
