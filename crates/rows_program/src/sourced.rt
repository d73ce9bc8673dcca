use conda_base::{Bytes, Rows, Text};
use conda_path::{Kind, Node};
use std::alloc::{AllocError, Global};

/// Puts the repodata of a channel's subdir among the channels' files.
fn put(
    alloc: Global,
    channels: &mut Vec<(Text, Rows<(Text, Node)>)>,
    channel: &str,
    subdir: &str,
    text: &Text,
) -> Result<(), AllocError> {
    let path = Text::from_string(format!(in alloc; "{subdir}/repodata.json")?);
    let bytes = Bytes::from_slice(alloc, text.as_str().as_bytes())?;
    let kind = Kind::File;
    let node = Node { kind, bytes };
    for (name, files) in channels.iter_mut() {
        if name.as_str() == channel {
            files.push((path, node))?;
            return Ok(());
        }
    }
    let mut files = Rows::new(alloc);
    files.push((path, node))?;
    channels.push((Text::from_str(alloc, channel)?, files))?;
    Ok(())
}

/// The channels that have these texts as repodata, each behind its channel and subdir, or None where
/// the arguments aren't such pairs.
pub fn channels_of(
    alloc: Global,
    files: &[Text],
) -> Result<Option<Vec<(Text, Rows<(Text, Node)>)>>, AllocError> {
    let mut channels = Vec::new(alloc);
    let mut rest = files;
    for _turn in 0..files.len() {
        match rest {
            [place, text, behind @ ..] => {
                let Some((channel, subdir)) = place.as_str().split_once('/') else {
                    return Ok(None);
                };
                put(alloc, &mut channels, channel, subdir, text)?;
                rest = behind;
            }
            _ => break,
        }
    }
    if !rest.is_empty() {
        return Ok(None);
    }
    Ok(Some(channels))
}
