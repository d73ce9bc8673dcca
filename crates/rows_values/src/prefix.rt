use conda_base::Text;
use conda_prefix::{PrefixErr, replace_binary, replace_text};
use std::alloc::{AllocError, Global};

/// The rows of conda_prefix.
pub fn answer(alloc: Global, call: &str, arguments: &[Text]) -> Result<Option<String>, AllocError> {
    let [text, placeholder, prefix] = arguments else {
        return Ok(None);
    };
    let placeholder = placeholder.as_str().as_bytes();
    if placeholder.is_empty() {
        return Ok(None);
    }
    let bytes = text.as_str().as_bytes().to_vec(alloc)?;
    let prefix = prefix.as_str().as_bytes();
    match call {
        "prefix.text" => {
            let made = replace_text(alloc, bytes, placeholder, prefix);
            Ok(Some(shown(alloc, made)?))
        }
        "prefix.binary" => {
            let made = replace_binary(alloc, bytes, placeholder, prefix);
            Ok(Some(shown(alloc, made)?))
        }
        "prefix.size" => {
            let made = replace_binary(alloc, bytes, placeholder, prefix);
            Ok(Some(size(alloc, made)?))
        }
        _ => Ok(None),
    }
}

/// The bytes that were made, each NUL as `\0`.
fn shown(alloc: Global, made: Result<Vec<u8>, PrefixErr>) -> Result<String, AllocError> {
    let bytes = match made {
        Ok(bytes) => bytes,
        Err(e) => return refusal(alloc, e),
    };
    let mut text = format!(in alloc; "{} bytes ", bytes.len())?;
    text.push('"')?;
    for byte in bytes.as_slice() {
        match *byte {
            0 => text.push_str("\\0")?,
            byte => text.push(char::from(byte))?,
        }
    }
    text.push('"')?;
    Ok(text)
}

/// How many bytes were made, and how many of them are NUL.
fn size(alloc: Global, made: Result<Vec<u8>, PrefixErr>) -> Result<String, AllocError> {
    match made {
        Ok(bytes) => {
            let nuls = bytes.as_slice().iter().filter(|byte| **byte == 0).count();
            format!(in alloc; "{} bytes, {nuls} of them NUL", bytes.len())
        }
        Err(e) => refusal(alloc, e),
    }
}

fn refusal(alloc: Global, e: PrefixErr) -> Result<String, AllocError> {
    match e {
        PrefixErr::PaddingShort { have, need } => {
            format!(in alloc; "room for {have}, {need} wanted")
        }
        PrefixErr::Memory => Err(AllocError),
    }
}
