ghost use Rattle.std.specs.Prelude.{◌≡◌, IfOk};
ghost use Rattle.std.specs.List.{after_first, before_first, list_all};
ghost use Rattle.conda_base.specs.Texts.{is_byte};
ghost use Rattle.conda_version.specs.Text.{holds};
ghost use Rattle.conda_words.specs.Values as values;

use crate::command::Virtual;
use conda_base::{Text, read_number};
use conda_version::{Version, VersionErr, trimmed};
use std::alloc::{AllocError, Global};

/// The number of which the text is the decimal form, without a leading zero, where it lies in a range.
pub fn number_in(low: u32, high: u32, text: &str) -> Option<u32>
    ensures { result ≡ values.number_in low high text.now }
{
    let n = read_number(text.as_bytes(), u64::from(high) + 1)?;
    if u64::from(low) <= n {
        Some(n as u32)
    } else {
        None
    }
}

fn is_label_byte(b: u8) -> bool
    ensures { result ≡ values.is_label_byte b }
{
    b.is_ascii_alphanumeric() || b == b'_' || b == b'-' || b == b'.'
}

fn has_name_bytes(name: &[u8]) -> bool
    ensures { result ≡ list_all values.is_label_byte name.now }
{
    name.iter().all(|b| is_label_byte(*b))
}

/// Whether the text is the name of a channel.
pub fn is_channel(name: &str) -> bool
    ensures { result ≡ values.is_channel name.now }
{
    let bytes = name.as_bytes();
    if bytes.is_empty() {
        return false;
    }
    if bytes.len() > 64 {
        return false;
    }
    if bytes.first() == Some(&b'.') {
        return false;
    }
    has_name_bytes(bytes)
}

/// What stands before the first `=` and behind it; the whole and nothing, where there is none.
fn cut_at_equals(text: &str) -> (&str, &str)
    ensures before { result.0.now ≡ before_first (is_byte 61) text.now }
    ensures behind { result.1.now ≡ after_first (is_byte 61) text.now }
{
    match text.split_once('=') {
        Some((before, behind)) => (before, behind),
        None => (text, ""),
    }
}

fn is_virtual_name(name: &str) -> bool
    ensures { result ≡ values.is_virtual_name name.now }
{
    let bytes = name.as_bytes();
    bytes.starts_with(b"__") && has_name_bytes(bytes)
}

fn holds_dash(text: &str) -> bool
    ensures { result ≡ holds 45 text.now }
{
    text.as_bytes().contains(&b'-')
}

/// Whether the text is a version without `-`.
fn is_virtual_version(alloc: Global, text: &str) -> Result<bool, AllocError>
    ensures { IfOk result (λ good. good ≡ values.is_virtual_version text.now) }
{
    match Version::read(alloc, text) {
        Ok(_) => Ok(!holds_dash(text)),
        Err(VersionErr::BadVersion { .. }) => Ok(false),
        Err(VersionErr::Memory) => Err(AllocError),
    }
}

/// Whether the text gives a virtual package.
pub fn is_virtual(alloc: Global, value: &str) -> Result<bool, AllocError>
    ensures { IfOk result (λ good. good ≡ values.is_virtual value.now) }
{
    let (name, version) = cut_at_equals(value);
    if !is_virtual_name(name) {
        return Ok(false);
    }
    if name.len() > 255 {
        return Ok(false);
    }
    let version = trimmed(version);
    if version.len() > 255 {
        return Ok(false);
    }
    if name.len() + version.len() + 3 > 255 {
        return Ok(false);
    }
    is_virtual_version(alloc, version)
}

/// The virtual package that the text gives.
pub fn virtual_of(alloc: Global, value: &str) -> Result<Virtual, AllocError>
    ensures { IfOk result (λ made. made ≡ values.virtual_of value.now) }
{
    let (name, version) = cut_at_equals(value);
    Ok(Virtual {
        name: Text::from_str(alloc, name)?,
        version: Text::from_str(alloc, trimmed(version))?,
    })
}
