ghost use Rattle.std.specs.Prelude.{◌≡◌, IfOk};
ghost use Rattle.std.specs.List.{list_all};
ghost use Rattle.std.specs.Str.{all_ascii_digits};
ghost use Rattle.conda_base.specs.Numbers as numbers;
ghost use Rattle.conda_link.specs.Links as links;

use conda_base::cut_first;
use conda_path::{PathErr, RelPath};
use std::alloc::{AllocError, Global};

/// A letter, a digit, `_` or `.`.
fn is_name_byte(byte: u8) -> bool
    ensures { result ≡ links.is_name_byte byte }
{
    byte.is_ascii_alphanumeric() || byte == b'_' || byte == b'.'
}

/// Whether each byte is a letter, a digit, `_` or `.`.
fn are_name_bytes(text: &[u8]) -> bool
    ensures { result ≡ list_all links.is_name_byte text.now }
{
    text.iter().all(|byte| is_name_byte(*byte))
}

/// Whether a text names a module or a function.
pub fn is_name(text: &str) -> bool
    ensures { result ≡ links.is_name text.now }
{
    !text.is_empty() && are_name_bytes(text.as_bytes())
}

/// Whether a text is one part of a path.
pub fn is_command(alloc: Global, text: &str) -> Result<bool, AllocError>
    ensures { IfOk result (λ is. is ≡ links.is_command text.now) }
{
    match RelPath::read(alloc, text) {
        Ok(_) => Ok(cut_first(text, b'/').is_none()),
        Err(PathErr::BadPath { at: _ }) => Ok(false),
        Err(PathErr::Memory) => Err(AllocError),
    }
}

/// Whether each byte is a digit.
fn are_digits(text: &[u8]) -> bool
    ensures { result ≡ all_ascii_digits text.now }
{
    for byte in text {
        if !byte.is_ascii_digit() {
            return false;
        }
    }
    true
}

/// Whether a text is digits, and not empty.
pub fn is_digits(text: &str) -> bool
    ensures { result ≡ numbers.is_digits text.now }
{
    !text.is_empty() && are_digits(text.as_bytes())
}
