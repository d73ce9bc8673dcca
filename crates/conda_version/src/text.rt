ghost use Rattle.std.specs.Prelude.{◌≡◌, IfOk};
ghost use Rattle.conda_version.specs.Text.{plain, trimmed, underscored, without_front};

use std::alloc::{AllocError, Global};

/// The text without the spaces at its ends. Only the space itself counts, no tab and no other blank.
pub fn trimmed(text: &str) -> &str
    ensures { result.now ≡ trimmed text.now }
{
    let mut left = trimmed_start(text);
    while let Some(rest) = left.strip_suffix(' ') {
        left = rest;
    }
    left
}

fn trimmed_start(text: &str) -> &str
    ensures { result.now ≡ without_front text.now }
{
    let mut left = text;
    while let Some(rest) = left.strip_prefix(' ') {
        left = rest;
    }
    left
}

fn underscored(b: u8) -> u8
    ensures { result ≡ underscored b }
{
    if b == b'-' { b'_' } else { b }
}

// The text in lower case, with `_` for `-` where it holds no `_` of its own.
pub fn plain(alloc: Global, text: &[u8]) -> Result<Vec<u8>, AllocError>
    ensures { IfOk result (λ made. made.items ≡ plain text.now) }
{
    if text.contains(&b'-') && !text.contains(&b'_') {
        text.iter()
            .map(|b| underscored(b.to_ascii_lowercase()))
            .collect(alloc)
    } else {
        text.to_ascii_lowercase(alloc)
    }
}
