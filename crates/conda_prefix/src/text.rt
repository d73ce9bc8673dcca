ghost use Rattle.std.specs.Prelude.{◌≡◌, ◌+◌, ◌<◌, ◌≤◌, ◌++◌, IfErr, IfOk, List, MatchOption, OnOk, length, ℕ};
ghost use Rattle.conda_prefix.specs.Text.{IsCut, IsPlain, IsReplaced};

use crate::error::PrefixErr;
use memchr::memmem::Finder;
use std::alloc::{AllocError, Global};

/// Bytes cut at a placeholder.
#[derive(Clone, Copy)]
pub struct Cut<'a> {
    /// What stands before it.
    pub piece: &'a [u8],
    /// What stands behind it.
    pub rest: &'a [u8],
}

/// The bytes cut at the first placeholder. It takes no memory.
pub fn first_cut<'a>(bytes: &'a [u8], placeholder: &Finder, width: usize) -> Option<Cut<'a>>
    requires width { width ≡ length placeholder.now }
    ensures { MatchOption result (IsPlain placeholder.now bytes.now)
        (λ cut. IsCut placeholder.now bytes.now cut.piece.now cut.rest.now) }
{
    match placeholder.find(bytes) {
        Some(at) => {
            let (piece, behind) = bytes.split_at(at);
            let (_, rest) = behind.split_at(width);
            Some(Cut { piece, rest })
        }
        None => None,
    }
}

/// Appends the bytes, cut at their first placeholder, with each placeholder replaced.
pub fn append_replaced(
    made: &mut Vec<u8>,
    bytes: &[u8],
    first: Option<Cut>,
    placeholder: &Finder,
    width: usize,
    prefix: &[u8],
) -> Result<(), AllocError>
    requires some { 0 < length placeholder.now }
    requires width { width ≡ length placeholder.now }
    requires first { MatchOption first (IsPlain placeholder.now bytes.now)
        (λ cut. IsCut placeholder.now bytes.now cut.piece.now cut.rest.now) }
    ensures { OnOk result ((written : List ℕ) × (made.new.items ≡ made.old.items ++ written)
        × IsReplaced placeholder.now prefix.now bytes.now written) }
{
    let mut rest = bytes;
    let mut found = first;
    while let Some(cut) = found {
        made.extend_from_slice(cut.piece)?;
        made.extend_from_slice(prefix)?;
        rest = cut.rest;
        found = first_cut(rest, placeholder, width);
    }
    made.extend_from_slice(rest)?;
    Ok(())
}

/// The bytes with each occurrence of the placeholder, from left to right without overlap, replaced
/// by the prefix, as conda's `portability.py` does it in text files. Its only error is `Memory`.
///
/// Bytes without the placeholder are handed back as they are, and take no memory.
pub fn replace_text(
    alloc: Global,
    bytes: Vec<u8>,
    placeholder: &[u8],
    prefix: &[u8],
) -> Result<Vec<u8>, PrefixErr>
    requires { 0 < length placeholder.now }
    ensures replaced { IfOk result
        (λ made. IsReplaced placeholder.now prefix.now bytes.items made.items) }
    ensures kept { IsPlain placeholder.now bytes.items → result ≡ Ok bytes }
    ensures err { IfErr result (λ e. e ≡ PrefixErr.Memory) }
{
    let finder = Finder::new(placeholder);
    let width = placeholder.len();
    match first_cut(bytes.as_slice(), &finder, width) {
        Some(cut) => {
            let mut made = Vec::with_capacity(alloc, bytes.len())?;
            append_replaced(
                &mut made,
                bytes.as_slice(),
                Some(cut),
                &finder,
                width,
                prefix,
            )?;
            Ok(made)
        }
        None => Ok(bytes),
    }
}
