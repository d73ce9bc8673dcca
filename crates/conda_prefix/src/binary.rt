ghost use Rattle.std.specs.Prelude.{◌≡◌, ◌≤◌, ◌<◌, ◌-◌, ◌++◌, ◌⊎◌, IfErr, IfOk, List, MatchOption, OnOk, length, replicate, ℕ};
ghost use Rattle.conda_base.specs.Signs.{nul};
ghost use Rattle.conda_prefix.specs.Binary.{HasRun, IsFirstRun, IsReplacedBinary};
ghost use Rattle.conda_prefix.specs.Text.{IsReplaced};

use crate::error::PrefixErr;
use crate::text::{append_replaced, first_cut};
use memchr::memchr;
use memchr::memmem::Finder;
use std::alloc::{AllocError, Global};

/// Bytes cut at a run.
#[derive(Clone, Copy)]
struct Run<'a> {
    /// What stands before it.
    before: &'a [u8],
    /// From its first placeholder up to its NUL.
    text: &'a [u8],
    /// What stands behind its NUL.
    rest: &'a [u8],
}

/// The bytes cut at the first run. It takes no memory.
fn first_run<'a>(bytes: &'a [u8], placeholder: &Finder, width: usize) -> Option<Run<'a>>
    requires width { width ≡ length placeholder.now }
    ensures { MatchOption result (¬ HasRun placeholder.now bytes.now)
        (λ run. IsFirstRun placeholder.now bytes.now run.before.now run.text.now run.rest.now) }
{
    match placeholder.find(bytes) {
        Some(start) => {
            let (before, behind) = bytes.split_at(start);
            let (_, tail) = behind.split_at(width);
            match memchr(0, tail) {
                Some(more) => {
                    let (text, end) = behind.split_at(width + more);
                    let (_, rest) = end.split_at(1);
                    Some(Run { before, text, rest })
                }
                None => None,
            }
        }
        None => None,
    }
}

fn append_nuls(made: &mut Vec<u8>, count: usize) -> Result<(), AllocError>
    ensures { OnOk result (made.new.items ≡ made.old.items ++ replicate count nul) }
{
    for _ in 0..count {
        made.push(0)?;
    }
    Ok(())
}

/// Appends the text of a run with each placeholder replaced, and as many NULs as that saves.
fn append_padded(
    made: &mut Vec<u8>,
    text: &[u8],
    placeholder: &Finder,
    width: usize,
    prefix: &[u8],
) -> Result<(), AllocError>
    requires some { 0 < length placeholder.now }
    requires width { width ≡ length placeholder.now }
    ensures { OnOk result ((written : List ℕ)
        × IsReplaced placeholder.now prefix.now text.now written
        × (made.new.items
        ≡ made.old.items ++ (written ++ replicate (length text.now - length written) nul))) }
{
    let start = made.len();
    let first = first_cut(text, placeholder, width);
    append_replaced(made, text, first, placeholder, width, prefix)?;
    let saved = text.len().saturating_sub(made.len() - start);
    append_nuls(made, saved)?;
    Ok(())
}

/// The bytes, cut at their first run, with a prefix that isn't longer than the placeholder put in
/// each run.
fn replace_runs(
    alloc: Global,
    bytes: &[u8],
    first: Option<Run>,
    placeholder: &Finder,
    width: usize,
    prefix: &[u8],
) -> Result<Vec<u8>, AllocError>
    requires some { 0 < length placeholder.now }
    requires width { width ≡ length placeholder.now }
    requires short { length prefix.now ≤ width }
    requires first { MatchOption first (¬ HasRun placeholder.now bytes.now)
        (λ run. IsFirstRun placeholder.now bytes.now run.before.now run.text.now run.rest.now) }
    ensures replaced { IfOk result
        (λ made. IsReplacedBinary placeholder.now prefix.now bytes.now made.items) }
    ensures length { IfOk result (λ made. length made.items ≡ length bytes.now) }
{
    let mut made = Vec::with_capacity(alloc, bytes.len())?;
    let mut rest = bytes;
    let mut found = first;
    while let Some(run) = found {
        made.extend_from_slice(run.before)?;
        append_padded(&mut made, run.text, placeholder, width, prefix)?;
        made.push(0)?;
        rest = run.rest;
        found = first_run(rest, placeholder, width);
    }
    made.extend_from_slice(rest)?;
    Ok(made)
}

/// The bytes with the placeholder replaced by the prefix in each run, as conda's `portability.py`
/// does it in binary files. A run begins at a placeholder and ends with the next NUL; in it every
/// placeholder becomes the prefix, and as many NULs as were saved follow it, so that the length
/// stays. A placeholder with no later NUL stays.
///
/// Bytes without a run are handed back as they are, and take no memory. `PaddingShort` has the two
/// lengths in bytes.
pub fn replace_binary(
    alloc: Global,
    bytes: Vec<u8>,
    placeholder: &[u8],
    prefix: &[u8],
) -> Result<Vec<u8>, PrefixErr>
    requires { 0 < length placeholder.now }
    ensures replaced { IfOk result
        (λ made. IsReplacedBinary placeholder.now prefix.now bytes.items made.items) }
    ensures length { IfOk result (λ made. length made.items ≡ length bytes.items) }
    ensures kept { (¬ HasRun placeholder.now bytes.items) → result ≡ Ok bytes }

    // The prefix is too long exactly where there is a run to put it in.
    ensures room { OnOk result ((length prefix.now ≤ length placeholder.now)
        ⊎ (¬ HasRun placeholder.now bytes.items)) }
    ensures short { IfErr result (λ e. (e ≡ PrefixErr.Memory)
        ⊎ ((e ≡ PrefixErr.PaddingShort (length placeholder.now) (length prefix.now))
        × (length placeholder.now < length prefix.now) × HasRun placeholder.now bytes.items)) }
{
    let finder = Finder::new(placeholder);
    let width = placeholder.len();
    match first_run(bytes.as_slice(), &finder, width) {
        Some(run) => {
            if prefix.len() > width {
                return Err(PrefixErr::PaddingShort {
                    have: width as u64,
                    need: prefix.len() as u64,
                });
            }
            let made = replace_runs(alloc, bytes.as_slice(), Some(run), &finder, width, prefix)?;
            Ok(made)
        }
        None => Ok(bytes),
    }
}
