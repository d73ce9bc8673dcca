ghost use Rattle.std.specs.Prelude.{◌≡◌, ◌≤◌, ◌+◌, ◌^◌, ◌<◌, IfOk, IfSome, length, map};
ghost use Rattle.std.specs.List.{position};
ghost use Rattle.std.specs.Option.{option_map};
ghost use Rattle.std.specs.Str.{all_ascii_digits};
ghost use Rattle.conda_base.specs.Numbers.{is_digits};
ghost use Rattle.conda_base.specs.Texts.{cut_first, is_byte};
ghost use Rattle.conda_version.specs.Grammar.{behind_epoch, char_fault, empty_from, epoch_fault, epoch_part, is_plain, local_fault, local_part, main_part, main_start, mark_from, marks_fault, numeral_from, dotted_parts};
ghost use Rattle.conda_version.specs.Versions.{as_dot, main_dots};

use crate::error::VersionWhy;
use conda_base::cut_laws;
use std::alloc::{AllocError, Global};

fn is_plain(b: u8) -> bool
    ensures { result ≡ is_plain b }
{
    b.is_ascii_digit() || b.is_ascii_lowercase() || matches!(b, b'.' | b'_' | b'+' | b'!')
}

fn all_digits(bytes: &[u8]) -> bool
    ensures { result ≡ all_ascii_digits bytes.now }
{
    for b in bytes {
        if !b.is_ascii_digit() {
            return false;
        }
    }
    true
}

fn is_digits(bytes: &[u8]) -> bool
    ensures { result ≡ is_digits bytes.now }
{
    !bytes.is_empty() && all_digits(bytes)
}

fn char_fault(text: &[u8]) -> Option<usize>
    ensures { result ≡ char_fault text.now }
{
    text.iter().position(|b| !is_plain(*b))
}

/// The place of the first such byte.
pub fn position(bytes: &[u8], mark: u8) -> Option<usize>
    ensures { result ≡ position (is_byte mark) bytes.now }
{
    bytes.iter().position(|b| *b == mark)
}

// What stands before the first such byte, and behind it.
fn cut_first(bytes: &[u8], mark: u8) -> Option<(&[u8], &[u8])>
    ensures halves { option_map (λ halves. (halves.0.now, halves.1.now)) result ≡ cut_first mark bytes.now }
    ensures len { IfSome result (λ halves. length halves.0.now + length halves.1.now < length bytes.now) }
{
    cut_laws();
    let at = position(bytes, mark)?;
    let (front, rest) = bytes.split_at(at);
    Some((front, rest.split_at(1).1))
}

// The place of the first such byte in a text that begins at a place.
fn mark_from(mark: u8, at: usize, text: &[u8]) -> Option<usize>
    requires { at + length text.now < 2 ^ 64 }
    ensures { result ≡ mark_from mark at text.now }
{
    match position(text, mark) {
        Some(place) => Some(at + place),
        None => None,
    }
}

/// The text before the first `!`, if there is one.
pub fn epoch_part(text: &[u8]) -> Option<&[u8]>
    ensures { option_map (λ part. part.now) result ≡ epoch_part text.now }
{
    match cut_first(text, b'!') {
        Some((digits, _)) => Some(digits),
        None => None,
    }
}

fn behind_epoch(text: &[u8]) -> &[u8]
    ensures part { result.now ≡ behind_epoch text.now }
    ensures len { length result.now ≤ length text.now }
{
    match cut_first(text, b'!') {
        Some((_, rest)) => rest,
        None => text,
    }
}

/// Where the main part begins.
pub fn main_start(text: &[u8]) -> usize
    ensures { result ≡ main_start text.now }
{
    text.len() - behind_epoch(text).len()
}

/// The main part.
pub fn main_part(text: &[u8]) -> &[u8]
    ensures part { result.now ≡ main_part text.now }
    ensures len { main_start text.now + length result.now ≤ length text.now }
{
    let rest = behind_epoch(text);
    match cut_first(rest, b'+') {
        Some((main, _)) => main,
        None => rest,
    }
}

/// The local part, if there is one.
pub fn local_part(text: &[u8]) -> Option<&[u8]>
    ensures part { option_map (λ part. part.now) result ≡ local_part text.now }
    ensures len { IfSome result (λ part. length part.now ≤ length text.now) }
{
    match cut_first(behind_epoch(text), b'+') {
        Some((_, local)) => Some(local),
        None => None,
    }
}

fn epoch_fault(text: &[u8]) -> Option<usize>
    ensures { result ≡ epoch_fault text.now }
{
    let (digits, rest) = cut_first(text, b'!')?;
    if is_digits(digits) {
        mark_from(b'!', digits.len() + 1, rest)
    } else {
        Some(digits.len())
    }
}

fn local_fault(text: &[u8]) -> Option<usize>
    ensures { result ≡ local_fault text.now }
{
    let start = main_start(text);
    let (main, local) = cut_first(behind_epoch(text), b'+')?;
    if main.is_empty() {
        Some(start)
    } else {
        mark_from(b'+', start + main.len() + 1, local)
    }
}

/// The main part with `.` for each `_` but one at the very end.
pub fn main_dots(alloc: Global, main: &[u8]) -> Result<Vec<u8>, AllocError>
    ensures dotted { IfOk result (λ made. made.items ≡ main_dots main.now) }
    ensures len { IfOk result (λ made. length made.items ≡ length main.now) }
{
    let mut made = Vec::with_capacity(alloc, main.len())?;
    for (at, b) in main.iter().enumerate() {
        made.push(if at + 1 < main.len() { as_dot(*b) } else { *b })?;
    }
    Ok(made)
}

fn as_dot(b: u8) -> u8
    ensures { result ≡ as_dot b }
{
    if b == b'_' { b'.' } else { b }
}

/// The local part with `.` for each `_`.
pub fn local_dots(alloc: Global, local: &[u8]) -> Result<Vec<u8>, AllocError>
    ensures dotted { IfOk result (λ made. made.items ≡ map as_dot local.now) }
    ensures len { IfOk result (λ made. length made.items ≡ length local.now) }
{
    local.iter().map(|b| as_dot(*b)).collect(alloc)
}

/// Where the first empty component of a dotted part would begin, which itself begins at a place.
pub fn empty_from(start: usize, dotted: &[u8]) -> Option<usize>
    requires { start + length dotted.now < 2 ^ 64 }
    ensures { result ≡ empty_from start (dotted_parts dotted.now) }
{
    let mut at = start;
    let mut left = dotted;
    while let Some(end) = position(left, b'.') {
        if end == 0 {
            return Some(at);
        }
        at = at + end + 1;
        left = left.split_at(end + 1).1;
    }
    if left.is_empty() { Some(at) } else { None }
}

/// The first place from which more than 38 digits stand in a row.
pub fn numeral_fault(text: &[u8]) -> Option<usize>
    ensures { result ≡ numeral_from 0 text.now }
{
    let mut digits: usize = 0;
    let mut found = None;
    for at in (0..text.len()).rev() {
        digits = if text[at].is_ascii_digit() {
            digits + 1
        } else {
            0
        };
        if 38 < digits {
            found = Some(at);
        }
    }
    found
}

/// What is wrong with a plain text before its components, and where.
pub fn marks_fault(text: &[u8]) -> Option<(usize, VersionWhy)>
    ensures { result ≡ marks_fault text.now }
{
    if text.is_empty() {
        return Some((0, VersionWhy::Empty));
    }
    if let Some(at) = char_fault(text) {
        return Some((at, VersionWhy::Char));
    }
    if let Some(at) = epoch_fault(text) {
        return Some((at, VersionWhy::Epoch));
    }
    if let Some(at) = local_fault(text) {
        return Some((at, VersionWhy::Local));
    }
    None
}
