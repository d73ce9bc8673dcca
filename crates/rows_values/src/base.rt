use conda_base::{Copied, Text, cut_first, cut_last, read_digits, read_number};
use std::alloc::{AllocError, Global};
use std::cmp::Ordering;

/// The rows of conda_base.
pub fn answer(alloc: Global, call: &str, arguments: &[Text]) -> Result<Option<String>, AllocError> {
    let answer = match (call, arguments) {
        ("text.order", [left, right]) => String::from_str(alloc, order(left, right))?,
        ("text.copy", [text]) => text.copy()?.into_string(),
        ("cut.first", [text]) => halves(alloc, cut_first(text.as_str(), b':'))?,
        ("cut.last", [text]) => halves(alloc, cut_last(text.as_str(), b':'))?,
        ("number", [text]) => number(alloc, read_number(text.as_str().as_bytes(), 1_000))?,
        ("digits", [text]) => number(alloc, read_digits(text.as_str().as_bytes(), 1_000))?,
        _ => return Ok(None),
    };
    Ok(Some(answer))
}

/// How the first of two texts stands to the second.
fn order(left: &Text, right: &Text) -> &'static str {
    match left.cmp(right) {
        Ordering::Less => "less",
        Ordering::Equal => "equal",
        Ordering::Greater => "greater",
    }
}

/// The two halves of a cut.
fn halves(alloc: Global, cut: Option<(&str, &str)>) -> Result<String, AllocError> {
    match cut {
        Some((before, behind)) => format!(in alloc; "<{before}> <{behind}>"),
        None => String::from_str(alloc, "none"),
    }
}

fn number(alloc: Global, number: Option<u64>) -> Result<String, AllocError> {
    match number {
        Some(number) => format!(in alloc; "{number}"),
        None => String::from_str(alloc, "none"),
    }
}
