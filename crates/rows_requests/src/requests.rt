use crate::index::index_of;
use crate::report::reasons_of;
use conda_base::Text;
use conda_index::Index;
use conda_requests::{RequestErr, WordErr, read_spec, read_specs, search_report, solve_report};
use rows_text::shown;
use std::alloc::{AllocError, Global};
use std::thread::Threads;

// Words of a row stand between `;`, with the spaces that are at their ends.

/// The rows of conda_requests.
pub fn answer<R: Threads + Sync>(
    rt: &R,
    alloc: Global,
    call: &str,
    arguments: &[Text],
) -> Result<Option<String>, AllocError> {
    let [records, virtuals, words] = arguments else {
        return Ok(None);
    };
    let Some(index) = index_of(rt, alloc, records.as_str(), virtuals.as_str())? else {
        return Ok(None);
    };
    match call {
        "request.search" => Ok(Some(search(rt, alloc, &index, words.as_str())?)),
        "request.solve" => {
            let words = words_of(alloc, words.as_str())?;
            Ok(Some(solve(alloc, &index, words.as_slice())?))
        }
        _ => Ok(None),
    }
}

/// The words that a row gives.
fn words_of(alloc: Global, text: &str) -> Result<Vec<Text>, AllocError> {
    let mut words = Vec::new(alloc);
    if text.is_empty() {
        return Ok(words);
    }
    for word in text.split(';') {
        words.push(Text::from_str(alloc, word)?)?;
    }
    Ok(words)
}

fn search<R: Threads + Sync>(
    rt: &R,
    alloc: Global,
    index: &Index,
    word: &str,
) -> Result<String, AllocError> {
    match read_spec(alloc, word) {
        Ok(spec) => said_of(alloc, search_report(rt, alloc, index, &spec)),
        Err(error) => bad_word(alloc, &error),
    }
}

fn solve(alloc: Global, index: &Index, words: &[Text]) -> Result<String, AllocError> {
    match read_specs(alloc, words) {
        Ok(specs) => said_of(alloc, solve_report(alloc, index, specs)),
        Err(error) => bad_word(alloc, &error),
    }
}

fn bad_word(alloc: Global, error: &WordErr) -> Result<String, AllocError> {
    match error {
        WordErr::BadSpec { text, at, why } => {
            let text = text.as_str();
            format!(in alloc; "bad specification {text}: {at} {why}")
        }
        WordErr::Memory => Err(AllocError),
    }
}

/// The report's lines.
fn lines_of(alloc: Global, text: &str) -> Result<String, AllocError> {
    if text.is_empty() {
        return String::from_str(alloc, "no line");
    }
    shown(alloc, text)
}

/// What is said of an answer: of a report on a request that has no solution its first line, its
/// reasons, and what the checker says of the refutation behind them.
fn said_of(alloc: Global, report: Result<String, RequestErr>) -> Result<String, AllocError> {
    match report {
        Ok(text) => lines_of(alloc, text.as_str()),
        Err(RequestErr::NoMatch) => String::from_str(alloc, "no match"),
        Err(RequestErr::Unsat { report }) => match report.as_str().split_once('\n') {
            Some((first, _)) => {
                let reasons = reasons_of(alloc, report.as_str())?;
                format!(in alloc; "{first} {reasons}")
            }
            None => String::from_str(alloc, "no report"),
        },
        Err(RequestErr::Memory) => Err(AllocError),
    }
}
