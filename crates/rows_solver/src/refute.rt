use conda_base::{Copied, Text};
use conda_refute::{Clause, Log, RefuteErr, check};
use std::alloc::{AllocError, Global};

/// The rows of conda_refute.
pub fn answer(alloc: Global, call: &str, arguments: &[Text]) -> Result<Option<String>, AllocError> {
    match (call, arguments) {
        ("refute.check", [text]) => checked(alloc, text.as_str()),
        ("refute.clause", [literals]) => clause(alloc, literals.as_str()),
        _ => Ok(None),
    }
}

/// What is said of the log that the text is, or `written otherwise` where its text is another.
fn checked(alloc: Global, text: &str) -> Result<Option<String>, AllocError> {
    let log = match Log::read(alloc, text) {
        Ok(log) => log,
        Err(error) => return said(alloc, error),
    };
    match log.text(alloc) {
        Ok(written) if written.as_str() == text => {}
        _ => return Ok(Some(String::from_str(alloc, "written otherwise")?)),
    }
    match check(alloc, &log.copy()?) {
        Ok(()) => Ok(Some(String::from_str(alloc, "refuted")?)),
        Err(error) => said(alloc, error),
    }
}

fn said(alloc: Global, error: RefuteErr) -> Result<Option<String>, AllocError> {
    match error {
        RefuteErr::Bad { step } => Ok(Some(format!(in alloc; "bad step {step}")?)),
        RefuteErr::BadLog { line } => Ok(Some(format!(in alloc; "bad line {line}")?)),
        RefuteErr::Memory => Ok(None),
    }
}

/// The literals of the clause of these, or `none` where there is none.
fn clause(alloc: Global, literals: &str) -> Result<Option<String>, AllocError> {
    let mut items = Vec::new(alloc);
    for word in literals.split_whitespace() {
        match word.parse::<i32>() {
            Ok(literal) => items.push(literal)?,
            Err(_) => return Ok(None),
        }
    }
    let Some(clause) = Clause::from_vec(items) else {
        return Ok(Some(String::from_str(alloc, "none")?));
    };
    let mut text = String::new(alloc);
    for literal in clause.copy()?.as_slice() {
        let shown = format!(in alloc; "{literal} ")?;
        text.push_str(shown.as_str())?;
    }
    text.pop();
    Ok(Some(text))
}
