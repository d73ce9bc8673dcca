ghost use Rattle.std.specs.Prelude.{◌≡◌, All, Contains, IsTrue};
ghost use Rattle.conda_encode.specs.Clauses.{encoded_of};
ghost use Rattle.conda_encode.specs.Variables.{IsRequest};

use crate::clauses::encoded_of;
use conda_base::Text;
use conda_encode::Encoded;
use conda_explain::explain;
use conda_refute::{Clause, Log, check};
use conda_resolve::{ResolveErr, resolve};
use rows_text::shown;
use std::alloc::{AllocError, Global};
use std::thread::Threads;

/// The rows of conda_explain.
pub fn answer<R: Threads + Sync>(
    rt: &R,
    alloc: Global,
    call: &str,
    arguments: &[Text],
) -> Result<Option<String>, AllocError> {
    let [records, virtuals, asked, rest @ ..] = arguments else {
        return Ok(None);
    };
    let (records, virtuals, asked) = (records.as_str(), virtuals.as_str(), asked.as_str());
    let Some(encoded) = encoded_of(rt, alloc, records, virtuals, asked)? else {
        return Ok(None);
    };
    match (call, rest) {
        ("explain.reasons", []) => Ok(Some(reasons(alloc, &encoded)?)),
        ("explain.report", [log]) => report_of(alloc, &encoded, log.as_str()),
        _ => Ok(None),
    }
}

fn report(alloc: Global, encoded: &Encoded, log: &Log) -> Result<String, AllocError>
    requires encoded { encoded.now ≡ encoded_of encoded.now.pools encoded.now.asked }
    requires inputs { All (Contains encoded.now.clauses) log.now.inputs }
{
    match explain(alloc, encoded, log) {
        Ok(text) => Ok(text),
        Err(_) => Err(AllocError),
    }
}

/// The reasons that a request with nothing installed has no solution, and what the checker says of
/// the refutation behind them.
fn reasons(alloc: Global, encoded: &Encoded) -> Result<String, AllocError>
    requires encoded { encoded.now ≡ encoded_of encoded.now.pools encoded.now.asked }
    requires request { IsRequest encoded.now.pools encoded.now.asked }
{
    match resolve(
        alloc,
        encoded.pools.as_slice(),
        encoded.asked.as_slice(),
        &[],
    ) {
        Ok(_) => String::from_str(alloc, "has a solution"),
        Err(ResolveErr::Memory) => Err(AllocError),
        Err(ResolveErr::Unsat { log }) => {
            let text = report(alloc, encoded, &log)?;
            reasons_of(alloc, text.as_str())
        }
    }
}

/// The lines between a report's two headings, and what the checker says of the log behind them.
pub fn reasons_of(alloc: Global, report: &str) -> Result<String, AllocError> {
    let Some((reasons, log)) = report.split_once("refutation:\n") else {
        return String::from_str(alloc, "no refutation");
    };
    let mut text = String::new(alloc);
    for line in reasons.lines().skip(1) {
        text.push_str(line)?;
        text.push_str("; ")?;
    }
    text.push_str(said_of(alloc, log))?;
    Ok(text)
}

/// What the checker says of the log that the text is.
fn said_of(alloc: Global, text: &str) -> &str {
    match Log::read(alloc, text) {
        Ok(log) => match check(alloc, &log) {
            Ok(()) => "refuted",
            Err(_) => "not refuted",
        },
        Err(_) => "no log",
    }
}

/// Whether the input is one of the clauses.
fn is_among(clauses: &[Clause], input: &Clause) -> bool
    ensures { IsTrue result → Contains clauses.now input.now }
{
    for clause in clauses {
        if clause == input {
            return true;
        }
    }
    false
}

/// Whether each of the inputs is one of the clauses.
fn are_among(clauses: &[Clause], inputs: &[Clause]) -> bool
    ensures { IsTrue result → All (Contains clauses.now) inputs.now }
{
    for input in inputs {
        if !is_among(clauses, input) {
            return false;
        }
    }
    true
}

/// The report of a request and of a log over its clauses.
fn report_of(alloc: Global, encoded: &Encoded, log: &str) -> Result<Option<String>, AllocError>
    requires { encoded.now ≡ encoded_of encoded.now.pools encoded.now.asked }
{
    let Ok(log) = Log::read(alloc, log) else {
        return Ok(None);
    };
    if !are_among(encoded.clauses.as_slice(), log.inputs.as_slice()) {
        return Ok(Some(String::from_str(alloc, "not its clauses")?));
    }
    let text = report(alloc, encoded, &log)?;
    Ok(Some(shown(alloc, text.as_str())?))
}
