//! Rows whose calls wait or start threads. A function answers them and not a table, since a trait's
//! method can't hand on that its runtime may be shared by threads.
#![tactic(auto)]

use conda_base::Text;
use rows_text::Row;
use std::alloc::{AllocError, Global};
use std::io;

/// Prints each line of the input, and behind a row its answer. Empty lines and those that begin with
/// `#` are no rows.
pub fn print_answers<
    R: AllocGlobal + Input + Print,
    F: Fn(Global, &str, &[Text]) -> Result<Option<String>, AllocError>,
>(rt: &R, answer: &F) -> io::Result<()>
    requires { F.IsAlwaysCallable answer.now }
{
    let alloc = rt.alloc();
    for line in rt.lines(alloc) {
        let line = line?;
        let Some(row) = row_of(alloc, line.as_str())? else {
            println!(rt; "{line}")?;
            continue;
        };
        match answer(alloc, row.call.as_str(), row.arguments.as_slice())? {
            Some(answer) => println!(rt; "{line}: {answer}")?,
            None => println!(rt; "{line}: no such row")?,
        }
    }
    Ok(())
}

/// The row of a line, if it is one.
fn row_of(alloc: Global, line: &str) -> Result<Option<Row>, AllocError> {
    if line.is_empty() || line.starts_with('#') {
        return Ok(None);
    }
    Row::read(alloc, line)
}
