use crate::row::Row;
use conda_base::Text;
use std::alloc::{AllocError, Global};
use std::io;

/// What answers the rows of a table.
pub trait Table {
    /// The answer's text on one line, or None where it has no such call or the call other arguments.
    fn answer(
        &self,
        alloc: Global,
        call: &str,
        arguments: &[Text],
    ) -> Result<Option<String>, AllocError>;
}

/// The answer of a row, or None where there is no such row.
fn answer_of<T: Table>(alloc: Global, table: &T, line: &str) -> Result<Option<String>, AllocError> {
    match Row::read(alloc, line)? {
        Some(row) => table.answer(alloc, row.call.as_str(), row.arguments.as_slice()),
        None => Ok(None),
    }
}

/// Prints each line of the input, and behind a row its answer. Empty lines and those that begin with `#` are no rows.
pub fn print_rows<T: Table, R: AllocGlobal + Input + Print>(rt: &R, table: &T) -> io::Result<()> {
    let alloc = rt.alloc();
    for line in rt.lines(alloc) {
        let line = line?;
        if line.is_empty() || line.starts_with('#') {
            println!(rt; "{line}")?;
            continue;
        }
        match answer_of(alloc, table, line.as_str())? {
            Some(answer) => println!(rt; "{line}: {answer}")?,
            None => println!(rt; "{line}: no such row")?,
        }
    }
    Ok(())
}
