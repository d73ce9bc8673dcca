use crate::escape::unescaped;
use conda_base::Text;
use std::alloc::{AllocError, Global};

/// One row.
#[derive(Debug, Drop)]
pub struct Row {
    pub call: Text,
    pub arguments: Vec<Text>,
}

impl Row {
    /// Reads a row from its line: the call ends at the first space, the arguments are parted by `|`.
    /// None where an argument has an unknown escape.
    pub fn read(alloc: Global, line: &str) -> Result<Option<Row>, AllocError> {
        let (call, rest) = match line.split_once(' ') {
            Some(cut) => cut,
            None => (line, ""),
        };
        let mut arguments = Vec::new(alloc);
        for argument in rest.split('|') {
            match unescaped(alloc, argument)? {
                Some(text) => arguments.push(Text::from_string(text))?,
                None => return Ok(None),
            }
        }
        let call = Text::from_str(alloc, call)?;
        Ok(Some(Row { call, arguments }))
    }
}
