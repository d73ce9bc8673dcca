//! Rows of tables as text. A row is `call argument|argument`; a program of rows prints each with its answer.
//!
//! In an argument `\n`, `\t`, `\r`, `\s`, `\p` and `\\` stand for a newline, a tab, a carriage return, a space, `|` and
//! `\`; `\xHH` for the character with this number in two hexadecimal digits; `\(TEXT*N)` for TEXT, N times.
//! A line with another escape is no row.
#![tactic(auto)]

mod escape;
mod row;
mod table;

pub use escape::{shown, unescaped};
pub use row::Row;
pub use table::{Table, print_rows};
