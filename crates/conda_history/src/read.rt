ghost use Rattle.std.specs.Prelude.{◌≡◌, IfOk};
ghost use Rattle.std.specs.List.{AllByRecursion};
ghost use Rattle.conda_base.specs.Reads.{Gives};
ghost use Rattle.conda_history.specs.Blocks.{IsBlock};
ghost use Rattle.conda_history.specs.Faults.{history_fault_of};
ghost use Rattle.conda_history.specs.Reading as steps;
ghost use Rattle.conda_history.specs.Reading.{blocks_read, history_read};

use crate::laws::grammar_laws;
use crate::line::{Line, read_line};
use crate::names::NameSets;
use crate::pieces::next_line;
use crate::revision::{Block, History, HistoryErr};
use crate::stamp::Stamp;
use conda_base::Rows;
use std::alloc::{AllocError, Global};

/// The open block: its stamp, and what its lines name so far.
#[derive(Debug, Drop)]
pub struct Open {
    pub stamp: Stamp,
    pub names: NameSets,
}

/// The closed blocks, and the open one behind the first header.
#[derive(Debug, Drop)]
pub struct Reading {
    pub done: Rows<Block>,
    pub current: Option<Open>,
}

/// The blocks with the open one at their end.
fn closed(alloc: Global, reading: Reading) -> Result<Rows<Block>, AllocError>
    ensures { IfOk result (λ blocks. blocks ≡ steps.closed reading) }
{
    let Reading { done, current } = reading;
    let mut done = done;
    if let Some(open) = current {
        let block = open.names.into_block(alloc, open.stamp)?;
        done.push(block)?;
    }
    Ok(done)
}

/// A block with one more line that names a dist.
fn with_named(current: Open, line: Line) -> Result<Open, AllocError>
    ensures { IfOk result (λ made. made ≡ steps.open_with current line) }
{
    let Open { stamp, names } = current;
    let mut names = names;
    match line {
        Line::Removed(dist) => names.remove(dist)?,
        Line::Added(dist) => names.add(dist)?,
        Line::Plain(dist) => names.name(dist)?,
        Line::Nothing | Line::Header(_) => {}
    }
    Ok(Open { stamp, names })
}

/// The blocks with one more line that names a dist; None where no header stands before it.
fn with_entry(reading: Reading, line: Line) -> Result<Option<Reading>, AllocError>
    ensures { IfOk result (λ made. made ≡ steps.with_named reading.done line reading.current) }
{
    let Reading { done, current } = reading;
    match current {
        Some(open) => {
            let open = with_named(open, line)?;
            Ok(Some(Reading {
                done,
                current: Some(open),
            }))
        }
        None => Ok(None),
    }
}

/// The blocks with a new one, which is open.
fn with_header(alloc: Global, reading: Reading, stamp: Stamp) -> Result<Reading, AllocError>
    ensures { IfOk result (λ made. made ≡ steps.begun reading stamp) }
{
    let done = closed(alloc, reading)?;
    Ok(Reading {
        done,
        current: Some(Open {
            stamp,
            names: NameSets::new(alloc),
        }),
    })
}

/// The blocks with what one more line says.
fn step(alloc: Global, reading: Reading, line: Line) -> Result<Option<Reading>, AllocError>
    ensures { IfOk result (λ made. made ≡ steps.step reading line) }
{
    match line {
        Line::Nothing => Ok(Some(reading)),
        Line::Header(stamp) => Ok(Some(with_header(alloc, reading, stamp)?)),
        Line::Removed(dist) => with_entry(reading, Line::Removed(dist)),
        Line::Added(dist) => with_entry(reading, Line::Added(dist)),
        Line::Plain(dist) => with_entry(reading, Line::Plain(dist)),
    }
}

/// The blocks with one more line of this number, which is given without its newline.
fn with_line(
    alloc: Global,
    number: u64,
    reading: Reading,
    raw: &[u8],
) -> Result<Reading, HistoryErr>
    ensures { Gives history_fault_of result (steps.line_read number reading raw.now) }
{
    let line = match read_line(alloc, raw) {
        Ok(Some(line)) => line,
        Ok(None) => return Err(HistoryErr::BadHistory { line: number }),
        Err(_) => return Err(HistoryErr::Memory),
    };
    match step(alloc, reading, line) {
        Ok(Some(reading)) => Ok(reading),
        Ok(None) => Err(HistoryErr::BadHistory { line: number }),
        Err(_) => Err(HistoryErr::Memory),
    }
}

fn begun(alloc: Global) -> Reading
    ensures { result ≡ steps.start }
{
    Reading {
        done: Rows::new(alloc),
        current: None,
    }
}

/// What the lines of a text make of no blocks.
fn lines_of(alloc: Global, bytes: &[u8]) -> Result<Reading, HistoryErr>
    ensures { Gives history_fault_of result (steps.text_read bytes.now) }
{
    let mut reading = begun(alloc);
    let mut rest = bytes;
    let mut number: u64 = 1;
    while let Some((line, after)) = next_line(rest) {
        match with_line(alloc, number, reading, line) {
            Ok(next) => reading = next,
            Err(e) => return Err(e),
        }
        rest = after;
        number += 1;
    }
    with_line(alloc, number, reading, rest)
}

/// The blocks of a text.
#[tactic(auto, unfolding(crate::specs::Reading::blocks_read))]
fn blocks_of(alloc: Global, bytes: &[u8]) -> Result<Rows<Block>, HistoryErr>
    ensures { Gives history_fault_of result (blocks_read bytes.now) }
{
    match lines_of(alloc, bytes) {
        Ok(reading) => match closed(alloc, reading) {
            Ok(blocks) => Ok(blocks),
            Err(_) => Err(HistoryErr::Memory),
        },
        Err(e) => Err(e),
    }
}

impl History {
    /// Reads the text of a history, as conda's `history.py` does, in one pass over its bytes.
    ///
    /// Spaces and carriage returns at the ends of a line count for nothing; empty lines and lines
    /// that begin with `#` are passed over. A header line `==> YYYY-MM-DD HH:MM:SS <==` begins each
    /// block. Every other line is `-` or `+` or no sign, a channel and `::` or nothing, and a dist
    /// with the ending of a package file or without one. Where no line of a block has a sign, its
    /// dists are the whole set. Else the last line with a sign counts that names a dist. The empty
    /// text has no block.
    ///
    /// `BadHistory` has the number of the first line that is none of these, or isn't UTF-8, or names
    /// a dist before the first header.
    pub fn read(alloc: Global, bytes: &[u8]) -> Result<History, HistoryErr>
        ensures exact { Gives history_fault_of result (history_read bytes.now) }
        ensures good { IfOk result (λ history. AllByRecursion IsBlock history.blocks) }
    {
        grammar_laws();
        match blocks_of(alloc, bytes) {
            Ok(blocks) => Ok(History { blocks }),
            Err(e) => Err(e),
        }
    }
}
