ghost use Rattle.std.specs.Prelude.{◌≡◌, ◌+◌, ◌<◌, ◌^◌, [], IfOk, MatchOption, length};
ghost use Rattle.std.specs.List.{list_any};
ghost use Rattle.conda_base.specs.Reads.{Gives};
ghost use Rattle.conda_words.specs.Reading as reads;
ghost use Rattle.conda_words.specs.Reading.{words_fault_of};
ghost use Rattle.conda_words.specs.Says as says;
ghost use Rattle.conda_words.specs.Table.{seen};

use crate::command::{Command, Verb};
use crate::cut::{Item, count, first_word, given, items_of};
use crate::error::{Why, WordsErr};
use crate::table::{Kind, Row, Words, has_one_prefix, least, repeats, row_of};
use crate::value::{is_channel, is_virtual, number_in, virtual_of};
use conda_base::{Copied, Rows, Text};
use conda_path::{PathErr, Prefix};
use std::alloc::{AllocError, Global};

/// The greatest number of a revision.
const REVISION_MOST: u32 = 4_294_967_295;

/// A command so far, and what was met on the way.
#[derive(Debug, Drop)]
pub struct Reading {
    /// The line of a script, where it is one.
    pub line: Option<usize>,
    /// The different prefixes so far, of a script those of the lines before, too.
    pub known: Rows<Prefix>,
    /// Where the first prefix stands that lies inside or round a different earlier one: the line, or the word.
    pub nested: Option<usize>,
    pub command: Command,
}

/// The refusal of the word at a place.
fn bad(at: usize, why: Why) -> WordsErr
    ensures { result ≡ WordsErr.Usage at why }
{
    WordsErr::Usage { at: at as u64, why }
}

fn number_value(at: usize, low: u32, high: u32, value: &str) -> Result<u32, WordsErr>
    ensures { Gives words_fault_of result (reads.number_value at low high value.now) }
{
    match number_in(low, high, value) {
        Some(n) => Ok(n),
        None => Err(bad(at, Why::Number)),
    }
}

fn with_plain(alloc: Global, reading: Reading, word: &str) -> Result<Reading, AllocError>
    ensures { IfOk result (λ made. made ≡ reads.with_plain reading word.now) }
{
    let mut reading = reading;
    reading.command.words.push(Text::from_str(alloc, word)?)?;
    Ok(reading)
}

/// The reading with a word behind so many others.
fn with_word(
    alloc: Global,
    words: Words,
    before: usize,
    reading: Reading,
    at: usize,
    word: &str,
) -> Result<Reading, WordsErr>
    ensures { Gives words_fault_of result (reads.with_word words before reading at word.now) }
{
    match words {
        Words::One if before == 0 => Ok(with_plain(alloc, reading, word)?),
        Words::Many if before < 256 => Ok(with_plain(alloc, reading, word)?),
        Words::Many => Err(bad(at, Why::Limit)),
        Words::Number if before == 0 => match number_value(at, 1, 200, word) {
            Ok(n) => {
                let mut reading = reading;
                reading.command.verb = Verb::Exercise(n);
                Ok(reading)
            }
            Err(e) => Err(e),
        },
        Words::Nothing | Words::One | Words::Number => Err(bad(at, Why::Extra)),
    }
}

fn is_prefix_among(value: &str, prefixes: &[Prefix]) -> bool
    ensures { result ≡ says.is_among value.now prefixes.now }
{
    for prefix in prefixes {
        if value == prefix.as_str() {
            return true;
        }
    }
    false
}

fn is_among(value: &str, texts: &[Text]) -> bool
    ensures { result ≡ says.is_among value.now texts.now }
{
    for text in texts {
        if value == text.as_str() {
            return true;
        }
    }
    false
}

/// Whether a prefix lies inside or round one of these.
fn is_nested_with_any(prefix: &Prefix, known: &[Prefix]) -> bool
    ensures { result ≡ list_any (says.is_nested prefix.now) known.now }
{
    for other in known {
        if prefix.inside(other) || other.inside(prefix) {
            return true;
        }
    }
    false
}

fn met(reading: Reading, at: usize, prefix: &Prefix) -> Result<Reading, AllocError>
    ensures { IfOk result (λ made. made ≡ reads.met reading at prefix.now) }
{
    let mut reading = reading;
    if reading.nested.is_none() && is_nested_with_any(prefix, reading.known.as_slice()) {
        reading.nested = Some(reading.line.unwrap_or(at));
    }
    reading.known.push(prefix.copy()?)?;
    Ok(reading)
}

fn named(reading: Reading, prefix: Prefix) -> Result<Reading, AllocError>
    ensures { IfOk result (λ made. made ≡ reads.named reading prefix) }
{
    let mut reading = reading;
    reading.command.prefixes.push(prefix)?;
    Ok(reading)
}

fn with_prefix(alloc: Global, reading: Reading, at: usize, value: &str) -> Result<Reading, WordsErr>
    ensures { Gives words_fault_of result (reads.with_prefix reading at value.now) }
{
    if is_prefix_among(value, reading.command.prefixes.as_slice()) {
        return Err(bad(at, Why::Twice));
    }
    match Prefix::read(alloc, value) {
        Err(PathErr::BadPath { .. }) => Err(bad(at, Why::Path)),
        Err(PathErr::Memory) => Err(WordsErr::Memory),
        Ok(prefix) => {
            if is_prefix_among(value, reading.known.as_slice()) {
                return Ok(named(reading, prefix)?);
            }
            if reading.known.len() >= 64 {
                return Err(bad(at, Why::Limit));
            }
            let reading = met(reading, at, &prefix)?;
            Ok(named(reading, prefix)?)
        }
    }
}

fn with_channel(
    alloc: Global,
    reading: Reading,
    at: usize,
    value: &str,
) -> Result<Reading, WordsErr>
    ensures { Gives words_fault_of result (reads.with_channel reading at value.now) }
{
    if is_among(value, reading.command.channels.as_slice()) {
        return Err(bad(at, Why::Twice));
    }
    if !is_channel(value) {
        return Err(bad(at, Why::Channel));
    }
    if reading.command.channels.len() >= 8 {
        return Err(bad(at, Why::Limit));
    }
    let mut reading = reading;
    reading
        .command
        .channels
        .push(Text::from_str(alloc, value)?)?;
    Ok(reading)
}

fn with_virtual(
    alloc: Global,
    reading: Reading,
    at: usize,
    value: &str,
) -> Result<Reading, WordsErr>
    ensures { Gives words_fault_of result (reads.with_virtual reading at value.now) }
{
    if !is_virtual(alloc, value)? {
        return Err(bad(at, Why::Unknown));
    }
    let mut reading = reading;
    reading.command.virtuals.push(virtual_of(alloc, value)?)?;
    Ok(reading)
}

/// The reading with one more value, that of a plain word or of an option, behind these items.
fn with_value(
    alloc: Global,
    row: Row,
    before: &[Item],
    reading: Reading,
    kind: Kind,
    at: usize,
    value: &str,
) -> Result<Reading, WordsErr>
    ensures { Gives words_fault_of result
        (reads.with_value (seen row) before.now reading kind at value.now) }
{
    let mut reading = reading;
    match kind {
        Kind::Word => with_word(
            alloc,
            row.words,
            count(Kind::Word, before),
            reading,
            at,
            value,
        ),
        Kind::Prefix => with_prefix(alloc, reading, at, value),
        Kind::Channel => with_channel(alloc, reading, at, value),
        Kind::ChannelDir => {
            reading.command.channel_dir = Text::from_str(alloc, value)?;
            Ok(reading)
        }
        Kind::PkgsDir => {
            reading.command.pkgs_dir = Text::from_str(alloc, value)?;
            Ok(reading)
        }
        Kind::Jobs => match number_value(at, 1, 16, value) {
            Ok(n) => {
                reading.command.jobs = n;
                Ok(reading)
            }
            Err(e) => Err(e),
        },
        Kind::Virtual => with_virtual(alloc, reading, at, value),
        Kind::Revision => match number_value(at, 0, REVISION_MOST, value) {
            Ok(n) => {
                reading.command.verb = Verb::Revert(n);
                Ok(reading)
            }
            Err(e) => Err(e),
        },
        Kind::Revisions => {
            reading.command.verb = Verb::Revisions;
            Ok(reading)
        }
        Kind::Copy => {
            reading.command.copy = true;
            Ok(reading)
        }
        Kind::Strange => Err(bad(at, Why::Unknown)),
    }
}

/// The reading with one more item, behind these.
#[tactic(auto, unfolding(crate::specs::Reading::with_item))]
fn with_item(
    alloc: Global,
    row: Row,
    before: &[Item],
    reading: Reading,
    item: &Item,
) -> Result<Reading, WordsErr>
    ensures { Gives words_fault_of result (reads.with_item (seen row) before.now reading item.now) }
{
    if !repeats(row, item.kind) && given(item.kind, before) {
        return Err(bad(item.at, Why::Twice));
    }
    match &item.value {
        Some(value) => with_value(
            alloc,
            row,
            before,
            reading,
            item.kind,
            item.value_at,
            value.as_str(),
        ),
        None => Ok(reading),
    }
}

/// The reading with all items.
fn with_items(
    alloc: Global,
    row: Row,
    reading: Reading,
    items: &[Item],
) -> Result<Reading, WordsErr>
    ensures { Gives words_fault_of result (reads.with_items (seen row) [] reading items.now) }
{
    let mut reading = reading;
    for (i, item) in items.iter().enumerate() {
        match with_item(alloc, row, &items[..i], reading, item) {
            Ok(next) => reading = next,
            Err(e) => return Err(e),
        }
    }
    Ok(reading)
}

/// With `--revision` a subcommand takes no words.
fn settled(row: Row, items: &[Item]) -> Row
    ensures { seen result ≡ reads.settled (seen row) items.now }
{
    if given(Kind::Revision, items) {
        Row {
            words: Words::Nothing,
            ..row
        }
    } else {
        row
    }
}

/// Whether the command should have one prefix and hasn't.
fn lacks_prefix(command: &Command) -> bool
    ensures { result ≡ reads.lacks_prefix command.now }
{
    has_one_prefix(command.verb) && command.prefixes.len() != 1
}

fn lacks_value(items: &[Item]) -> bool
    ensures { result ≡ reads.lacks_value items.now }
{
    items.iter().any(|item| item.value.is_none())
}

/// Whether a value, the prefix or a word is missing.
fn lacks(row: Row, items: &[Item], reading: &Reading) -> bool
    ensures { result ≡ reads.lacks (seen row) items.now reading.now }
{
    if lacks_value(items) {
        return true;
    }
    if lacks_prefix(&reading.command) {
        return true;
    }
    count(Kind::Word, items) < least(row.words)
}

/// The command that has nothing but a verb.
fn plain_command(alloc: Global, verb: Verb) -> Result<Command, AllocError>
    ensures { IfOk result (λ made. made ≡ reads.plain_command verb) }
{
    Ok(Command {
        verb,
        prefixes: Rows::new(alloc),
        channels: Rows::new(alloc),
        channel_dir: Text::from_str(alloc, "channels")?,
        pkgs_dir: Text::from_str(alloc, "pkgs")?,
        jobs: 4,
        virtuals: Rows::new(alloc),
        copy: false,
        words: Rows::new(alloc),
    })
}

/// The items of a command of so many words.
#[tactic(auto, unfolding(crate::specs::Reading::finished))]
fn finished(
    alloc: Global,
    row: Row,
    items: &[Item],
    start: Reading,
    len: usize,
) -> Result<Reading, WordsErr>
    ensures { Gives words_fault_of result (reads.finished (seen row) items.now start len) }
{
    match with_items(alloc, row, start, items) {
        Ok(reading) => {
            if lacks(row, items, &reading) {
                return Err(bad(len, Why::Missing));
            }
            Ok(reading)
        }
        Err(e) => Err(e),
    }
}

/// Reads the words of a command line, or of a line of a script, behind the prefixes of the lines before it.
#[tactic(auto, unfolding(crate::specs::Reading::command_read))]
pub fn read_command(
    alloc: Global,
    line: Option<usize>,
    known: Rows<Prefix>,
    nested: Option<usize>,
    words: &[Text],
) -> Result<Reading, WordsErr>
    ensures { Gives words_fault_of result (reads.command_read line known nested words.now) }
{
    let Some((name, rest)) = first_word(words) else {
        return Err(bad(0, Why::Missing));
    };
    let Some(row) = row_of(line.is_some(), name) else {
        return Err(bad(0, Why::Unknown));
    };
    let items = items_of(alloc, row, rest)?;
    let start = Reading {
        line,
        known,
        nested,
        command: plain_command(alloc, row.verb)?,
    };
    let row = settled(row, items.as_slice());
    finished(alloc, row, items.as_slice(), start, words.len())
}
