use conda_base::Text;
use conda_words::{Command, Line, Virtual, WordsErr, read_script, read_words};
use std::alloc::{AllocError, Global};

/// The rows of conda_words.
pub fn answer(alloc: Global, call: &str, arguments: &[Text]) -> Result<Option<String>, AllocError> {
    match (call, arguments) {
        ("words", [text]) => Ok(Some(words(alloc, spaced(alloc, text.as_str())?.as_slice())?)),
        ("words.list", words_given) => Ok(Some(words(
            alloc,
            owned(alloc, words_given)?.as_slice(),
        )?)),
        ("words.none", _) => Ok(Some(words(alloc, &[])?)),
        ("script.after", [count, text]) => Ok(Some(script_after(
            alloc,
            count.as_str(),
            text.as_str(),
        )?)),
        ("script", [text]) => Ok(Some(script(alloc, text.as_str())?)),
        _ => Ok(None),
    }
}

/// The words of a text, between single spaces.
fn spaced(alloc: Global, text: &str) -> Result<Vec<String>, AllocError> {
    let mut made = Vec::new(alloc);
    for word in text.split(' ') {
        made.push(String::from_str(alloc, word)?)?;
    }
    Ok(made)
}

fn owned(alloc: Global, texts: &[Text]) -> Result<Vec<String>, AllocError> {
    let mut made = Vec::new(alloc);
    for text in texts {
        made.push(String::from_str(alloc, text.as_str())?)?;
    }
    Ok(made)
}

fn words(alloc: Global, words: &[String]) -> Result<String, AllocError> {
    match read_words(alloc, words) {
        Ok(command) => shown(alloc, &command),
        Err(error) => refused(alloc, error),
    }
}

fn script(alloc: Global, text: &str) -> Result<String, AllocError> {
    match read_script(alloc, text) {
        Ok(lines) => shown_lines(alloc, lines.as_slice()),
        Err(error) => refused(alloc, error),
    }
}

/// A script with so many empty lines in front.
fn script_after(alloc: Global, count: &str, text: &str) -> Result<String, AllocError> {
    let mut made = String::new(alloc);
    if let Ok(count) = count.parse::<u32>() {
        for _ in 0..count {
            made.push('\n')?;
        }
    }
    made.push_str(text)?;
    script(alloc, made.as_str())
}

fn refused(alloc: Global, error: WordsErr) -> Result<String, AllocError> {
    match error {
        WordsErr::Usage { at, why } => format!(in alloc; "{at} {why}"),
        WordsErr::Memory => Err(AllocError),
    }
}

/// Each line with its number and its session, in brackets.
fn shown_lines(alloc: Global, lines: &[Line]) -> Result<String, AllocError> {
    let mut made = String::from_str(alloc, "lines")?;
    for line in lines {
        let number = line.number;
        let session = line.session;
        let command = shown(alloc, &line.command)?;
        let row = format!(in alloc; " [{number} {session} {command}]")?;
        made.push_str(row.as_str())?;
    }
    Ok(made)
}

/// All of a command: verb; words; prefixes; channels; folder of the channels; folder of the cache; jobs; virtual
/// packages; whether files are copied.
fn shown(alloc: Global, command: &Command) -> Result<String, AllocError> {
    let verb = command.verb;
    let words = joined(alloc, command.words.as_slice())?;
    let prefixes = joined_prefixes(alloc, command)?;
    let channels = joined(alloc, command.channels.as_slice())?;
    let channel_dir = command.channel_dir.as_str();
    let pkgs_dir = command.pkgs_dir.as_str();
    let jobs = command.jobs;
    let virtuals = joined_virtuals(alloc, command.virtuals.as_slice())?;
    let copy = command.copy;
    format!(in alloc;
        "{verb:?};{words};{prefixes};{channels};{channel_dir};{pkgs_dir};{jobs};{virtuals};{copy}"
    )
}

fn joined(alloc: Global, texts: &[Text]) -> Result<String, AllocError> {
    let mut made = String::new(alloc);
    for text in texts {
        made.push_str(" ")?;
        made.push_str(text.as_str())?;
    }
    Ok(made)
}

fn joined_prefixes(alloc: Global, command: &Command) -> Result<String, AllocError> {
    let mut made = String::new(alloc);
    for prefix in command.prefixes.as_slice() {
        made.push_str(" ")?;
        made.push_str(prefix.as_str())?;
    }
    Ok(made)
}

fn joined_virtuals(alloc: Global, virtuals: &[Virtual]) -> Result<String, AllocError> {
    let mut made = String::new(alloc);
    for one in virtuals {
        let name = one.name.as_str();
        let version = one.version.as_str();
        let pair = format!(in alloc; " {name}={version}")?;
        made.push_str(pair.as_str())?;
    }
    Ok(made)
}
