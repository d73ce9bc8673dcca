use crate::sourced::channels_of;
use conda_base::{Bytes, Rows, Text};
use conda_cli::{asked_text, run, split_root};
use conda_dev::{FixedClock, MemHost, MemIn, MemOut, Tree};
use conda_path::{Kind, Node, Prefix, RelPath};
use rows_plan::plan_of;
use rows_text::shown;
use std::alloc::{AllocError, Global};
use std::sync::Wait;
use std::thread::Threads;

/// The rows of conda_cli. `run WORDS|PLAN|PREFIX|HISTORY` runs the words over a machine on which the environment at
/// PREFIX has this history; without the last two nothing is there. `refute PLAN|INPUT` runs `refute` with this input. `over
/// WORDS|PLAN|CHANNEL/SUBDIR|TEXT|..` runs the words over a machine whose channels have these texts as repodata; `checked
/// WORDS|LINE|CHANNEL/SUBDIR|TEXT|..` does too, and runs `refute` with the refutation that was printed, without the line of
/// this number, if it isn't 0, up to the first `:`. The answer is the status and what was printed.
pub fn answer<R: Threads + Wait + Sync>(
    rt: &R,
    alloc: Global,
    call: &str,
    arguments: &[Text],
) -> Result<Option<String>, AllocError> {
    match (call, arguments) {
        ("run", [words, plan]) => {
            let machine = Machine::new(alloc);
            Ok(Some(run_on(rt, alloc, words.as_str(), plan.as_str(), machine, "")?))
        }
        ("run", [words, plan, prefix, history]) => {
            let Ok(prefix) = Prefix::read(alloc, prefix.as_str()) else {
                return Ok(None);
            };
            let mut machine = Machine::new(alloc);
            machine
                .prefixes
                .push((prefix, with_history(alloc, history.as_str())?))?;
            Ok(Some(run_on(rt, alloc, words.as_str(), plan.as_str(), machine, "")?))
        }
        ("refute", [plan, input]) => {
            let machine = Machine::new(alloc);
            Ok(Some(run_on(rt, alloc, "refute", plan.as_str(), machine, input.as_str())?))
        }
        ("over", [words, plan, files @ ..]) => {
            let Some(channels) = channels_of(alloc, files)? else {
                return Ok(None);
            };
            let prefixes = Vec::new(alloc);
            let machine = Machine { prefixes, channels };
            Ok(Some(run_on(rt, alloc, words.as_str(), plan.as_str(), machine, "")?))
        }
        ("checked", [words, line, files @ ..]) => {
            let Some(channels) = channels_of(alloc, files)? else {
                return Ok(None);
            };
            let prefixes = Vec::new(alloc);
            let machine = Machine { prefixes, channels };
            let line = line.as_str().parse::<usize>().unwrap_or(0);
            Ok(Some(checked(rt, alloc, words.as_str(), line, machine)?))
        }
        ("root", [words]) => Ok(Some(rooted(alloc, words.as_str())?)),
        ("asked", [words]) => Ok(Some(first_line(alloc, words.as_str())?)),
        _ => Ok(None),
    }
}

/// What a machine has: the trees of prefixes, and channels.
#[derive(Drop)]
struct Machine {
    prefixes: Vec<(Prefix, Tree)>,
    channels: Vec<(Text, Rows<(Text, Node)>)>,
}

impl Machine {
    fn new(alloc: Global) -> Machine {
        Machine {
            prefixes: Vec::new(alloc),
            channels: Vec::new(alloc),
        }
    }
}

/// A tree of a history alone.
fn with_history(alloc: Global, history: &str) -> Result<Tree, AllocError> {
    let mut tree = Tree::new(alloc);
    if let Ok(path) = RelPath::read(alloc, "conda-meta/history") {
        let bytes = Bytes::from_slice(alloc, history.as_bytes())?;
        let kind = Kind::File;
        tree.put(path, Node { kind, bytes })?;
    }
    Ok(tree)
}

fn words_of(alloc: Global, text: &str) -> Result<Vec<String>, AllocError> {
    let mut words = Vec::new(alloc);
    for word in text.split_whitespace() {
        words.push(String::from_str(alloc, word)?)?;
    }
    Ok(words)
}

/// The status of a run, and what it printed.
#[derive(Drop)]
struct Printed {
    status: u8,
    text: String,
}

fn run_words<R: Threads + Wait + Sync>(
    rt: &R,
    alloc: Global,
    words: &str,
    plan: &str,
    machine: Machine,
    input: &str,
) -> Result<Printed, AllocError> {
    let words = words_of(alloc, words)?;
    let plan = plan_of(alloc, plan)?;
    let Machine { prefixes, channels } = machine;
    let cached = Vec::new(alloc);
    let host = MemHost::make(rt, alloc, prefixes, channels, cached, plan.clone()?)?;
    let mut out = MemOut::make(alloc, plan.clone()?)?;
    let bytes = Vec::from_slice(alloc, input.as_bytes())?;
    let mut input = MemIn::make(alloc, bytes, plan)?;
    let mut clock = FixedClock::make(1_714_557_600);
    let ended = run(
        rt,
        alloc,
        words.as_slice(),
        host,
        &mut clock,
        &mut input,
        &mut out,
    );
    let status = ended.status;
    let text = String::from_str(alloc, str::from_utf8(out.bytes()).unwrap_or("?"))?;
    Ok(Printed { status, text })
}

fn run_on<R: Threads + Wait + Sync>(
    rt: &R,
    alloc: Global,
    words: &str,
    plan: &str,
    machine: Machine,
    input: &str,
) -> Result<String, AllocError> {
    let Printed { status, text } = run_words(rt, alloc, words, plan, machine, input)?;
    let text = shown(alloc, text.as_str())?;
    if text.is_empty() {
        return format!(in alloc; "{status}");
    }
    let text = text.as_str();
    format!(in alloc; "{status} {text}")
}

/// What `refute` says of the refutation that a run prints, without the line of this number: the
/// verdict without a step's number, which is a matter of the solver.
fn checked<R: Threads + Wait + Sync>(
    rt: &R,
    alloc: Global,
    words: &str,
    line: usize,
    machine: Machine,
) -> Result<String, AllocError> {
    let report = run_words(rt, alloc, words, "", machine, "")?;
    let Some((_, log)) = report.text.split_once("refutation:\n") else {
        return String::from_str(alloc, "no refutation");
    };
    let mut input = String::new(alloc);
    let mut number = 0usize;
    for one in log.lines() {
        number = number.saturating_add(1);
        if number != line {
            input.push_str(one)?;
            input.push('\n')?;
        }
    }
    let said = run_on(rt, alloc, "refute", "", Machine::new(alloc), input.as_str())?;
    match said.split_once(':') {
        Some((verdict, _)) => String::from_str(alloc, verdict),
        None => Ok(said),
    }
}

fn rooted(alloc: Global, words: &str) -> Result<String, AllocError> {
    let words = words_of(alloc, words)?;
    let (root, rest) = split_root(words.as_slice());
    let mut made = format!(in alloc; "[{root}]")?;
    for word in rest {
        made.push(' ')?;
        made.push_str(word.as_str())?;
    }
    Ok(made)
}

/// The first line of the text that is asked for.
fn first_line(alloc: Global, words: &str) -> Result<String, AllocError> {
    let words = words_of(alloc, words)?;
    let line = match asked_text(words.as_slice()) {
        Some(text) => text.lines().next().unwrap_or(""),
        None => "none",
    };
    String::from_str(alloc, line)
}
