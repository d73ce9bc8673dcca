use conda_base::{Copied, Rows, Text};
use conda_core::{Core, CoreEnv, CoreErr, Event, SlotOp, SlotState, View, Word, slot_next};
use std::alloc::{AllocError, Global};

/// The rows of conda_core. Events are parted by `;`: `slot SEAT SLOT STEP`, `lock ENV SEAT`,
/// `commit ENV SLOT..`, and `begin`, `undo`, `break`, `mend` and `unlock` with ENV.
pub fn answer(alloc: Global, call: &str, arguments: &[Text]) -> Result<Option<String>, AllocError> {
    match (call, arguments) {
        ("core.run", [slots, seats, envs, events]) => {
            let core = core_of(alloc, slots.as_str(), seats.as_str(), envs.as_str())?;
            run(alloc, core, events.as_str())
        }
        ("core.apply", [slots, seats, envs, events]) => {
            let core = core_of(alloc, slots.as_str(), seats.as_str(), envs.as_str())?;
            apply(alloc, core, events.as_str())
        }
        ("core.word", [word, step]) => next_of(alloc, word.as_str(), step.as_str()),
        _ => Ok(None),
    }
}

/// The number that a word is, or one past all that exist.
fn number(word: &str) -> u32 {
    match word.parse::<u32>() {
        Ok(number) => number,
        Err(_) => u32::MAX,
    }
}

/// A new core with a slot for each word `ready` or `empty`.
fn core_of(
    alloc: Global,
    slots: &str,
    seats: &str,
    envs: &str,
) -> Result<Option<Core>, AllocError> {
    let mut ready = Vec::new(alloc);
    for word in slots.split_whitespace() {
        ready.push(word == "ready")?;
    }
    let seats = number(seats);
    let envs = number(envs);
    if envs > seats {
        return Ok(None);
    }
    match Core::make(alloc, ready.as_slice(), seats, envs) {
        Ok(core) => Ok(Some(core)),
        Err(_) => Ok(None),
    }
}

fn step_of(word: &str) -> Option<SlotOp> {
    match word {
        "load" => Some(SlotOp::Load),
        "try" => Some(SlotOp::Try),
        "back" => Some(SlotOp::Back),
        "unpin" => Some(SlotOp::Unpin),
        "claim" => Some(SlotOp::Claim),
        "publish" => Some(SlotOp::Publish),
        "abandon" => Some(SlotOp::Abandon),
        "take" => Some(SlotOp::Take),
        _ => None,
    }
}

fn words_of<'a>(alloc: Global, text: &'a str) -> Result<Vec<&'a str>, AllocError> {
    let mut words = Vec::new(alloc);
    for word in text.split_whitespace() {
        words.push(word)?;
    }
    Ok(words)
}

fn numbers_of(alloc: Global, words: &[&str]) -> Result<Rows<u32>, AllocError> {
    let mut numbers = Rows::new(alloc);
    for word in words {
        numbers.push(number(*word))?;
    }
    Ok(numbers)
}

fn event_of(alloc: Global, words: &[&str]) -> Result<Option<Event>, AllocError> {
    Ok(match words {
        ["slot", seat, slot, step] => match step_of(*step) {
            Some(op) => Some(Event::Slot {
                seat: number(*seat),
                slot: number(*slot),
                op,
            }),
            None => None,
        },
        ["lock", env, by] => Some(Event::Lock {
            env: number(*env),
            by: number(*by),
        }),
        ["begin", env] => Some(Event::Begin { env: number(*env) }),
        ["commit", env, slots @ ..] => Some(Event::Commit {
            env: number(*env),
            set: numbers_of(alloc, slots)?,
        }),
        ["undo", env] => Some(Event::Undo { env: number(*env) }),
        ["break", env] => Some(Event::Break { env: number(*env) }),
        ["mend", env] => Some(Event::Mend { env: number(*env) }),
        ["unlock", env] => Some(Event::Unlock { env: number(*env) }),
        _ => None,
    })
}

fn events_of(alloc: Global, text: &str) -> Result<Vec<Event>, AllocError> {
    let mut events = Vec::new(alloc);
    for part in text.split(';') {
        let words = words_of(alloc, part)?;
        if let Some(event) = event_of(alloc, words.as_slice())? {
            events.push(event)?;
        }
    }
    Ok(events)
}

/// How many events are applied, and a copy of the core after them.
fn run(alloc: Global, core: Option<Core>, events: &str) -> Result<Option<String>, AllocError> {
    let Some(mut core) = core else {
        return Ok(None);
    };
    let events = events_of(alloc, events)?;
    match core.run(alloc, events.as_slice()) {
        Ok(applied) => {
            let mut text = format!(in alloc; "applied {applied}")?;
            push_core(alloc, &mut text, &core.copy()?)?;
            Ok(Some(text))
        }
        Err(_) => Ok(None),
    }
}

/// The answer to each event, applied by itself.
fn apply(alloc: Global, core: Option<Core>, events: &str) -> Result<Option<String>, AllocError> {
    let Some(mut core) = core else {
        return Ok(None);
    };
    let mut text = String::from_str(alloc, "answers")?;
    for event in &events_of(alloc, events)? {
        match core.apply(alloc, event) {
            Ok(()) => text.push_str(" done")?,
            Err(CoreErr::NotEnabled) => text.push_str(" not-enabled")?,
            Err(CoreErr::Memory) => return Ok(None),
        }
    }
    push_core(alloc, &mut text, &core)?;
    Ok(Some(text))
}

/// The word that a step leaves.
fn next_of(alloc: Global, word: &str, step: &str) -> Result<Option<String>, AllocError> {
    let words = words_of(alloc, word)?;
    let (Some(word), Some(op)) = (word_of(words.as_slice()), step_of(step)) else {
        return Ok(None);
    };
    match slot_next(word, op) {
        Some(next) => {
            let mut text = String::new(alloc);
            push_word(alloc, &mut text, next)?;
            Ok(Some(text))
        }
        None => Ok(Some(String::from_str(alloc, "none")?)),
    }
}

fn word_of(words: &[&str]) -> Option<Word> {
    let [state, count] = words else {
        return None;
    };
    let state = match *state {
        "empty" => SlotState::Empty,
        "busy" => SlotState::Busy,
        _ => SlotState::Ready,
    };
    match count.parse::<u64>() {
        Ok(count) => Some(Word { state, count }),
        Err(_) => None,
    }
}

fn push_word(alloc: Global, text: &mut String, word: Word) -> Result<(), AllocError> {
    let name = match word.state {
        SlotState::Empty => "empty",
        SlotState::Busy => "busy",
        SlotState::Ready => "ready",
    };
    let count = word.count;
    let shown = format!(in alloc; "{name} {count}")?;
    text.push_str(shown.as_str())
}

fn push_numbers(
    alloc: Global,
    text: &mut String,
    name: &str,
    numbers: &[u32],
) -> Result<(), AllocError> {
    text.push_str(name)?;
    for number in numbers {
        let shown = format!(in alloc; " {number}")?;
        text.push_str(shown.as_str())?;
    }
    Ok(())
}

fn push_view(alloc: Global, text: &mut String, view: &View) -> Result<(), AllocError> {
    push_numbers(alloc, text, "; seat pins", view.pins.as_slice())?;
    push_numbers(alloc, text, " tries", view.tries.as_slice())?;
    push_numbers(alloc, text, " busy", view.busy.as_slice())
}

fn push_env(alloc: Global, text: &mut String, env: &CoreEnv) -> Result<(), AllocError> {
    match env.owner {
        Some(seat) => push_numbers(alloc, text, "; env owner", &[seat])?,
        None => text.push_str("; env free")?,
    }
    for set in env.revs.as_slice() {
        push_numbers(alloc, text, " revision", set.as_slice())?;
    }
    match &env.tree {
        Some(set) => push_numbers(alloc, text, " tree", set.as_slice())?,
        None => text.push_str(" changing")?,
    }
    if env.broken {
        text.push_str(" broken")?;
    }
    Ok(())
}

fn push_core(alloc: Global, text: &mut String, core: &Core) -> Result<(), AllocError> {
    for word in core.slots.as_slice() {
        text.push_str("; slot ")?;
        push_word(alloc, text, *word)?;
    }
    for view in core.seats.as_slice() {
        push_view(alloc, text, view)?;
    }
    for env in core.envs.as_slice() {
        push_env(alloc, text, env)?;
    }
    Ok(())
}
