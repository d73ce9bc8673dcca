ghost use Rattle.std.specs.Prelude.{◌≡◌, ◌++◌, ◌+◌, ◌^◌, ◌<◌, IfOk, OnOk, length, map, string_bytes};
ghost use Rattle.conda_clause.specs.Kept.{drops_behind, has_gap, is_joint, kept, last_of, chars_at, places, run_chars};

use conda_base::Text;
use std::alloc::{AllocError, Global};

/// The runs of characters of a text that are no spaces, with one space between them where it isn't
/// dropped.
#[derive(Debug, Drop)]
pub struct Kept {
    pub text: Text,
    /// Where each byte stood, as an offset in bytes.
    pub places: Vec<usize>,
}

fn is_joint(b: u8) -> bool
    ensures { result ≡ is_joint b }
{
    b == b',' || b == b'|'
}

fn drops_behind(b: u8) -> bool
    ensures { result ≡ drops_behind b }
{
    is_joint(b) || b == b'<' || b == b'>' || b == b'='
}

// Whether a space stays between runs that end and begin so.
fn has_gap(last: Option<u8>, first: u8) -> bool
    ensures { result ≡ has_gap last first }
{
    match last {
        Some(last) => !(drops_behind(last) || is_joint(first)),
        None => false,
    }
}

// The last character of a run, or what ended the run before.
fn last_of(last: Option<u8>, run: &[u8]) -> Option<u8>
    ensures { result ≡ last_of last run.now }
{
    match run.last() {
        Some(b) => Some(*b),
        None => last,
    }
}

fn add_places(places: &mut Vec<usize>, at: usize, run: &[u8]) -> Result<(), AllocError>
    requires { at + length run.now < 2 ^ 64 }
    ensures { OnOk result
        (places.new.items ≡ places.old.items ++ map (λ m. m.0) (chars_at at run.now)) }
{
    for i in 0..run.len() {
        places.push(at + i)?;
    }
    Ok(())
}

// Adds a run that begins at a place, behind a space where one stays.
fn add_run(
    text: &mut String,
    places: &mut Vec<usize>,
    last: Option<u8>,
    at: usize,
    run: &str,
) -> Result<(), AllocError>
    requires { at + length run.now < 2 ^ 64 }
    ensures text { OnOk result
        (string_bytes text.new
        ≡ string_bytes text.old ++ map (λ m. m.1) (run_chars last at run.now)) }
    ensures places { OnOk result
        (places.new.items ≡ places.old.items ++ map (λ m. m.0) (run_chars last at run.now)) }
{
    let Some(first) = run.as_bytes().first() else {
        return Ok(());
    };
    if has_gap(last, *first) {
        text.push(' ')?;
        places.push(at.saturating_sub(1))?;
    }
    text.push_str(run)?;
    add_places(places, at, run.as_bytes())
}

/// Drops the spaces at the ends, those before and behind `,` and `|`, and those behind `<`, `>` and
/// `=`. What other spaces stand between two runs becomes one space.
pub fn keep(alloc: Global, text: &str) -> Result<Kept, AllocError>
    ensures text { IfOk result (λ k. k.text ≡ kept text.now) }
    ensures places { IfOk result (λ k. k.places.items ≡ places text.now) }
{
    let mut made = String::new(alloc);
    let mut places = Vec::new(alloc);
    let mut last = None;
    let mut at = 0;
    let mut left = text;
    while let Some((run, rest)) = left.split_once(' ') {
        add_run(&mut made, &mut places, last, at, run)?;
        last = last_of(last, run.as_bytes());
        at = at + run.len() + 1;
        left = rest;
    }
    add_run(&mut made, &mut places, last, at, left)?;
    Ok(Kept {
        text: Text::from_string(made),
        places,
    })
}
