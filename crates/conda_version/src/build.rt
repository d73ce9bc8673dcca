ghost use Rattle.std.specs.Prelude.{◌≡◌, ◌≤◌, ◌<◌, ◌+◌, [], ◌++◌, true, map, IfErr, IfOk, None, OnOk, length};
ghost use Rattle.std.specs.Option.{option_map};
ghost use Rattle.std.specs.Char.{is_ascii_digit};
ghost use Rattle.std.specs.List.{list_all};
ghost use Rattle.std.specs.Str.Parse.{digits_value};
ghost use Rattle.conda_version.specs.Grammar.{HasShortRuns, HasValue, because, component_fault, component_of, components_of, epoch_fault, epoch_of, fault, local_part, main_part, plain_meaning, run_len, IsCause};
ghost use Rattle.conda_version.specs.Order.{epoch_and_main};
ghost use Rattle.conda_version.specs.Versions.{as_dot, begins_with_digit, main_dots, run_of};
ghost use Rattle.conda_version.specs.declared.error.VersionWhy.TheVariants.{Component};
ghost use Rattle.conda_version.specs.declared.error.VersionErr.TheVariants.{BadVersion};

use crate::components::Components;
use crate::error::{VersionErr, VersionWhy};
use crate::run::Run;
use crate::shape::{
    empty_from, epoch_part, local_dots, local_part, main_dots, main_part, main_start, marks_fault,
    numeral_fault, position,
};
use conda_base::{Bytes, cut_laws};
use std::alloc::{AllocError, Global};

fn number_of(digits: &[u8]) -> u128
    requires digits { list_all is_ascii_digit digits.now ≡ true }
    requires few { length digits.now ≤ 38 }
    ensures { result ≡ digits_value 10 digits.now }
{
    let mut n: u128 = 0;
    for digit in digits {
        n = n * 10 + u128::from(*digit - b'0');
    }
    n
}

fn run_of(alloc: Global, run: &[u8]) -> Result<Run, AllocError>
    requires { HasValue run.now }
    ensures { IfOk result (λ made. made ≡ run_of run.now) }
{
    if begins_with_digit(run) {
        Ok(Run::Number(number_of(run)))
    } else if run == b"post".as_slice() {
        Ok(Run::Post)
    } else if run == b"dev".as_slice() {
        Ok(Run::Word(Bytes::from_slice(alloc, b"DEV")?))
    } else {
        Ok(Run::Word(Bytes::from_slice(alloc, run)?))
    }
}

fn begins_with_digit(bytes: &[u8]) -> bool
    ensures { result ≡ begins_with_digit bytes.now }
{
    match bytes.first() {
        Some(b) => b.is_ascii_digit(),
        None => false,
    }
}

// How many bytes the first run has.
fn run_len(bytes: &[u8]) -> usize
    ensures value { result ≡ run_len bytes.now }
    ensures within { result ≤ length bytes.now }
    ensures some { 0 < length bytes.now → 0 < result }
{
    let kind = begins_with_digit(bytes);
    for (at, b) in bytes.iter().enumerate() {
        if b.is_ascii_digit() != kind {
            return at;
        }
    }
    bytes.len()
}

// Puts the runs of a component into the empty list.
fn put_runs(alloc: Global, runs: &mut Vec<Run>, piece: &[u8]) -> Result<(), AllocError>
    requires short { HasShortRuns piece.now }
    requires empty { runs.old.items ≡ [] }
    ensures { OnOk result (runs.new.items ≡ component_of piece.now) }
{
    if !begins_with_digit(piece) {
        runs.push(Run::Number(0))?;
    }
    let mut left = piece;
    while !left.is_empty() {
        let (run, rest) = left.split_at(run_len(left));
        runs.push(run_of(alloc, run)?)?;
        left = rest;
    }
    Ok(())
}

/// Adds the components of a dotted text.
pub fn add_components(alloc: Global, made: &mut Components, dotted: &[u8]) -> Result<(), AllocError>
    requires { HasShortRuns dotted.now }
    ensures { OnOk result (made.new ≡ made.old ++ components_of dotted.now) }
{
    let mut runs = Vec::new(alloc);
    let mut left = dotted;
    while let Some(end) = position(left, b'.') {
        put_runs(alloc, &mut runs, left.split_at(end).0)?;
        made.add(&mut runs)?;
        left = left.split_at(end + 1).1;
    }
    put_runs(alloc, &mut runs, left)?;
    made.add(&mut runs)?;
    Ok(())
}

// The number of the epoch, 0 where there is none.
fn epoch_of(text: &[u8]) -> u128
    requires good { epoch_fault text.now ≡ None }
    requires short { HasShortRuns text.now }
    ensures { result ≡ epoch_of text.now }
{
    cut_laws();
    match epoch_part(text) {
        Some(digits) => number_of(digits),
        None => 0,
    }
}

// The main and the local part of a plain text, with `.` for each `_` that parts components.
#[derive(Drop)]
struct Dotted {
    main: Vec<u8>,
    local: Option<Vec<u8>>,
}

// The dotted parts, where they have no empty component.
fn dots_of(alloc: Global, text: &[u8]) -> Result<Dotted, VersionErr>
    ensures main { IfOk result (λ parts. parts.main.items ≡ main_dots (main_part text.now)) }
    ensures local { IfOk result (λ parts. option_map (λ v. v.items) parts.local ≡ option_map (map as_dot) (local_part text.now)) }
    ensures good { OnOk result (component_fault text.now ≡ None) }
    ensures bad { IfErr result (λ e. IsCause e (because Component (component_fault text.now))) }
{
    let main = main_dots(alloc, main_part(text))?;
    if let Some(at) = empty_from(main_start(text), main.as_slice()) {
        return Err(component(at));
    }
    let Some(part) = local_part(text) else {
        return Ok(Dotted { main, local: None });
    };
    let local = local_dots(alloc, part)?;
    if let Some(at) = empty_from(text.len() - part.len(), local.as_slice()) {
        return Err(component(at));
    }
    Ok(Dotted {
        main,
        local: Some(local),
    })
}

fn component(at: usize) -> VersionErr
    ensures { result ≡ BadVersion at Component }
{
    VersionErr::BadVersion {
        at,
        why: VersionWhy::Component,
    }
}

/// What a plain text means: its epoch with the components of the main part, and those of the local part.
#[derive(Debug, Drop)]
pub struct Parts {
    pub main: Components,
    pub local: Components,
}

fn built(alloc: Global, text: &[u8], dotted: &Dotted) -> Result<Parts, AllocError>
    requires good { epoch_fault text.now ≡ None }
    requires short { HasShortRuns text.now }
    requires main { dotted.now.main.items ≡ main_dots (main_part text.now) }
    requires local { option_map (λ v. v.items) dotted.now.local ≡ option_map (map as_dot) (local_part text.now) }
    ensures main { IfOk result (λ parts. parts.main ≡ epoch_and_main (plain_meaning text.now)) }
    ensures local { IfOk result (λ parts. parts.local ≡ (plain_meaning text.now).local) }
{
    cut_laws();
    let mut runs = Vec::new(alloc);
    runs.push(Run::Number(epoch_of(text)))?;
    let mut main = Components::new(alloc);
    main.add(&mut runs)?;
    add_components(alloc, &mut main, dotted.main.as_slice())?;
    let mut local = Components::new(alloc);
    if let Some(part) = &dotted.local {
        add_components(alloc, &mut local, part.as_slice())?;
    }
    Ok(Parts { main, local })
}

/// Reads a plain text.
pub fn parts_of(alloc: Global, text: &[u8]) -> Result<Parts, VersionErr>
    ensures good { OnOk result (fault text.now ≡ None) }
    ensures main { IfOk result (λ parts. parts.main ≡ epoch_and_main (plain_meaning text.now)) }
    ensures local { IfOk result (λ parts. parts.local ≡ (plain_meaning text.now).local) }
    ensures bad { IfErr result (λ e. IsCause e (fault text.now)) }
{
    if let Some((at, why)) = marks_fault(text) {
        return Err(VersionErr::BadVersion { at, why });
    }
    let dotted = dots_of(alloc, text)?;
    if let Some(at) = numeral_fault(text) {
        return Err(VersionErr::BadVersion {
            at,
            why: VersionWhy::Numeral,
        });
    }
    let parts = built(alloc, text, &dotted)?;
    Ok(parts)
}
