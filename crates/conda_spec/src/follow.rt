ghost use Rattle.std.specs.Prelude.{◌≡◌, ◌==◌, ◌+◌, ◌++◌, ◌<◌, if◌then◌else◌, IfOk, None, codes, drop, length, true};
ghost use Rattle.std.specs.List.{list_any};
ghost use Rattle.conda_clause.specs.Kept as kept;
ghost use Rattle.conda_base.specs.Texts.{begins_with, cut_first};
ghost use Rattle.conda_base.specs.Reads.{Gives};
ghost use Rattle.conda_clause.specs.Faults.{spec_fault_of};
ghost use Rattle.conda_spec.specs.Good.{IsGoodClause, IsVersionAndBuild, stood};
ghost use Rattle.conda_spec.specs.Parts.{bars_build, is_comparison, is_sign, is_sign_or_equals, IsFreeWord};
ghost use Rattle.conda_spec.specs.Reading.{build_word, clause_at, equal_at, equals_read, followed_read, is_equal_word, joined_read, lead_of, spaced_read, version_of, wanted_read, two_words_read};

use crate::cuts::{begins_with, behind};
use crate::places::Places;
use crate::stay::stay;
use crate::values::{build_at, clause_at, equal_at, fault, is_one_of};
use conda_base::{Text, cut_first};
use conda_clause::{SpecErr, SpecWhy, VersionClause};
use std::alloc::Global;

/// A version clause and a build, where they are given.
pub type VersionAndBuild = (Option<VersionClause>, Option<Text>);

// A build, behind which no further word stands.
#[tactic(auto, unfolding(crate::specs::Reading::build_word))]
fn build_word(alloc: Global, places: &Places, start: usize, text: &str) -> Result<Text, SpecErr>
    requires { start + length text.now < 18446744073709551616 }
    ensures read { Gives spec_fault_of result (build_word (stood places.now) start text.now) }
    ensures good { IfOk result (IsFreeWord bars_build) }
{
    match cut_first(text, b' ') {
        None => build_at(alloc, places.of(start), text),
        Some((build, _)) => {
            let _build = build_at(alloc, places.of(start), build)?;
            Err(fault(places.of(start + build.len() + 1), SpecWhy::Words))
        }
    }
}

// A version clause, and a build as a second word.
#[tactic(auto, unfolding(crate::specs::Reading::two_words_read))]
fn words(alloc: Global, places: &Places, text: &str) -> Result<VersionAndBuild, SpecErr>
    ensures read { Gives spec_fault_of result (two_words_read (stood places.now) text.now) }
    ensures good { IfOk result IsVersionAndBuild }
{
    match cut_first(text, b' ') {
        None => Ok((Some(clause_at(alloc, places, 0, 0, text)?), None)),
        Some((first, rest)) => {
            let clause = clause_at(alloc, places, 0, 0, first)?;
            let build = build_word(alloc, places, first.len() + 1, rest)?;
            Ok((Some(clause), Some(build)))
        }
    }
}

fn is_sign(b: u8) -> bool
    ensures { result ≡ is_sign b }
{
    is_one_of(b",|<>!~(", b)
}

fn is_comparison(b: u8) -> bool
    ensures { result ≡ is_comparison b }
{
    is_one_of(b"<>!~", b)
}

fn is_joint(b: u8) -> bool
    ensures { result ≡ kept.is_joint b }
{
    b == b',' || b == b'|'
}

fn holds_sign(text: &[u8]) -> bool
    ensures { result ≡ list_any is_sign text.now }
{
    text.iter().any(|b| is_sign(*b))
}

fn holds_sign_or_equals(text: &[u8]) -> bool
    ensures { result ≡ list_any is_sign_or_equals text.now }
{
    text.iter().any(|b| *b == b'=' || is_sign(*b))
}

// `=v`, where v holds no `=` and no other sign.
fn is_equal_word(text: &[u8]) -> bool
    ensures { result ≡ is_equal_word text.now }
{
    match text {
        [] => false,
        [b, rest @ ..] => *b == b'=' && !holds_sign_or_equals(rest),
    }
}

// What a space parts from the name.
#[tactic(auto, unfolding(crate::specs::Reading::spaced_read))]
fn spaced(alloc: Global, places: &Places, text: &str) -> Result<VersionAndBuild, SpecErr>
    ensures read { Gives spec_fault_of result (spaced_read (stood places.now) text.now) }
    ensures good { IfOk result IsVersionAndBuild }
{
    match cut_first(text, b' ') {
        None => words(alloc, places, text),
        Some((first, rest)) => {
            if is_equal_word(first.as_bytes()) {
                let clause = equal_at(alloc, places, 1, behind(first, b'='))?;
                let build = build_word(alloc, places, first.len() + 1, rest)?;
                Ok((Some(clause), Some(build)))
            } else {
                words(alloc, places, text)
            }
        }
    }
}

// How many `=` such a word begins with, two at most, and what stands behind them.
fn behind_lead(word: &str) -> (usize, &str)
    requires { begins_with 61 word.now ≡ true }
    ensures lead { result.0 ≡ lead_of word.now }
    ensures rest { result.1.now ≡ drop (lead_of word.now) word.now }
    ensures within { result.0 + length result.1.now ≡ length word.now }
{
    let rest = behind(word, b'=');
    if begins_with(rest, b'=') {
        (2, behind(rest, b'='))
    } else {
        (1, rest)
    }
}

// The version of such a word.
fn version_of(word: &str) -> &str
    requires { begins_with 61 word.now ≡ true }
    ensures { result.now ≡ version_of word.now }
{
    let (_, rest) = behind_lead(word);
    match cut_first(rest, b'=') {
        None => rest,
        Some((version, _)) => version,
    }
}

// The version clause of `=V=B` or `==V=B`.
fn joined_clause(
    alloc: Global,
    places: &Places,
    lead: usize,
    version: &str,
) -> Result<VersionClause, SpecErr>
    ensures read { Gives spec_fault_of result (if lead == 1 then equal_at (stood places.now) 1 version.now else clause_at (stood places.now) 0 0 (codes "==" ++ version.now)) }
    ensures good { IfOk result IsGoodClause }
{
    if lead == 1 {
        equal_at(alloc, places, 1, version)
    } else {
        let text = format!(in alloc; "=={version}")?;
        clause_at(alloc, places, 0, 0, text.as_str())
    }
}

// `=V`, `==V`, `=V=B` or `==V=B`.
#[tactic(auto, unfolding(crate::specs::Reading::joined_read))]
fn joined(alloc: Global, places: &Places, word: &str) -> Result<VersionAndBuild, SpecErr>
    requires { begins_with 61 word.now ≡ true }
    ensures read { Gives spec_fault_of result (joined_read (stood places.now) word.now) }
    ensures good { IfOk result IsVersionAndBuild }
{
    let (lead, rest) = behind_lead(word);
    match cut_first(rest, b'=') {
        None => Ok((Some(clause_at(alloc, places, 0, 0, word)?), None)),
        Some((version, build)) => {
            let clause = joined_clause(alloc, places, lead, version)?;
            let build = build_at(alloc, places.of(lead + version.len() + 1), build)?;
            Ok((Some(clause), Some(build)))
        }
    }
}

// What begins with `=` directly behind the name.
#[tactic(auto, unfolding(crate::specs::Reading::equals_read))]
fn equals(alloc: Global, places: &Places, text: &str) -> Result<VersionAndBuild, SpecErr>
    requires { begins_with 61 text.now ≡ true }
    ensures read { Gives spec_fault_of result (equals_read (stood places.now) text.now) }
    ensures good { IfOk result IsVersionAndBuild }
{
    match cut_first(text, b' ') {
        None => {
            if holds_sign(version_of(text).as_bytes()) {
                words(alloc, places, text)
            } else {
                joined(alloc, places, text)
            }
        }
        Some((word, _)) => {
            if holds_sign(version_of(word).as_bytes()) {
                words(alloc, places, text)
            } else {
                let _wanted = joined(alloc, places, word)?;
                Err(fault(places.of(word.len() + 1), SpecWhy::Words))
            }
        }
    }
}

// The characters that stay of what follows a name.
#[tactic(auto, unfolding(crate::specs::Reading::wanted_read))]
fn wanted(
    alloc: Global,
    places: &Places,
    spaced_off: bool,
    text: &str,
) -> Result<VersionAndBuild, SpecErr>
    ensures read { Gives spec_fault_of result (wanted_read (stood places.now) spaced_off text.now) }
    ensures good { IfOk result IsVersionAndBuild }
{
    match text.as_bytes() {
        [] => Ok((None, None)),
        [b, ..] => {
            if is_joint(*b) {
                Err(fault(places.of(0), SpecWhy::Words))
            } else if spaced_off {
                spaced(alloc, places, text)
            } else if *b == b'=' {
                equals(alloc, places, text)
            } else if is_comparison(*b) {
                words(alloc, places, text)
            } else {
                Err(fault(places.of(0), SpecWhy::Words))
            }
        }
    }
}

/// What follows a name, from a place on.
#[tactic(auto, unfolding(crate::specs::Reading::followed_read))]
pub fn followed(alloc: Global, at: usize, text: &str) -> Result<VersionAndBuild, SpecErr>
    requires { at + length text.now < 18446744073709551616 }
    ensures read { Gives spec_fault_of result (followed_read at text.now) }
    ensures good { IfOk result IsVersionAndBuild }
{
    let stayed = stay(alloc, at, text)?;
    wanted(
        alloc,
        &stayed.places,
        begins_with(text, b' '),
        stayed.text.as_str(),
    )
}
