ghost use Rattle.std.specs.Prelude.{◌≡◌, ◌==◌, ◌++◌, ◌<◌, IfOk, codes, nat_lt, string_bytes, true};
ghost use Rattle.std.specs.List.{list_any};
ghost use Rattle.conda_base.specs.Signs.{star};
ghost use Rattle.conda_base.specs.Texts.{ends_with};
ghost use Rattle.conda_base.specs.Reads.{Gives};
ghost use Rattle.conda_clause.specs.Faults.{spec_fault_of};
ghost use Rattle.conda_spec.specs.Good.{IsGoodClause, stood};
ghost use Rattle.conda_clause.specs.Spaces.{is_one_of};
ghost use Rattle.conda_spec.specs.Parts.{IsFreeWord, bars_build, bars_channel};
ghost use Rattle.conda_spec.specs.Reading.{build_at, channel_at, clause_at, equal_at, is_free};

use crate::places::Places;
use conda_base::Text;
use conda_clause::{SpecErr, SpecWhy, VersionClause};
use std::alloc::Global;

/// Whether a byte is one of these.
pub fn is_one_of(signs: &[u8], b: u8) -> bool
    ensures { result ≡ is_one_of signs.now b }
{
    signs.iter().any(|sign| *sign == b)
}

pub fn fault(at: usize, why: SpecWhy) -> SpecErr
    ensures { result ≡ SpecErr.BadSpec at why }
{
    SpecErr::BadSpec { at, why }
}

// Whether a text holds one of these.
fn holds_one_of(signs: &[u8], text: &[u8]) -> bool
    ensures { result ≡ list_any (is_one_of signs.now) text.now }
{
    text.iter().any(|b| is_one_of(signs, *b))
}

// Not empty, and of none of these.
fn is_free(barred: &[u8], text: &[u8]) -> bool
    ensures value { result ≡ is_free (is_one_of barred.now) text.now }
    ensures good { result ≡ true → IsFreeWord (is_one_of barred.now) text.now }
{
    0 < text.len() && !holds_one_of(barred, text)
}

/// A channel or a subdir.
#[tactic(auto, unfolding(crate::specs::Reading::channel_at))]
pub fn channel_at(alloc: Global, at: usize, text: &str) -> Result<Text, SpecErr>
    ensures read { Gives spec_fault_of result (channel_at at text.now) }
    ensures good { IfOk result (IsFreeWord bars_channel) }
{
    if !is_free(b" '\",[]:/", text.as_bytes()) {
        return Err(fault(at, SpecWhy::Channel));
    }
    Ok(Text::from_str(alloc, text)?)
}

#[tactic(auto, unfolding(crate::specs::Reading::build_at))]
pub fn build_at(alloc: Global, at: usize, text: &str) -> Result<Text, SpecErr>
    ensures read { Gives spec_fault_of result (build_at at text.now) }
    ensures good { IfOk result (IsFreeWord bars_build) }
{
    if !is_free(b" '\",|:[]", text.as_bytes()) {
        return Err(fault(at, SpecWhy::Build));
    }
    Ok(Text::from_str(alloc, text)?)
}

/// A version clause that begins at a place of the characters that stay, behind some that are added.
#[tactic(auto, unfolding(crate::specs::Reading::clause_at))]
pub fn clause_at(
    alloc: Global,
    places: &Places,
    start: usize,
    added: usize,
    text: &str,
) -> Result<VersionClause, SpecErr>
    ensures read { Gives spec_fault_of result (clause_at (stood places.now) start added text.now) }
    ensures good { IfOk result IsGoodClause }
{
    match VersionClause::of_kept(alloc, text) {
        Ok(clause) => Ok(clause),
        Err(SpecErr::BadSpec { at, why }) => Err(fault(
            places.behind(start, at.saturating_sub(added)),
            why,
        )),
        Err(SpecErr::Memory) => Err(SpecErr::Memory),
    }
}

fn ends_with_star(text: &str) -> bool
    ensures { result ≡ ends_with star text.now }
{
    match text.as_bytes().last() {
        Some(b) => *b == b'*',
        None => false,
    }
}

/// "Equal to V": V itself where it ends with a star, else `==V`.
#[tactic(auto, unfolding(crate::specs::Reading::equal_at))]
pub fn equal_at(
    alloc: Global,
    places: &Places,
    start: usize,
    version: &str,
) -> Result<VersionClause, SpecErr>
    ensures read { Gives spec_fault_of result (equal_at (stood places.now) start version.now) }
    ensures good { IfOk result IsGoodClause }
{
    if ends_with_star(version) {
        return clause_at(alloc, places, start, 0, version);
    }
    let text = format!(in alloc; "=={version}")?;
    clause_at(alloc, places, start, 2, text.as_str())
}
