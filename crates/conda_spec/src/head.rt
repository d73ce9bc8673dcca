ghost use Rattle.std.specs.Prelude.{◌≡◌, ◌+◌, ◌<◌, ◌≤◌, IfOk, drop, length, map};
ghost use Rattle.std.specs.Char.{to_ascii_lowercase};
ghost use Rattle.std.specs.List.{before_first, position_or_len};
ghost use Rattle.conda_base.specs.Reads.{Gives};
ghost use Rattle.conda_clause.specs.Faults.{spec_fault_of};
ghost use Rattle.conda_spec.specs.Good.{IsGoodFront, IsGoodGiven};
ghost use Rattle.conda_spec.specs.Parts.{ends_name, is_name_char};
ghost use Rattle.conda_spec.specs.Reading.{channel_read, front_read, name_read};

use crate::cuts::cut_colons;
use crate::follow::followed;
use crate::given::{Given, nothing, with_wanted};
use crate::values::{channel_at, fault, is_one_of};
use conda_base::{Text, cut_first};
use conda_clause::{SpecErr, SpecWhy};
use std::alloc::{AllocError, Global};

/// A name, and what is given before the brackets.
pub type Front = (Text, Given);

fn is_name_char(b: u8) -> bool
    ensures { result ≡ is_name_char b }
{
    b.is_ascii_digit() || b.is_ascii_lowercase() || is_one_of(b"_-.*", b)
}

fn ends_name(b: u8) -> bool
    ensures { result ≡ ends_name b }
{
    !is_name_char(b.to_ascii_lowercase())
}

// How many characters the name has.
fn name_len(text: &[u8]) -> usize
    ensures { result ≡ position_or_len ends_name text.now }
{
    for (at, b) in text.iter().enumerate() {
        if ends_name(*b) {
            return at;
        }
    }
    text.len()
}

// The name as it is written, and what follows it.
fn name_cut(text: &str) -> (&str, &str)
    ensures name { result.0.now ≡ before_first ends_name text.now }
    ensures rest { result.1.now ≡ drop (position_or_len ends_name text.now) text.now }
    ensures len { length result.0.now ≡ position_or_len ends_name text.now }
    ensures within { length result.0.now + length result.1.now ≡ length text.now }
{
    text.split_at(name_len(text.as_bytes()))
}

fn lowered(alloc: Global, text: &str) -> Result<Text, AllocError>
    ensures { IfOk result (λ t. t ≡ map to_ascii_lowercase text.now) }
{
    Ok(Text::from_string(text.to_ascii_lowercase(alloc)?))
}

// A name and what follows it, from a place on.
#[tactic(auto, unfolding(crate::specs::Reading::name_read))]
fn named(alloc: Global, given: Given, at: usize, text: &str) -> Result<Front, SpecErr>
    requires room { at + length text.now < 18446744073709551616 }
    requires good { IsGoodGiven given }
    ensures read { Gives spec_fault_of result (name_read given at text.now) }
    ensures good { IfOk result IsGoodFront }
{
    let (name, rest) = name_cut(text);
    if name.len() == 0 {
        return Err(fault(at, SpecWhy::Name));
    }
    let wanted = followed(alloc, at + name.len(), rest)?;
    let name = lowered(alloc, name)?;
    Ok((name, with_wanted(given, wanted)))
}

// A channel, or a channel and a subdir round the first `/`.
#[tactic(auto, unfolding(crate::specs::Reading::channel_read))]
fn channel(alloc: Global, text: &str) -> Result<Given, SpecErr>
    ensures read { Gives spec_fault_of result (channel_read text.now) }
    ensures good { IfOk result IsGoodGiven }
{
    let mut given = nothing();
    match cut_first(text, b'/') {
        None => {
            given.channel = Some(channel_at(alloc, 0, text)?);
            Ok(given)
        }
        Some((channel, subdir)) => {
            given.channel = Some(channel_at(alloc, 0, channel)?);
            given.subdir = Some(channel_at(alloc, 0, subdir)?);
            Ok(given)
        }
    }
}

/// What stands before the brackets.
#[tactic(auto, unfolding(crate::specs::Reading::front_read))]
pub fn front(alloc: Global, text: &str) -> Result<Front, SpecErr>
    ensures read { Gives spec_fault_of result (front_read text.now) }
    ensures good { IfOk result IsGoodFront }
{
    match cut_colons(text) {
        None => named(alloc, nothing(), 0, text),
        Some((before, rest)) => {
            let given = channel(alloc, before)?;
            named(alloc, given, before.len() + 2, rest)
        }
    }
}
