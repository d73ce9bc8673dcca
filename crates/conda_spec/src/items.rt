ghost use Rattle.std.specs.Prelude.{◌≡◌, ◌==◌, ◌+◌, ◌<◌, [], ◌∷◌, IfOk, IfSome, MatchOption, None, length, slice_index};
ghost use Rattle.std.specs.List.{list_any};
ghost use Rattle.std.specs.Option.{option_map};
ghost use Rattle.conda_base.specs.Texts.{is_byte};
ghost use Rattle.conda_base.specs.Numbers.{digits_below};
ghost use Rattle.conda_base.specs.Reads.{Gives};
ghost use Rattle.conda_clause.specs.Faults.{spec_fault_of};
ghost use Rattle.conda_spec.specs.Good.{IsGoodClause, IsGoodGiven};
ghost use Rattle.conda_spec.specs.Parts as parts;
ghost use Rattle.conda_spec.specs.Reading as reading;
ghost use Rattle.conda_spec.specs.Parts.{bars_bare, is_quote};
ghost use Rattle.conda_spec.specs.Reading.{clause_value, has_key, item_end, item_read, items_of, items_read, key_of, number_or, put, quote_behind, value_of};

use crate::cuts::{behind, without_last};
use crate::given::{Given, ItemKey, nothing};
use crate::stay::stay;
use crate::values::{build_at, channel_at, clause_at, fault};
use conda_base::{cut_first, digits_u64};
use conda_clause::{SpecErr, SpecWhy, VersionClause};
use std::alloc::Global;

fn is_quote(b: u8) -> bool
    ensures { result ≡ is_quote b }
{
    b == b'\'' || b == b'"'
}

// The quote in which the next character stands.
fn quote_behind(quote: Option<u8>, b: u8) -> Option<u8>
    ensures { result ≡ quote_behind quote b }
{
    match quote {
        None => { if is_quote(b) { Some(b) } else { None } }
        Some(quote) => { if b == quote { None } else { Some(quote) } }
    }
}

// `,` in no quotes.
fn ends_item(quote: Option<u8>, b: u8) -> bool
    ensures { result ≡ reading.ends_item quote b }
{
    match quote {
        None => b == b',',
        Some(_) => false,
    }
}

// The place of the first `,` in no quotes.
fn item_end(text: &[u8]) -> Option<usize>
    ensures { result ≡ item_end 0 None text.now }
{
    let mut quote = None;
    for (at, b) in text.iter().enumerate() {
        if ends_item(quote, *b) {
            return Some(at);
        }
        quote = quote_behind(quote, *b);
    }
    None
}

// The first item, and what stands behind the `,` at its end, where there is one.
fn item_cut(text: &str) -> Option<(&str, &str)>
    ensures items { MatchOption result (items_of None text.now ≡ text.now ∷ []) (λ x. items_of None text.now ≡ x.0.now ∷ items_of None x.1.now) }
    ensures len { IfSome result (λ x. length x.0.now + length x.1.now + 1 ≡ length text.now) }
{
    match item_end(text.as_bytes()) {
        None => None,
        Some(at) => Some((&text[..at], &text[at + 1..])),
    }
}

fn key_of(text: &str) -> Option<ItemKey>
    ensures { result ≡ key_of text.now }
{
    match text {
        "version" => Some(ItemKey::Version),
        "build" => Some(ItemKey::Build),
        "build_number" => Some(ItemKey::BuildNumber),
        "channel" => Some(ItemKey::Channel),
        "subdir" => Some(ItemKey::Subdir),
        _ => None,
    }
}

fn holds(b: u8, text: &[u8]) -> bool
    ensures { result ≡ list_any (is_byte b) text.now }
{
    text.contains(&b)
}

fn holds_barred(text: &[u8]) -> bool
    ensures { result ≡ list_any bars_bare text.now }
{
    text.iter()
        .any(|b| is_quote(*b) || *b == b',' || *b == b']')
}

// A value in quotes, of which the first is known.
fn quoted(text: &str, quote: u8) -> Option<&str>
    requires quote { quote < 128 }
    ensures value { option_map (λ x. x.now) result ≡ reading.quoted quote text.now }
    ensures len { IfSome result (λ x. length x.now + 1 ≡ length text.now) }
{
    let value = without_last(text, char::from(quote))?;
    if holds(quote, value.as_bytes()) {
        None
    } else {
        Some(value)
    }
}

// A value as it is written from a place on: its place, and the value.
fn value_of(at: usize, text: &str) -> Option<(usize, &str)>
    requires { at + length text.now < 18446744073709551616 }
    ensures value { option_map (λ x. (x.0, x.1.now)) result ≡ value_of at text.now }
    ensures within { IfSome result (λ x. x.0 + length x.1.now < 18446744073709551616) }
{
    match text.as_bytes() {
        [] => Some((at, text)),
        [b, ..] => {
            if is_quote(*b) {
                let value = quoted(behind(text, *b), *b)?;
                Some((at + 1, value))
            } else if holds_barred(text.as_bytes()) {
                None
            } else {
                Some((at, text))
            }
        }
    }
}

fn has_key(given: &Given, key: ItemKey) -> bool
    ensures { result ≡ has_key given.now key }
{
    match key {
        ItemKey::Version => given.version.is_some(),
        ItemKey::Build => given.build.is_some(),
        ItemKey::BuildNumber => given.number.is_some(),
        ItemKey::Channel => given.channel.is_some(),
        ItemKey::Subdir => given.subdir.is_some(),
    }
}

#[tactic(auto, unfolding(crate::specs::Reading::clause_value))]
fn clause_value(alloc: Global, at: usize, text: &str) -> Result<VersionClause, SpecErr>
    requires { at + length text.now < 18446744073709551616 }
    ensures read { Gives spec_fault_of result (clause_value at text.now) }
    ensures good { IfOk result IsGoodClause }
{
    let stayed = stay(alloc, at, text)?;
    clause_at(alloc, &stayed.places, 0, 0, stayed.text.as_str())
}

fn number_at(at: usize, text: &str) -> Result<u64, SpecErr>
    ensures { Gives spec_fault_of result (number_or at (digits_below 18446744073709551616 text.now)) }
{
    match digits_u64(text.as_bytes()) {
        Some(n) => Ok(n),
        None => Err(fault(at, SpecWhy::Key)),
    }
}

// The value of an item that begins at the first place, which itself stands at the other.
#[tactic(auto, unfolding(crate::specs::Reading::put))]
fn put(
    alloc: Global,
    given: Given,
    key: ItemKey,
    at: usize,
    place: usize,
    text: &str,
) -> Result<Given, SpecErr>
    requires room { place + length text.now < 18446744073709551616 }
    requires good { IsGoodGiven given }
    ensures read { Gives spec_fault_of result (put given key at (place, text.now)) }
    ensures good { IfOk result IsGoodGiven }
{
    let mut given = given;
    match key {
        ItemKey::Version => given.version = Some(clause_value(alloc, place, text)?),
        ItemKey::Build => given.build = Some(build_at(alloc, place, text)?),
        ItemKey::BuildNumber => given.number = Some(number_at(at, text)?),
        ItemKey::Channel => given.channel = Some(channel_at(alloc, place, text)?),
        ItemKey::Subdir => given.subdir = Some(channel_at(alloc, place, text)?),
    }
    Ok(given)
}

// An item that begins at a place, behind what is given before.
#[tactic(auto, unfolding(crate::specs::Reading::item_read))]
fn item(alloc: Global, given: Given, at: usize, text: &str) -> Result<Given, SpecErr>
    requires room { at + length text.now < 18446744073709551616 }
    requires good { IsGoodGiven given }
    ensures read { Gives spec_fault_of result (item_read given at text.now) }
    ensures good { IfOk result IsGoodGiven }
{
    let Some((key, value)) = cut_first(text, b'=') else {
        return Err(fault(at, SpecWhy::Key));
    };
    let Some((place, value)) = value_of(at + key.len() + 1, value) else {
        return Err(fault(at, SpecWhy::Key));
    };
    match key_of(key) {
        Some(key) => {
            if has_key(&given, key) {
                return Err(fault(at, SpecWhy::Key));
            }
            put(alloc, given, key, at, place, value)
        }
        None => Err(fault(at, SpecWhy::Key)),
    }
}

/// The items in the brackets, of which the first begins at a place.
pub fn items(alloc: Global, start: usize, text: &str) -> Result<Given, SpecErr>
    requires { start + length text.now < 18446744073709551616 }
    ensures read { Gives spec_fault_of result (items_read parts.nothing start (items_of None text.now)) }
    ensures good { IfOk result IsGoodGiven }
{
    let mut given = nothing();
    let mut at = start;
    let mut left = text;
    while let Some((first, rest)) = item_cut(left) {
        match item(alloc, given, at, first) {
            Ok(next) => given = next,
            Err(e) => return Err(e),
        }
        at = at + first.len() + 1;
        left = rest;
    }
    item(alloc, given, at, left)
}
