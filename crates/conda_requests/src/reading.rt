ghost use Rattle.std.specs.Prelude.{◌≡◌, IfOk, IfSome};
ghost use Rattle.std.specs.List.{All};
ghost use Rattle.conda_base.specs.Reads.{Gives};
ghost use Rattle.conda_encode.specs.Variables.{IsPlain};
ghost use Rattle.conda_requests.specs.Words as word_specs;
ghost use Rattle.conda_requests.specs.Words.{plain_read, plain_words_read, word_fault_of, word_read};
ghost use Rattle.conda_version.specs.Text as version_text;

use crate::error::WordErr;
use conda_base::{Rows, Text};
use conda_spec::{Spec, SpecErr, SpecWhy};
use conda_version::trimmed;
use std::alloc::Global;

/// What is answered of a word with this fault.
fn bad_word(alloc: Global, word: &str, at: u64, why: SpecWhy) -> WordErr
    ensures { IfSome (word_fault_of result) (λ fault.
        fault ≡ record { text = word.now; at = at; why = why }) }
{
    match Text::from_str(alloc, word) {
        Ok(text) => WordErr::BadSpec { text, at, why },
        Err(_) => WordErr::Memory,
    }
}

/// Reads a word as a specification, in whose name a star may stand.
///
/// `BadSpec` names the first fault of the word.
pub fn read_spec(alloc: Global, word: &str) -> Result<Spec, WordErr>
    ensures { Gives word_fault_of result (word_read word.now) }
{
    match Spec::read(alloc, word) {
        Ok(spec) => Ok(spec),
        Err(SpecErr::BadSpec { at, why }) => Err(bad_word(alloc, word, at as u64, why)),
        Err(SpecErr::Memory) => Err(WordErr::Memory),
    }
}

/// Where a specification has its name, in bytes of the word without the spaces at its ends.
fn name_place(word: &str) -> u64
    ensures { result ≡ word_specs.name_place (version_text.trimmed word.now) }
{
    match trimmed(word).split_once("::") {
        Some((channel, _)) => channel.len() as u64 + 2,
        None => 0,
    }
}

/// Reads a word as a specification without a star in its name.
fn read_plain(alloc: Global, word: &str) -> Result<Spec, WordErr>
    ensures read { Gives word_fault_of result (plain_read word.now) }
    ensures plain { IfOk result IsPlain }
{
    let spec = read_spec(alloc, word)?;
    if spec.has_glob() {
        return Err(bad_word(alloc, word, name_place(word), SpecWhy::Glob));
    }
    Ok(spec)
}

/// Reads words as specifications, without a star in a name.
///
/// `BadSpec` names the first fault of the first word that has one; for a star it names the place
/// where the name begins.
pub fn read_specs(alloc: Global, words: &[Text]) -> Result<Rows<Spec>, WordErr>
    ensures read { Gives word_fault_of result (plain_words_read words.now) }
    ensures plain { IfOk result (λ specs. All IsPlain specs) }
{
    let mut specs = Rows::from_vec(Vec::with_capacity(alloc, words.len())?);
    for word in words {
        let spec = read_plain(alloc, word.as_str())?;
        specs.push(spec)?;
    }
    Ok(specs)
}
