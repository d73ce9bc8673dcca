ghost use Rattle.std.specs.Prelude.{◌≡◌, IfOk, map, string_bytes};
ghost use Rattle.conda_base.specs.Reads.{Gives};
ghost use Rattle.conda_words.specs.Reading.{words_fault_of, words_read};

use crate::command::Command;
use crate::error::{Why, WordsErr};
use crate::reading::read_command;
use conda_base::{Rows, Text};
use std::alloc::{AllocError, Global};

fn texts_of(alloc: Global, words: &[String]) -> Result<Vec<Text>, AllocError>
    ensures { IfOk result (λ made. made.items ≡ map string_bytes words.now) }
{
    let mut made = Vec::new(alloc);
    for word in words {
        let text = Text::from_str(alloc, word.as_str())?;
        made.push(text)?;
    }
    Ok(made)
}

#[tactic(auto, unfolding(crate::specs::Reading::words_read))]
fn read_texts(alloc: Global, words: &[Text]) -> Result<Command, WordsErr>
    ensures { Gives words_fault_of result (words_read words.now) }
{
    match read_command(alloc, None, Rows::new(alloc), None, words) {
        Ok(reading) => match reading.nested {
            Some(at) => Err(WordsErr::Usage {
                at: at as u64,
                why: Why::Nested,
            }),
            None => Ok(reading.command),
        },
        Err(e) => Err(e),
    }
}

/// Reads the words of a command line: a subcommand, then its options and words in any order.
///
/// Fails with the number of the first offending word, from 0, and why; where something is missing, with the number
/// of words; then where a prefix lies inside or round another. Fails where memory runs out, too.
pub fn read_words(alloc: Global, words: &[String]) -> Result<Command, WordsErr>
    ensures { Gives words_fault_of result (words_read (map string_bytes words.now)) }
{
    let texts = texts_of(alloc, words)?;
    read_texts(alloc, texts.as_slice())
}
