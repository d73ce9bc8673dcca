ghost use Rattle.std.specs.Prelude.{◌≡◌, MatchOption, None, Some};
ghost use Rattle.conda_cli.specs.Runs.{listed, revised, searched, waits};

use conda_path::Prefix;
use conda_words::{Command, Verb};

/// The prefix that a command lists, where it is `list -p PREFIX`. It takes no memory.
pub fn listed(command: &Command) -> Option<&Prefix>
    ensures { MatchOption result (listed command.now.verb command.now.prefixes ≡ None)
        (λ prefix. listed command.now.verb command.now.prefixes ≡ Some prefix.now) }
{
    match (command.verb, command.prefixes.as_slice()) {
        (Verb::List, [prefix]) => Some(prefix),
        _ => None,
    }
}

/// The prefix whose revisions a command lists, where it is `list --revisions -p PREFIX`. It takes no
/// memory.
pub fn revised(command: &Command) -> Option<&Prefix>
    ensures { MatchOption result (revised command.now.verb command.now.prefixes ≡ None)
        (λ prefix. revised command.now.verb command.now.prefixes ≡ Some prefix.now) }
{
    match (command.verb, command.prefixes.as_slice()) {
        (Verb::Revisions, [prefix]) => Some(prefix),
        _ => None,
    }
}

/// The word that a command searches for, where it is `search SPEC`. It takes no memory.
pub fn searched(command: &Command) -> Option<&str>
    ensures { MatchOption result (searched command.now.verb command.now.words ≡ None)
        (λ word. searched command.now.verb command.now.words ≡ Some word.now) }
{
    match (command.verb, command.words.as_slice()) {
        (Verb::Search, [word]) => Some(word.as_str()),
        _ => None,
    }
}

/// Whether a command runs in several threads, which wait for one another. It takes no memory.
pub fn waits(verb: Verb) -> bool
    ensures { result ≡ waits verb }
{
    matches!(verb, Verb::Batch | Verb::Exercise(_))
}
