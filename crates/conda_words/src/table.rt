ghost use Rattle.std.specs.Prelude.{◌≡◌, IfNone, MatchOption, option_map};
ghost use Rattle.conda_words.specs.Table as table;

use crate::command::Verb;

/// What an item of a line is: a plain word, an option, or a word that is neither.
#[derive(Clone, Copy, Debug, PartialEq, Eq)]
pub enum Kind {
    /// A word that is no option.
    Word,
    /// `-p PREFIX`
    Prefix,
    /// `-c NAME`
    Channel,
    /// `--channels DIR`
    ChannelDir,
    /// `--pkgs DIR`
    PkgsDir,
    /// `--jobs N`
    Jobs,
    /// `--virtual NAME=VERSION`
    Virtual,
    /// `--revision N`
    Revision,
    /// `--revisions`
    Revisions,
    /// `--copy`
    Copy,
    /// A word that begins with `-` and is no option of the subcommand.
    Strange,
}

/// Which plain words a subcommand takes.
#[derive(Clone, Copy, Debug, PartialEq, Eq)]
pub enum Words {
    /// None.
    Nothing,
    /// One.
    One,
    /// 1 to 256.
    Many,
    /// One that is a number, 1 to 200.
    Number,
}

/// Where a subcommand stands.
#[derive(Clone, Copy, Debug, PartialEq, Eq)]
pub enum Place {
    /// On the command line.
    Shell,
    /// In a script.
    Script,
    /// On both.
    Both,
}

/// What a subcommand does and takes.
#[derive(Clone, Copy, Debug)]
pub struct Row {
    pub verb: Verb,
    pub place: Place,
    pub words: Words,
    /// It takes the options that say where packages come from.
    pub sources: bool,
    /// The other options that it takes.
    pub options: &'static [Kind],
}

/// The options that say where packages come from.
const SOURCES: &[Kind] = &[
    Kind::Channel,
    Kind::ChannelDir,
    Kind::PkgsDir,
    Kind::Jobs,
    Kind::Virtual,
];

/// The options that have a value. The long ones may have it behind `=`.
const LONG: &[Kind] = &[
    Kind::ChannelDir,
    Kind::PkgsDir,
    Kind::Jobs,
    Kind::Virtual,
    Kind::Revision,
];

const SHORT: &[Kind] = &[Kind::Prefix, Kind::Channel];

/// What may stand again and again.
const REPEATING: &[Kind] = &[Kind::Word, Kind::Channel, Kind::Virtual];

fn taken(
    verb: Verb,
    place: Place,
    words: Words,
    sources: bool,
    options: &'static [Kind],
) -> Option<Row>
    ensures { option_map table.seen result ≡ Some (table.row verb place words sources options.now) }
{
    Some(Row {
        verb,
        place,
        words,
        sources,
        options,
    })
}

/// The table of the subcommands.
fn named_row(word: &str) -> Option<Row>
    ensures { option_map table.seen result ≡ table.named_in word.now table.subcommands }
{
    use Kind::{Copy, Jobs, Prefix, Revision, Revisions};
    use Place::{Both, Script, Shell};
    use Words::{Many, Nothing, Number, One};
    match word {
        "list" => taken(Verb::List, Both, Nothing, false, &[Prefix, Revisions]),
        "search" => taken(Verb::Search, Both, One, true, &[]),
        "solve" => taken(Verb::Solve, Shell, Many, true, &[]),
        "refute" => taken(Verb::Refute, Shell, Nothing, false, &[]),
        "create" => taken(Verb::Create, Both, Many, true, &[Prefix, Copy]),
        "install" => taken(Verb::Install, Both, Many, true, &[Prefix, Copy, Revision]),
        "update" => taken(Verb::Update, Both, Many, true, &[Prefix, Copy]),
        "remove" => taken(Verb::Remove, Both, Many, true, &[Prefix, Copy]),
        "clean" => taken(Verb::Clean, Both, Nothing, true, &[Prefix]),
        "batch" => taken(Verb::Batch, Shell, Nothing, true, &[Copy]),
        "exercise" => taken(Verb::Exercise(0), Shell, Number, false, &[Jobs]),
        "repair" => taken(Verb::Repair, Script, Nothing, false, &[Prefix]),
        _ => None,
    }
}

/// The table of the options.
fn option_of(word: &str) -> Kind
    ensures { result ≡ table.option_of word.now }
{
    match word {
        "-p" => Kind::Prefix,
        "-c" => Kind::Channel,
        "--channels" => Kind::ChannelDir,
        "--pkgs" => Kind::PkgsDir,
        "--jobs" => Kind::Jobs,
        "--virtual" => Kind::Virtual,
        "--revision" => Kind::Revision,
        "--revisions" => Kind::Revisions,
        "--copy" => Kind::Copy,
        _ => Kind::Strange,
    }
}

fn contains(kinds: &[Kind], kind: Kind) -> bool
    ensures { result ≡ table.has kinds.now kind }
{
    kinds.iter().any(|k| kind == *k)
}

/// The row of a subcommand, where it stands in scripts or on the command line. In a script it takes no sources.
pub fn row_of(script: bool, word: &str) -> Option<Row>
    ensures { option_map table.seen result ≡ table.subcommand_of script word.now }
{
    let row = named_row(word)?;
    match (row.place, script) {
        (Place::Both, false) | (Place::Shell, false) => Some(row),
        (Place::Both, true) | (Place::Script, true) => Some(Row {
            sources: false,
            ..row
        }),
        (Place::Shell, true) | (Place::Script, false) => None,
    }
}

/// The option of a subcommand that a word spells.
pub fn own_option(row: Row, word: &str) -> Kind
    ensures { result ≡ table.own_option (table.seen row) word.now }
{
    let kind = option_of(word);
    if contains(row.options, kind) || row.sources && contains(SOURCES, kind) {
        kind
    } else {
        Kind::Strange
    }
}

/// Whether an option may have its value behind `=`.
pub fn is_long(kind: Kind) -> bool
    ensures { result ≡ table.is_long kind }
{
    contains(LONG, kind)
}

/// Whether an option has a value.
pub fn has_value(kind: Kind) -> bool
    ensures { result ≡ table.has_value kind }
{
    contains(SHORT, kind) || contains(LONG, kind)
}

/// Whether a command of this verb runs in one environment, so that it has one prefix.
pub fn has_one_prefix(verb: Verb) -> bool
    ensures { result ≡ table.has_one_prefix verb }
{
    match verb {
        Verb::Search | Verb::Solve | Verb::Refute | Verb::Clean | Verb::Batch | Verb::Exercise(_) =>
            false,
        Verb::List
        | Verb::Revisions
        | Verb::Create
        | Verb::Install
        | Verb::Revert(_)
        | Verb::Update
        | Verb::Remove
        | Verb::Repair => true,
    }
}

/// Whether a subcommand takes this again and again.
pub fn repeats(row: Row, kind: Kind) -> bool
    ensures { result ≡ table.repeats (table.seen row) kind }
{
    contains(REPEATING, kind) || kind == Kind::Prefix && !has_one_prefix(row.verb)
}

/// The fewest plain words.
pub fn least(words: Words) -> usize
    ensures { result ≡ table.least words }
{
    match words {
        Words::Nothing => 0,
        Words::One | Words::Many | Words::Number => 1,
    }
}

/// The most plain words.
pub fn most(words: Words) -> usize
    ensures { result ≡ table.most words }
{
    match words {
        Words::Nothing => 0,
        Words::One | Words::Number => 1,
        Words::Many => 256,
    }
}
