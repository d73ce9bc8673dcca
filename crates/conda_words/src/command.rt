ghost use Rattle.std.specs.Prelude.{◌≡◌, IfOk};

use conda_base::{Copied, Rows, Text};
use conda_path::Prefix;
use std::alloc::AllocError;

/// What a command does.
#[derive(Clone, Copy, Debug, PartialEq, Eq)]
pub enum Verb {
    /// `list`
    List,
    /// `list --revisions`
    Revisions,
    /// `search`
    Search,
    /// `solve`
    Solve,
    /// `refute`
    Refute,
    /// `create`
    Create,
    /// `install`
    Install,
    /// `install --revision N`, with the number of the revision.
    Revert(u32),
    /// `update`
    Update,
    /// `remove`
    Remove,
    /// `clean`
    Clean,
    /// `batch`
    Batch,
    /// `exercise N`, with the number.
    Exercise(u32),
    /// `repair`, which stands in scripts alone.
    Repair,
}

/// The name of a virtual package, as it was given, and its version, without spaces at its ends.
#[derive(Clone, Debug, PartialEq, Eq, Drop)]
pub struct Virtual {
    pub name: Text,
    pub version: Text,
}

/// A command with its options and words.
#[derive(Debug, PartialEq, Eq, Drop)]
pub struct Command {
    pub verb: Verb,
    /// The prefixes that `-p` gives, in order.
    pub prefixes: Rows<Prefix>,
    /// The names of channels that `-c` gives, in order.
    pub channels: Rows<Text>,
    /// The folder of the channels.
    pub channel_dir: Text,
    /// The folder of the shared cache.
    pub pkgs_dir: Text,
    /// How many threads may work at once.
    pub jobs: u32,
    /// The virtual packages that `--virtual` gives, in order. Of two of one name the later one counts.
    pub virtuals: Rows<Virtual>,
    /// Whether files are copied and never linked.
    pub copy: bool,
    /// The specifications or names, in order.
    pub words: Rows<Text>,
}

/// The lists of a command: prefixes, channels, virtual packages and words.
type Lists = (Rows<Prefix>, Rows<Text>, Rows<Virtual>, Rows<Text>);

impl Command {
    /// Equal lists.
    fn lists(&self) -> Result<Lists, AllocError>
        ensures { IfOk result (λ made. made
            ≡ (self.now.prefixes, self.now.channels, self.now.virtuals, self.now.words)) }
    {
        let prefixes = self.prefixes.copy()?;
        let channels = self.channels.copy()?;
        let virtuals = self.virtuals.copy()?;
        let words = self.words.copy()?;
        Ok((prefixes, channels, virtuals, words))
    }
}

impl Clone for Command {
    ghost use Rattle.std.specs.Prelude.{◌≡◌};

    ghost is_clone = { λ command made. made ≡ command };

    fn clone(&self) -> Result<Command, AllocError> {
        let (prefixes, channels, virtuals, words) = self.lists()?;
        let channel_dir = self.channel_dir.copy()?;
        let pkgs_dir = self.pkgs_dir.copy()?;
        Ok(Command {
            verb: self.verb,
            prefixes,
            channels,
            channel_dir,
            pkgs_dir,
            jobs: self.jobs,
            virtuals,
            copy: self.copy,
            words,
        })
    }
}

/// A command of a script.
#[derive(Clone, Debug, PartialEq, Eq, Drop)]
pub struct Line {
    /// The number of its line, from 1.
    pub number: u32,
    /// The session in which it runs.
    pub session: u32,
    pub command: Command,
}

impl Copied for Virtual {
    fn copy(&self) -> Result<Virtual, AllocError> {
        self.clone()
    }
}

impl Copied for Command {
    fn copy(&self) -> Result<Command, AllocError> {
        self.clone()
    }
}
