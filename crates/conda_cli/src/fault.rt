ghost use Rattle.std.specs.Prelude.{◌≡◌, IfOk, IsSome, [], string_bytes, unwrap_or};
ghost use Rattle.std.specs.Option.{option_copied};
ghost use Rattle.conda_cli.specs.Faults.{fault_text, field_text, spec_why_text, status_of, why_text};

use conda_base::Text;
use conda_path::Prefix;
use conda_repodata::RepodataField;
use conda_spec::SpecWhy;
use conda_words::Why;
use std::alloc::{AllocError, Global};

/// The printed word for what is wrong with a word of the command line. It takes no memory.
fn word_of(why: Why) -> &'static str
    ensures { result.now ≡ why_text why }
{
    match why {
        Why::Unknown => "unknown",
        Why::Missing => "missing",
        Why::Extra => "extra",
        Why::Twice => "twice",
        Why::Number => "number",
        Why::Path => "path",
        Why::Channel => "channel",
        Why::Nested => "nested",
        Why::Limit => "limit",
    }
}

/// The printed word for what is wrong with a specification. It takes no memory.
fn spec_word_of(why: SpecWhy) -> &'static str
    ensures { result.now ≡ spec_why_text why }
{
    match why {
        SpecWhy::Key => "key",
        SpecWhy::Channel => "channel",
        SpecWhy::Name => "name",
        SpecWhy::Glob => "glob",
        SpecWhy::Words => "words",
        SpecWhy::Paren => "paren",
        SpecWhy::Version => "version",
        SpecWhy::Build => "build",
    }
}

/// The printed word for the field for which a repodata text is refused. It takes no memory.
fn field_word_of(field: RepodataField) -> &'static str
    ensures { result.now ≡ field_text field }
{
    match field {
        RepodataField::Json => "json",
        RepodataField::Packages => "packages",
        RepodataField::PackagesConda => "packages.conda",
    }
}

/// Why a command has no report.
#[derive(Clone, Debug, PartialEq, Eq, Drop)]
pub enum Fault {
    /// The words are no command, or none that is built: the number of the first offending word, from
    /// 0, and why.
    Usage { at: u64, why: Why },
    /// A word is no specification, or one that holds a star in its name where none is taken: the
    /// word, the place of the fault in bytes of the word without the spaces at its ends, and why.
    BadSpec { text: Text, at: u64, why: SpecWhy },
    /// There is no environment at the prefix.
    NoEnv,
    /// The environment's history is longer than 67,108,864 bytes.
    LongHistory,
    /// The environment's history doesn't read: the number of the first bad line, from 1.
    BadHistory { line: u64 },
    /// No package is one that the specification names.
    NoMatch,
    /// There is no solution. The report gives the reasons, and a refutation over them that `refute`
    /// checks.
    Unsat { report: Text },
    /// A repodata text of a channel is refused: its path, which begins with the channel's name, and
    /// the field.
    BadRepodata { path: Text, field: RepodataField },
    /// A repodata text of a channel is longer than 268,435,456 bytes: its path, which begins with the
    /// channel's name.
    LongRepodata { path: Text },
    /// The channels and the virtual packages have more than 16,777,216 records together.
    ManyRecords,
    /// A channel of this name has no repodata.
    Missing { path: Text },
    /// The log on the input is longer than 67,108,864 bytes.
    LongInput,
    /// The input isn't the text of a log: the number of the first bad line, from 1.
    BadLog { line: u64 },
    /// The log is no refutation: the number of the first step that doesn't follow, from 1, or of the
    /// last if its clause isn't empty, or 0 if there is none.
    NotRefuted { step: u64 },
    /// A handle on a channel failed.
    ChanFault,
    /// The input failed.
    ReadFault,
    /// A lane of the prefix failed.
    EnvFault,
    /// The host failed.
    HostFault,
    /// There was no memory.
    Memory,
}

impl Fault {
    /// The status with which the program ends. It takes no memory.
    pub fn status(&self) -> u8
        ensures { result ≡ status_of self.now }
    {
        match self {
            Fault::NoEnv | Fault::NoMatch | Fault::Unsat { .. } | Fault::NotRefuted { .. } => 1,
            Fault::Usage { .. } | Fault::BadSpec { .. } => 2,
            Fault::LongHistory | Fault::BadHistory { .. } => 2,
            Fault::BadRepodata { .. } | Fault::LongRepodata { .. } | Fault::ManyRecords => 2,
            Fault::LongInput | Fault::BadLog { .. } => 2,
            Fault::Missing { .. } | Fault::ChanFault => 3,
            Fault::EnvFault | Fault::HostFault | Fault::ReadFault => 3,
            Fault::Memory => 5,
        }
    }
}

fn usage_line(alloc: Global, at: u64, why: Why) -> Result<String, AllocError>
    ensures { IfOk result (λ line. string_bytes line ≡ fault_text (Fault.Usage at why) []) }
{
    let word = word_of(why);
    format!(in alloc; "usage: {at} {word}\n")
}

fn bad_spec_line(alloc: Global, text: &Text, at: u64, why: SpecWhy) -> Result<String, AllocError>
    ensures { IfOk result (λ line. string_bytes line
        ≡ fault_text (Fault.BadSpec text.now at why) []) }
{
    let text = text.as_str();
    let word = spec_word_of(why);
    format!(in alloc; "bad specification {text}: {at} {word}\n")
}

fn bad_repodata_line(alloc: Global, path: &Text, field: RepodataField) -> Result<String, AllocError>
    ensures { IfOk result (λ line. string_bytes line
        ≡ fault_text (Fault.BadRepodata path.now field) []) }
{
    let path = path.as_str();
    let word = field_word_of(field);
    format!(in alloc; "bad repodata {path}: {word}\n")
}

fn long_repodata_line(alloc: Global, path: &Text) -> Result<String, AllocError>
    ensures { IfOk result (λ line. string_bytes line ≡ fault_text (Fault.LongRepodata path.now) []) }
{
    let path = path.as_str();
    format!(in alloc; "too long: {path} 268435456\n")
}

fn missing_line(alloc: Global, path: &Text) -> Result<String, AllocError>
    ensures { IfOk result (λ line. string_bytes line ≡ fault_text (Fault.Missing path.now) []) }
{
    let path = path.as_str();
    format!(in alloc; "missing: {path}\n")
}

fn no_env_line(alloc: Global, prefix: &Prefix) -> Result<String, AllocError>
    ensures { IfOk result (λ line. string_bytes line ≡ fault_text Fault.NoEnv prefix.now) }
{
    let prefix = prefix.as_str();
    format!(in alloc; "no environment at {prefix}\n")
}

fn bad_history_line(alloc: Global, line: u64) -> Result<String, AllocError>
    ensures { IfOk result (λ text. string_bytes text ≡ fault_text (Fault.BadHistory line) []) }
{
    format!(in alloc; "bad history: line {line}\n")
}

fn bad_log_line(alloc: Global, line: u64) -> Result<String, AllocError>
    ensures { IfOk result (λ text. string_bytes text ≡ fault_text (Fault.BadLog line) []) }
{
    format!(in alloc; "bad log: line {line}\n")
}

fn not_refuted_line(alloc: Global, step: u64) -> Result<String, AllocError>
    ensures { IfOk result (λ text. string_bytes text ≡ fault_text (Fault.NotRefuted step) []) }
{
    format!(in alloc; "not refuted: step {step}\n")
}

/// The printed line of a fault, with its newline. `NoEnv` names the prefix.
pub fn fault_line(
    alloc: Global,
    fault: &Fault,
    prefix: Option<&Prefix>,
) -> Result<String, AllocError>
    requires { fault.now ≡ Fault.NoEnv → IsSome prefix }
    ensures { IfOk result (λ line. string_bytes line
        ≡ fault_text fault.now (unwrap_or (option_copied prefix.entry) [])) }
{
    match fault {
        Fault::Usage { at, why } => usage_line(alloc, *at, *why),
        Fault::BadSpec { text, at, why } => bad_spec_line(alloc, text, *at, *why),
        Fault::NoEnv => match prefix {
            Some(prefix) => no_env_line(alloc, prefix),
            None => unreachable!(),
        },
        Fault::LongHistory => String::from_str(alloc, "too long: conda-meta/history 67108864\n"),
        Fault::BadHistory { line } => bad_history_line(alloc, *line),
        Fault::NoMatch => String::from_str(alloc, "no match\n"),
        Fault::Unsat { report } => String::from_str(alloc, report.as_str()),
        Fault::BadRepodata { path, field } => bad_repodata_line(alloc, path, *field),
        Fault::LongRepodata { path } => long_repodata_line(alloc, path),
        Fault::ManyRecords => String::from_str(alloc, "too long: records 16777216\n"),
        Fault::Missing { path } => missing_line(alloc, path),
        Fault::LongInput => String::from_str(alloc, "too long: input 67108864\n"),
        Fault::BadLog { line } => bad_log_line(alloc, *line),
        Fault::NotRefuted { step } => not_refuted_line(alloc, *step),
        Fault::ChanFault => String::from_str(alloc, "channel fault\n"),
        Fault::ReadFault => String::from_str(alloc, "read fault\n"),
        Fault::EnvFault => String::from_str(alloc, "environment fault\n"),
        Fault::HostFault => String::from_str(alloc, "host fault\n"),
        Fault::Memory => String::from_str(alloc, "out of memory\n"),
    }
}
