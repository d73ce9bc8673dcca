ghost use Rattle.std.specs.Prelude.{◌≡◌, ◌⊎◌, [], Err, Ok};
ghost use Rattle.std.specs.List.{All};
ghost use Rattle.conda_encode.specs.Variables.{IsPlain};
ghost use Rattle.conda_sources.specs.Sources.{OnlyReads};
ghost use Rattle.conda_sources.specs.Virtuals.{IsGiven};
ghost use Rattle.conda_cli.specs.Answers.{answer_of};
ghost use Rattle.conda_cli.specs.Sourcing as sourcing;
ghost use Rattle.conda_cli.specs.Sourcing.{IsSearched, IsSolved, IsSourcedAnswer, search_read};
ghost use Rattle.conda_cli.specs.Sourcing.{solve_read, sources_of};

use crate::fault::Fault;
use conda_base::Rows;
use conda_dev::Host;
use conda_index::Index;
use conda_requests::{RequestErr, WordErr, read_spec, read_specs, search_report, solve_report};
use conda_sources::{SourceErr, index_of};
use conda_spec::Spec;
use conda_words::Command;
use std::alloc::Global;
use std::thread::Threads;

/// A fault of a command's sources, as a run answers it.
fn source_fault(error: SourceErr) -> Fault
    ensures { result ≡ sourcing.source_fault error }
{
    match error {
        SourceErr::BadRepodata { path, field } => Fault::BadRepodata { path, field },
        SourceErr::LongRepodata { path } => Fault::LongRepodata { path },
        SourceErr::Missing { channel } => Fault::Missing { path: channel },
        SourceErr::ManyRecords => Fault::ManyRecords,
        SourceErr::ChanFault => Fault::ChanFault,
        SourceErr::HostFault => Fault::HostFault,
        SourceErr::Memory => Fault::Memory,
    }
}

/// A fault of words, as a run answers it.
fn word_fault(error: WordErr) -> Fault
    ensures { result ≡ sourcing.word_fault error }
{
    match error {
        WordErr::BadSpec { text, at, why } => Fault::BadSpec { text, at, why },
        WordErr::Memory => Fault::Memory,
    }
}

/// A refusal of a request, as a run answers it.
fn request_fault(error: RequestErr) -> Fault
    ensures { result ≡ sourcing.request_fault error }
{
    match error {
        RequestErr::NoMatch => Fault::NoMatch,
        RequestErr::Unsat { report } => Fault::Unsat { report },
        RequestErr::Memory => Fault::Memory,
    }
}

/// The report of the records of an index that a specification names.
fn search_index<R: Threads + Sync>(
    rt: &R,
    alloc: Global,
    index: &Index,
    spec: &Spec,
) -> Result<String, Fault>
    ensures { IsSearched spec.now index.now (answer_of result []) ⊎ (result ≡ Err Fault.Memory) }
{
    match search_report(rt, alloc, index, spec) {
        Ok(report) => Ok(report),
        Err(error) => Err(request_fault(error)),
    }
}

/// The report of the records of a command's sources that a specification names.
fn search_sources<H: Host, R: Threads + Sync>(
    rt: &R,
    alloc: Global,
    host: &mut H,
    command: &Command,
    spec: &Spec,
) -> Result<String, Fault>
    requires { All IsGiven command.now.virtuals }
    ensures answer { IsSourcedAnswer IsSearched (Ok spec.now) (sources_of command.now)
        (H.state host.old) (H.state host.new) (answer_of result []) }
    ensures reads { OnlyReads (H.state host.old) (H.state host.new) }
{
    match index_of(rt, alloc, host, command) {
        Ok(index) => search_index(rt, alloc, &index, spec),
        Err(error) => Err(source_fault(error)),
    }
}

/// The report of the records of a command's sources that a word names.
pub fn search<H: Host, R: Threads + Sync>(
    rt: &R,
    alloc: Global,
    host: &mut H,
    command: &Command,
    word: &str,
) -> Result<String, Fault>
    requires { All IsGiven command.now.virtuals }
    ensures answer { IsSourcedAnswer IsSearched (search_read word.now) (sources_of command.now)
        (H.state host.old) (H.state host.new) (answer_of result []) }
    ensures reads { OnlyReads (H.state host.old) (H.state host.new) }
{
    match read_spec(alloc, word) {
        Ok(spec) => search_sources(rt, alloc, host, command, &spec),
        Err(error) => Err(word_fault(error)),
    }
}

/// The report of the first choice for specifications from an index.
fn solve_index(alloc: Global, index: &Index, specs: Rows<Spec>) -> Result<String, Fault>
    requires { All IsPlain specs }
    ensures { IsSolved specs index.now (answer_of result []) ⊎ (result ≡ Err Fault.Memory) }
{
    match solve_report(alloc, index, specs) {
        Ok(report) => Ok(report),
        Err(error) => Err(request_fault(error)),
    }
}

/// The report of the first choice for specifications from a command's sources.
fn solve_sources<H: Host, R: Threads + Sync>(
    rt: &R,
    alloc: Global,
    host: &mut H,
    command: &Command,
    specs: Rows<Spec>,
) -> Result<String, Fault>
    requires given { All IsGiven command.now.virtuals }
    requires plain { All IsPlain specs }
    ensures answer { IsSourcedAnswer IsSolved (Ok specs) (sources_of command.now)
        (H.state host.old) (H.state host.new) (answer_of result []) }
    ensures reads { OnlyReads (H.state host.old) (H.state host.new) }
{
    match index_of(rt, alloc, host, command) {
        Ok(index) => solve_index(alloc, &index, specs),
        Err(error) => Err(source_fault(error)),
    }
}

/// The report of the first choice for a command's words from its sources.
pub fn solve<H: Host, R: Threads + Sync>(
    rt: &R,
    alloc: Global,
    host: &mut H,
    command: &Command,
) -> Result<String, Fault>
    requires { All IsGiven command.now.virtuals }
    ensures answer { IsSourcedAnswer IsSolved (solve_read command.now.words)
        (sources_of command.now) (H.state host.old) (H.state host.new) (answer_of result []) }
    ensures reads { OnlyReads (H.state host.old) (H.state host.new) }
{
    match read_specs(alloc, command.words.as_slice()) {
        Ok(specs) => solve_sources(rt, alloc, host, command, specs),
        Err(error) => Err(word_fault(error)),
    }
}
