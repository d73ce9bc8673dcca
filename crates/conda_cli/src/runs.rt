ghost use Rattle.std.specs.Prelude.{◌≡◌, ◌≢◌, ℕ, List, Ok, false, map, string_bytes};
ghost use Rattle.conda_dev.specs.Hosts.{SameOfAll};
ghost use Rattle.conda_words.specs.Reading.{words_read};
ghost use Rattle.conda_cli.specs.Answers.{AnswersWith, IsRefusal, IsReportAnswer, IsReportOf, IsRevisionsOf, Reports};
ghost use Rattle.conda_cli.specs.Answers.{answer_of, devices, input_state};
ghost use Rattle.conda_cli.specs.Refuting.{Checks};
ghost use Rattle.conda_cli.specs.Runs.{IsRead, Runs, waits};
ghost use Rattle.conda_cli.specs.Sourcing.{IsSearched, IsSolved, Sourced, search_read, solve_read};
ghost use Rattle.conda_cli.specs.Sourcing.{sources_of};
ghost use Rattle.conda_sources.specs.Virtuals.{IsGiven};
ghost use Rattle.std.specs.List.{All};

use crate::fault::Fault;
use crate::history_file::find_history;
use crate::listing::{list_of, revisions_of};
use crate::refuting::refute;
use crate::say::{give, give_fault};
use crate::sourcing::{search, solve};
use crate::words::{listed, revised, searched, waits};
use conda_dev::{Clock, Host, In, Out};
use conda_history::grammar_laws;
use conda_path::Prefix;
use conda_sources::virtual_laws;
use conda_words::{Command, Verb, Why, WordsErr, read_words};
use std::alloc::Global;
use std::sync::Wait;
use std::thread::Threads;

/// How a run ended: the status of the program, and the host with all that it lent taken back.
#[derive(Debug, Drop)]
pub struct Ended<H> {
    pub status: u8,
    pub host: H,
}

/// Lists the packages of the environment at a prefix.
fn list<H: Host>(alloc: Global, host: &mut H, prefix: &Prefix) -> Result<String, Fault>
    requires { (H.state host.old).lent prefix.now ≡ false }
    ensures answer { IsReportAnswer (IsReportOf prefix.now) prefix.now (H.state host.old)
        (H.state host.new) (answer_of result prefix.now) }
    ensures trees { SameOfAll (H.state host.old).told (H.state host.new).told }
    ensures lent { SameOfAll (H.state host.old).lent (H.state host.new).lent }
    ensures files { (H.state host.new).files ≡ (H.state host.old).files }
{
    match find_history(alloc, host, prefix) {
        Ok(found) => list_of(alloc, prefix, found),
        Err(fault) => Err(fault),
    }
}

/// Lists the revisions of the environment at a prefix.
fn revisions<H: Host>(alloc: Global, host: &mut H, prefix: &Prefix) -> Result<String, Fault>
    requires { (H.state host.old).lent prefix.now ≡ false }
    ensures answer { IsReportAnswer IsRevisionsOf prefix.now (H.state host.old)
        (H.state host.new) (answer_of result prefix.now) }
    ensures trees { SameOfAll (H.state host.old).told (H.state host.new).told }
    ensures lent { SameOfAll (H.state host.old).lent (H.state host.new).lent }
    ensures files { (H.state host.new).files ≡ (H.state host.old).files }
{
    match find_history(alloc, host, prefix) {
        Ok(found) => revisions_of(alloc, prefix, found),
        Err(fault) => Err(fault),
    }
}

/// What a command is answered that isn't built yet.
const UNBUILT: Fault = Fault::Usage {
    at: 0,
    why: Why::Unknown,
};

/// Puts out a refusal, and leaves the host as it is.
fn refuse<H: Host + Drop, O: Out>(alloc: Global, fault: Fault, host: H, out: &mut O) -> Ended<H>
    requires { fault ≢ Fault.NoEnv }
    ensures answers { AnswersWith (IsRefusal fault) result.status
        (O.state out.old) (O.state out.new) }
    ensures host { result.host ≡ host }
{
    let status = give_fault(alloc, out, fault);
    Ended { status, host }
}

/// Lists the packages of the environment at a prefix, and puts the list out.
fn run_list<H: Host + Drop, O: Out>(
    alloc: Global,
    prefix: &Prefix,
    host: H,
    out: &mut O,
) -> Ended<H>
    requires { (H.state host).lent prefix.now ≡ false }
    ensures reports { Reports (IsReportOf prefix.now) prefix.now result.status
        (record { host = H.state host; output = O.state out.old })
        (record { host = H.state result.host; output = O.state out.new }) }
    ensures trees { SameOfAll (H.state host).told (H.state result.host).told }
    ensures lent { SameOfAll (H.state host).lent (H.state result.host).lent }
    ensures files { (H.state result.host).files ≡ (H.state host).files }
{
    grammar_laws();
    let mut host = host;
    let report = list(alloc, &mut host, prefix);
    let status = give(alloc, out, report, Some(prefix));
    Ended { status, host }
}

/// Lists the revisions of the environment at a prefix, and puts the list out.
fn run_revisions<H: Host + Drop, O: Out>(
    alloc: Global,
    prefix: &Prefix,
    host: H,
    out: &mut O,
) -> Ended<H>
    requires { (H.state host).lent prefix.now ≡ false }
    ensures reports { Reports IsRevisionsOf prefix.now result.status
        (record { host = H.state host; output = O.state out.old })
        (record { host = H.state result.host; output = O.state out.new }) }
    ensures trees { SameOfAll (H.state host).told (H.state result.host).told }
    ensures lent { SameOfAll (H.state host).lent (H.state result.host).lent }
    ensures files { (H.state result.host).files ≡ (H.state host).files }
{
    grammar_laws();
    let mut host = host;
    let report = revisions(alloc, &mut host, prefix);
    let status = give(alloc, out, report, Some(prefix));
    Ended { status, host }
}

/// Looks for the packages that a word names in a command's sources, and puts out what was found.
fn run_search<H: Host + Drop, O: Out, R: Threads + Sync>(
    rt: &R,
    alloc: Global,
    command: &Command,
    word: &str,
    host: H,
    out: &mut O,
) -> Ended<H>
    requires { All IsGiven command.now.virtuals }
    ensures sourced { Sourced IsSearched (search_read word.now) (sources_of command.now) result.status
        (record { host = H.state host; output = O.state out.old })
        (record { host = H.state result.host; output = O.state out.new }) }
    ensures trees { SameOfAll (H.state host).told (H.state result.host).told }
    ensures lent { SameOfAll (H.state host).lent (H.state result.host).lent }
    ensures files { (H.state result.host).files ≡ (H.state host).files }
{
    let mut host = host;
    let report = search(rt, alloc, &mut host, command, word);
    let status = give(alloc, out, report, None);
    Ended { status, host }
}

/// Chooses the packages for a command's words from its sources, and puts the choice out.
fn run_solve<H: Host + Drop, O: Out, R: Threads + Sync>(
    rt: &R,
    alloc: Global,
    command: &Command,
    host: H,
    out: &mut O,
) -> Ended<H>
    requires { All IsGiven command.now.virtuals }
    ensures sourced { Sourced IsSolved (solve_read command.now.words) (sources_of command.now)
        result.status
        (record { host = H.state host; output = O.state out.old })
        (record { host = H.state result.host; output = O.state out.new }) }
    ensures trees { SameOfAll (H.state host).told (H.state result.host).told }
    ensures lent { SameOfAll (H.state host).lent (H.state result.host).lent }
    ensures files { (H.state result.host).files ≡ (H.state host).files }
{
    let mut host = host;
    let report = solve(rt, alloc, &mut host, command);
    let status = give(alloc, out, report, None);
    Ended { status, host }
}

/// Checks the log that the input has, puts out what the checker says of it, and leaves the host as it
/// is.
fn run_refute<H: Host + Drop, I: In, O: Out>(
    alloc: Global,
    host: H,
    input: &mut I,
    out: &mut O,
) -> Ended<H>
    ensures checks { Checks result.status
        (input_state I.left I.faults input.old) (input_state I.left I.faults input.new)
        (O.state out.old) (O.state out.new) }
    ensures host { result.host ≡ host }
{
    let report = refute(alloc, input);
    let status = give(alloc, out, report, None);
    Ended { status, host }
}

/// Runs one command that `read_words` gave and that doesn't run in several threads. It waits for
/// nobody.
pub fn run_one<H: Host + Drop, K: Clock, I: In, O: Out, R: Threads + Sync>(
    rt: &R,
    alloc: Global,
    command: &Command,
    host: H,
    clock: &mut K,
    input: &mut I,
    out: &mut O,
) -> Ended<H>
    requires read { IsRead command.now }
    requires alone { waits command.now.verb ≡ false }
    requires lent { (prefix : List ℕ) → (H.state host).lent prefix ≡ false }
    ensures { Runs (Ok command.now) result.status
        (devices H.state (input_state I.left I.faults) O.state host clock.old input.old out.old)
        (devices H.state (input_state I.left I.faults) O.state result.host clock.new input.new out.new) }
{
    virtual_laws();
    if let Some(prefix) = listed(command) {
        return run_list(alloc, prefix, host, out);
    }
    if let Some(prefix) = revised(command) {
        return run_revisions(alloc, prefix, host, out);
    }
    if let Some(word) = searched(command) {
        return run_search(rt, alloc, command, word, host, out);
    }
    match command.verb {
        Verb::Solve => run_solve(rt, alloc, command, host, out),
        Verb::Refute => run_refute(alloc, host, input, out),
        _ => refuse(alloc, UNBUILT, host, out),
    }
}

/// Reads the words of a command and runs it.
pub fn run<H: Host + Drop, K: Clock, I: In, O: Out, R: Threads + Wait + Sync>(
    rt: &R,
    alloc: Global,
    words: &[String],
    host: H,
    clock: &mut K,
    input: &mut I,
    out: &mut O,
) -> Ended<H>
    requires { (prefix : List ℕ) → (H.state host).lent prefix ≡ false }
    ensures { Runs (words_read (map string_bytes words.now)) result.status
        (devices H.state (input_state I.left I.faults) O.state host clock.old input.old out.old)
        (devices H.state (input_state I.left I.faults) O.state result.host clock.new input.new out.new) }
{
    match read_words(alloc, words) {
        Ok(command) => {
            if waits(command.verb) {
                return refuse(alloc, UNBUILT, host, out);
            }
            run_one(rt, alloc, &command, host, clock, input, out)
        }
        Err(WordsErr::Usage { at, why }) => refuse(alloc, Fault::Usage { at, why }, host, out),
        Err(WordsErr::Memory) => refuse(alloc, Fault::Memory, host, out),
    }
}
