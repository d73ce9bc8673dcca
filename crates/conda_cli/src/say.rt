ghost use Rattle.std.specs.Prelude.{◌≡◌, ◌⊎◌, ◌≢◌, IsErrOf, IsSome, [], unwrap_or};
ghost use Rattle.std.specs.Option.{option_copied};
ghost use Rattle.conda_cli.specs.Answers.{AnswersWith, IsGiven, IsRefusal, answer_of, refusal};

use crate::fault::{Fault, fault_line};
use conda_dev::Out;
use conda_path::Prefix;
use std::alloc::Global;

/// The status of a run whose output failed.
const WRITE_FAULT: u8 = 3;

/// Puts a text out that goes with a status, and answers the status of the run. It takes no memory.
pub fn put<O: Out>(out: &mut O, status: u8, text: &str) -> u8
    ensures { IsGiven (record { status = status; text = text.now }) result
        (O.state out.old) (O.state out.new) }
{
    match out.put(text.as_bytes()) {
        Ok(()) => status,
        Err(_) => WRITE_FAULT,
    }
}

/// Puts out the text of a report, or the line of a fault in a run on this prefix. Where there is no
/// memory for the line it says that.
pub fn give<O: Out>(
    alloc: Global,
    out: &mut O,
    report: Result<String, Fault>,
    prefix: Option<&Prefix>,
) -> u8
    requires { IsErrOf report Fault.NoEnv → IsSome prefix }
    ensures { AnswersWith
        (λ answer. (answer ≡ answer_of report (unwrap_or (option_copied prefix.entry) []))
        ⊎ (answer ≡ refusal Fault.Memory []))
        result (O.state out.old) (O.state out.new) }
{
    match report {
        Ok(text) => put(out, 0, text.as_str()),
        Err(Fault::Unsat { report }) => put(out, 1, report.as_str()),
        Err(fault) => match fault_line(alloc, &fault, prefix) {
            Ok(line) => put(out, fault.status(), line.as_str()),
            Err(_) => put(out, Fault::Memory.status(), "out of memory\n"),
        },
    }
}

/// Puts out the line of a fault that belongs to no prefix, and answers the status of the run.
pub fn give_fault<O: Out>(alloc: Global, out: &mut O, fault: Fault) -> u8
    requires { fault ≢ Fault.NoEnv }
    ensures { AnswersWith (IsRefusal fault) result (O.state out.old) (O.state out.new) }
{
    give(alloc, out, Err(fault), None)
}
