//! The program `conda`: takes `--root DIR` off the front of its words, and runs the others over the
//! machine.
#![tactic(auto)]

ghost use Rattle.std.specs.Prelude.{◌≢◌, IfErr, IfOk, None};
ghost use Rattle.conda_dev.specs.Hosts.{IsNew};

use conda_cli::{Fault, Why, asked_text, give_fault, put, run, split_root};
use conda_dev::Host;
use conda_real::{RealClock, RealHost, RealIn, RealOut};
use std::alloc::AllocError;
use std::env;
use std::io::ErrorKind;
use std::process::ExitCode;

/// The words behind the program's name. A word that isn't UTF-8 is no word of a command.
fn words_of(rt: &HostRuntime) -> Result<Vec<String>, Fault>
    ensures { IfErr result (λ fault. fault ≢ Fault.NoEnv) }
{
    let mut words = Vec::new(rt.alloc());
    let all = match env::args(rt) {
        Ok(all) => all,
        Err(e) if e.kind() == ErrorKind::OutOfMemory => return Err(Fault::Memory),
        Err(_) => {
            return Err(Fault::Usage {
                at: 0,
                why: Why::Unknown,
            });
        }
    };
    for word in all.skip(1) {
        if words.push(word).is_err() {
            return Err(Fault::Memory);
        }
    }
    Ok(words)
}

/// The machine's folders below `root`, and its clock.
fn machine(
    rt: &HostRuntime,
    root: &str,
) -> Result<(RealHost<HostRuntime>, RealClock<HostRuntime>), AllocError>
    ensures { IfOk result (λ made.
        IsNew (λ _. None) (λ _ _. None) (⟦<RealHost<HostRuntime> as Host>⟧.state made.0)) }
{
    let host = RealHost::make(rt.clone()?, rt.alloc(), root)?;
    Ok((host, RealClock::make(rt.clone()?)))
}

fn main(rt: HostRuntime) -> ExitCode {
    let alloc = rt.alloc();
    let mut out = RealOut::make(&rt);
    let words = match words_of(&rt) {
        Ok(words) => words,
        Err(fault) => return ExitCode::from(give_fault(alloc, &mut out, fault)),
    };
    if let Some(text) = asked_text(words.as_slice()) {
        return ExitCode::from(put(&mut out, 0, text));
    }
    let (root, rest) = split_root(words.as_slice());
    let Ok((host, mut clock)) = machine(&rt, root) else {
        return ExitCode::from(give_fault(alloc, &mut out, Fault::Memory));
    };
    let mut input = RealIn::make(&rt);
    let ended = run(&rt, alloc, rest, host, &mut clock, &mut input, &mut out);
    ExitCode::from(ended.status)
}
