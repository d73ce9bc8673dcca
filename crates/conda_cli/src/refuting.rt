ghost use Rattle.std.specs.Prelude.{◌≡◌, ◌≤◌, ◌⊎◌, Err, IfErr, IfOk, MatchResult, [], length, map, string_bytes};
ghost use Rattle.conda_cli.specs.Answers.{answer_of, input_state};
ghost use Rattle.conda_cli.specs.Refuting.{IsAlone, IsChecked, IsFinding, IsHeard, IsLineFault, IsReadCause, IsRefuteAnswer, IsTextOf};
ghost use Rattle.conda_cli.specs.Refuting.{as_ascii, log_limit};

use crate::fault::Fault;
use conda_dev::{DeviceErr, In};
use conda_refute::{Log, RefuteErr, check};
use std::alloc::Global;

/// The most bytes of a log.
const LOG_LIMIT: usize = 67_108_864;

/// How many bytes are asked for at a time.
const CHUNK: usize = 65_536;

/// What the input has left, up to its end.
fn read_to_end<I: In>(alloc: Global, input: &mut I) -> Result<Vec<u8>, Fault>
    ensures short { IfOk result (λ bytes. length bytes.items ≤ log_limit) }
    ensures heard { IfOk result (λ bytes. IsHeard bytes.items
        (input_state I.left I.faults input.old) (input_state I.left I.faults input.new)) }
    ensures cause { IfErr result (IsReadCause
        (input_state I.left I.faults input.old) (input_state I.left I.faults input.new)) }
{
    let mut bytes = Vec::new(alloc);
    for _turn in 0..LOG_LIMIT + 1 {
        let more = match input.take(alloc, CHUNK) {
            Ok(more) => more,
            Err(DeviceErr::Failed) => return Err(Fault::ReadFault),
            Err(DeviceErr::Memory) => return Err(Fault::Memory),
        };
        if more.is_empty() {
            return Ok(bytes);
        }
        if bytes.extend_from_slice(more.as_slice()).is_err() {
            return Err(Fault::Memory);
        }
        if bytes.len() > LOG_LIMIT {
            return Err(Fault::LongInput);
        }
    }
    unreachable!()
}

/// A byte of a text: itself where it is ASCII, else `?`, which no log has.
fn as_ascii(byte: u8) -> u8
    ensures { result ≡ as_ascii byte }
{
    if byte < 128 { byte } else { b'?' }
}

/// Puts `?` in place of each byte that isn't ASCII.
fn make_ascii(bytes: &mut [u8])
    ensures { bytes.new ≡ map as_ascii bytes.old }
{
    for byte in bytes.iter_mut() {
        *byte = as_ascii(*byte);
    }
}

/// The bytes as a text, with `?` in place of each that isn't ASCII. It takes no memory.
fn as_text(bytes: Vec<u8>) -> String
    ensures { string_bytes result ≡ map as_ascii bytes.items }
{
    let mut bytes = bytes;
    make_ascii(bytes.as_mut_slice());
    match String::from_utf8(bytes) {
        Ok(text) => text,
        Err(_) => unreachable!(),
    }
}

/// The log that the bytes are.
fn log_of(alloc: Global, bytes: Vec<u8>) -> Result<Log, Fault>
    ensures { MatchResult result (λ log. IsTextOf bytes.items log × IsAlone bytes.items log)
        (λ fault. IsLineFault bytes.items fault ⊎ (fault ≡ Fault.Memory)) }
{
    let text = as_text(bytes);
    match Log::read(alloc, text.as_str()) {
        Ok(log) => Ok(log),
        Err(RefuteErr::BadLog { line }) => Err(Fault::BadLog { line }),
        Err(_) => Err(Fault::Memory),
    }
}

/// What the checker says of a log.
fn checked(alloc: Global, log: &Log) -> Result<String, Fault>
    ensures { IsChecked log.now (answer_of result []) ⊎ (result ≡ Err Fault.Memory) }
{
    match check(alloc, log) {
        Ok(()) => match String::from_str(alloc, "refuted\n") {
            Ok(report) => Ok(report),
            Err(_) => Err(Fault::Memory),
        },
        Err(RefuteErr::Bad { step }) => Err(Fault::NotRefuted { step }),
        Err(_) => Err(Fault::Memory),
    }
}

/// What the checker says of the log that the bytes are.
fn verdict_of(alloc: Global, bytes: Vec<u8>) -> Result<String, Fault>
    ensures { IsFinding bytes.items (answer_of result []) ⊎ (result ≡ Err Fault.Memory) }
{
    match log_of(alloc, bytes) {
        Ok(log) => checked(alloc, &log),
        Err(fault) => Err(fault),
    }
}

/// What the checker says of the log that the input has left.
pub fn refute<I: In>(alloc: Global, input: &mut I) -> Result<String, Fault>
    ensures { IsRefuteAnswer (input_state I.left I.faults input.old)
        (input_state I.left I.faults input.new) (answer_of result []) }
{
    match read_to_end(alloc, input) {
        Ok(bytes) => verdict_of(alloc, bytes),
        Err(fault) => Err(fault),
    }
}
