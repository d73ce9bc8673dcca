ghost use Rattle.conda_encode.specs.Variables.{IsRequest};

use crate::index::{index_of, shown};
use crate::packages::{asked_of, records_of};
use crate::plain::plain_choice;
use conda_base::Text;
use conda_encode::{Asked, is_request};
use conda_record::{NamePool, PkgRecord};
use conda_refute::check;
use conda_resolve::{ResolveErr, resolve};
use std::alloc::{AllocError, Global};
use std::thread::Threads;

/// The rows of conda_resolve.
pub fn answer<R: Threads + Sync>(
    rt: &R,
    alloc: Global,
    call: &str,
    arguments: &[Text],
) -> Result<Option<String>, AllocError> {
    let [records, virtuals, asked, installed] = arguments else {
        return Ok(None);
    };
    let Some(index) = index_of(rt, alloc, records.as_str(), virtuals.as_str())? else {
        return Ok(None);
    };
    let Some(asked) = asked_of(alloc, asked.as_str())? else {
        return Ok(None);
    };
    let Some(installed) = records_of(alloc, installed.as_str())? else {
        return Ok(None);
    };
    let Ok(pools) = index.pools(alloc, asked.as_slice()) else {
        return Err(AllocError);
    };
    let (pools, asked, installed) = (pools.as_slice(), asked.as_slice(), installed.as_slice());
    if call != "resolve.choice" || !is_request(pools, asked) {
        return Ok(None);
    }
    let set = choice(alloc, pools, asked, installed)?;
    compared(alloc, pools, asked, installed, set)
}

/// The choice, or that there is none, where the refutation is checked.
fn choice(
    alloc: Global,
    pools: &[NamePool],
    asked: &[Asked],
    installed: &[PkgRecord],
) -> Result<String, AllocError>
    requires { IsRequest pools.now asked.now }
{
    match resolve(alloc, pools, asked, installed) {
        Ok(set) => shown(alloc, set.as_slice()),
        Err(ResolveErr::Memory) => Err(AllocError),
        Err(ResolveErr::Unsat { log }) => String::from_str(
            alloc,
            match check(alloc, &log) {
                Ok(()) => "refuted",
                Err(_) => "not refuted",
            },
        ),
    }
}

/// The answer, and behind it another one that the definition gives, if it does.
fn compared(
    alloc: Global,
    pools: &[NamePool],
    asked: &[Asked],
    installed: &[PkgRecord],
    answer: String,
) -> Result<Option<String>, AllocError> {
    let plain = match plain_choice(alloc, pools, asked, installed)? {
        Some(Some(set)) => shown(alloc, set.as_slice())?,
        Some(None) => String::from_str(alloc, "refuted")?,
        None => return Ok(Some(answer)),
    };
    if plain.as_str() == answer.as_str() {
        return Ok(Some(answer));
    }
    Ok(Some(format!(in alloc; "{answer}, and by the definition {plain}")?))
}
