ghost use Rattle.std.specs.Prelude.{◌≡◌, ◌⊎◌, MatchResult, string_bytes};
ghost use Rattle.conda_requests.specs.Searching.{IsSearchReport, NamesNone};
ghost use Rattle.conda_requests.specs.declared.error.RequestErr.{RequestErr};

use crate::error::RequestErr;
use crate::report::records_text;
use conda_index::{Index, IndexErr};
use conda_spec::Spec;
use std::alloc::Global;
use std::thread::Threads;

/// The report on the records of an index that a specification names, by name in lower case and in
/// plain order, virtual packages among them: `NAME VERSION BUILD CHANNEL/SUBDIR` for each.
///
/// `NoMatch` comes exactly where there are none. The only other error is `Memory`.
pub fn search_report<R: Threads + Sync>(
    rt: &R,
    alloc: Global,
    index: &Index,
    spec: &Spec,
) -> Result<String, RequestErr>
    ensures { MatchResult result (λ text. IsSearchReport spec.now index.now (string_bytes text))
        (λ e. ((e ≡ RequestErr.NoMatch) × NamesNone spec.now index.now) ⊎ (e ≡ RequestErr.Memory)) }
{
    match index.search(rt, alloc, spec) {
        Ok(records) => Ok(records_text(alloc, records.as_slice())?),
        Err(IndexErr::NoMatch) => Err(RequestErr::NoMatch),
        Err(IndexErr::Memory) => Err(RequestErr::Memory),
    }
}
