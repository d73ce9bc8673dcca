ghost use Rattle.std.specs.Prelude.{◌≡◌, ◌⊎◌, Contains, IfOk, MatchResult, not, string_bytes};
ghost use Rattle.std.specs.List.{All};
ghost use Rattle.conda_encode.specs.Clauses.{clauses};
ghost use Rattle.conda_encode.specs.Variables.{IsPlain, IsRequest};
ghost use Rattle.conda_explain.specs.Report.{report_text};
ghost use Rattle.conda_index.specs.Names as names;
ghost use Rattle.conda_requests.specs.Report as reports;
ghost use Rattle.conda_requests.specs.Solving as solving;
ghost use Rattle.conda_requests.specs.Solving.{IsChoiceReport, IsNo};
ghost use Rattle.conda_requests.specs.declared.error.RequestErr.{RequestErr};

use crate::error::RequestErr;
use crate::report::records_text;
use conda_base::{Rows, Text};
use conda_encode::{AskKind, Asked, encode};
use conda_explain::explain;
use conda_index::{Index, is_virtual_name};
use conda_record::{NamePool, PkgRecord};
use conda_refute::Log;
use conda_resolve::{ResolveErr, resolve};
use conda_spec::Spec;
use std::alloc::{AllocError, Global};

/// What is asked for by specifications.
fn items_of(alloc: Global, specs: Rows<Spec>) -> Result<Vec<Asked>, AllocError>
    ensures { IfOk result (λ items. items.items ≡ solving.items_of specs) }
{
    let mut items = Vec::with_capacity(alloc, specs.len())?;
    for spec in specs.into_vec() {
        items.push(Asked {
            spec,
            fresh: true,
            kind: AskKind::Wanted,
        })?;
    }
    Ok(items)
}

/// Takes out the virtual packages, which can't be linked.
fn drop_virtual(set: &mut Vec<PkgRecord>)
    ensures { set.new.items ≡ solving.linkable set.old.items }
{
    set.retain(
        |pkg: &PkgRecord| -> bool
            ensures { result ≡ not (names.is_virtual_name pkg.now.name) }
        { !is_virtual_name(pkg.name.as_str()) },
    );
}

/// The report of the packages that can be linked.
fn choice_report(alloc: Global, set: Vec<PkgRecord>) -> Result<String, AllocError>
    ensures { IfOk result (λ text. string_bytes text
        ≡ reports.records_text (solving.linkable set.items)) }
{
    let mut set = set;
    drop_virtual(&mut set);
    records_text(alloc, set.as_slice())
}

/// The report of a refutation.
fn unsat_report(
    alloc: Global,
    pools: &[NamePool],
    items: &[Asked],
    log: &Log,
) -> Result<String, AllocError>
    requires request { IsRequest pools.now items.now }
    requires inputs { All (Contains (clauses pools.now items.now)) log.now.inputs }
    ensures { IfOk result (λ text. string_bytes text ≡ report_text pools.now items.now log.now) }
{
    let Ok(encoded) = encode(alloc, pools, items) else {
        return Err(AllocError);
    };
    match explain(alloc, &encoded, log) {
        Ok(report) => Ok(report),
        Err(_) => Err(AllocError),
    }
}

/// The report on the first choice for specifications, where nothing is installed: a line
/// `NAME VERSION BUILD CHANNEL/SUBDIR` for each package that can be linked, by name in lower case.
///
/// `Unsat` comes exactly where there is no solution; its report gives the reasons, and a refutation
/// over them that another program can check. The only other error is `Memory`.
pub fn solve_report(alloc: Global, index: &Index, specs: Rows<Spec>) -> Result<String, RequestErr>
    requires plain { All IsPlain specs }
    ensures { MatchResult result
        (λ text. IsChoiceReport specs index.now (string_bytes text))
        (λ e. IsNo specs index.now e ⊎ (e ≡ RequestErr.Memory)) }
{
    let items = items_of(alloc, specs)?;
    let asked = items.as_slice();
    let Ok(pools) = index.pools(alloc, asked) else {
        return Err(RequestErr::Memory);
    };
    let pools = pools.as_slice();
    match resolve(alloc, pools, asked, &[]) {
        Ok(set) => Ok(choice_report(alloc, set)?),
        Err(ResolveErr::Unsat { log }) => {
            let report = unsat_report(alloc, pools, asked, &log)?;
            Err(RequestErr::Unsat {
                report: Text::from_string(report),
            })
        }
        Err(ResolveErr::Memory) => Err(RequestErr::Memory),
    }
}
