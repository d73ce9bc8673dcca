ghost use Rattle.std.specs.Prelude.{◌≡◌, IfOk, string_bytes};
ghost use Rattle.conda_requests.specs.Report as reports;

use conda_record::PkgRecord;
use std::alloc::{AllocError, Global};

/// The line of a record.
fn record_line(alloc: Global, pkg: &PkgRecord) -> Result<String, AllocError>
    ensures { IfOk result (λ line. string_bytes line ≡ reports.record_line pkg.now) }
{
    let (name, version, build) = (pkg.name.as_str(), pkg.version.text(), pkg.build.as_str());
    let (channel, subdir) = (pkg.channel.as_str(), pkg.subdir.as_str());
    format!(in alloc; "{name} {version} {build} {channel}/{subdir}\n")
}

/// The report on records: a line `NAME VERSION BUILD CHANNEL/SUBDIR` for each.
pub fn records_text(alloc: Global, records: &[PkgRecord]) -> Result<String, AllocError>
    ensures { IfOk result (λ text. string_bytes text ≡ reports.records_text records.now) }
{
    let mut text = String::new(alloc);
    for pkg in records {
        let line = record_line(alloc, pkg)?;
        text.push_str(line.as_str())?;
    }
    Ok(text)
}
