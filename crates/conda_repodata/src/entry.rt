ghost use Rattle.serde_json.specs.View.{view};
ghost use Rattle.std.specs.Prelude.{◌≡◌};
ghost use Rattle.conda_base.specs.Reads.{Gives};
ghost use Rattle.conda_record.specs.Records.{record_fault_of};
ghost use Rattle.conda_repodata.specs.Entries as entries;

use conda_json::Value;
use conda_path::cut_ending;
use conda_record::{PkgRecord, RecordErr, RecordField};
use conda_spec::SpecTable;
use std::alloc::Global;

/// The last second of the year 9999: a greater timestamp is one in milliseconds.
const LAST_SECOND: u64 = 253_402_300_799;

/// A timestamp in milliseconds.
fn in_milliseconds(timestamp: u64) -> u64
    ensures { result ≡ entries.in_milliseconds timestamp }
{
    if timestamp <= LAST_SECOND {
        return timestamp * 1000;
    }
    timestamp
}

/// Reads an entry of a channel.
pub fn read_entry(
    alloc: Global,
    table: &mut SpecTable,
    file: &str,
    value: &Value,
    channel: &str,
    subdir: &str,
) -> Result<PkgRecord, RecordErr>
    ensures { Gives record_fault_of result
        (entries.entry_read channel.now subdir.now file.now (view value.now)) }
{
    if cut_ending(file).is_none() {
        return Err(RecordErr::BadRecord {
            field: RecordField::Fn,
        });
    }
    let mut pkg = PkgRecord::read_by(alloc, table, value, file, channel, subdir)?;
    pkg.timestamp = in_milliseconds(pkg.timestamp);
    Ok(pkg)
}
